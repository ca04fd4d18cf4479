//! Events, as a caller passes them to `step`.

use crate::which::Which;
use std::alloc::{Allocator, Global};

/// What the account of a worker does. An idle account claims nothing, pops nothing, and pushes nothing on the full
/// stack.
#[derive(Debug, Drop)]
pub enum Kind<A: Allocator = Global> {
    /// Claims an object: a root, or a successor of an object in the account's charge.
    Claim(u32),
    /// Finishes an object of the account's charge. The account has seen that all successors of the object are marked.
    Finish(u32),
    /// Gives a number of units, at least one and not all, to a new account.
    Split(u32),
    /// Joins another account, which has this number, to the worker's account.
    Join(u32),
    /// Loads the head of a stack.
    Load(Which),
    /// Loads the link of the buffer that the account's last loaded head of a stack names.
    LoadLink(Which),
    /// Stores the link of a buffer that the account holds: the number of the next buffer, if any.
    StoreLink(u32, Option<u32>),
    /// Exchanges the head of a stack for the link of its first buffer. The buffer goes to the account, with its items.
    Pop(Which),
    /// Exchanges the head of a stack for a buffer that the account holds. The buffer takes items of the account's
    /// charge with it, but none to the empty stack.
    Push(Which, u32, Vec<u32, A>),
    /// Tries to exchange the head of a stack, and finds another head than the one that the account loaded last.
    Fail(Which),
    /// Goes idle: adds one to the idle word. The account is not idle yet, has one unit and nothing in its charge, and
    /// has found the full stack empty and not pushed there since.
    IdleUp,
    /// Comes back: subtracts one from the idle word.
    IdleDown,
    /// Loads the idle word.
    LoadIdle,
}

/// One step of one worker.
#[derive(Debug, Drop)]
pub struct Event<A: Allocator = Global> {
    /// The number of the worker's account.
    pub worker: u32,
    /// What the worker does.
    pub kind: Kind<A>,
}
