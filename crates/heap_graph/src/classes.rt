//! The classes of a dump, by their identifiers.

mod adding;
mod chains;
mod fate;
mod guesses;
mod hash;
mod sizes;
mod table;

pub(crate) use fate::{Fate, Layout};
pub(crate) use hash::{ClassHash, HashSeed};
use hprof_grammar::View;
use std::alloc::Allocator;
use table::ClassTable;

/// The place of the class dump of a class, and the size in bytes of the values of all fields that the class declares.
#[derive(Clone, Copy)]
pub(crate) struct ClassPlace {
    pub(crate) place: u32,
    pub(crate) size: u64,
}

/// The classes that identifiers name, in the order of their class dumps. A class's number is its position.
#[derive(Drop)]
pub(crate) struct Classes<'d, A: Allocator> {
    pub(crate) view: View<'d>,
    pub(crate) table: ClassTable<A>,
}
