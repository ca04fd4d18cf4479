//! Lists of events.

use Does::{
    Claim, Fail, Finish, IdleDown, IdleUp, Join, Load, LoadIdle, LoadLink, Pop, Push, Split,
    StoreLink,
};
use Opening::{NoObjects, ThreeObjects};
use Which::{Empty, Full};
use mark_core::{Kind, OutOfMemory, Which, World};
use std::alloc::Allocator;

/// A step of an account, as a constant can have it: a [`Kind`] without a list of items. `Push` pushes no items.
#[derive(Clone, Copy, Drop)]
pub enum Does {
    Claim(u32),
    Finish(u32),
    Split(u32),
    Join(u32),
    Load(Which),
    LoadLink(Which),
    StoreLink(u32, Option<u32>),
    Pop(Which),
    Push(Which, u32),
    Fail(Which),
    IdleUp,
    IdleDown,
    LoadIdle,
}

impl Does {
    pub fn kind<A: Allocator>(self, alloc: A) -> Kind<A> {
        match self {
            Claim(object) => Kind::Claim(object),
            Finish(object) => Kind::Finish(object),
            Split(units) => Kind::Split(units),
            Join(account) => Kind::Join(account),
            Load(which) => Kind::Load(which),
            LoadLink(which) => Kind::LoadLink(which),
            StoreLink(buffer, next) => Kind::StoreLink(buffer, next),
            Pop(which) => Kind::Pop(which),
            Push(which, buffer) => Kind::Push(which, buffer, Vec::new(alloc)),
            Fail(which) => Kind::Fail(which),
            IdleUp => Kind::IdleUp,
            IdleDown => Kind::IdleDown,
            LoadIdle => Kind::LoadIdle,
        }
    }
}

/// The opening worlds of the lists.
#[derive(Clone, Copy, Drop)]
pub enum Opening {
    /// Object 1 is the root and refers to 0 and 2. Object 2 refers to 0 and 1.
    ThreeObjects,
    /// No objects. Both heads have the tag 5, and the four buffers are on the empty stack.
    NoObjects,
}

impl Opening {
    pub fn world<A: Allocator + Copy>(self, alloc: A) -> Result<World<A>, OutOfMemory> {
        match self {
            ThreeObjects => three_objects(alloc),
            NoObjects => World::new(alloc, 0, Vec::new(alloc), Vec::new(alloc), 4, 2, 5),
        }
    }
}

fn three_objects<A: Allocator + Copy>(alloc: A) -> Result<World<A>, OutOfMemory> {
    let roots = vec![in alloc; 1]?;
    let pairs = vec![in alloc; (1, 0), (1, 2), (2, 0), (2, 1)]?;
    World::new(alloc, 3, roots, pairs, 4, 2, 0)
}

/// An account and its steps.
pub type Turn = (u32, &'static [Does]);

/// A list of events: its opening world, and the turns of the accounts.
pub type List = (Opening, &'static [Turn]);

/// Pops the first buffer of the empty stack, without another account's step in between.
const POP_EMPTY: &[Does] = &[Load(Empty), LoadLink(Empty), Pop(Empty)];

/// Pops the first buffer of the full stack, without another account's step in between.
const POP_FULL: &[Does] = &[Load(Full), LoadLink(Full), Pop(Full)];

pub const START: List = (ThreeObjects, &[]);

/// Account 0 has claimed the root. Account 1 has one unit, and has seen the root marked.
pub const ROOT_CLAIMED: List = (
    ThreeObjects,
    &[(0, &[Claim(1), Split(1)]), (1, &[Claim(1)])],
);

pub const ROOT_FINISHED: List = (
    ThreeObjects,
    &[
        (0, &[Claim(1), Split(1)]),
        (1, &[Claim(1)]),
        (0, &[Claim(0), Claim(2), Finish(1)]),
    ],
);

pub const ALL_FINISHED: List = (
    ThreeObjects,
    &[
        (0, &[Claim(1), Split(1)]),
        (1, &[Claim(1)]),
        (0, &[Claim(0), Claim(2), Finish(1)]),
        (0, &[Finish(0), Finish(2), Join(1)]),
    ],
);

/// Pops the buffers 0, 1 and 2, pushes 2 and then 1 on the full stack, and splits off account 1.
const STACK_TWO: &[Does] = &[
    Load(Empty),
    LoadLink(Empty),
    Pop(Empty),
    Load(Empty),
    LoadLink(Empty),
    Pop(Empty),
    Load(Empty),
    LoadLink(Empty),
    Pop(Empty),
    Load(Full),
    StoreLink(2, None),
    Push(Full, 2),
    Load(Full),
    StoreLink(1, Some(2)),
    Push(Full, 1),
    Split(1),
];

pub const TWO_STACKED: List = (NoObjects, &[(0, STACK_TWO)]);

/// Account 0 loads the head of the full stack, and the link of its first buffer. Before account 0 exchanges the head,
/// account 1 pops both buffers and pushes buffer 1 again.
pub const OVERTAKEN: List = (
    NoObjects,
    &[
        (0, STACK_TWO),
        (0, &[Load(Full), LoadLink(Full)]),
        (1, POP_FULL),
        (1, POP_FULL),
        (1, &[Load(Full), StoreLink(1, None), Push(Full, 1)]),
    ],
);

/// Like [`OVERTAKEN`], and then account 0 fails to exchange the head.
pub const FAILED: List = (
    NoObjects,
    &[
        (0, STACK_TWO),
        (0, &[Load(Full), LoadLink(Full)]),
        (1, POP_FULL),
        (1, POP_FULL),
        (1, &[Load(Full), StoreLink(1, None), Push(Full, 1)]),
        (0, &[Fail(Full)]),
    ],
);

/// Account 1 has one unit, and has not loaded the head of the full stack.
pub const ONE_APART: List = (ThreeObjects, &[(0, &[Split(1)])]);

/// Account 0 has the whole share, and has found the full stack empty.
pub const LEADER_WAITS: List = (ThreeObjects, &[(0, &[Load(Full)])]);

/// Account 1 has one unit, and has found the full stack empty.
pub const ONE_WAITS: List = (ThreeObjects, &[(0, &[Split(1)]), (1, &[Load(Full)])]);

/// Account 1 has gone idle.
pub const ONE_IDLE: List = (
    ThreeObjects,
    &[(0, &[Split(1)]), (1, &[Load(Full), IdleUp])],
);

/// Account 1 has gone idle and come back.
pub const ONE_WOKEN: List = (
    ThreeObjects,
    &[(0, &[Split(1)]), (1, &[Load(Full), IdleUp, IdleDown])],
);

/// Account 1 has found the full stack empty, and then claimed the root.
pub const ONE_CHARGED: List = (
    ThreeObjects,
    &[(0, &[Split(1)]), (1, &[Load(Full), Claim(1)])],
);

/// Account 1 has found the full stack empty, and then pushed there.
pub const ONE_PUSHED: List = (
    ThreeObjects,
    &[
        (0, &[Split(1)]),
        (1, &[Load(Full)]),
        (1, POP_EMPTY),
        (1, &[Load(Full), StoreLink(0, None), Push(Full, 0)]),
    ],
);

/// Like [`ONE_PUSHED`], and then account 1 has popped the buffer again and found the full stack empty once more.
pub const ONE_LOOKED_AGAIN: List = (
    ThreeObjects,
    &[
        (0, &[Split(1)]),
        (1, &[Load(Full)]),
        (1, POP_EMPTY),
        (1, &[Load(Full), StoreLink(0, None), Push(Full, 0)]),
        (1, POP_FULL),
        (1, &[Load(Full)]),
    ],
);
