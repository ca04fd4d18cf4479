//! Replays lists of events.

mod lists;
mod memory;

use Does::{Claim, Finish, IdleDown, IdleUp, Load, LoadIdle, LoadLink, Pop};
use Which::{Empty, Full};
use lists::{
    ALL_FINISHED, Does, FAILED, LEADER_WAITS, List, ONE_APART, ONE_CHARGED, ONE_IDLE,
    ONE_LOOKED_AGAIN, ONE_PUSHED, ONE_WAITS, ONE_WOKEN, OVERTAKEN, ROOT_CLAIMED, ROOT_FINISHED,
    START, TWO_STACKED, Turn,
};
use mark_core::{Event, OutOfMemory, Which, World, step};
use std::alloc::Allocator;
use tagged_index::HeadWord;

/// Returns the world after the events of `turn`, or `None` if one of them is not possible.
fn turned<A: Allocator + Copy>(
    alloc: A,
    world: World<A>,
    turn: &Turn,
) -> Result<Option<World<A>>, OutOfMemory> {
    let (worker, events) = *turn;
    let mut world = world;
    for does in events {
        let kind = does.kind(alloc);
        match step(alloc, world, Event { worker, kind })? {
            Some(next) => world = next,
            None => return Ok(None),
        }
    }
    Ok(Some(world))
}

/// Returns the world after the events of `list`, or `None` if one of them is not possible.
fn replayed<A: Allocator + Copy>(alloc: A, list: &List) -> Result<Option<World<A>>, OutOfMemory> {
    let (opening, turns) = *list;
    let mut world = opening.world(alloc)?;
    for turn in turns {
        match turned(alloc, world, turn)? {
            Some(next) => world = next,
            None => return Ok(None),
        }
    }
    Ok(Some(world))
}

/// What the row tests, a list that is possible, a turn after this list, and whether the whole turn is possible too.
static NEXT: [(&str, List, Turn, bool); 15] = [
    (
        "an object that nothing leads to yet",
        START,
        (0, &[Claim(0)]),
        false,
    ),
    (
        "a successor of another account's object",
        ROOT_CLAIMED,
        (1, &[Claim(2)]),
        false,
    ),
    (
        "a successor was not seen",
        ROOT_CLAIMED,
        (0, &[Claim(0), Finish(1)]),
        false,
    ),
    (
        "a head that came back is not exchanged",
        OVERTAKEN,
        (0, &[Pop(Full)]),
        false,
    ),
    ("an idle account looks", ONE_IDLE, (1, &[LoadIdle]), true),
    ("it goes idle once", ONE_IDLE, (1, &[IdleUp]), false),
    ("it claims nothing", ONE_IDLE, (1, &[Claim(1)]), false),
    (
        "it pops nothing",
        ONE_IDLE,
        (1, &[Load(Empty), LoadLink(Empty), Pop(Empty), LoadIdle]),
        false,
    ),
    ("it came back", ONE_WOKEN, (1, &[Claim(1)]), true),
    (
        "it comes back where it was idle",
        ONE_WAITS,
        (1, &[IdleDown]),
        false,
    ),
    (
        "the full stack was not loaded",
        ONE_APART,
        (1, &[IdleUp]),
        false,
    ),
    (
        "it has more than one unit",
        LEADER_WAITS,
        (0, &[IdleUp]),
        false,
    ),
    (
        "it answers for an object",
        ONE_CHARGED,
        (1, &[IdleUp]),
        false,
    ),
    (
        "it pushed on full since it looked",
        ONE_PUSHED,
        (1, &[IdleUp]),
        false,
    ),
    ("it looked again", ONE_LOOKED_AGAIN, (1, &[IdleUp]), true),
];

/// Returns whether `turn` is possible after `list`, or `None` if `list` itself is not possible.
fn may<A: Allocator + Copy>(
    alloc: A,
    list: &List,
    turn: &Turn,
) -> Result<Option<bool>, OutOfMemory> {
    match replayed(alloc, list)? {
        Some(world) => Ok(Some(turned(alloc, world, turn)?.is_some())),
        None => Ok(None),
    }
}

#[test]
fn what_an_account_may_do(rt: HostRuntime) -> Result<(), OutOfMemory> {
    for (asked, list, turn, possible) in &NEXT {
        assert_eq!(rt; may(rt.alloc(), list, turn)?, Some(*possible), "{asked}");
    }
    Ok(())
}

/// The world that a list ends in.
#[derive(Clone, Copy, Drop)]
enum End {
    Claimed,
    RootFinished,
    Finished,
    Stacked,
    Overtaken,
}

/// Tests whether only object 1, the root, is claimed and in the charge of account 0, the charge of account 1 is empty,
/// and there is no account 2.
fn is_claimed<A: Allocator>(world: &World<A>) -> bool {
    world.marks() == &[0, 1, 0][..]
        && world.charge(0) == Some(&[1][..])
        && world.charge(1) == Some(&[][..])
        && world.charge(2).is_none()
}

/// Tests whether all objects are finished, the charge of account 0 is empty, and there is no account 2.
fn is_finished<A: Allocator>(world: &World<A>) -> bool {
    world.marks() == &[2, 2, 2][..] && world.charge(0) == Some(&[][..]) && world.charge(2).is_none()
}

fn is_stacked<A: Allocator>(world: &World<A>) -> bool {
    world.head(Full) == HeadWord::of(1, 7)
        && world.head(Empty) == HeadWord::of(3, 8)
        && world.link(1) == Some(2)
        && world.link(2).is_none()
        && world.link(4).is_none()
}

fn is_overtaken<A: Allocator>(world: &World<A>) -> bool {
    world.head(Full) == HeadWord::of(1, 10)
        && world.link(1).is_none()
        && world.held(0) == Some(&[0][..])
        && world.held(1) == Some(&[2][..])
}

impl End {
    fn is_of<A: Allocator>(self, world: &World<A>) -> bool {
        match self {
            End::Claimed => is_claimed(world),
            End::RootFinished => world.marks() == &[1, 2, 1][..],
            End::Finished => is_finished(world),
            End::Stacked => is_stacked(world),
            End::Overtaken => is_overtaken(world),
        }
    }
}

/// Lists, and how they end.
static ENDS: [(List, End); 5] = [
    (ROOT_CLAIMED, End::Claimed),
    (ROOT_FINISHED, End::RootFinished),
    (ALL_FINISHED, End::Finished),
    (TWO_STACKED, End::Stacked),
    (FAILED, End::Overtaken),
];

/// Tests whether `list` is possible, and ends in the world `end`.
fn ends<A: Allocator + Copy>(alloc: A, list: &List, end: End) -> Result<bool, OutOfMemory> {
    match replayed(alloc, list)? {
        Some(world) => Ok(end.is_of(&world)),
        None => Ok(false),
    }
}

#[test]
fn lists_end_right(rt: HostRuntime) -> Result<(), OutOfMemory> {
    for (number, (list, end)) in ENDS.iter().enumerate() {
        assert!(rt; ends(rt.alloc(), list, *end)?, "list {number}");
    }
    Ok(())
}
