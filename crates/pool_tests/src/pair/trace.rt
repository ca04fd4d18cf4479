//! Four buffers for two objects, filled one after the other: which objects each has, and where it is.
ghost use Rattle.std.specs.Prelude.{◌≡◌};
ghost use Rattle.pool_tests.specs.Ready.{IsReady, IsWorker};

use super::hand::{OBJECTS, open, pool_of_roots, publish, put};
use buffer_pool::{Held, Pool, PoolFault, Popped, Which, Worker};
use std::alloc::{Allocator, Global};
use std::process::Abort;
use std::sync::Wait;
use work_pair::Pair;

/// A buffer for two objects: its number, and its objects in the order in which they were put.
type Two = (u32, [Option<u32>; 2]);

/// The buffers of a stack, its top first.
type Stack = [Option<Two>; 4];

/// The buffers at a pair's first and second position, the full stack, the empty stack, and the number of spilled
/// objects.
#[derive(Clone, Copy, PartialEq, Eq)]
struct Seen {
    positions: [Option<Two>; 2],
    full: Stack,
    empty: Stack,
    spilled: usize,
}

/// Returns the number and the objects of `held`.
fn two_of<A: Allocator>(held: Held<A>) -> Two {
    let mut held = held;
    let index = held.index();
    let last = held.take();
    match held.take() {
        None => (index, [last, None]),
        first => (index, [first, last]),
    }
}

/// Returns the number and the objects of the buffer at a position, if there is one.
fn two_at<A: Allocator>(position: Option<Held<A>>) -> Option<Two> {
    match position {
        Some(held) => Some(two_of(held)),
        None => None,
    }
}

/// Pops a buffer from the stack `which`. Returns `None` if the stack has none.
fn pop_one<R: Wait + Abort, A: Allocator>(
    rt: &R,
    pool: &Pool<A>,
    worker: &mut Worker<A>,
    which: Which,
) -> Option<Held<A>>
    requires { IsWorker OBJECTS pool.now worker.old }
    ensures { IsWorker OBJECTS pool.now worker.new }
{
    match pool.pop(rt, worker, which) {
        Popped::Took(held) => Some(held),
        Popped::Empty => None,
        Popped::Spent => panic!(rt; "no tag is near the last one"),
    }
}

/// Pops all buffers of the stack `which`, and returns them.
fn buffers_on<R: Wait + Abort, A: Allocator>(
    rt: &R,
    pool: &Pool<A>,
    worker: &mut Worker<A>,
    which: Which,
) -> Stack
    requires { IsWorker OBJECTS pool.now worker.old }
    ensures { IsWorker OBJECTS pool.now worker.new }
{
    let mut stack: Stack = [None; 4];
    for position in &mut stack {
        *position = two_at(pop_one(rt, pool, worker, which));
    }
    stack
}

/// Opens a pair, puts `puts` objects, from 1 on, and publishes them if `publishes` is true.
fn pair_after<R: Wait + Abort, A: Allocator>(
    rt: &R,
    alloc: A,
    pool: &Pool<A>,
    worker: &mut Worker<A>,
    puts: u32,
    publishes: bool,
) -> Pair<A>
    requires { IsWorker OBJECTS pool.now worker.old }
    ensures { IsReady OBJECTS pool.now worker.new result }
{
    let mut pair = open(rt, alloc, pool, worker);
    for object in 0..puts {
        put(rt, pool, worker, &mut pair, object + 1);
    }
    if publishes {
        publish(rt, pool, worker, &mut pair);
    }
    pair
}

/// Calls [`pair_after`] in a new pool, and returns what is seen afterwards.
fn seen_after<R: Wait + Abort>(
    rt: &R,
    alloc: Global,
    puts: u32,
    publishes: bool,
) -> Result<Seen, PoolFault> {
    let (pool, mut worker) = pool_of_roots(alloc, 4, 2, 0)?;
    let pair = pair_after(rt, alloc, &pool, &mut worker, puts, publishes);
    let spilled = pair.spilled();
    let (first, second, _) = pair.into_buffers();
    Ok(Seen {
        positions: [two_at(first), two_at(second)],
        full: buffers_on(rt, &pool, &mut worker, Which::Full),
        empty: buffers_on(rt, &pool, &mut worker, Which::Empty),
        spilled,
    })
}

/// The four buffers without objects, and then with objects: `SEVEN` and `EIGHT` are the same buffer.
const BARE_0: Option<Two> = Some((0, [None, None]));

const BARE_1: Option<Two> = Some((1, [None, None]));

const BARE_2: Option<Two> = Some((2, [None, None]));

const BARE_3: Option<Two> = Some((3, [None, None]));

const ONE: Option<Two> = Some((0, [Some(1), Some(2)]));

const THREE: Option<Two> = Some((1, [Some(3), Some(4)]));

const FIVE: Option<Two> = Some((2, [Some(5), Some(6)]));

const SEVEN: Option<Two> = Some((3, [Some(7), None]));

const EIGHT: Option<Two> = Some((3, [Some(7), Some(8)]));

/// A stack without buffers, the empty stack with two buffers and with one, and the full stack with one buffer and with
/// two.
const NONE: Stack = [None; 4];

const TWO_LEFT: Stack = [BARE_2, BARE_3, None, None];

const ONE_LEFT: Stack = [BARE_3, None, None, None];

const ONE_GIVEN: Stack = [ONE, None, None, None];

const TWO_GIVEN: Stack = [THREE, ONE, None, None];

/// The number of objects put and whether they are published, and then the fields of [`Seen`].
type Row = (u32, bool, [Option<Two>; 2], Stack, Stack, usize);

/// Tests that a new pair is seen as `row` says after the puts of `row`.
fn check_row<R: Wait + Abort>(rt: &R, alloc: Global, row: Row) {
    let (puts, publishes, positions, full, empty, spilled) = row;
    let wanted = Seen {
        positions,
        full,
        empty,
        spilled,
    };
    let is_seen = seen_after(rt, alloc, puts, publishes) == Ok(wanted);
    assert!(rt; is_seen, "after {puts} objects");
}

// Not a loop over a table: its check goes through each nested field at each step.
#[test]
fn four_buffers_are_filled(rt: HostRuntime) {
    check_row(
        &rt,
        rt.alloc(),
        (0, false, [BARE_0, BARE_1], NONE, TWO_LEFT, 0),
    );
    check_row(
        &rt,
        rt.alloc(),
        (2, false, [ONE, BARE_1], NONE, TWO_LEFT, 0),
    );
    check_row(&rt, rt.alloc(), (4, false, [THREE, ONE], NONE, TWO_LEFT, 0));
    check_row(
        &rt,
        rt.alloc(),
        (6, false, [FIVE, THREE], ONE_GIVEN, ONE_LEFT, 0),
    );
    // The seventh object takes the last buffer. So a publish finds no buffer to put in place of another and changes
    // nothing, and a ninth object is spilled.
    check_row(
        &rt,
        rt.alloc(),
        (7, false, [SEVEN, FIVE], TWO_GIVEN, NONE, 0),
    );
    check_row(
        &rt,
        rt.alloc(),
        (7, true, [SEVEN, FIVE], TWO_GIVEN, NONE, 0),
    );
    check_row(
        &rt,
        rt.alloc(),
        (8, false, [EIGHT, FIVE], TWO_GIVEN, NONE, 0),
    );
    check_row(
        &rt,
        rt.alloc(),
        (9, false, [FIVE, EIGHT], TWO_GIVEN, NONE, 1),
    );
}
