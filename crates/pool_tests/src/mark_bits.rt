//! The two bits of each object in the words of marks.
ghost use Rattle.std.specs.Prelude.{◌≡◌, ◌<◌};
ghost use Rattle.buffer_pool.specs.Book.{claimed, finished};
ghost use Rattle.pool_tests.specs.MarkBits.{LowWithHigh};
ghost use Rattle.pool_tests.specs.Rounds.{HasRoots, IsSameWorker};
ghost use Rattle.buffer_pool.specs.working.Buffers.{buffer_reading};

use crate::edges::pool_of_roots;
use crate::graph::claim_white;
use buffer_pool::layout::mark_word;
use buffer_pool::{Pool, PoolFault, Worker};
use std::alloc::{Allocator, Global};
use std::process::Abort;

/// One object more than a word has marks for.
const OBJECTS: u32 = 33;

const BUFFERS: u32 = 4;

/// Returns word `number` of the marks as it is now, or `None` beyond the last word.
fn word_now<A: Allocator>(pool: &Pool<A>, number: usize) -> Option<u64>
    requires { number < 4 }
{
    pool.peek(mark_word(BUFFERS, 0) + number)
}

/// Claims `object`, which is white.
fn claim_root<R: Abort, A: Allocator>(rt: &R, pool: &Pool<A>, worker: &mut Worker<A>, object: u32)
    requires pool { worker.old.pool ≡ pool.now }
    requires roots { HasRoots OBJECTS worker.old }
    requires awake { worker.old.book.account.idle ≡ 0 }
    requires object { object < OBJECTS }
    ensures same { IsSameWorker worker.old worker.new }
    ensures book { worker.new.book ≡ claimed object 0 worker.old.book }
{
    claim_white(rt, pool, worker, object);
}

/// Claims `object`, which is white, and finishes it. Returns word 0 of the marks after the claim, and after the finish.
fn claim_and_finish<R: Abort, A: Allocator>(
    rt: &R,
    pool: &Pool<A>,
    worker: &mut Worker<A>,
    object: u32,
) -> (Option<u64>, Option<u64>)
    requires pool { worker.old.pool ≡ pool.now }
    requires roots { HasRoots OBJECTS worker.old }
    requires awake { worker.old.book.account.idle ≡ 0 }
    requires object { object < OBJECTS }
    ensures pool { worker.new.pool ≡ worker.old.pool }
    ensures roots { HasRoots OBJECTS worker.new }
    ensures awake { worker.new.book.account.idle ≡ 0 }
    ensures book { worker.new.book ≡ finished object (claimed object 0 worker.old.book) }
{
    claim_root(rt, pool, worker, object);
    let claimed = word_now(pool, 0);
    pool.finish(worker, object);
    (claimed, word_now(pool, 0))
}

/// The results of a run that claims and finishes object 0, then object 31, then object 32. They are word 0 of the marks
/// after each of the first four steps, words 0, 1 and 2 while object 32 is claimed and not finished, and what calls on
/// the closed pool's marks return (`Told`).
type Words = ([Option<u64>; 4], [Option<u64>; 3], Told);

/// The number of finished objects, the first unfinished object of all, and the first from object 31 on.
type Told = (u64, [Option<u32>; 2]);

fn words_of_33<R: Abort>(rt: &R, alloc: Global) -> Result<Words, PoolFault> {
    let (pool, mut worker) = pool_of_roots(alloc, OBJECTS, BUFFERS, 2)?;
    let first = claim_and_finish(rt, &pool, &mut worker, 0);
    let last = claim_and_finish(rt, &pool, &mut worker, 31);
    claim_root(rt, &pool, &mut worker, 32);
    let words = [word_now(&pool, 0), word_now(&pool, 1), word_now(&pool, 2)];
    pool.finish(&mut worker, 32);
    let marks = pool.close(worker);
    Ok((
        [first.0, first.1, last.0, last.1],
        words,
        (
            marks.finished_len(),
            [marks.next_unfinished(0), marks.next_unfinished(31)],
        ),
    ))
}

#[test]
fn bits_of_33_objects(rt: HostRuntime) {
    let word_0 = [
        Some(1),
        Some(3),
        Some(4_611_686_018_427_387_907),
        Some(13_835_058_055_282_163_715),
    ];
    let words = [Some(13_835_058_055_282_163_715), Some(1), None];
    let told = (3, [Some(1), None]);
    assert_eq!(rt; words_of_33(&rt, rt.alloc()), Ok((word_0, words, told)));
}

/// Does nothing. Its contract says that the rule of a pool's table excludes a high bit without its low bit.
fn no_high_bit_stands_alone<A: Allocator>()
    ensures { LowWithHigh (buffer_reading {A = A}) }
{}

#[test]
fn low_bits_with_high_bits() {
    no_high_bit_stands_alone::<Global>();
}
