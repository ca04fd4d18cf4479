//! What no step of a pool can report, whatever a pool's author notes and proves.
ghost use Rattle.pool_tests.specs.Forged.{NoEvenPop, NoForgedHead, NoForgedLoss, NoForgedPush};
ghost use Rattle.pool_tests.specs.Forged.{OtherFirstHeadsWereNot, WasNotLost};
ghost use Rattle.pool_tests.specs.Worked.{Holds};
ghost use Rattle.buffer_pool.specs.Calls.{MayPush};
ghost use Rattle.mark_core.specs.Shares.{whole};
ghost use Rattle.std.specs.Prelude.{◌≡◌, []};
ghost use Rattle.buffer_pool.specs.working.Buffers.{buffer_reading};

use crate::waiting::bare_pool;
use buffer_pool::{Held, Pool, PoolFault, TryPopped, TryPushed, Which, Worker};
use std::alloc::{Allocator, Global};

/// Does nothing. Its contract says what the rule of a pool's table excludes.
///
/// - `loss`: while no head has changed since the opening, no step reports that an exchange has failed. So in that time
///   a wrong try of a pop cannot return `Lost`, neither after a load of the head only, nor because the try finds a lock
///   taken.
/// - `head`: no step reports, as the last loaded head, a head that the stack never had.
/// - `first`: a stack never had a head with the first tag other than its first head. So at the first tag `sees_empty`
///   cannot invent a head without a buffer for the empty stack, or a head with a buffer for the full stack.
/// - `push`: while the full stack's head has not changed since the opening, no step reports a push on the full stack.
///   So in that time a wrong push that exchanges the empty stack's head instead cannot return `Done`.
/// - `pop`: no step exchanges a head for the link of its buffer under the same tag, or under a tag that is greater by
///   an even number.
fn no_telling_is_forged<A: Allocator>()
    ensures loss { NoForgedLoss (buffer_reading {A = A}) }
    ensures head { NoForgedHead (buffer_reading {A = A}) }
    ensures first { OtherFirstHeadsWereNot }
    ensures push { NoForgedPush (buffer_reading {A = A}) }
    ensures pop { NoEvenPop (buffer_reading {A = A}) }
{}

#[test]
fn tellings() {
    no_telling_is_forged::<Global>();
}

/// Tries to push `held` for a worker that has the whole share. Such a try is never lost (`never`). This follows from
/// the contracts of the calls, without anything that a pool's author may choose.
fn push_alone<A: Allocator>(
    pool: &Pool<A>,
    worker: &mut Worker<A>,
    which: Which,
    held: Held<A>,
) -> TryPushed<Held<A>>
    requires pool { worker.old.pool ≡ pool.now }
    requires may { MayPush which held worker.old.book }
    requires alone { worker.old.book.account.share ≡ whole }
    ensures never { WasNotLost result }
{
    worker.recall_within();
    worker.recall_story();
    let tried = pool.try_push(worker, which, held);
    worker.recall_story();
    tried
}

/// Pops a buffer from the empty stack and pushes it on the full one. Returns whether the buffer was pushed, or `None`
/// if no buffer was popped.
fn pop_and_push_alone<A: Allocator>(pool: &Pool<A>, worker: &mut Worker<A>) -> Option<bool>
    requires pool { worker.old.pool ≡ pool.now }
    requires none { Holds 2 [] worker.old }
    requires alone { worker.old.book.account.share ≡ whole }
{
    let TryPopped::Took(held) = pool.try_pop(worker, Which::Empty) else {
        return None;
    };
    let pushed = push_alone(pool, worker, Which::Full, held);
    Some(matches!(pushed, TryPushed::Done))
}

/// Calls [`pop_and_push_alone`] with the only worker of a new pool.
fn is_pushed_alone(alloc: Global) -> Result<Option<bool>, PoolFault> {
    let (pool, mut worker) = bare_pool(alloc, 0)?;
    Ok(pop_and_push_alone(&pool, &mut worker))
}

#[test]
fn pushes_alone(rt: HostRuntime) {
    assert_eq!(rt; is_pushed_alone(rt.alloc()), Ok(Some(true)));
}
