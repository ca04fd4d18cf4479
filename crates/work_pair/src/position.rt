//! A position for a buffer in a pair. The positions of a bare pair are vacant. The third is vacant until a call is
//! stopped; after that any position may be vacant.
ghost use Rattle.std.specs.Prelude.{◌≡◌, ◌≢◌, ◌↔◌, ◌<◌, ℕ, [], ◌∷◌, ◌++◌, Some, None, IsTrue, length};
ghost use Rattle.std.specs.Prelude.{true, false, IfErr, IsOk, MatchOption};
ghost use Rattle.std.specs.Bool.{OnTrue, OnFalse};
ghost use Rattle.mark_core.specs.Events.{IsBusy};
ghost use Rattle.mark_core.specs.declared.which.Which.TheVariants.{Empty};
ghost use Rattle.buffer_pool.specs.Calls.{HeldBuffer};
ghost use Rattle.work_pair.specs.CallEffects.{IsStopOf};
ghost use Rattle.work_pair.specs.PairState.{items_at, count_at, HasRoomAt, IsOfSize};
ghost use Rattle.work_pair.specs.working.Asks.{IsBackedAt, MayRenew};
ghost use Rattle.work_pair.specs.working.Steps.{ClearsAt, PublishesAt, PutsOut, RenewAnswers, next_of};
ghost use Rattle.work_pair.specs.working.Steps.{pushed_part};

use crate::steps::{pop_one, shelve};
use crate::stop::Stop;
use buffer_pool::{Held, Pool, Which, Worker};
use std::alloc::Allocator;
use std::sync::Wait;

/// Returns how many objects the buffer at `position` has, 0 if there is none.
pub(crate) fn len_at<A: Allocator>(position: &Option<Held<A>>) -> u32
    ensures { result ≡ length (items_at position.now) }
{
    match position {
        Some(held) => held.len(),
        None => 0,
    }
}

/// Returns how many objects the buffer at `position` has, or `None` if there is none.
pub(crate) fn count_at<A: Allocator>(position: &Option<Held<A>>) -> Option<u32>
    ensures { result ≡ count_at position.now }
{
    match position {
        Some(held) => Some(held.len()),
        None => None,
    }
}

/// Puts `object` into the buffer at `position`. Returns `false` if the buffer is full or the position vacant.
pub(crate) fn put_at<A: Allocator>(position: &mut Option<Held<A>>, object: u32) -> bool
    ensures put { OnTrue result ((h : HeldBuffer) × (position.old ≡ Some h) × (position.new
        ≡ Some (record h { items = h.items ++ object ∷ [] }))) }
    ensures full { OnFalse result (position.new ≡ position.old) }
    ensures had_room { OnTrue result (HasRoomAt position.old) }
    ensures no_room { OnFalse result (HasRoomAt position.old → ⊥) }
    ensures room { (h : HeldBuffer) → position.old ≡ Some h → h.items ≡ [] → IsTrue result }
{
    match position {
        Some(held) => held.put(object).is_ok(),
        None => false,
    }
}

/// Takes the last object of the buffer at `position`. Returns `None` if it has none or the position is vacant.
pub(crate) fn take_at<A: Allocator>(position: &mut Option<Held<A>>) -> Option<u32>
    ensures { MatchOption result ((items_at position.old ≡ []) × (position.new ≡ position.old)) (λ o. (h : HeldBuffer)
        × (k : HeldBuffer) × (position.old ≡ Some h) × (position.new ≡ Some k) × (h.items ≡ k.items ++ o ∷ []) × (k
        ≡ record h { items = k.items })) }
{
    match position {
        Some(held) => held.take(),
        None => None,
    }
}

/// Moves the upper half of the objects at `position`, rounded down, into `upper`, an empty buffer.
fn split_at<A: Allocator>(position: &mut Option<Held<A>>, upper: &mut Held<A>)
    requires empty { upper.old.items ≡ [] }
    requires room { IsOfSize upper.old.size position.old }
    ensures lower { position.new ≡ pushed_part true position.old }
    ensures upper { upper.new ≡ next_of true position.old upper.old }
{
    if let Some(held) = position {
        held.split_upper_into(upper);
    }
}

/// Pushes the buffer at `position`, if any, and puts `next` there. If a last tag was loaded, the buffer stays and
/// `next` goes to `third`.
pub(crate) fn put_out<R: Wait, A: Allocator>(
    rt: &R,
    pool: &Pool<A>,
    worker: &mut Worker<A>,
    position: &mut Option<Held<A>>,
    third: &mut Option<Held<A>>,
    next: Held<A>,
) -> Result<(), Stop>
    requires { MayRenew worker.old pool.now position.old third.old }
    ensures pool { worker.new.pool ≡ worker.old.pool }
    ensures out { PutsOut position.old next worker.old.book position.new third.new worker.new.book result }
    ensures of_pool { IfErr result (IsStopOf pool.now) }
{
    let Some(held) = position.replace(next) else {
        return Ok(());
    };
    match shelve(rt, pool, worker, held) {
        Ok(()) => Ok(()),
        Err(back) => {
            *third = position.replace(back);
            Err(Stop::TagSpent(worker.spent_tag()))
        }
    }
}

/// Pushes the buffer at `position`, if any. The buffer stays if a last tag was loaded.
pub(crate) fn clear_at<R: Wait, A: Allocator>(
    rt: &R,
    pool: &Pool<A>,
    worker: &mut Worker<A>,
    position: &mut Option<Held<A>>,
) -> Result<(), Stop>
    requires pool { worker.old.pool ≡ pool.now }
    requires backed { IsBackedAt position.old worker.old.book }
    requires busy { items_at position.old ≢ [] → IsBusy worker.old.book.account }
    ensures pool { worker.new.pool ≡ worker.old.pool }
    ensures clears { ClearsAt position.old worker.old.book position.new worker.new.book result }
    ensures of_pool { IfErr result (IsStopOf pool.now) }
{
    let Some(held) = position.take() else {
        return Ok(());
    };
    match shelve(rt, pool, worker, held) {
        Ok(()) => Ok(()),
        Err(back) => {
            *position = Some(back);
            Err(Stop::TagSpent(worker.spent_tag()))
        }
    }
}

/// Pops an empty buffer, pushes the one at `position`, if any, and puts the popped one there. Returns `false` if the
/// empty stack was seen empty. Then nothing changes.
pub(crate) fn renew<R: Wait, A: Allocator>(
    rt: &R,
    pool: &Pool<A>,
    worker: &mut Worker<A>,
    position: &mut Option<Held<A>>,
    third: &mut Option<Held<A>>,
) -> Result<bool, Stop>
    requires { MayRenew worker.old pool.now position.old third.old }
    ensures pool { worker.new.pool ≡ worker.old.pool }
    ensures renews { RenewAnswers false Empty position.old worker.old.book position.new third.new worker.new.book
        result }
    ensures of_pool { IfErr result (IsStopOf pool.now) }
{
    let Some(next) = pop_one(rt, pool, worker, Which::Empty)? else {
        return Ok(false);
    };
    put_out(rt, pool, worker, position, third, next)?;
    Ok(true)
}

/// Pops an empty buffer, moves the upper half of the objects at `position` into it, pushes the lower part, and puts the
/// popped buffer there. Returns `false` if the empty stack was seen empty. Then nothing changes.
pub(crate) fn halve<R: Wait, A: Allocator>(
    rt: &R,
    pool: &Pool<A>,
    worker: &mut Worker<A>,
    position: &mut Option<Held<A>>,
    third: &mut Option<Held<A>>,
) -> Result<bool, Stop>
    requires { MayRenew worker.old pool.now position.old third.old }
    ensures pool { worker.new.pool ≡ worker.old.pool }
    ensures renews { RenewAnswers true Empty position.old worker.old.book position.new third.new worker.new.book
        result }
    ensures of_pool { IfErr result (IsStopOf pool.now) }
{
    let Some(mut upper) = pop_one(rt, pool, worker, Which::Empty)? else {
        return Ok(false);
    };
    split_at(position, &mut upper);
    put_out(rt, pool, worker, position, third, upper)?;
    Ok(true)
}

/// Renews `position`, as [`renew`] does, if its buffer has items, and does nothing otherwise.
pub(crate) fn publish_at<R: Wait, A: Allocator>(
    rt: &R,
    pool: &Pool<A>,
    worker: &mut Worker<A>,
    position: &mut Option<Held<A>>,
    third: &mut Option<Held<A>>,
) -> Result<(), Stop>
    requires { MayRenew worker.old pool.now position.old third.old }
    ensures pool { worker.new.pool ≡ worker.old.pool }
    ensures publishes { PublishesAt position.old worker.old.book position.new third.new worker.new.book result }
    ensures none { items_at position.old ≡ [] → (position.new ≡ position.old) × (third.new ≡ third.old)
        × (worker.new ≡ worker.old) × IsOk result }
    ensures of_pool { IfErr result (IsStopOf pool.now) }
{
    if len_at(position) == 0 {
        return Ok(());
    }
    renew(rt, pool, worker, position, third)?;
    Ok(())
}
