//! The buffers of a pair, and the part of its calls that concerns them.
ghost use Rattle.std.specs.Prelude.{◌≡◌, None};

use crate::position::{clear_at, put_at, put_out, renew, take_at};
use crate::steps::pop_one;
use crate::stop::Stop;
use buffer_pool::{Held, Pool, Which, Worker};
use std::alloc::Allocator;
use std::mem::swap;
use std::sync::Wait;

mod giving;

/// The two buffers of a pair, and one that a stopped call left over; each may be missing. [`Pair`](crate::Pair) adds
/// the spill list, and notes which stops its calls returned. So the proofs about buffers and stacks need neither.
#[derive(Drop)]
pub(crate) struct Buffers<A: Allocator> {
    pub(crate) first: Option<Held<A>>,
    pub(crate) second: Option<Held<A>>,
    pub(crate) third: Option<Held<A>>,
}

impl<A: Allocator> Buffers<A> {
    ghost use Rattle.std.specs.Prelude.{◌≡◌, ◌≢◌, None, [], ◌∷◌, IfErr};
    ghost use Rattle.mark_core.specs.Events.{IsBusy};
    ghost use Rattle.work_pair.specs.CallEffects.{IsStopOf};
    ghost use Rattle.work_pair.specs.PairState.{HasRoomAt, IsBacked, pair_items};
    ghost use Rattle.work_pair.specs.working.Asks.{MayTrade};
    ghost use Rattle.work_pair.specs.working.Buffers.{as_pair};
    ghost use Rattle.work_pair.specs.working.Steps.{ClearAnswers, GetsObject, PutsObject, Takes};

    /// Puts `object` into the second buffer, which becomes the first, or else into a popped empty buffer. The first
    /// buffer must have no room. Returns `false` if no empty buffer was found. Then the two buffers have exchanged
    /// positions, and nothing else has changed.
    // Not inlined, so that the many puts that find room neither save registers for it nor clear its locals.
    #[inline(never)]
    pub(crate) fn put_elsewhere<R: Wait>(
        &mut self,
        rt: &R,
        pool: &Pool<A>,
        worker: &mut Worker<A>,
        object: u32,
    ) -> Result<bool, Stop>
        requires may { MayTrade worker.old pool.now (as_pair self.old) (object ∷ []) }
        requires full { HasRoomAt self.old.first → ⊥ }
        ensures { PutsObject pool.now (HasRoomAt self.old.second) object (as_pair self.old) worker.old
            (as_pair self.new) worker.new result }
    {
        swap(&mut self.first, &mut self.second);
        if put_at(&mut self.first, object) {
            return Ok(true);
        }
        if !renew(rt, pool, worker, &mut self.first, &mut self.third)? {
            return Ok(false);
        }
        Ok(put_at(&mut self.first, object))
    }

    /// Takes an object from the first buffer, or else from the second, which becomes the first. Returns `None` if
    /// neither has one.
    fn take(&mut self) -> Option<u32>
        ensures { Takes (as_pair self.old) (as_pair self.new) result }
    {
        if let Some(object) = take_at(&mut self.first) {
            return Some(object);
        }
        swap(&mut self.first, &mut self.second);
        take_at(&mut self.first)
    }

    /// Takes an object from the pair's buffers, or else from a buffer that it pops from the full stack. Goes on to the
    /// next buffer if that has no items. Returns `None` if the full stack was seen empty.
    // Not inlined, so that the many gets that find an object neither save registers for it nor clear its locals.
    #[inline(never)]
    pub(crate) fn get_elsewhere<R: Wait>(
        &mut self,
        rt: &R,
        pool: &Pool<A>,
        worker: &mut Worker<A>,
    ) -> Result<Option<u32>, Stop>
        requires { MayTrade worker.old pool.now (as_pair self.old) [] }
        ensures { GetsObject pool.now (as_pair self.old) worker.old (as_pair self.new) worker.new result }
    {
        for _ in rt.forever() {
            if let Some(object) = self.take() {
                return Ok(Some(object));
            }
            let Some(next) = pop_one(rt, pool, worker, Which::Full)? else {
                return Ok(None);
            };
            put_out(rt, pool, worker, &mut self.first, &mut self.third, next)?;
        }
        unreachable!()
    }

    /// Pushes each buffer: on the full stack if it has items, and otherwise on the empty stack. If a last tag was
    /// loaded, the buffers that were not pushed yet stay.
    pub(crate) fn clear<R: Wait>(
        &mut self,
        rt: &R,
        pool: &Pool<A>,
        worker: &mut Worker<A>,
    ) -> Result<(), Stop>
        requires pool { worker.old.pool ≡ pool.now }
        requires backed { IsBacked (as_pair self.old) [] worker.old.book }
        requires busy { pair_items (as_pair self.old) ≢ [] → IsBusy worker.old.book.account }
        ensures pool { worker.new.pool ≡ worker.old.pool }
        ensures clears { ClearAnswers (as_pair self.old) worker.old.book (as_pair self.new) worker.new.book result }
        ensures of_pool { IfErr result (IsStopOf pool.now) }
    {
        clear_at(rt, pool, worker, &mut self.first)?;
        clear_at(rt, pool, worker, &mut self.second)?;
        clear_at(rt, pool, worker, &mut self.third)
    }
}
