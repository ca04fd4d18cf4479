//! How a pair's buffers give objects to other workers, and how many objects are too few to give.

use crate::buffers::Buffers;
use crate::position::{halve, len_at, publish_at, renew};
use crate::stop::Stop;
use buffer_pool::{Pool, Worker};
use std::alloc::Allocator;
use std::sync::Wait;

/// The largest number of objects that are too few: `balance` halves the first buffer only if it has more.
const FEW: u32 = 4;

impl<A: Allocator> Buffers<A> {
    ghost use Rattle.std.specs.Prelude.{◌≡◌, [], IfErr, IsOk};
    ghost use Rattle.work_pair.specs.CallEffects.{HasMore, IsStopOf};
    ghost use Rattle.work_pair.specs.PairState.{pair_items};
    ghost use Rattle.work_pair.specs.working.Asks.{MayTrade};
    ghost use Rattle.work_pair.specs.working.Buffers.{as_pair};
    ghost use Rattle.work_pair.specs.working.Steps.{BalanceAnswers, PublishAnswers};

    /// Pushes the second buffer if it has items, or else the lower part of the first if that has more than [`FEW`].
    /// Pushes nothing if no empty buffer was found as a replacement.
    pub(crate) fn balance<R: Wait>(
        &mut self,
        rt: &R,
        pool: &Pool<A>,
        worker: &mut Worker<A>,
    ) -> Result<(), Stop>
        requires { MayTrade worker.old pool.now (as_pair self.old) [] }
        ensures pool { worker.new.pool ≡ worker.old.pool }
        ensures balances { BalanceAnswers (as_pair self.old) worker.old.book (as_pair self.new) worker.new.book
            result }
        ensures few { (HasMore (as_pair self.old) → ⊥) → (as_pair self.new ≡ as_pair self.old)
            × (worker.new ≡ worker.old) × IsOk result }
        ensures of_pool { IfErr result (IsStopOf pool.now) }
    {
        if len_at(&self.second) > 0 {
            renew(rt, pool, worker, &mut self.second, &mut self.third)?;
        } else if len_at(&self.first) > FEW {
            halve(rt, pool, worker, &mut self.first, &mut self.third)?;
        }
        Ok(())
    }

    /// Pushes each buffer that has items and for which an empty one was found as a replacement.
    pub(crate) fn publish<R: Wait>(
        &mut self,
        rt: &R,
        pool: &Pool<A>,
        worker: &mut Worker<A>,
    ) -> Result<(), Stop>
        requires { MayTrade worker.old pool.now (as_pair self.old) [] }
        ensures pool { worker.new.pool ≡ worker.old.pool }
        ensures publishes { PublishAnswers (as_pair self.old) worker.old.book (as_pair self.new) worker.new.book
            result }
        ensures nothing { pair_items (as_pair self.old) ≡ [] → (as_pair self.new ≡ as_pair self.old)
            × (worker.new ≡ worker.old) × IsOk result }
        ensures of_pool { IfErr result (IsStopOf pool.now) }
    {
        publish_at(rt, pool, worker, &mut self.first, &mut self.third)?;
        publish_at(rt, pool, worker, &mut self.second, &mut self.third)
    }
}
