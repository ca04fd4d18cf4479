//! The leader before it starts its workers.

ghost use Rattle.std.specs.Prelude.{◌≡◌, ◌≤◌, [], IfErr, IfOk, vec_capacity, vec_len};
ghost use Rattle.mark_core.specs.Events.{IsBusy};
ghost use Rattle.drain.specs.Stops.{IsFaultFrom};
ghost use Rattle.drain.specs.working.AtWork.{GoesOn, HasGiven, IsAtWork, IsFree, IsSetupOf, SawRoots};
ghost use Rattle.drain.specs.working.Tallying.{AreTalliesOfNone, HasTallied};

use crate::job::Job;
use crate::marked::RunFault;
use crate::measured::Measured;
use crate::paired_worker::PairedWorker;
use crate::supplies::{Supplies, supplies_of};
use crate::walk::Walk;
use buffer_pool::Worker;
use std::alloc::Allocator;
use std::sync::Wait;

/// A leader that has claimed the roots and given them to others, and the memory for its workers.
#[derive(Drop)]
pub(crate) struct PreparedLeader<A: Allocator, V: Measured> {
    /// The leader with its pair.
    pub(crate) paired: PairedWorker<A>,
    /// Room for its workers, and the tallies.
    pub(crate) supplies: Supplies<A, V>,
}

/// Allocates the memory for the workers of `job`; then `leader` claims the roots and gives them to others. The leader's
/// tally is of no object.
#[tactic(auto, using(crate::proofs::Tokens::of_memory, crate::proofs::Tokens::of_stop))]
pub(crate) fn prepare_leader<T: Wait, A: Allocator + Copy, V: Walk, G, S>(
    rt: &T,
    job: &Job<'_, A, V, G, S>,
    leader: Worker<A>,
) -> Result<PreparedLeader<A, V>, RunFault>
    requires pool { leader.pool ≡ job.now.pool.now }
    requires setup { IsSetupOf (V.count job.now.graph.now) (V.roots job.now.graph.now) (V.pairs job.now.graph.now)
        leader.book.setup }
    requires free { IsFree leader }
    requires busy { IsBusy leader.book.account }
    requires none { leader.book.account.finished ≡ [] }
    ensures goes_on { IfOk result (λ r. GoesOn leader r.paired.worker) }
    ensures at_work { IfOk result (λ r. IsAtWork r.paired.pair [] r.paired.worker) }
    ensures saw { IfOk result (λ r. SawRoots r.paired.worker) }
    ensures given { IfOk result (λ r. HasGiven r.paired.pair r.paired.worker) }
    ensures room { IfOk result (λ r. (vec_len r.supplies.threads ≡ 0)
        × (job.now.workers ≤ vec_capacity r.supplies.threads)) }
    ensures back { IfOk result (λ r. (vec_len r.supplies.back ≡ 0)
        × (job.now.workers ≤ vec_capacity r.supplies.back)) }
    ensures tallies { IfOk result (λ r. (job.now.workers ≤ vec_len r.supplies.tallies)
        × AreTalliesOfNone (V.measure job.now.graph.now) r.supplies.tallies.items) }
    ensures tally { IfOk result (λ r. HasTallied (V.measure job.now.graph.now) r.paired.worker r.supplies.tally) }
    ensures of_pool { IfErr result (IsFaultFrom job.now.pool.now.first_tag) }
{
    let supplies = supplies_of(job)?;
    let paired = PairedWorker::open_and_begin(rt, job.alloc, job.pool, job.graph.roots(), leader)?;
    Ok(PreparedLeader { paired, supplies })
}
