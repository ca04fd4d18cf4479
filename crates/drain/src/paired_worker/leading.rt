//! The leader's work before it starts the workers and after they have ended.

use crate::hooks::Gate;
use crate::job::Job;
use crate::paired_worker::PairedWorker;
use crate::tally::{TalliedWorker, Tally};
use crate::walk::Walk;
use buffer_pool::{Pool, Worker};
use std::alloc::Allocator;
use std::sync::Wait;
use work_pair::Stop;

impl<A: Allocator> PairedWorker<A> {
    ghost use Rattle.std.specs.Prelude.{◌≡◌, [], IfErr, IfOk, OnOk};
    ghost use Rattle.mark_core.specs.Events.{IsBusy};
    ghost use Rattle.work_pair.specs.CallEffects.{IsStopOf};
    ghost use Rattle.drain.specs.working.AtWork.{GoesOn, HasGiven, IsAtWork, IsFree, IsThrough, SawRoots};
    ghost use Rattle.drain.specs.working.Jobs.{IsOnJob};
    ghost use Rattle.drain.specs.working.Tallying.{HasTallied};

    /// Claims each of `roots`, and puts those that were white into the pair.
    fn claim_roots<R: Wait>(&mut self, rt: &R, pool: &Pool<A>, roots: &[u32]) -> Result<(), Stop>
        requires pool { self.old.worker.pool ≡ pool.now }
        requires roots { roots.now ≡ self.old.worker.book.setup.roots }
        requires at_work { IsAtWork self.old.pair [] self.old.worker }
        ensures goes_on { OnOk result (GoesOn self.old.worker self.new.worker) }
        ensures at_work { OnOk result (IsAtWork self.new.pair [] self.new.worker) }
        ensures saw { OnOk result (SawRoots self.new.worker) }
        ensures of_pool { IfErr result (IsStopOf pool.now) }
    {
        for root in roots {
            if self.claim(pool, *root) {
                self.put(rt, pool, *root)?;
            }
        }
        Ok(())
    }

    /// Claims each of `roots`, and then gives what is in the pair's buffers to others, as long as empty buffers are
    /// found to replace them.
    fn begin<R: Wait>(&mut self, rt: &R, pool: &Pool<A>, roots: &[u32]) -> Result<(), Stop>
        requires pool { self.old.worker.pool ≡ pool.now }
        requires roots { roots.now ≡ self.old.worker.book.setup.roots }
        requires at_work { IsAtWork self.old.pair [] self.old.worker }
        ensures goes_on { OnOk result (GoesOn self.old.worker self.new.worker) }
        ensures at_work { OnOk result (IsAtWork self.new.pair [] self.new.worker) }
        ensures saw { OnOk result (SawRoots self.new.worker) }
        ensures given { OnOk result (HasGiven self.new.pair self.new.worker) }
        ensures of_pool { IfErr result (IsStopOf pool.now) }
    {
        self.claim_roots(rt, pool, roots)?;
        self.publish(rt, pool)
    }

    /// Opens a pair for `leader`, or a bare one if there are not two empty buffers, claims `roots`, and gives them to
    /// others. Returns the leader with its pair.
    pub(crate) fn open_and_begin<R: Wait>(
        rt: &R,
        alloc: A,
        pool: &Pool<A>,
        roots: &[u32],
        leader: Worker<A>,
    ) -> Result<PairedWorker<A>, Stop>
    where
        A: Copy,
        requires pool { leader.pool ≡ pool.now }
        requires roots { roots.now ≡ leader.book.setup.roots }
        requires free { IsFree leader }
        requires busy { IsBusy leader.book.account }
        ensures goes_on { IfOk result (λ p. GoesOn leader p.worker) }
        ensures at_work { IfOk result (λ p. IsAtWork p.pair [] p.worker) }
        ensures saw { IfOk result (λ p. SawRoots p.worker) }
        ensures given { IfOk result (λ p. HasGiven p.pair p.worker) }
        ensures of_pool { IfErr result (IsStopOf pool.now) }
    {
        let mut paired = PairedWorker::open_or_bare(rt, alloc, pool, leader)?;
        paired.begin(rt, pool, roots)?;
        Ok(paired)
    }

    /// Scans until no object is left, and returns the buffers to the pool.
    pub(crate) fn end<R: Wait, V: Walk, G: Gate, S>(
        self,
        rt: &R,
        job: &Job<'_, A, V, G, S>,
        tally: Tally<A>,
    ) -> Result<TalliedWorker<A>, Stop>
        requires { IsOnJob V.count V.roots V.pairs V.measure job.now [] self tally }
        ensures through { IfOk result (λ t. IsThrough self.worker t.worker) }
        ensures tally { IfOk result (λ t. HasTallied (V.measure job.now.graph.now) t.worker t.tally) }
        ensures of_pool { IfErr result (IsStopOf job.now.pool.now) }
    {
        let mut paired = self;
        let mut tally = tally;
        paired.drain(rt, job, job.workers, &mut tally)?;
        paired.leave(rt, job.pool, tally)
    }
}
