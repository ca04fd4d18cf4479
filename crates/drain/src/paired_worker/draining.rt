//! The loops in which a worker, or the leader, scans until nothing is left.

use crate::hooks::Gate;
use crate::job::Job;
use crate::paired_worker::PairedWorker;
use crate::recently_seen::RecentlySeen;
use crate::tally::{TalliedWorker, Tally};
use crate::walk::Walk;
use buffer_pool::Pool;
use std::alloc::Allocator;
use std::sync::Wait;
use work_pair::Stop;

impl<A: Allocator> PairedWorker<A> {
    ghost use Rattle.std.specs.Prelude.{◌≡◌, [], IfErr, IfOk, OnOk};
    ghost use Rattle.work_pair.specs.CallEffects.{IsStopOf, ShelvesAll};
    ghost use Rattle.drain.specs.declared.paired_worker.PairedWorker.{PairedWorker};
    ghost use Rattle.drain.specs.working.AtWork.{CameFrom, HasAtHand, HasNoneLeft, IsAtWork, IsThrough, WorksOn};
    ghost use Rattle.drain.specs.working.Idle.{IsAwake};
    ghost use Rattle.drain.specs.working.Jobs.{HasWorkedOff, IsOnJob};
    ghost use Rattle.drain.specs.working.Tallies.{Measure};
    ghost use Rattle.drain.specs.working.Tallying.{HasTallied};

    /// Scans until no object is found, waits for more, and scans again. Returns when all workers are idle, or after it
    /// waited long enough in vain. At the beginning and after each scan, gives some of its objects to others if the
    /// full stack is seen empty.
    // Not inlined, so that what a turn uses is in one function and shares registers with no other. A thread calls it
    // only once.
    #[inline(never)]
    pub(crate) fn work_off<R: Wait, V: Walk, G: Gate, S>(
        &mut self,
        rt: &R,
        job: &Job<'_, A, V, G, S>,
        number: u32,
        tally: &mut Tally<A>,
    ) -> Result<(), Stop>
        requires on_job { IsOnJob V.count V.roots V.pairs V.measure job.now [] self.old tally.old }
        requires awake { IsAwake self.old.worker }
        ensures came { OnOk result (CameFrom self.old.worker self.new.worker) }
        ensures hand { OnOk result (HasAtHand self.new.pair [] self.new.worker) }
        ensures tally { OnOk result (HasTallied (V.measure job.now.graph.now) self.new.worker tally.new) }
        ensures none { OnOk result (HasNoneLeft self.new.pair self.new.worker) }
        ensures idle { OnOk result (self.new.worker.book.account.idle ≡ 1) }
        ensures worked { OnOk result (HasWorkedOff job.now.workers self.old self.new) }
        ensures of_pool { IfErr result (IsStopOf job.now.pool.now) }
    {
        let mut seen = RecentlySeen::new();
        self.offer(rt, job.pool)?;
        for _ in rt.forever() {
            if self.scan_next(rt, job, number, &mut seen, tally)? {
                // Like `offer`, but a turn that gives nothing makes no call that may wait, and so tests no byte.
                if self.others_want(job.pool) {
                    self.give(rt, job.pool)?;
                }
            } else if !self.finds_more(rt, job.pool, job.workers) {
                return Ok(());
            }
        }
        unreachable!()
    }

    /// Calls [`work_off`](Self::work_off) as worker `number`, and returns the buffers to the pool.
    pub(crate) fn work<R: Wait, V: Walk, G: Gate, S>(
        self,
        rt: &R,
        job: &Job<'_, A, V, G, S>,
        number: u32,
        tally: Tally<A>,
    ) -> Result<TalliedWorker<A>, Stop>
        requires on_job { IsOnJob V.count V.roots V.pairs V.measure job.now [] self tally }
        requires awake { IsAwake self.worker }
        ensures through { IfOk result (λ t. IsThrough self.worker t.worker) }
        ensures tally { IfOk result (λ t. HasTallied (V.measure job.now.graph.now) t.worker t.tally) }
        ensures worked { IfOk result (λ t. (last : PairedWorker A) × HasWorkedOff job.now.workers self last
            × ShelvesAll last.pair last.worker.book t.worker.book) }
        ensures of_pool { IfErr result (IsStopOf job.now.pool.now) }
    {
        let mut paired = self;
        let mut tally = tally;
        paired.work_off(rt, job, number, &mut tally)?;
        paired.leave(rt, job.pool, tally)
    }

    /// Returns the buffers of a pair without items to the pool, and returns its worker with `tally`.
    pub(super) fn leave<R: Wait>(
        self,
        rt: &R,
        pool: &Pool<A>,
        tally: Tally<A>,
    ) -> Result<TalliedWorker<A>, Stop>
        requires pool { self.worker.pool ≡ pool.now }
        requires hand { HasAtHand self.pair [] self.worker }
        requires none { HasNoneLeft self.pair self.worker }
        ensures through { IfOk result (λ t. IsThrough self.worker t.worker) }
        ensures shelved { IfOk result (λ t. ShelvesAll self.pair self.worker.book t.worker.book) }
        ensures tally { IfOk result (λ t. (m : Measure) → HasTallied m self.worker tally
            → HasTallied m t.worker t.tally) }
        ensures of_pool { IfErr result (IsStopOf pool.now) }
    {
        let worker = self.close(rt, pool)?;
        Ok(TalliedWorker { worker, tally })
    }

    /// Scans until no object is left.
    pub(crate) fn drain<R: Wait, V: Walk, G: Gate, S>(
        &mut self,
        rt: &R,
        job: &Job<'_, A, V, G, S>,
        number: u32,
        tally: &mut Tally<A>,
    ) -> Result<(), Stop>
        requires on_job { IsOnJob V.count V.roots V.pairs V.measure job.now [] self.old tally.old }
        ensures goes_on { OnOk result (WorksOn self.old.worker self.new.worker) }
        ensures at_work { OnOk result (IsAtWork self.new.pair [] self.new.worker) }
        ensures tally { OnOk result (HasTallied (V.measure job.now.graph.now) self.new.worker tally.new) }
        ensures none { OnOk result (HasNoneLeft self.new.pair self.new.worker) }
        ensures of_pool { IfErr result (IsStopOf job.now.pool.now) }
    {
        let mut seen = RecentlySeen::new();
        for _ in rt.forever() {
            if !self.scan_next(rt, job, number, &mut seen, tally)? {
                return Ok(());
            }
        }
        unreachable!()
    }
}
