//! A worker scans an object that it has at hand: it claims what the object refers to, finishes it, and counts it.

use crate::hooks::Gate;
use crate::job::Job;
use crate::paired_worker::PairedWorker;
use crate::recently_seen::RecentlySeen;
use crate::tally::Tally;
use crate::walk::{Reads, Walk};
use buffer_pool::Pool;
use heap_graph::ByKind;
use std::alloc::Allocator;
use std::sync::Wait;
use work_pair::Stop;

impl<A: Allocator> PairedWorker<A> {
    ghost use Rattle.std.specs.Prelude.{◌≡◌, ◌<◌, ◌↔◌, ◌∷◌, ◌++◌, [], ℕ, All, Contains, IfOk, List, OnOk, false};
    ghost use Rattle.std.specs.Prelude.{IfErr, option_to_list};
    ghost use Rattle.work_pair.specs.CallEffects.{IsStopOf};
    ghost use Rattle.std.specs.Iterator.{AlwaysYields, IsFinite};
    ghost use Rattle.drain.specs.working.AtWork.{AreClaimed, HasNoneLeft, IsAtWork, MayClaim, WorksOn};
    ghost use Rattle.drain.specs.working.Jobs.{HasScanned, IsOnJob, ScansNext};
    ghost use Rattle.drain.specs.working.RecentlySeen.{HasSeenAll};
    ghost use Rattle.drain.specs.working.Walk.{HasEnded, IsGiven};

    /// Claims the object in `known`, if there is one, unless the worker recently saw it marked, and puts it into the
    /// pair if it was white.
    // Inlined, as `claim` is.
    #[inline(always)]
    fn claim_known<R: Wait>(
        &mut self,
        rt: &R,
        pool: &Pool<A>,
        seen: &mut RecentlySeen,
        known: Option<u32>,
    ) -> Result<(), Stop>
        requires pool { self.old.worker.pool ≡ pool.now }
        requires may { (besides : List ℕ) × IsAtWork self.old.pair besides self.old.worker
            × All (MayClaim self.old.worker.book.setup besides) (option_to_list known) }
        requires seen { HasSeenAll seen.old self.old.worker }
        ensures claimed { OnOk result (AreClaimed (option_to_list known) self.old.pair self.old.worker
            self.new.pair self.new.worker) }
        ensures seen { OnOk result (HasSeenAll seen.new self.new.worker) }
        ensures of_pool { IfErr result (IsStopOf pool.now) }
    {
        let Some(object) = known else {
            return Ok(());
        };
        if self.claim_unless_seen(pool, seen, object) {
            self.put(rt, pool, object)?;
        }
        Ok(())
    }

    /// Scans `object`, which is at hand: claims all that it refers to, finishes it, and adds it to `tally`. `given` are
    /// the object's references: its class, if that is known without a look-up, and an iterator over the others.
    // Inlined, so that references of each kind have a loop of their own.
    #[inline(always)]
    fn scan<R: Wait, V: Walk, G: Gate, S, I: Reads>(
        &mut self,
        rt: &R,
        job: &Job<'_, A, V, G, S>,
        object: u32,
        given: (Option<u32>, I),
        seen: &mut RecentlySeen,
        tally: &mut Tally<A>,
    ) -> Result<(), Stop>
        requires on_job { IsOnJob V.count V.roots V.pairs V.measure job.now (object ∷ []) self.old tally.old }
        requires below { object < V.count job.now.graph.now }
        requires given { IsGiven I.can_next I.next_gives I.remaining I.read_so_far
            (λ next. Contains (V.pairs job.now.graph.now) (object, next)) (V.measure job.now.graph.now) object
            given.0 given.1 }
        requires seen { HasSeenAll seen.old self.old.worker }
        ensures scanned { OnOk result (HasScanned (V.measure job.now.graph.now) self.old self.new seen.new tally.new) }
        ensures finished { OnOk result (self.new.worker.book.account.finished
            ≡ self.old.worker.book.account.finished ++ object ∷ []) }
        ensures of_pool { IfErr result (IsStopOf job.now.pool.now) }
    {
        let (class, mut rest) = given;
        self.claim_known(rt, job.pool, seen, class)?;
        self.claim_all(rt, job.pool, seen, &mut rest)?;
        job.pool.finish(&mut self.worker, object);
        self.worker.recall_few_finished();
        job.graph.recall_measure();
        tally.add(rest.read());
        Ok(())
    }

    /// Scans `object`, which is at hand, by a visit that yields the references of any kind of object.
    // Not inlined, so that the worker's loop has no locals for the few objects that need such a visit.
    #[inline(never)]
    fn scan_any<R: Wait, V: Walk, G: Gate, S>(
        &mut self,
        rt: &R,
        job: &Job<'_, A, V, G, S>,
        object: u32,
        seen: &mut RecentlySeen,
        tally: &mut Tally<A>,
    ) -> Result<(), Stop>
        requires on_job { IsOnJob V.count V.roots V.pairs V.measure job.now (object ∷ []) self.old tally.old }
        requires below { object < V.count job.now.graph.now }
        requires seen { HasSeenAll seen.old self.old.worker }
        ensures scanned { OnOk result (HasScanned (V.measure job.now.graph.now) self.old self.new seen.new tally.new) }
        ensures finished { OnOk result (self.new.worker.book.account.finished
            ≡ self.old.worker.book.account.finished ++ object ∷ []) }
        ensures of_pool { IfErr result (IsStopOf job.now.pool.now) }
    {
        let visit = job.graph.visit(object);
        self.scan(rt, job, object, (None, visit), seen, tally)
    }

    /// Scans `object`, which is at hand.
    // Inlined, so that the worker's loop itself goes to the loop for references of the object's kind.
    #[inline(always)]
    fn scan_one<R: Wait, V: Walk, G: Gate, S>(
        &mut self,
        rt: &R,
        job: &Job<'_, A, V, G, S>,
        object: u32,
        seen: &mut RecentlySeen,
        tally: &mut Tally<A>,
    ) -> Result<(), Stop>
        requires on_job { IsOnJob V.count V.roots V.pairs V.measure job.now (object ∷ []) self.old tally.old }
        requires below { object < V.count job.now.graph.now }
        requires seen { HasSeenAll seen.old self.old.worker }
        ensures scanned { OnOk result (HasScanned (V.measure job.now.graph.now) self.old self.new seen.new tally.new) }
        ensures finished { OnOk result (self.new.worker.book.account.finished
            ≡ self.old.worker.book.account.finished ++ object ∷ []) }
        ensures of_pool { IfErr result (IsStopOf job.now.pool.now) }
    {
        match job.graph.visit(object).by_kind() {
            ByKind::Nothing(class, rest) => self.scan(rt, job, object, (class, rest), seen, tally),
            ByKind::Fields(class, rest) => self.scan(rt, job, object, (class, rest), seen, tally),
            ByKind::Elements(class, rest) => self.scan(rt, job, object, (class, rest), seen, tally),
            ByKind::Any => self.scan_any(rt, job, object, seen, tally),
        }
    }

    /// Scans the next object of the pair or of the full stack: claims what it refers to, finishes it, and adds it to
    /// `tally`. Returns false if neither has an object.
    // Inlined into the loop of a worker, so that what the loop knows of the graph stays in registers.
    #[inline(always)]
    pub(super) fn scan_next<R: Wait, V: Walk, G: Gate, S>(
        &mut self,
        rt: &R,
        job: &Job<'_, A, V, G, S>,
        number: u32,
        seen: &mut RecentlySeen,
        tally: &mut Tally<A>,
    ) -> Result<bool, Stop>
        requires on_job { IsOnJob V.count V.roots V.pairs V.measure job.now [] self.old tally.old }
        requires seen { HasSeenAll seen.old self.old.worker }
        ensures scanned { OnOk result (HasScanned (V.measure job.now.graph.now) self.old self.new seen.new tally.new) }
        ensures scans { IfOk result (ScansNext self.old self.new) }
        ensures none { IfOk result (λ more. more ≡ false → HasNoneLeft self.new.pair self.new.worker) }
        ensures of_pool { IfErr result (IsStopOf job.now.pool.now) }
    {
        let Some(object) = self.pair.get(rt, job.pool, &mut self.worker)? else {
            return Ok(false);
        };
        self.worker.recall_within();
        job.gate.before_scan(number, object);
        self.scan_one(rt, job, object, seen, tally)?;
        Ok(true)
    }
}
