//! A worker at its pair: it claims objects, puts those that were white into its pair, gives some of these to others,
//! and gets its next object from its pair or from the full stack.

use crate::recently_seen::RecentlySeen;
use buffer_pool::{Pool, Which, Worker};
use std::alloc::Allocator;
use std::sync::Wait;
use work_pair::{Pair, Stop};

mod draining;
mod idle_turns;
mod leading;
mod scanning;

/// A worker and its pair.
#[derive(Drop)]
pub(crate) struct PairedWorker<A: Allocator> {
    pub(crate) worker: Worker<A>,
    pub(crate) pair: Pair<A>,
}

/// The result of opening a pair.
#[derive(Drop)]
pub(crate) enum Opened<A: Allocator> {
    /// The worker at its pair.
    Paired(PairedWorker<A>),
    /// The worker without a pair: two empty buffers were not found.
    Unpaired(Worker<A>),
}

impl<A: Allocator> PairedWorker<A> {
    ghost use Rattle.std.specs.Prelude.{◌≡◌, ◌<◌, ◌↔◌, ◌⊎◌, ◌∷◌, [], ℕ, All, IfErr, IfNone, IfOk};
    ghost use Rattle.std.specs.Prelude.{IfSome, IsTrue, List, OnOk, length};
    ghost use Rattle.mark_core.specs.Events.{IsBusy};
    ghost use Rattle.mark_core.specs.declared.which.Which.TheVariants.{Empty, Full};
    ghost use Rattle.buffer_pool.specs.Calls.{Sees};
    ghost use Rattle.work_pair.specs.CallEffects.{IsStopOf, ShelvesAll};
    ghost use Rattle.work_pair.specs.Moves.{WasSeenEmpty};
    ghost use Rattle.work_pair.specs.PairState.{buffered_items};
    ghost use Rattle.std.specs.Iterator.{AlwaysYields, IsFinite};
    ghost use Rattle.drain.specs.working.AtWork.{AreClaimed, GoesOn, HasAtHand, HasNoneLeft, HasOpened, IsAtWork};
    ghost use Rattle.drain.specs.working.AtWork.{IsClaimed, IsFree, IsPut, IsThrough, MayClaim};
    ghost use Rattle.drain.specs.working.RecentlySeen.{HasSeenAll, IsNoted};
    ghost use Rattle.drain.specs.working.Giving.{GivesSome, Offers, PutsAgain, Unspills};
    ghost use Rattle.drain.specs.working.Walk.{HasEnded};

    /// Opens a pair for `worker`, which has none yet. Returns `Unpaired` if there are not two empty buffers.
    pub(crate) fn open<R: Wait>(
        rt: &R,
        alloc: A,
        pool: &Pool<A>,
        worker: Worker<A>,
    ) -> Result<Opened<A>, Stop>
        requires pool { worker.pool ≡ pool.now }
        requires free { IsFree worker }
        requires busy { IsBusy worker.book.account }
        ensures opened { IfOk result (HasOpened worker) }
        ensures of_pool { IfErr result (IsStopOf pool.now) }
    {
        let mut worker = worker;
        match Pair::open(rt, alloc, pool, &mut worker)? {
            Some(pair) => Ok(Opened::Paired(PairedWorker { worker, pair })),
            None => Ok(Opened::Unpaired(worker)),
        }
    }

    /// Opens a pair for `worker`, which has none yet, or a bare one if there are not two empty buffers.
    fn open_or_bare<R: Wait>(
        rt: &R,
        alloc: A,
        pool: &Pool<A>,
        worker: Worker<A>,
    ) -> Result<PairedWorker<A>, Stop>
    where
        A: Copy,
        requires pool { worker.pool ≡ pool.now }
        requires free { IsFree worker }
        requires busy { IsBusy worker.book.account }
        ensures opened { IfOk result (λ p. GoesOn worker p.worker × IsAtWork p.pair [] p.worker) }
        ensures of_pool { IfErr result (IsStopOf pool.now) }
    {
        match PairedWorker::open(rt, alloc, pool, worker)? {
            Opened::Paired(paired) => Ok(paired),
            Opened::Unpaired(worker) => Ok(PairedWorker::bare(alloc, worker)),
        }
    }

    /// Returns `worker` with a pair without buffers: what it puts goes to its spill list until it finds an empty
    /// buffer.
    fn bare(alloc: A, worker: Worker<A>) -> PairedWorker<A>
        requires free { IsFree worker }
        requires busy { IsBusy worker.book.account }
        ensures { (result.worker ≡ worker) × IsAtWork result.pair [] result.worker }
    {
        PairedWorker {
            worker,
            pair: Pair::bare(alloc),
        }
    }

    /// Claims `object`. Returns whether it was white: then the worker has it at hand.
    // Inlined with its callers into the loop over what an object refers to: as a call it would save registers and pass
    // its result on for each reference.
    #[inline(always)]
    fn claim(&mut self, pool: &Pool<A>, object: u32) -> bool
        requires pool { self.old.worker.pool ≡ pool.now }
        requires may { (besides : List ℕ) × IsAtWork self.old.pair besides self.old.worker
            × MayClaim self.old.worker.book.setup besides object }
        ensures claimed { IsClaimed object self.old.pair self.old.worker self.new.pair self.new.worker result }
        ensures pair { self.new.pair ≡ self.old.pair }
    {
        pool.claim(&mut self.worker, object)
    }

    /// Claims `object` unless the worker recently saw it marked: then a claim would change nothing. Returns whether it
    /// was white: then the worker has it at hand.
    // Inlined, as `claim` is. It does not wait, so the toolchain tests no byte after it. Most claims are of marked
    // objects, which are not put.
    #[inline(always)]
    fn claim_unless_seen(&mut self, pool: &Pool<A>, seen: &mut RecentlySeen, object: u32) -> bool
        requires pool { self.old.worker.pool ≡ pool.now }
        requires may { (besides : List ℕ) × IsAtWork self.old.pair besides self.old.worker
            × MayClaim self.old.worker.book.setup besides object }
        requires seen { HasSeenAll seen.old self.old.worker }
        ensures claimed { IsClaimed object self.old.pair self.old.worker self.new.pair self.new.worker result }
        ensures pair { self.new.pair ≡ self.old.pair }
        ensures seen { HasSeenAll seen.new self.new.worker }
        ensures unless { IsNoted seen.old object → (self.new ≡ self.old) × (seen.new ≡ seen.old) }
        ensures noted { IsNoted seen.new object }
    {
        if seen.has(object) {
            return false;
        }
        let white = self.claim(pool, object);
        seen.note(object);
        white
    }

    /// Puts `object`, which the worker has at hand, into the pair.
    // Inlined, as `claim` is.
    #[inline(always)]
    fn put<R: Wait>(&mut self, rt: &R, pool: &Pool<A>, object: u32) -> Result<(), Stop>
        requires pool { self.old.worker.pool ≡ pool.now }
        requires at_hand { (besides : List ℕ) × IsAtWork self.old.pair (object ∷ besides) self.old.worker }
        ensures put { OnOk result (IsPut object self.old.pair self.old.worker self.new.pair self.new.worker) }
        ensures of_pool { IfErr result (IsStopOf pool.now) }
    {
        match self.pair.put(rt, pool, &mut self.worker, object) {
            Ok(()) => Ok(()),
            Err((_, stop)) => Err(stop),
        }
    }

    /// Claims each object of `objects` unless the worker recently saw it marked, and puts those that were white into
    /// the pair.
    // Inlined, so that references of each kind have a loop of their own.
    #[inline(always)]
    fn claim_all<R: Wait, I: Iterator<Item = u32> + Drop>(
        &mut self,
        rt: &R,
        pool: &Pool<A>,
        seen: &mut RecentlySeen,
        objects: &mut I,
    ) -> Result<(), Stop>
        requires pool { self.old.worker.pool ≡ pool.now }
        requires can { I.can_next objects.old }
        requires ends { IsFinite (I.remaining objects.old) }
        requires may { (given : List ℕ) × (besides : List ℕ) × AlwaysYields I.next_gives (λ o. o) objects.old given
            × IsAtWork self.old.pair besides self.old.worker
            × All (MayClaim self.old.worker.book.setup besides) given }
        requires seen { HasSeenAll seen.old self.old.worker }
        ensures claimed { OnOk result ((given : List ℕ) → AlwaysYields I.next_gives (λ o. o) objects.old given
            → AreClaimed given self.old.pair self.old.worker self.new.pair self.new.worker) }
        ensures ended { OnOk result (HasEnded I.next_gives objects.old objects.new) }
        ensures seen { OnOk result (HasSeenAll seen.new self.new.worker) }
        ensures of_pool { IfErr result (IsStopOf pool.now) }
    {
        while let Some(object) = objects.next() {
            if self.claim_unless_seen(pool, seen, object) {
                self.put(rt, pool, object)?;
            }
        }
        Ok(())
    }

    /// Gives what is in the pair's buffers to others, as long as empty buffers are found to replace them.
    pub(crate) fn publish<R: Wait>(&mut self, rt: &R, pool: &Pool<A>) -> Result<(), Stop>
        requires pool { self.old.worker.pool ≡ pool.now }
        requires at_work { IsAtWork self.old.pair [] self.old.worker }
        ensures goes_on { OnOk result (GoesOn self.old.worker self.new.worker) }
        ensures at_work { OnOk result (IsAtWork self.new.pair [] self.new.worker) }
        ensures given { OnOk result
            (WasSeenEmpty Empty self.old.worker.book self.new.worker.book ⊎ (buffered_items self.new.pair ≡ [])) }
        ensures of_pool { IfErr result (IsStopOf pool.now) }
    {
        self.pair.publish(rt, pool, &mut self.worker)
    }

    /// Puts the last spilled object into the pair again. Returns false if the object is spilled again, because no empty
    /// buffer was found for it.
    fn unspill_one<R: Wait>(&mut self, rt: &R, pool: &Pool<A>) -> Result<bool, Stop>
        requires pool { self.old.worker.pool ≡ pool.now }
        requires at_work { IsAtWork self.old.pair [] self.old.worker }
        requires some { 0 < length self.old.pair.spill }
        ensures goes_on { OnOk result (GoesOn self.old.worker self.new.worker) }
        ensures at_work { OnOk result (IsAtWork self.new.pair [] self.new.worker) }
        ensures again { OnOk result (PutsAgain self.old.pair self.old.worker.book self.new.pair self.new.worker.book) }
        ensures fewer { IfOk result (λ fewer. IsTrue fewer ↔ length self.new.pair.spill < length self.old.pair.spill) }
        ensures of_pool { IfErr result (IsStopOf pool.now) }
    {
        let spilled = self.pair.spilled();
        let Some(object) = self.pair.get(rt, pool, &mut self.worker)? else {
            unreachable!();
        };
        match self.pair.put(rt, pool, &mut self.worker, object) {
            Ok(()) => Ok(self.pair.spilled() < spilled),
            Err((_, stop)) => Err(stop),
        }
    }

    /// Puts the spilled objects into buffers until none is spilled, or no empty buffer is found for one. Pushes full
    /// buffers on the full stack.
    fn unspill<R: Wait>(&mut self, rt: &R, pool: &Pool<A>) -> Result<(), Stop>
        requires pool { self.old.worker.pool ≡ pool.now }
        requires at_work { IsAtWork self.old.pair [] self.old.worker }
        ensures goes_on { OnOk result (GoesOn self.old.worker self.new.worker) }
        ensures at_work { OnOk result (IsAtWork self.new.pair [] self.new.worker) }
        ensures unspills { OnOk result (Unspills self.old.pair self.old.worker.book
            self.new.pair self.new.worker.book) }
        ensures of_pool { IfErr result (IsStopOf pool.now) }
    {
        while self.pair.spilled() > 0 {
            if !self.unspill_one(rt, pool)? {
                return Ok(());
            }
        }
        Ok(())
    }

    /// Puts the spilled objects into buffers again, and then gives a buffer with items to others, if the pair has
    /// enough items and an empty buffer is found.
    // Not inlined, so that the many turns in which nothing is given neither save registers for it nor clear its locals.
    #[inline(never)]
    fn give<R: Wait>(&mut self, rt: &R, pool: &Pool<A>) -> Result<(), Stop>
        requires pool { self.old.worker.pool ≡ pool.now }
        requires at_work { IsAtWork self.old.pair [] self.old.worker }
        ensures goes_on { OnOk result (GoesOn self.old.worker self.new.worker) }
        ensures at_work { OnOk result (IsAtWork self.new.pair [] self.new.worker) }
        ensures gives { OnOk result (GivesSome self.old.pair self.old.worker.book self.new.pair self.new.worker.book) }
        ensures of_pool { IfErr result (IsStopOf pool.now) }
    {
        self.unspill(rt, pool)?;
        self.pair.balance(rt, pool, &mut self.worker)
    }

    /// Tests whether the full stack is seen empty: then others may have nothing to scan.
    // Inlined: only this load is made in each turn of the worker's loop. It does not wait, so the toolchain tests no
    // byte after it.
    #[inline(always)]
    fn others_want(&mut self, pool: &Pool<A>) -> bool
        requires { self.old.worker.pool ≡ pool.now }
        ensures goes_on { GoesOn self.old.worker self.new.worker }
        ensures pair { self.new.pair ≡ self.old.pair }
        ensures at_work { IsAtWork self.old.pair [] self.old.worker → IsAtWork self.new.pair [] self.new.worker }
        ensures sees { Sees Full self.old.worker.book self.new.worker.book result }
    {
        pool.sees_empty(&mut self.worker, Which::Full)
    }

    /// Calls [`give`](Self::give) if the full stack is seen empty.
    fn offer<R: Wait>(&mut self, rt: &R, pool: &Pool<A>) -> Result<(), Stop>
        requires pool { self.old.worker.pool ≡ pool.now }
        requires at_work { IsAtWork self.old.pair [] self.old.worker }
        ensures goes_on { OnOk result (GoesOn self.old.worker self.new.worker) }
        ensures at_work { OnOk result (IsAtWork self.new.pair [] self.new.worker) }
        ensures offers { OnOk result (Offers self.old.pair self.old.worker.book self.new.pair self.new.worker.book) }
        ensures of_pool { IfErr result (IsStopOf pool.now) }
    {
        if !self.others_want(pool) {
            return Ok(());
        }
        self.give(rt, pool)
    }

    /// Returns the buffers of a pair without items to the pool, and returns its worker.
    pub(crate) fn close<R: Wait>(self, rt: &R, pool: &Pool<A>) -> Result<Worker<A>, Stop>
        requires pool { self.worker.pool ≡ pool.now }
        requires hand { HasAtHand self.pair [] self.worker }
        requires none { HasNoneLeft self.pair self.worker }
        ensures through { IfOk result (IsThrough self.worker) }
        ensures finished { IfOk result (λ w. w.book.account.finished ≡ self.worker.book.account.finished) }
        ensures idle { IfOk result (λ w. w.book.account.idle ≡ self.worker.book.account.idle) }
        ensures shelved { IfOk result (λ w. ShelvesAll self.pair self.worker.book w.book) }
        ensures of_pool { IfErr result (IsStopOf pool.now) }
    {
        let PairedWorker { mut worker, pair } = self;
        match pair.dispose(rt, pool, &mut worker) {
            Ok(()) => Ok(worker),
            Err((_held, stop)) => Err(stop),
        }
    }
}
