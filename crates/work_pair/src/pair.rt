//! A worker's pair of buffers.
ghost use Rattle.std.specs.Prelude.{◌≡◌, None};

use crate::buffers::Buffers;
use crate::position::{clear_at, count_at, put_at, take_at};
use crate::steps::pop_one;
use crate::stop::Stop;
use buffer_pool::{Held, Pool, Which, Worker};
use std::alloc::Allocator;
use std::marker::Model;
use std::sync::Wait;

mod spill_list;

use spill_list::SpillList;

/// Two buffers of a worker. Objects are put into the first and got from there. If the first has no room at a put, or no
/// items at a get, the two exchange positions. Buffers with items go to the pool's full stack and come from there; the
/// others go to its empty stack and come from that. An object for which no empty buffer is found goes to the pair's
/// spill list, which takes 4 bytes an object, and doubles when it has no room.
///
/// A call that returns [`Stop::TagSpent`] stops the pair. Then the pair has each buffer that it had or took and did not
/// push. It can be disposed of, measured, or taken apart, but makes no other call. After [`Stop::OutOfMemory`] the pair
/// stays usable.
#[derive(Drop)]
pub struct Pair<A: Allocator> {
    buffers: Buffers<A>,
    /// The objects for which no empty buffer was found.
    spill: SpillList<A>,
    /// Whether a call returned `TagSpent`. Only contracts read this field.
    stopped: bool,
    /// Whether a call returned `OutOfMemory`. `dispose` copies this field, and contracts read it; no branch depends on
    /// it.
    starved: bool,
}

impl<A: Allocator> Model for Pair<A> {
    ghost use Rattle.work_pair.specs.PairState.{PairState};

    ghost Value = { PairState };

    ghost view = { λ p. record {
      first = p.buffers.first;
      second = p.buffers.second;
      third = p.buffers.third;
      spill = p.spill;
      stopped = p.stopped;
      starved = p.starved;
    } };
}

impl<A: Allocator> Pair<A> {
    ghost use Rattle.std.specs.Prelude.{◌≡◌, ◌≢◌, ◌⊎◌, ℕ, true, false, List, [], ◌∷◌, ◌++◌, Some, Ok};
    ghost use Rattle.std.specs.Prelude.{IfErr, IfNone, IfOk, IfSome, IsOk, OnOk, length};
    ghost use Rattle.mark_core.specs.Events.{IsBusy};
    ghost use Rattle.mark_core.specs.declared.which.Which.TheVariants.{Empty, Full};
    ghost use Rattle.work_pair.specs.CallEffects.{Balances, CallEffect, Disposes, Gets, HasMore, IsStopOf, IsTagSpent};
    ghost use Rattle.work_pair.specs.CallEffects.{OpensNone, OpensTwo, PopsNoneFromFull, PublishesBoth, Puts};
    ghost use Rattle.work_pair.specs.CallEffects.{ShelvesAll, TouchesNoFull};
    ghost use Rattle.work_pair.specs.Moves.{FoundNone, WasSeenEmpty};
    ghost use Rattle.work_pair.specs.PairState.{AreAlike, HasRoom, HasStopped, IsBacked, IsNew, IsOpen, PairState};
    ghost use Rattle.work_pair.specs.PairState.{buffered_items, count_at, pair_items, empty_pair};
    ghost use Rattle.work_pair.specs.declared.stop.Stop.TheVariants.{OutOfMemory};

    /// Creates a pair with the buffers `first` and `second`, and nothing spilled.
    fn of(alloc: A, first: Option<Held<A>>, second: Option<Held<A>>) -> Self
        ensures { result ≡ record empty_pair { first = first; second = second } }
    {
        let buffers = Buffers {
            first,
            second,
            third: None,
        };
        Pair {
            buffers,
            spill: SpillList::new(alloc),
            stopped: false,
            starved: false,
        }
    }

    /// Creates a pair with two vacant positions, which count as full when an object is put and as empty when one is
    /// got. Makes no allocation.
    pub fn bare(alloc: A) -> Self
        ensures { result ≡ empty_pair }
    {
        Pair::of(alloc, None, None)
    }

    /// Opens a pair of two empty buffers, which are popped from the empty stack. Returns `None` if there are not two;
    /// if one was popped, it is then pushed back. `Err(Stop::TagSpent)` if a last tag was loaded: then a buffer that
    /// was popped stays held in the worker's account, and nobody can push it. Allocates nothing; the spill list grows
    /// from `alloc` later.
    pub fn open<R: Wait>(
        rt: &R,
        alloc: A,
        pool: &Pool<A>,
        worker: &mut Worker<A>,
    ) -> Result<Option<Pair<A>>, Stop>
        requires pool { worker.old.pool ≡ pool.now }
        requires busy { IsBusy worker.old.book.account }
        ensures pool { worker.new.pool ≡ worker.old.pool }
        ensures opened { IfOk result (λ r. IfSome r (λ p. IsNew p × TouchesNoFull empty_pair worker.old.book p
            worker.new.book)) }
        ensures two { IfOk result (λ r. IfSome r (λ p. OpensTwo worker.old.book p worker.new.book)) }
        ensures none { IfOk result (λ r. IfNone r (TouchesNoFull empty_pair worker.old.book empty_pair worker.new.book
            × WasSeenEmpty Empty worker.old.book worker.new.book)) }
        ensures not_found { IfOk result (λ r. IfNone r (OpensNone worker.old.book worker.new.book)) }
        ensures spent { IfErr result (λ s. IsTagSpent s × ((left : PairState) × (left.stopped ≡ true)
            × TouchesNoFull empty_pair worker.old.book left worker.new.book)) }
        ensures of_pool { IfErr result (IsStopOf pool.now) }
    {
        let Some(first) = pop_one(rt, pool, worker, Which::Empty)? else {
            return Ok(None);
        };
        if let Some(second) = pop_one(rt, pool, worker, Which::Empty)? {
            return Ok(Some(Pair::of(alloc, Some(first), Some(second))));
        }
        let mut position = Some(first);
        clear_at(rt, pool, worker, &mut position)?;
        Ok(None)
    }

    /// Puts `object` into the pair: into one of its buffers if one has room, without a step on the stacks; or else into
    /// a popped empty buffer; or else on the spill list. Returns the object if a last tag was loaded, or if the
    /// list could not grow.
    // Called for each white object, which nearly always goes into the first buffer. So the put into the first buffer is
    // inlined: the toolchain tests a byte after each call that may wait, and an inlined put is no call.
    #[inline]
    pub fn put<R: Wait>(
        &mut self,
        rt: &R,
        pool: &Pool<A>,
        worker: &mut Worker<A>,
        object: u32,
    ) -> Result<(), (u32, Stop)>
        requires pool { worker.old.pool ≡ pool.now }
        requires going { IsOpen self.old }
        requires backed { IsBacked self.old (object ∷ []) worker.old.book }
        requires busy { IsBusy worker.old.book.account }
        ensures pool { worker.new.pool ≡ worker.old.pool }
        ensures put { OnOk result (Puts self.old worker.old.book object self.new worker.new.book) }
        ensures going { OnOk result (IsOpen self.new) }
        ensures room { HasRoom self.old → (worker.new ≡ worker.old) × IsOk result }
        ensures fed { OnOk result (self.new.starved ≡ self.old.starved) }
        ensures back { IfErr result (λ e. (e.0 ≡ object) × (self.new.spill ≡ self.old.spill) × PopsNoneFromFull self.old
            worker.old.book self.new worker.new.book) }
        ensures no_memory { IfErr result (λ e. e.1 ≡ OutOfMemory → IsOpen self.new × AreAlike self.old self.new
            × (self.new.starved ≡ true) × ((effect : CallEffect self.old worker.old.book [] [] self.new worker.new.book)
            × (effect.moves ≡ FoundNone Empty ∷ []))) }
        ensures spent { IfErr result (λ e. IsTagSpent e.1 → (self.new.stopped ≡ true) × (self.new.starved
            ≡ self.old.starved)) }
        ensures of_pool { IfErr result (λ e. IsStopOf pool.now e.1) }
    {
        if put_at(&mut self.buffers.first, object) {
            return Ok(());
        }
        match self.buffers.put_elsewhere(rt, pool, worker, object) {
            Ok(true) => Ok(()),
            Ok(false) => self.spill_over(object),
            Err(stop) => {
                self.stopped = true;
                Err((object, stop))
            }
        }
    }

    /// Gets the last object of the spill list, or else one from the buffers, or else one from a buffer of the full
    /// stack. Returns `None` if the pair has none left and the full stack was seen empty.
    // Called for each object, which nearly always comes from the first buffer. So the get from the first buffer is
    // inlined, for the same reason as in `put`.
    #[inline]
    pub fn get<R: Wait>(
        &mut self,
        rt: &R,
        pool: &Pool<A>,
        worker: &mut Worker<A>,
    ) -> Result<Option<u32>, Stop>
        requires pool { worker.old.pool ≡ pool.now }
        requires going { IsOpen self.old }
        requires backed { IsBacked self.old [] worker.old.book }
        requires busy { IsBusy worker.old.book.account }
        ensures pool { worker.new.pool ≡ worker.old.pool }
        ensures got { IfOk result (λ r. IfSome r (λ o. CallEffect self.old worker.old.book [] (o ∷ []) self.new
            worker.new.book)) }
        ensures none { IfOk result (λ r. IfNone r (CallEffect self.old worker.old.book [] [] self.new worker.new.book
            × (pair_items self.new ≡ []) × WasSeenEmpty Full worker.old.book worker.new.book)) }
        ensures gets { self.old.spill ≡ [] → IfOk result (λ r. Gets self.old worker.old.book r self.new
            worker.new.book) }
        ensures own { pair_items self.old ≢ [] → (worker.new ≡ worker.old) × IsOk result }
        ensures last { (o : ℕ) (rest : List ℕ) → self.old.spill ≡ rest ++ o ∷ [] → (result ≡ Ok (Some o)) × (self.new
            ≡ record self.old { spill = rest }) }
        ensures none_spilled { self.old.spill ≡ [] → self.new.spill ≡ [] }
        ensures fed { self.new.starved ≡ self.old.starved }
        ensures closed { IfOk result (λ r. IfNone r (worker.new.book.account.open_push ≡ false)) }
        ensures found { IfOk result (λ r. IfNone r (worker.new.book.account.found ≡ true)) }
        ensures going { OnOk result (IsOpen self.new) }
        ensures spent { IfErr result (λ s. IsTagSpent s × (self.new.stopped ≡ true) × CallEffect self.old
            worker.old.book [] [] self.new worker.new.book) }
        ensures of_pool { IfErr result (IsStopOf pool.now) }
    {
        if let Some(object) = self.spill.pop() {
            return Ok(Some(object));
        }
        if let Some(object) = take_at(&mut self.buffers.first) {
            return Ok(Some(object));
        }
        let result = self.buffers.get_elsewhere(rt, pool, worker);
        self.stopped = result.is_err();
        result
    }

    /// Gives work to others. If the second buffer has items, pushes it on the full stack. Otherwise, if the first has
    /// more than four items, pushes the lower part of them. Pushes nothing if no empty buffer is found as a
    /// replacement. The spill list stays.
    pub fn balance<R: Wait>(
        &mut self,
        rt: &R,
        pool: &Pool<A>,
        worker: &mut Worker<A>,
    ) -> Result<(), Stop>
        requires pool { worker.old.pool ≡ pool.now }
        requires going { IsOpen self.old }
        requires backed { IsBacked self.old [] worker.old.book }
        requires busy { IsBusy worker.old.book.account }
        ensures pool { worker.new.pool ≡ worker.old.pool }
        ensures balances { OnOk result (Balances self.old worker.old.book self.new worker.new.book) }
        ensures few { (HasMore self.old → ⊥) → (self.new ≡ self.old) × (worker.new ≡ worker.old) × IsOk result }
        ensures spill { (self.new.spill ≡ self.old.spill) × (self.new.starved ≡ self.old.starved) }
        ensures going { OnOk result (IsOpen self.new) }
        ensures spent { IfErr result (λ s. IsTagSpent s × (self.new.stopped ≡ true) × PopsNoneFromFull self.old
            worker.old.book self.new worker.new.book) }
        ensures of_pool { IfErr result (IsStopOf pool.now) }
    {
        let result = self.buffers.balance(rt, pool, worker);
        self.stopped = result.is_err();
        result
    }

    /// Gives the work of the pair's buffers to others: pushes each buffer that has items on the full stack, if an empty
    /// one was found to take its place. Otherwise the buffer stays. The spill list stays.
    pub fn publish<R: Wait>(
        &mut self,
        rt: &R,
        pool: &Pool<A>,
        worker: &mut Worker<A>,
    ) -> Result<(), Stop>
        requires pool { worker.old.pool ≡ pool.now }
        requires going { IsOpen self.old }
        requires backed { IsBacked self.old [] worker.old.book }
        requires busy { IsBusy worker.old.book.account }
        ensures pool { worker.new.pool ≡ worker.old.pool }
        ensures none_left { OnOk result (WasSeenEmpty Empty worker.old.book worker.new.book ⊎ (buffered_items self.new
            ≡ [])) }
        ensures published { OnOk result (CallEffect self.old worker.old.book [] [] self.new worker.new.book) }
        ensures publishes { OnOk result (PublishesBoth self.old worker.old.book self.new worker.new.book) }
        ensures nothing { buffered_items self.old ≡ [] → (self.new ≡ self.old) × (worker.new ≡ worker.old)
            × IsOk result }
        ensures spill { (self.new.spill ≡ self.old.spill) × (self.new.starved ≡ self.old.starved) }
        ensures going { OnOk result (IsOpen self.new) }
        ensures spent { IfErr result (λ s. IsTagSpent s × (self.new.stopped ≡ true) × PopsNoneFromFull self.old
            worker.old.book self.new worker.new.book) }
        ensures of_pool { IfErr result (IsStopOf pool.now) }
    {
        let result = self.buffers.publish(rt, pool, worker);
        self.stopped = result.is_err();
        result
    }

    /// Disposes of the pair: pushes the buffers with items on the full stack and the others on the empty one. If a last
    /// tag was loaded, returns a pair with the buffers that were not pushed. A spill list with objects is given up,
    /// which is allowed only after a stop: its objects stay in the worker's charge, and the pool cannot be closed
    /// before they are finished.
    pub fn dispose<R: Wait>(
        self,
        rt: &R,
        pool: &Pool<A>,
        worker: &mut Worker<A>,
    ) -> Result<(), (Pair<A>, Stop)>
        requires pool { worker.old.pool ≡ pool.now }
        requires backed { IsBacked self [] worker.old.book }
        requires busy { pair_items self ≢ [] → IsBusy worker.old.book.account }
        requires spill { (self.spill ≡ []) ⊎ HasStopped self }
        ensures pool { worker.new.pool ≡ worker.old.pool }
        ensures gone { OnOk result (Disposes self worker.old.book empty_pair worker.new.book) }
        ensures shelved { OnOk result (ShelvesAll self worker.old.book worker.new.book) }
        ensures spent { IfErr result (λ e. IsTagSpent e.1 × (e.0.stopped ≡ true) × (e.0.spill ≡ [])
            × Disposes self worker.old.book e.0 worker.new.book) }
        ensures of_pool { IfErr result (λ e. IsStopOf pool.now e.1) }
    {
        let Pair {
            mut buffers,
            mut spill,
            starved,
            ..
        } = self;
        match buffers.clear(rt, pool, worker) {
            Ok(()) => Ok(()),
            Err(stop) => {
                spill.clear();
                let left = Pair {
                    buffers,
                    spill,
                    stopped: true,
                    starved,
                };
                Err((left, stop))
            }
        }
    }

    /// Returns how many objects each position of the pair has, and `None` for a position without a buffer. The
    /// positions are the first, the second, and the one for what a stopped call left over.
    pub fn lens(&self) -> [Option<u32>; 3]
        ensures { result ≡ count_at self.now.first ∷ count_at self.now.second ∷ count_at self.now.third ∷ [] }
    {
        [
            count_at(&self.buffers.first),
            count_at(&self.buffers.second),
            count_at(&self.buffers.third),
        ]
    }

    /// Returns the buffers of the pair in the order of [`lens`](Self::lens). Drops the spill list; its objects stay in
    /// the worker's charge.
    pub fn into_buffers(self) -> (Option<Held<A>>, Option<Held<A>>, Option<Held<A>>)
        ensures { result ≡ (self.first, self.second, self.third) }
    {
        let Buffers {
            first,
            second,
            third,
        } = self.buffers;
        (first, second, third)
    }
}
