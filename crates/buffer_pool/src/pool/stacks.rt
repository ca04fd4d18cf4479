//! The calls of workers on the two stacks.
ghost use Rattle.std.specs.Prelude.{◌≡◌, ℕ, [], ◌∷◌, Option};
ghost use Rattle.mark_core.specs.Events.{IsBusy, Load};
ghost use Rattle.buffer_pool.specs.Calls.{MayPush, TriesPop, Pops, TriesPush, Pushes, Sees, ended};
ghost use Rattle.buffer_pool.specs.Steps.{PopDid, PushDid, try_pop_steps, try_push_steps};
ghost use Rattle.buffer_pool.specs.WorkerLog.{Did};

use crate::answers::{Popped, TryPopped, TryPushed};
use crate::held::Held;
use crate::pool::Pool;
use crate::pool::head_exchange::load_head;
use crate::pool::try_pop::try_pop;
use crate::pool::try_push::try_push;
use crate::worker::Worker;
use crossbeam_utils::Backoff;
use mark_core::Which;
use std::alloc::Allocator;
use std::sync::Wait;

impl<A: Allocator> Pool<A> {
    /// Tests whether the stack `which` has no buffer, by a load of its head. This is one atomic step, which waits for
    /// nobody.
    pub fn sees_empty(&self, worker: &mut Worker<A>, which: Which) -> bool
        requires { worker.old.pool ≡ self.now }
        ensures pool { worker.new.pool ≡ worker.old.pool }
        ensures sees { Sees which worker.old.book worker.new.book result }
        ensures did { Did worker.old.log (Load which ∷ []) worker.new.log }
    {
        load_head(&self.table.shared, &mut worker.seat, which)
            .index()
            .is_none()
    }

    /// Tries once to take the buffer on top of the stack `which`, for a busy worker. Waits for nobody and does not
    /// allocate. Returns `Empty` for an empty stack, even at the last tag.
    pub fn try_pop(&self, worker: &mut Worker<A>, which: Which) -> TryPopped<Held<A>>
        requires pool { worker.old.pool ≡ self.now }
        requires busy { IsBusy worker.old.book.account }
        ensures pool { worker.new.pool ≡ worker.old.pool }
        ensures pops { TriesPop which worker.old.book worker.new.book result }
        ensures did { Did worker.old.log (try_pop_steps which result) worker.new.log }
    {
        try_pop(&self.table.shared, &mut worker.seat, which)
    }

    /// Tries once to put `held` on the stack `which`. Waits for nobody and does not allocate. The buffer's items must
    /// be part of the worker's charge. A buffer for the empty stack must have no items. For the full stack the worker
    /// must be busy.
    pub fn try_push(
        &self,
        worker: &mut Worker<A>,
        which: Which,
        held: Held<A>,
    ) -> TryPushed<Held<A>>
        requires pool { worker.old.pool ≡ self.now }
        requires may { MayPush which held worker.old.book }
        ensures pool { worker.new.pool ≡ worker.old.pool }
        ensures pushes { TriesPush which held worker.old.book worker.new.book result }
        ensures did { (link : Option ℕ) × Did worker.old.log (try_push_steps which held link result) worker.new.log }
    {
        try_push(&self.table.shared, &mut worker.seat, which, held)
    }

    /// Tries to take the buffer on top of the stack `which`, for a busy worker, until a try is not lost.
    pub fn pop<R: Wait>(&self, rt: &R, worker: &mut Worker<A>, which: Which) -> Popped<Held<A>>
        requires pool { worker.old.pool ≡ self.now }
        requires busy { IsBusy worker.old.book.account }
        ensures pool { worker.new.pool ≡ worker.old.pool }
        ensures pops { Pops which worker.old.book worker.new.book result }
        ensures did { PopDid which result worker.old.log worker.new.log }
    {
        let backoff = Backoff::new();
        for _ in rt.forever() {
            match self.try_pop(worker, which) {
                TryPopped::Took(held) => return Popped::Took(held),
                TryPopped::Empty => return Popped::Empty,
                TryPopped::Spent => return Popped::Spent,
                TryPopped::Lost => backoff.spin(),
            }
        }
        unreachable!()
    }

    /// Tries to put `held` on the stack `which` until a try is not lost. Requires the same as `try_push`. Returns the
    /// buffer as `Err` if the last try loaded a head with the last tag.
    pub fn push<R: Wait>(
        &self,
        rt: &R,
        worker: &mut Worker<A>,
        which: Which,
        held: Held<A>,
    ) -> Result<(), Held<A>>
        requires pool { worker.old.pool ≡ self.now }
        requires may { MayPush which held worker.old.book }
        ensures pool { worker.new.pool ≡ worker.old.pool }
        ensures pushes { Pushes which held worker.old.book worker.new.book (ended result) }
        ensures did { PushDid which held result worker.old.log worker.new.log }
    {
        let backoff = Backoff::new();
        let mut held = held;
        for _ in rt.forever() {
            match self.try_push(worker, which, held) {
                TryPushed::Done => return Ok(()),
                TryPushed::Spent(back) => return Err(back),
                TryPushed::Lost(back) => {
                    held = back;
                    backoff.spin();
                }
            }
        }
        unreachable!()
    }
}
