//! Idle workers: how a worker goes idle, comes back, and tests how many are idle.
ghost use Rattle.std.specs.Prelude.{◌≡◌, ◌↔◌, ℕ, [], ◌∷◌, IsTrue};
ghost use Rattle.mark_core.specs.Events.{CanIdle, CanWake, IdleDown, IdleUp, LoadIdle};
ghost use Rattle.buffer_pool.specs.Book.{idle_loaded, idled, woken};
ghost use Rattle.buffer_pool.specs.Calls.{Shows};
ghost use Rattle.buffer_pool.specs.working.BetweenCalls.{IsSound, SitsAt};
ghost use Rattle.buffer_pool.specs.working.Plays.{RestsWith};
ghost use Rattle.buffer_pool.specs.WorkerLog.{Did};

use crate::layout::IDLE;
use crate::plays::{ComeBack, GoIdle, SeeIdle};
use crate::pool::Pool;
use crate::rules::{Token, Words};
use crate::worker::Worker;
use std::alloc::Allocator;

/// Adds one to the idle word.
fn add_idle<A: Allocator>(words: &Words<A>, seat: &mut Token<A>)
    requires table { SitsAt words.now seat.old }
    requires sound { IsSound seat.old.table_id seat.old.me }
    requires may { CanIdle seat.old.me.0.book.account }
    ensures same { seat.new.table_id ≡ seat.old.table_id }
    ensures sound { IsSound seat.new.table_id seat.new.me }
    ensures rests { RestsWith seat.old.me (idled seat.old.me.0.book) (IdleUp ∷ []) seat.new.me }
{
    words.fetch_add::<GoIdle>(seat, IDLE, 1);
}

/// Subtracts one from the idle word.
fn take_idle<A: Allocator>(words: &Words<A>, seat: &mut Token<A>)
    requires table { SitsAt words.now seat.old }
    requires sound { IsSound seat.old.table_id seat.old.me }
    requires may { CanWake seat.old.me.0.book.account }
    ensures same { seat.new.table_id ≡ seat.old.table_id }
    ensures sound { IsSound seat.new.table_id seat.new.me }
    ensures rests { RestsWith seat.old.me (woken seat.old.me.0.book) (IdleDown ∷ []) seat.new.me }
{
    words.fetch_sub::<ComeBack>(seat, IDLE, 1);
}

/// Loads the idle word, and returns it.
fn load_idle<A: Allocator>(words: &Words<A>, seat: &mut Token<A>) -> u64
    requires table { SitsAt words.now seat.old }
    requires sound { IsSound seat.old.table_id seat.old.me }
    ensures same { seat.new.table_id ≡ seat.old.table_id }
    ensures sound { IsSound seat.new.table_id seat.new.me }
    ensures rests { RestsWith seat.old.me (idle_loaded result seat.old.me.0.book) (LoadIdle ∷ []) seat.new.me }
    ensures shows { Shows seat.old.me.0.book.setup seat.new.me.0.log.story result }
{
    words.load::<SeeIdle>(seat, IDLE)
}

impl<A: Allocator> Pool<A> {
    /// Lets `worker` go idle. The worker must have one unit, idle number 0 and nothing in its charge. It must have
    /// found the full stack empty after it was split off, and after its own last push there. This is one atomic step,
    /// which waits for nobody.
    pub fn idle_up(&self, worker: &mut Worker<A>)
        requires pool { worker.old.pool ≡ self.now }
        requires may { CanIdle worker.old.book.account }
        ensures pool { worker.new.pool ≡ worker.old.pool }
        ensures event { worker.new.book ≡ idled worker.old.book }
        ensures did { Did worker.old.log (IdleUp ∷ []) worker.new.log }
    {
        add_idle(&self.table.shared, &mut worker.seat);
    }

    /// Lets `worker` come back. The worker must have one unit and idle number 1. This is one atomic step, which waits
    /// for nobody.
    pub fn idle_down(&self, worker: &mut Worker<A>)
        requires pool { worker.old.pool ≡ self.now }
        requires may { CanWake worker.old.book.account }
        ensures pool { worker.new.pool ≡ worker.old.pool }
        ensures event { worker.new.book ≡ woken worker.old.book }
        ensures did { Did worker.old.log (IdleDown ∷ []) worker.new.log }
    {
        take_idle(&self.table.shared, &mut worker.seat);
    }

    /// Tests whether the idle word is `workers`. This is one atomic step, which waits for nobody.
    ///
    /// After the call, the worker's story leads to a marking with the idle word that was loaded. Suppose that in this
    /// marking no account was joined, and that `workers` is at least 1. Suppose also that account 0, which was there at
    /// the opening, is busy, gave exactly `workers` units away, and pushed nothing on the full stack since it first
    /// gave units away. Then `true` means that nothing is left for the workers to do: `mark_core::all_runs_keep_law`,
    /// clause `quiet`.
    pub fn all_idle(&self, worker: &mut Worker<A>, workers: u32) -> bool
        requires { worker.old.pool ≡ self.now }
        ensures pool { worker.new.pool ≡ worker.old.pool }
        ensures sees { (word : ℕ) × (worker.new.book ≡ idle_loaded word worker.old.book)
            × (IsTrue result ↔ (word ≡ workers)) × Shows worker.old.book.setup worker.new.log.story word }
        ensures did { Did worker.old.log (LoadIdle ∷ []) worker.new.log }
    {
        load_idle(&self.table.shared, &mut worker.seat) == u64::from(workers)
    }
}
