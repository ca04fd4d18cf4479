//! A worker that has nothing left to scan: it stays until there is something again, or until all are idle.

use crate::paired_worker::PairedWorker;
use crate::pause::pause;
use buffer_pool::{Pool, Which};
use crossbeam_utils::Backoff;
use std::alloc::Allocator;
use std::sync::Wait;

/// The most turns in a row that a worker waits. After them the worker leaves even if not all are idle, since a worker
/// that found no pair or was stopped never goes idle.
const TURNS: u32 = 1024;

impl<A: Allocator> PairedWorker<A> {
    ghost use Rattle.std.specs.Prelude.{◌≡◌, ◌↔◌, [], ℕ, IsTrue, false};
    ghost use Rattle.mark_core.specs.Events.{CanWake};
    ghost use Rattle.buffer_pool.specs.Book.{idle_loaded, woken};
    ghost use Rattle.drain.specs.working.AtWork.{CameFrom, HasAtHand, HasNoneLeft};
    ghost use Rattle.drain.specs.working.Idle.{HasFoundMore, HasWaited, IsAwake};

    /// Tests whether the idle word is `workers`: then all workers are idle.
    fn sees_all_idle(&mut self, pool: &Pool<A>, workers: u32) -> bool
        requires { self.old.worker.pool ≡ pool.now }
        ensures pool { self.new.worker.pool ≡ self.old.worker.pool }
        ensures pair { self.new.pair ≡ self.old.pair }
        ensures sees { (word : ℕ) × (self.new.worker.book ≡ idle_loaded word self.old.worker.book)
            × (IsTrue result ↔ (word ≡ workers)) }
    {
        pool.all_idle(&mut self.worker, workers)
    }

    /// Comes back: the worker is no longer idle.
    fn come_back(&mut self, pool: &Pool<A>)
        requires pool { self.old.worker.pool ≡ pool.now }
        requires may { CanWake self.old.worker.book.account }
        ensures pool { self.new.worker.pool ≡ self.old.worker.pool }
        ensures pair { self.new.pair ≡ self.old.pair }
        ensures back { self.new.worker.book ≡ woken self.old.worker.book }
    {
        pool.idle_down(&mut self.worker);
    }

    /// Goes idle and waits until the full stack has a buffer again. Returns true if the stack has one: then the worker
    /// is no longer idle. Returns false if all `workers` are idle, or after [`TURNS`] turns: then the worker is still
    /// idle.
    pub(crate) fn finds_more<R: Wait>(&mut self, rt: &R, pool: &Pool<A>, workers: u32) -> bool
        requires pool { self.old.worker.pool ≡ pool.now }
        requires awake { IsAwake self.old.worker }
        requires hand { HasAtHand self.old.pair [] self.old.worker }
        requires none { HasNoneLeft self.old.pair self.old.worker }
        ensures came { CameFrom self.old.worker self.new.worker }
        ensures pair { self.new.pair ≡ self.old.pair }
        ensures finished { self.new.worker.book.account.finished ≡ self.old.worker.book.account.finished }
        ensures hand { HasAtHand self.new.pair [] self.new.worker }
        ensures none { HasNoneLeft self.new.pair self.new.worker }
        ensures awake { IsTrue result → IsAwake self.new.worker }
        ensures idle { result ≡ false → self.new.worker.book.account.idle ≡ 1 }
        ensures found { IsTrue result → HasFoundMore workers TURNS self.old.worker.book self.new.worker.book }
        ensures waited { result ≡ false → HasWaited workers TURNS self.old.worker.book self.new.worker.book }
    {
        pool.idle_up(&mut self.worker);
        let backoff = Backoff::new();
        for turn in 0..TURNS {
            if self.sees_all_idle(pool, workers) {
                return false;
            }
            if !pool.sees_empty(&mut self.worker, Which::Full) {
                self.come_back(pool);
                return true;
            }
            pause(rt, &backoff, turn);
        }
        false
    }
}
