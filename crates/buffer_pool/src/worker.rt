//! A worker of a pool.

use crate::rules::Token;
use std::alloc::Allocator;
use std::marker::Model;

/// A worker of one pool: its share, the buffers that it holds, the objects in its charge, and those that it finished.
/// Its only bytes are the number of finished objects and the pool's first tag.
#[derive(Drop)]
pub struct Worker<A: Allocator> {
    pub(crate) seat: Token<A>,
    /// The number of objects that were finished by this worker, or by a worker that was joined to it.
    pub(crate) finished: u64,
    /// The tag that the heads of the pool had at first.
    pub(crate) first_tag: u64,
}

impl<A: Allocator> Model for Worker<A> {
    ghost use Rattle.std.specs.Prelude.{◌≡◌, length};
    ghost use Rattle.buffer_pool.specs.Calls.{Owner, PoolId};
    ghost use Rattle.buffer_pool.specs.working.BetweenCalls.{IsSound};

    ghost Value = { Owner };

    ghost view = { λ w. record {
      pool = record { table = w.seat.table_id; first_tag = w.first_tag };
      book = w.seat.me.0.book;
      log = w.seat.me.0.log;
    } };

    ghost invariant = { λ w. IsSound w.seat.table_id w.seat.me
        × (w.finished ≡ length w.seat.me.0.book.account.finished) };
}

impl<A: Allocator> Worker<A> {
    ghost use Rattle.std.specs.Prelude.{ℕ, length, ◌≤◌};
    ghost use Rattle.mark_core.specs.Lists.{times};
    ghost use Rattle.buffer_pool.specs.Ranges.{IsWithin};
    ghost use Rattle.buffer_pool.specs.WorkerLog.{LeadsToBook};

    /// Does nothing. Its contract recalls an invariant of each worker: each buffer that it holds and each object in its
    /// charge is one of the pool's. So a worker may scan the objects that it pops from the full stack.
    pub fn recall_within(&self)
        ensures { IsWithin self.now.book.setup self.now.book.account }
    {
        // Read so that the seat's invariant is known here.
        let _seat = &self.seat;
    }

    /// Does nothing. Its contract recalls an invariant of each worker: it finished no object twice, so it finished at
    /// most as many objects as there are.
    pub fn recall_few_finished(&self)
        ensures once { (o : ℕ) → times o self.now.book.account.finished ≤ 1 }
        ensures few { length self.now.book.account.finished ≤ self.now.book.setup.objects }
    {
        // Read so that the seat's invariant is known here.
        let _seat = &self.seat;
    }

    /// Does nothing. Its contract recalls an invariant of each worker: its story leads from the opening of the pool to
    /// a marking in which the worker has the account and the counts of its book. So what its calls returned did happen.
    /// If a try returned `Lost`, the story has a failed exchange, at a moment at which it was possible. Between the
    /// load of the head and the failed exchange, another worker exchanged the head (`mark_core::all_runs_keep_law`,
    /// clause `losses`).
    pub fn recall_story(&self)
        ensures { LeadsToBook self.now.log self.now.book }
    {
        // Read so that the seat's invariant is known here.
        let _seat = &self.seat;
    }
}
