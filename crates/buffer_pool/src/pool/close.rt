//! The end of a marking.
ghost use Rattle.std.specs.Prelude.{◌≡◌, []};
ghost use Rattle.mark_core.specs.Shares.{whole};
ghost use Rattle.buffer_pool.specs.Closing.{IsAtTheEnd, MarksTell};

use crate::layout::mark_word;
use crate::pool::Pool;
use crate::pool::closed_marks::Marks;
use crate::pool::slots::empty_slots;
use crate::worker::Worker;
use std::alloc::Allocator;

impl<A: Allocator> Pool<A> {
    /// Ends the marking and returns the marks. `worker` must have the whole share, no buffer and no charge; then no
    /// other worker has anything. Frees the buffers.
    pub fn close(self, worker: Worker<A>) -> Marks<A>
        requires pool { worker.pool ≡ self }
        requires share { worker.book.account.share ≡ whole }
        requires held { worker.book.account.held ≡ [] }
        requires charge { worker.book.account.charge ≡ [] }
        ensures { (end : IsAtTheEnd worker.log worker.book result) × MarksTell worker.book end.last result }
    {
        let Pool {
            table,
            buffers,
            objects,
        } = self;
        let Worker { seat, finished, .. } = worker;
        let first_mark = mark_word(buffers, 0);
        let mut closed = table.close_with(seat);
        empty_slots(&mut closed);
        Marks::of_words(closed, first_mark, objects, finished)
    }
}
