//! Claims and finishes: the steps that raise the marks of objects.
ghost use Rattle.std.specs.Prelude.{◌≡◌, ◌↔◌, ◌≤◌, ℕ, [], ◌∷◌, IsTrue};
ghost use Rattle.mark_core.specs.Events.{CanClaim, CanFinish, IsBusy};
ghost use Rattle.mark_core.specs.Events as events;
ghost use Rattle.mark_core.specs.Lists.{times};
ghost use Rattle.buffer_pool.specs.Book.{claimed, finished};
ghost use Rattle.buffer_pool.specs.working.BetweenCalls.{IsSound, SitsAt};
ghost use Rattle.buffer_pool.specs.working.Plays.{RestsWith};
ghost use Rattle.buffer_pool.specs.WorkerLog.{Did};

use crate::layout::mark_word;
use crate::mark_bits::{CLAIMED, FINISHED, mark_bits, mark_place};
use crate::plays::{Claim, Finish};
use crate::pool::Pool;
use crate::rules::{Token, Words};
use crate::worker::Worker;
use std::alloc::Allocator;

/// Raises the mark of `object` to claimed if the object is white, and returns whether it was.
// The step writes even if the object is already marked. A test by a load would not do: a load has no operand, so its
// play could not know which of the word's 32 objects is meant.
fn raise_to_claimed<A: Allocator>(
    words: &Words<A>,
    seat: &mut Token<A>,
    buffers: u32,
    object: u32,
) -> bool
    requires table { SitsAt words.now seat.old }
    requires buffers { buffers ≡ words.now.key.buffers }
    requires sound { IsSound seat.old.table_id seat.old.me }
    requires can { CanClaim seat.old.me.0.book.setup object seat.old.me.0.book.account }
    requires busy { IsBusy seat.old.me.0.book.account }
    ensures same { seat.new.table_id ≡ seat.old.table_id }
    ensures sound { IsSound seat.new.table_id seat.new.me }
    ensures rests { (found : ℕ)
        × RestsWith seat.old.me (claimed object found seat.old.me.0.book) (events.Claim object ∷ []) seat.new.me
        × (IsTrue result ↔ (found ≡ 0)) }
{
    let word = words.fetch_or::<Claim>(
        seat,
        mark_word(buffers, object),
        mark_bits(CLAIMED, object),
    );
    (word >> mark_place(object)) & CLAIMED == 0
}

/// Raises the mark of `object` to finished.
fn raise_to_finished<A: Allocator>(words: &Words<A>, seat: &mut Token<A>, buffers: u32, object: u32)
    requires table { SitsAt words.now seat.old }
    requires buffers { buffers ≡ words.now.key.buffers }
    requires sound { IsSound seat.old.table_id seat.old.me }
    requires can { CanFinish seat.old.me.0.book.setup object seat.old.me.0.book.account }
    ensures same { seat.new.table_id ≡ seat.old.table_id }
    ensures sound { IsSound seat.new.table_id seat.new.me }
    ensures rests { RestsWith seat.old.me (finished object seat.old.me.0.book) (events.Finish object ∷ []) seat.new.me }
    ensures once { (o : ℕ) → times o seat.new.me.0.book.account.finished ≤ 1 }
{
    words.fetch_or::<Finish>(
        seat,
        mark_word(buffers, object),
        mark_bits(FINISHED, object),
    );
}

impl<A: Allocator> Pool<A> {
    /// Claims `object`, and returns whether it was white. A white object joins the worker's charge. `object` must be a
    /// root, or a successor of an object in that charge, and the worker must be busy. This is one atomic step, which
    /// waits for nobody.
    pub fn claim(&self, worker: &mut Worker<A>, object: u32) -> bool
        requires pool { worker.old.pool ≡ self.now }
        requires can { CanClaim worker.old.book.setup object worker.old.book.account }
        requires busy { IsBusy worker.old.book.account }
        ensures pool { worker.new.pool ≡ worker.old.pool }
        ensures event { (found : ℕ) × (worker.new.book ≡ claimed object found worker.old.book)
            × (IsTrue result ↔ (found ≡ 0)) }
        ensures did { Did worker.old.log (events.Claim object ∷ []) worker.new.log }
    {
        raise_to_claimed(&self.table.shared, &mut worker.seat, self.buffers, object)
    }

    /// Finishes `object`, which must be in the worker's charge. The worker must have seen each successor of `object`
    /// marked. This is one atomic step, which waits for nobody.
    pub fn finish(&self, worker: &mut Worker<A>, object: u32)
        requires pool { worker.old.pool ≡ self.now }
        requires can { CanFinish worker.old.book.setup object worker.old.book.account }
        ensures pool { worker.new.pool ≡ worker.old.pool }
        ensures event { worker.new.book ≡ finished object worker.old.book }
        ensures did { Did worker.old.log (events.Finish object ∷ []) worker.new.log }
        ensures once { (o : ℕ) → times o worker.new.book.account.finished ≤ 1 }
    {
        raise_to_finished(&self.table.shared, &mut worker.seat, self.buffers, object);
        worker.finished += 1;
    }
}
