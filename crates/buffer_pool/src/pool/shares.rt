//! How a worker's share is split in two, and how two workers are joined.
ghost use Rattle.std.specs.Prelude.{◌≡◌, ◌≢◌, ℕ, ◌<◌, ◌≤◌, [], ◌∷◌};
ghost use Rattle.mark_core.specs.Events.{Split, Join};
ghost use Rattle.mark_core.specs.Lists.{times};
ghost use Rattle.mark_core.specs.Runs.{AreApart};
ghost use Rattle.buffer_pool.specs.Book.{joined, new_book, parted};
ghost use Rattle.buffer_pool.specs.working.BetweenCalls.{IsSound};
ghost use Rattle.buffer_pool.specs.WorkerLog.{Did, EndsStory, IsNewcomer};

use crate::plays::{CatchUp, SetAside};
use crate::pool::Pool;
use crate::rules::{GivePart, TakeIn, Token, Words};
use crate::worker::Worker;
use std::alloc::Allocator;

/// Splits `units` units off the share of `seat`, and returns a new seat that has them.
// A split of a seat sees only the seat's view, and a number comes into a view only by a step on a word. So the units
// are noted first, by an exchange that changes no word. A split also does not see what happened in the table. So the
// split comes into the log of each of the two seats by a load of that seat.
fn give_part<A: Allocator>(words: &Words<A>, seat: &mut Token<A>, units: u64) -> Token<A>
    requires table { seat.old.table_id ≡ words.now.table_id }
    requires sound { IsSound seat.old.table_id seat.old.me }
    requires units { (0 < units) × (units < seat.old.me.0.book.account.share) }
    ensures same { (seat.new.table_id ≡ seat.old.table_id) × (result.table_id ≡ seat.old.table_id) }
    ensures kept { IsSound seat.new.table_id seat.new.me × (seat.new.me.0.book ≡ parted units seat.old.me.0.book) }
    ensures given { IsSound result.table_id result.me × (result.me.0.book ≡ new_book seat.old.me.0.book.setup units) }
    ensures did { Did seat.old.me.0.log (Split units ∷ []) seat.new.me.0.log }
    ensures new { IsNewcomer seat.old.me.0.log result.me.0.log }
    ensures apart { result.me.0.log.number ≢ seat.new.me.0.log.number }
{
    words.compare_exchange::<SetAside>(seat, 0, units, units);
    let mut other = words.split_seat::<GivePart>(seat);
    words.load::<CatchUp>(seat, 0);
    words.load::<CatchUp>(&mut other, 0);
    other
}

/// Joins the seat `other` to `seat`.
// The first load returns the slot of `other`, if it is out, to the table. The last load shows that the two seats had
// nothing in common.
fn take_in<A: Allocator>(words: &Words<A>, seat: &mut Token<A>, mut other: Token<A>)
    requires table { (seat.old.table_id ≡ words.now.table_id) × (other.table_id ≡ words.now.table_id) }
    requires sound { IsSound seat.old.table_id seat.old.me × IsSound other.table_id other.me }
    ensures same { seat.new.table_id ≡ seat.old.table_id }
    ensures joined { IsSound seat.new.table_id seat.new.me
        × (seat.new.me.0.book ≡ joined seat.old.me.0.book other.me.0.book) }
    ensures apart { AreApart seat.old.me.0.book.account other.me.0.book.account }
    ensures once { (o : ℕ) → times o seat.new.me.0.book.account.finished ≤ 1 }
    ensures did { Did seat.old.me.0.log (Join other.me.0.log.number ∷ []) seat.new.me.0.log }
    ensures knows { EndsStory other.me.0.log seat.new.me.0.log.story }
{
    words.load::<CatchUp>(&mut other, 0);
    words.join_seat::<TakeIn>(seat, other);
    words.load::<CatchUp>(seat, 0);
}

impl<A: Allocator> Pool<A> {
    /// Gives `units` units of the share of `worker` to a new worker, which has nothing else. `units` must be at least
    /// 1, and less than the share. Returns `worker`, which keeps everything else, and then the new worker.
    pub fn split(&self, worker: Worker<A>, units: u32) -> (Worker<A>, Worker<A>)
        requires pool { worker.pool ≡ self.now }
        requires units { (0 < units) × (units < worker.book.account.share) }
        ensures first { result.0 ≡ record worker { book = parted units worker.book; log = result.0.log } }
        ensures second { result.1 ≡ record worker { book = new_book worker.book.setup units; log = result.1.log } }
        ensures did { Did worker.log (Split units ∷ []) result.0.log }
        ensures new { IsNewcomer worker.log result.1.log }
        ensures apart { result.1.log.number ≢ result.0.log.number }
    {
        let Worker {
            mut seat,
            finished,
            first_tag,
        } = worker;
        let other = give_part(&self.table.shared, &mut seat, u64::from(units));
        let newcomer = Worker {
            seat: other,
            finished: 0,
            first_tag,
        };
        let worker = Worker {
            seat,
            finished,
            first_tag,
        };
        (worker, newcomer)
    }

    /// Joins `other` to `worker`: adds the shares and counts of the two, and unites their buffers, their charges, and
    /// the objects that they saw and finished. What `worker` loaded stays, and what `other` loaded is forgotten. The
    /// two held no buffer in common, and had no object in common in their charges and finished lists.
    pub fn join(&self, worker: Worker<A>, other: Worker<A>) -> Worker<A>
        requires pool { (worker.pool ≡ self.now) × (other.pool ≡ self.now) }
        ensures together { result ≡ record worker { book = joined worker.book other.book; log = result.log } }
        ensures apart { AreApart worker.book.account other.book.account }
        ensures once { (o : ℕ) → times o result.book.account.finished ≤ 1 }
        ensures did { Did worker.log (Join other.log.number ∷ []) result.log }
        ensures knows { EndsStory other.log result.log.story }
    {
        let Worker {
            mut seat,
            finished,
            first_tag,
        } = worker;
        let Worker {
            seat: other,
            finished: finished_by_other,
            ..
        } = other;
        take_in(&self.table.shared, &mut seat, other);
        Worker {
            seat,
            finished: finished + finished_by_other,
            first_tag,
        }
    }
}
