//! One pop, and one push on the stack for buffers with items or for those without.
ghost use Rattle.std.specs.Prelude.{◌≡◌, ◌≢◌, [], Contains, IfErr};
ghost use Rattle.mark_core.specs.Events.{IsBusy};
ghost use Rattle.mark_core.specs.Lists.{IsPart};
ghost use Rattle.work_pair.specs.CallEffects.{IsStopOf};
ghost use Rattle.work_pair.specs.working.Steps.{PopsOne, Shelves};

use crate::stop::Stop;
use buffer_pool::{Held, Pool, Popped, Which, Worker};
use std::alloc::Allocator;
use std::sync::Wait;

/// Pops a buffer from the stack `which`. Returns `None` if the stack was seen empty. Unlike `Pool::pop`, returns an
/// error if the last tag was loaded, so that `?` can end a pair's call.
pub(crate) fn pop_one<R: Wait, A: Allocator>(
    rt: &R,
    pool: &Pool<A>,
    worker: &mut Worker<A>,
    which: Which,
) -> Result<Option<Held<A>>, Stop>
    requires pool { worker.old.pool ≡ pool.now }
    requires busy { IsBusy worker.old.book.account }
    ensures pool { worker.new.pool ≡ worker.old.pool }
    ensures pops { PopsOne which worker.old.book worker.new.book result }
    ensures of_pool { IfErr result (IsStopOf pool.now) }
{
    match pool.pop(rt, worker, which) {
        Popped::Took(held) => Ok(Some(held)),
        Popped::Empty => Ok(None),
        Popped::Spent => Err(Stop::TagSpent(worker.spent_tag())),
    }
}

/// Pushes `held` on the full stack if it has items, and on the empty stack otherwise. Returns it in `Err` if that
/// stack's last tag was loaded.
pub(crate) fn shelve<R: Wait, A: Allocator>(
    rt: &R,
    pool: &Pool<A>,
    worker: &mut Worker<A>,
    held: Held<A>,
) -> Result<(), Held<A>>
    requires pool { worker.old.pool ≡ pool.now }
    requires held { Contains worker.old.book.account.held held.index }
    requires charged { IsPart held.items worker.old.book.account.charge }
    requires size { held.size ≡ worker.old.book.setup.size }
    requires busy { held.items ≢ [] → IsBusy worker.old.book.account }
    ensures pool { worker.new.pool ≡ worker.old.pool }
    ensures shelves { Shelves held worker.old.book worker.new.book result }
{
    let which = if held.len() == 0 {
        Which::Empty
    } else {
        Which::Full
    };
    pool.push(rt, worker, which, held)
}
