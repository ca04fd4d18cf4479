//! One try of a push, step by step.
ghost use Rattle.std.specs.Prelude.{◌≡◌, ℕ, Option};
ghost use Rattle.buffer_pool.specs.Calls.{MayPush, TriesPush};
ghost use Rattle.buffer_pool.specs.working.BetweenCalls.{IsSound, SitsAt};
ghost use Rattle.buffer_pool.specs.Steps.{try_push_steps};
ghost use Rattle.buffer_pool.specs.WorkerLog.{Did};

use crate::answers::TryPushed;
use crate::held::Held;
use crate::pool::head_exchange::{load_head, put_top, store_link};
use crate::pool::next_head::head_above;
use crate::rules::{Token, Words};
use mark_core::Which;
use std::alloc::Allocator;

/// Loads the head, stores its index as the buffer's link, and exchanges the head for the buffer. Only loads if the head
/// has the last tag.
///
/// This is `Pool::try_push` on the words and the worker's seat, which the caller takes out of `Pool` and `Worker`.
pub(crate) fn try_push<A: Allocator>(
    words: &Words<A>,
    seat: &mut Token<A>,
    which: Which,
    held: Held<A>,
) -> TryPushed<Held<A>>
    requires table { SitsAt words.now seat.old }
    requires sound { IsSound seat.old.table_id seat.old.me }
    requires may { MayPush which held seat.old.me.0.book }
    ensures same { seat.new.table_id ≡ seat.old.table_id }
    ensures sound { IsSound seat.new.table_id seat.new.me }
    ensures pushes { TriesPush which held seat.old.me.0.book seat.new.me.0.book result }
    ensures did { (link : Option ℕ) × Did seat.old.me.0.log (try_push_steps which held link result) seat.new.me.0.log }
{
    let index = held.index;
    let head = load_head(words, seat, which);
    let Some(next) = head_above(head, index) else {
        return TryPushed::Spent(held);
    };
    store_link(words, seat, head, index);
    match put_top(words, seat, which, head, next, held) {
        Ok(()) => TryPushed::Done,
        Err(held) => TryPushed::Lost(held),
    }
}
