//! One try of a pop, step by step.
ghost use Rattle.std.specs.Prelude.{◌≡◌};
ghost use Rattle.mark_core.specs.Events.{IsBusy};
ghost use Rattle.buffer_pool.specs.Calls.{TriesPop};
ghost use Rattle.buffer_pool.specs.working.BetweenCalls.{IsSound, SitsAt};
ghost use Rattle.buffer_pool.specs.Steps.{try_pop_steps};
ghost use Rattle.buffer_pool.specs.WorkerLog.{Did};

use crate::answers::TryPopped;
use crate::held::Held;
use crate::pool::head_exchange::{load_head, load_link, take_top};
use crate::pool::next_head::head_below;
use crate::rules::{Token, Words};
use mark_core::Which;
use std::alloc::Allocator;
use tagged_index::LAST_TAG;

/// Loads the head and the link of the buffer on top, and exchanges the head for the link. The tag is tested before the
/// link is loaded: a head with the last tag is never exchanged again, so the link would be of no use. So a try that
/// returns `Spent` has one event, whether it is a try of a pop or of a push.
///
/// This is `Pool::try_pop` on the words and the worker's seat, which the caller takes out of `Pool` and `Worker`.
pub(crate) fn try_pop<A: Allocator>(
    words: &Words<A>,
    seat: &mut Token<A>,
    which: Which,
) -> TryPopped<Held<A>>
    requires table { SitsAt words.now seat.old }
    requires sound { IsSound seat.old.table_id seat.old.me }
    requires busy { IsBusy seat.old.me.0.book.account }
    ensures same { seat.new.table_id ≡ seat.old.table_id }
    ensures sound { IsSound seat.new.table_id seat.new.me }
    ensures pops { TriesPop which seat.old.me.0.book seat.new.me.0.book result }
    ensures did { Did seat.old.me.0.log (try_pop_steps which result) seat.new.me.0.log }
{
    let head = load_head(words, seat, which);
    let Some(index) = head.index() else {
        return TryPopped::Empty;
    };
    if head.tag() == LAST_TAG {
        return TryPopped::Spent;
    }
    let link = load_link(words, seat, which, index);
    let next = head_below(head, link);
    match take_top(words, seat, which, head, next, index) {
        Some(buffer) => TryPopped::Took(Held { index, buffer }),
        None => TryPopped::Lost,
    }
}
