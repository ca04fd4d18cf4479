//! The steps of a pop and of a push. Each function makes at most one atomic step on the table. `take_top` and `put_top`
//! also access the slot that the seat has taken out.
ghost use Rattle.std.specs.Prelude.{◌≡◌, ℕ, suc, ◌+◌, ◌<◌, ◌≤◌, [], ◌∷◌, Option, Some, None, MatchOption, MatchResult};
ghost use Rattle.std.specs.Prelude.{Contains, length};
ghost use Rattle.std.specs.Option.{ForSome};
ghost use Rattle.tagged_index.specs.Head.{Head, after, last_tag, low_of};
ghost use Rattle.mark_core.specs.declared.which.Which.TheVariants.{Empty};
ghost use Rattle.mark_core.specs.Account.{look_of};
ghost use Rattle.mark_core.specs.Events.{CanPop, IsBusy, Load, LoadLink, StoreLink as StoreLinkOf};
ghost use Rattle.atomic_table.specs.Table.{step};
ghost use mathlib.Core.Option.{none};
ghost use Rattle.buffer_pool.specs.working.Buffers.{buffer_reading};
ghost use Rattle.buffer_pool.specs.Book.{link_loaded, loaded};
ghost use Rattle.buffer_pool.specs.Calls.{MayPush};
ghost use Rattle.buffer_pool.specs.working.BetweenCalls.{IsBare, IsSameSeat, IsSound, SitsAt};
ghost use Rattle.buffer_pool.specs.working.Plays.{CanPut, HasKept, HasMissed, HasPushed, HasTaken, StoryLeads, SeatDid};
ghost use Rattle.buffer_pool.specs.working.Plays.{RestsWith, top_put};
ghost use Rattle.buffer_pool.specs.working.Views.{HasSaidAll, logged};

use crate::buffer::Buffer;
use crate::held::Held;
use crate::layout::{FIRST_LINK, head_word};
use crate::plays::{
    PutTopEmpty, PutTopFull, SeeEmptyLink, SeeFullLink, SeeHead, StoreLink, TakeTop,
};
use crate::rules::{Token, Words};
use mark_core::Which;
use std::alloc::Allocator;
use tagged_index::HeadWord;

/// Loads the head of the stack `which`, and returns it.
pub(crate) fn load_head<A: Allocator>(
    words: &Words<A>,
    seat: &mut Token<A>,
    which: Which,
) -> HeadWord
    requires table { SitsAt words.now seat.old }
    requires sound { IsSound seat.old.table_id seat.old.me }
    ensures same { IsSameSeat seat.old seat.new }
    ensures sound { IsSound seat.new.table_id seat.new.me }
    ensures rests { RestsWith seat.old.me (loaded which result seat.old.me.0.book) (Load which ∷ []) seat.new.me }
    ensures within { (i : ℕ) → result.index ≡ Some i → i < seat.old.me.0.book.setup.buffers }
{
    HeadWord::from_word(words.load::<SeeHead>(seat, head_word(which)))
}

/// Loads the link of buffer `index`: the head last loaded from the stack `which` names this buffer. Returns the link,
/// or `None` if the word of the link is 0.
pub(crate) fn load_link<A: Allocator>(
    words: &Words<A>,
    seat: &mut Token<A>,
    which: Which,
    index: u32,
) -> Option<u32>
    requires table { SitsAt words.now seat.old }
    requires sound { IsSound seat.old.table_id seat.old.me × IsBare seat.old.me }
    requires looked { (h : Head) × ((look_of seat.old.me.0.book.account which).head ≡ Some h)
        × (h.index ≡ Some index) × (index < seat.old.me.0.book.setup.buffers) }
    ensures same { IsSameSeat seat.old seat.new }
    ensures rests { RestsWith seat.old.me (link_loaded which result seat.old.me.0.book) (LoadLink which ∷ [])
        seat.new.me }
    ensures within { ForSome result (λ i. i < seat.old.me.0.book.setup.buffers) }
{
    let word = FIRST_LINK + index as usize;
    let link = match which {
        Which::Full => words.load::<SeeFullLink>(seat, word),
        Which::Empty => words.load::<SeeEmptyLink>(seat, word),
    };
    if link == 0 {
        None
    } else {
        Some((link - 1) as u32)
    }
}

/// Exchanges `head` for `next`, and takes buffer `index`, which was on top of the stack `which`. Returns `None` if the
/// stack's head was no longer `head`.
pub(crate) fn take_top<A: Allocator>(
    words: &Words<A>,
    seat: &mut Token<A>,
    which: Which,
    head: HeadWord,
    next: HeadWord,
    index: u32,
) -> Option<Buffer<A>>
    requires table { SitsAt words.now seat.old }
    requires sound { IsSound seat.old.table_id seat.old.me × IsBare seat.old.me }
    requires popping { CanPop head (look_of seat.old.me.0.book.account which) }
    requires busy { IsBusy seat.old.me.0.book.account }
    requires index { head.index ≡ Some index }
    requires next { (l : Option ℕ) × ((look_of seat.old.me.0.book.account which).link ≡ Some l)
        × (next ≡ after head l) }
    ensures same { IsSameSeat seat.old seat.new }
    ensures takes { MatchOption result (HasMissed which seat.old.me seat.new.me)
        (λ b. HasTaken buffer_reading which index None seat.old.me seat.new.me b) }
{
    let word = head.word();
    if words.compare_exchange::<TakeTop>(seat, head_word(which), word, next.word()) != word {
        return None;
    }
    let Some(buffer) = words.exchange(seat, index as usize, None) else {
        unreachable!()
    };
    Some(buffer)
}

/// Returns the link word of a buffer that is pushed on a stack with the head `head`: 0 if `head` has no index, and the
/// index plus 1 otherwise.
fn link_to(head: HeadWord) -> u64
    ensures { result ≡ low_of head.index }
{
    match head.index() {
        None => 0,
        Some(top) => u64::from(top) + 1,
    }
}

/// Stores the index of `head`, which was loaded, as the link of buffer `index`, which is held.
pub(crate) fn store_link<A: Allocator>(
    words: &Words<A>,
    seat: &mut Token<A>,
    head: HeadWord,
    index: u32,
)
    requires table { SitsAt words.now seat.old }
    requires sound { IsSound seat.old.table_id seat.old.me × IsBare seat.old.me }
    requires held { Contains seat.old.me.0.book.account.held index }
    requires within { (i : ℕ) → head.index ≡ Some i → i < seat.old.me.0.book.setup.buffers }
    ensures same { IsSameSeat seat.old seat.new }
    ensures takes_out { seat.new.me
        ≡ (
          record (logged seat.new.me.0.log seat.old.me.0) { out = suc index; out_link = low_of head.index },
          (index, None) ∷ [],
        ) }
    ensures did { SeatDid seat.old.me (StoreLinkOf index head.index ∷ []) seat.new.me }
    ensures story { StoryLeads seat.new.me }
{
    words.store::<StoreLink>(seat, FIRST_LINK + index as usize, link_to(head));
}

/// If the head of the stack `which` is still `old`, exchanges it for `new`. `new` names the buffer whose slot is out.
/// Returns the head found.
fn exchange_for_buffer<A: Allocator>(
    words: &Words<A>,
    seat: &mut Token<A>,
    which: Which,
    old: u64,
    new: u64,
) -> u64
    requires table { SitsAt words.now seat.old }
    requires put { (i : ℕ) × (b : _) × CanPut buffer_reading which seat.old.me old new i b }
    ensures same { IsSameSeat seat.old seat.new }
    ensures exchanges { top_put buffer_reading which (step words.now.table_id.slots 0 old new none) seat.old.me
        result seat.new.me }
{
    let word = head_word(which);
    match which {
        Which::Full => words.compare_exchange::<PutTopFull>(seat, word, old, new),
        Which::Empty => words.compare_exchange::<PutTopEmpty>(seat, word, old, new),
    }
}

/// Exchanges `head` for `next`, which names `held`, a buffer whose link was stored. Returns `Err(held)` if the head of
/// the stack `which` was no longer `head`.
pub(crate) fn put_top<A: Allocator>(
    words: &Words<A>,
    seat: &mut Token<A>,
    which: Which,
    head: HeadWord,
    next: HeadWord,
    held: Held<A>,
) -> Result<(), Held<A>>
    requires table { SitsAt words.now seat.old }
    requires stored { (seat.old.me.1 ≡ (held.index, None) ∷ []) × (seat.old.me.0.out ≡ suc held.index)
        × (seat.old.me.0.out_link ≡ low_of head.index) × (0 < seat.old.me.0.book.account.share) }
    requires all_said { HasSaidAll seat.old.me.0 }
    requires loaded { ((look_of seat.old.me.0.book.account which).head ≡ Some head) × (head.tag < last_tag) }
    requires next { next ≡ after head (Some held.index) }
    requires may { MayPush which held seat.old.me.0.book }
    ensures same { IsSameSeat seat.old seat.new }
    ensures puts { MatchResult result (λ _. HasPushed which held.index held.items seat.old.me seat.new.me)
        (λ back. (back ≡ held) × HasKept which ((held.index, None) ∷ []) seat.old.me seat.new.me) }
{
    let Held { index, buffer } = held;
    words.exchange(seat, index as usize, Some(buffer));
    let word = head.word();
    if exchange_for_buffer(words, seat, which, word, next.word()) == word {
        return Ok(());
    }
    let Some(buffer) = words.exchange(seat, index as usize, None) else {
        unreachable!()
    };
    Err(Held { index, buffer })
}
