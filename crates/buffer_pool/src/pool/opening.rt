//! The words of a new pool.
ghost use Rattle.std.specs.Prelude.{◌+◌, ◌<◌, ◌≤◌, IfOk};
ghost use Rattle.buffer_pool.specs.working.Opening.{HasFirstWords};
ghost use Rattle.buffer_pool.specs.working.MarkBits.{mark_words};

use crate::layout::{FIRST_LINK, head_word};
use crate::mark_bits::mark_words;
use mark_core::Which;
use std::alloc::{AllocError, Allocator};
use tagged_index::HeadWord;

/// Returns the words of a new pool: both heads have the tag `first_tag`, all buffers are on the empty stack, with
/// buffer 0 on top, and all marks are 0.
#[tactic(auto, using(crate::proofs::Starts::heads_alone, crate::proofs::Starts::link_laid))]
pub(crate) fn first_words<A: Allocator>(
    alloc: A,
    objects: u32,
    buffers: u32,
    first_tag: u64,
) -> Result<Vec<u64, A>, AllocError>
    requires some { 0 < buffers }
    requires tag { first_tag ≤ 281474976710655 }
    ensures { IfOk result (λ w. HasFirstWords (32 + buffers + mark_words objects) first_tag buffers w.items) }
{
    let count = FIRST_LINK + buffers as usize + mark_words(objects);
    let mut words = vec![in alloc; 0; count]?;
    words[head_word(Which::Full)] = HeadWord::none(first_tag).word();
    words[head_word(Which::Empty)] = HeadWord::of(0, first_tag).word();
    for next in 1..buffers {
        words[FIRST_LINK + next as usize - 1] = u64::from(next) + 1;
    }
    Ok(words)
}
