//! The layout of the table's words: two heads, the idle word, a link for each buffer, and words of marks, in which each
//! object has two bits (`mark_bits.rt`).

ghost use Rattle.std.specs.Prelude.{◌≡◌, ◌+◌, ◌/◌};
ghost use Rattle.buffer_pool.specs.working.Layout.{head_word, link_word};

use mark_core::Which;

/// The number of the word with the full stack's head. The heads are 128 bytes apart, so that they share no cache line
/// with each other or with the links.
const FULL_HEAD: usize = 0;

/// The number of the word with the empty stack's head.
const EMPTY_HEAD: usize = 16;

/// The number of the idle word, which is 64 bytes from each head.
pub(crate) const IDLE: usize = 8;

/// The number of the word with the link of buffer 0. The links of the other buffers follow, in order.
pub const FIRST_LINK: usize = 32;

/// Returns the number of the word that has the head of the stack `which`.
pub fn head_word(which: Which) -> usize
    ensures { result ≡ head_word which }
{
    match which {
        Which::Full => FULL_HEAD,
        Which::Empty => EMPTY_HEAD,
    }
}

/// Returns the number of the word that has the mark of `object`, in a pool of `buffers` buffers.
pub fn mark_word(buffers: u32, object: u32) -> usize
    ensures { result ≡ 32 + buffers + object / 32 }
{
    FIRST_LINK + buffers as usize + object as usize / 32
}
