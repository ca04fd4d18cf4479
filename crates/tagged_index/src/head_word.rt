//! The head of a stack in one word: the upper 48 bits are the tag, the lower 16 the index plus 1, or 0 for no index. At
//! the end, a law of all heads.

ghost use Rattle.std.specs.Prelude.{◌≡◌, ◌+◌, ◌<◌, ◌≤◌, MatchOption};
ghost use Rattle.std.specs.Option.{ForSome};
ghost use Rattle.tagged_index.specs.Head.{after, head_of, word_of};
ghost use Rattle.tagged_index.specs.Words.{WordsDetermineHeads};

use std::marker::Model;

/// The largest tag. [`HeadWord::next`] returns `None` for a head with this tag.
pub const LAST_TAG: u64 = 281_474_976_710_655;

/// The largest index that a head can hold.
pub const LAST_INDEX: u32 = 65_534;

/// The number of values of the lower 16 bits.
const LOW_VALUES: u64 = 65_536;

/// The head of a stack: the index of the buffer on top, if any, and a tag. Contracts see the index and the tag.
/// [`HeadWord::word`] returns the 64 bits.
#[derive(Clone, Copy, PartialEq, Eq, Debug)]
pub struct HeadWord {
    word: u64,
}

impl Model for HeadWord {
    ghost use Rattle.std.proofs.Common.{ap};
    ghost use Rattle.tagged_index.specs.Head.{Head, head_of, word_of};
    ghost use Rattle.tagged_index.specs.Words.{restored};

    ghost Value = { Head };

    ghost view = { λ h. head_of h.word };

    ghost inverse = { λ h. record { word = word_of h } };

    ghost inverse_ok = { λ a h. ap (λ w. record { word = w }) (restored a.word) };
}

impl HeadWord {
    /// Creates the head of an empty stack with `tag`, which is at most [`LAST_TAG`].
    pub fn none(tag: u64) -> Self
        requires { tag ≤ LAST_TAG }
        ensures { result ≡ record { index = None; tag = tag } }
    {
        HeadWord {
            word: tag * LOW_VALUES,
        }
    }

    /// Creates the head with `index`, at most [`LAST_INDEX`], and `tag`, at most [`LAST_TAG`].
    pub fn of(index: u32, tag: u64) -> Self
        requires small { index ≤ LAST_INDEX }
        requires tagged { tag ≤ LAST_TAG }
        ensures { result ≡ record { index = Some index; tag = tag } }
    {
        HeadWord {
            word: tag * LOW_VALUES + (u64::from(index) + 1),
        }
    }

    /// Returns the head that `word` spells. Each word of 64 bits spells one.
    pub fn from_word(word: u64) -> Self
        ensures { result ≡ head_of word }
    {
        HeadWord { word }
    }

    /// Returns the word that spells the head: the tag times 65,536, plus the index plus 1 if there is one.
    pub fn word(self) -> u64
        ensures spelled { head_of result ≡ self }
        ensures value { result ≡ word_of self }
    {
        self.word
    }

    /// Returns the index, or `None` for an empty stack.
    pub fn index(self) -> Option<u32>
        ensures same { result ≡ self.index }
        ensures small { ForSome result (λ i. i ≤ LAST_INDEX) }
    {
        let low = (self.word % LOW_VALUES) as u32;
        if low == 0 { None } else { Some(low - 1) }
    }

    /// Returns the tag, which is one higher in the head that [`HeadWord::next`] returns.
    pub fn tag(self) -> u64
        ensures same { result ≡ self.tag }
        ensures small { result ≤ LAST_TAG }
    {
        self.word / LOW_VALUES
    }

    /// Returns the head with `index`, which is `None` or at most [`LAST_INDEX`], and a tag one higher. Returns `None`
    /// exactly if the tag is [`LAST_TAG`].
    pub fn next(self, index: Option<u32>) -> Option<Self>
        requires { ForSome index (λ i. i ≤ LAST_INDEX) }
        ensures { MatchOption result (self.tag ≡ LAST_TAG) (λ h. (self.tag < LAST_TAG) × (h ≡ after self index)) }
    {
        let tag = self.tag();
        if tag == LAST_TAG {
            return None;
        }
        Some(match index {
            None => HeadWord::none(tag + 1),
            Some(index) => HeadWord::of(index, tag + 1),
        })
    }
}

/// Does nothing. Its contract is the law: two different heads have different words if each has no index or one of at
/// most 65,534.
pub fn words_tell_heads_apart()
    ensures { WordsDetermineHeads }
{}
