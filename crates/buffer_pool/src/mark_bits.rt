//! The two bits of an object's mark, 32 objects to a word.

ghost use Rattle.std.specs.Prelude.{◌≡◌, ◌*◌, ◌%◌, ◌<◌};
ghost use Rattle.buffer_pool.specs.working.MarkBits.{mark_words, mark_bits};

/// The bits of a claimed object: of its two bits, only the low one is set. A white object has neither bit set.
pub(crate) const CLAIMED: u64 = 1;

/// The bits of a finished object: both are set.
pub(crate) const FINISHED: u64 = 3;

/// Returns how many words the marks of `objects` objects take: 32 objects to a word.
pub(crate) fn mark_words(objects: u32) -> usize
    ensures { result ≡ mark_words objects }
{
    (objects as usize + 31) / 32
}

/// Returns the position of the low bit of `object` in its word.
pub(crate) fn mark_place(object: u32) -> u32
    ensures value { result ≡ 2 * (object % 32) }
    ensures small { result < 63 }
{
    2 * (object % 32)
}

/// Returns `bits`, two bits, shifted to the position of `object` in its word.
#[tactic(auto, using(crate::proofs::Bits::bits_fit))]
pub(crate) fn mark_bits(bits: u64, object: u32) -> u64
    requires { bits < 4 }
    ensures { result ≡ mark_bits bits object }
{
    bits << mark_place(object)
}
