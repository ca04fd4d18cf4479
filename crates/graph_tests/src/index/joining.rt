//! Makes an index of lists of identifiers that are gathered apart and joined.

ghost use Rattle.std.specs.Prelude.{IfOk, IfSome, length, ◌<◌, ◌^◌, ◌≡◌, ◌≤◌};

use super::beside::serves_or_refused;
use super::lists::LISTS;
use super::making::gathered;
use id_index::{IdIndex, LowBits};
use limited_heap::{LimitedHeap, requests_of};
use std::alloc::{AllocError, Allocator, Global};

/// Returns the index of objects with the identifiers `ids`, or `None` if not all have the lowest bits `bits`. The `ids`
/// are gathered in three lists: the first `at`, up to three after those, and the rest.
fn joined_index<A: Allocator + Copy>(
    alloc: A,
    ids: &[u64],
    bits: LowBits,
    at: usize,
) -> Result<Option<IdIndex<A>>, AllocError>
    requires shifted { bits.shift < 64 }
    requires low { bits.low < 2 ^ bits.shift }
    requires few { length ids.now < 2 ^ 32 }
    requires within { at ≤ length ids.now }
    ensures { IfOk result (λ found. IfSome found (λ index. index ≡ ids.now)) }
{
    let (front, rest) = ids.split_at(at);
    let (middle, back) = rest.split_at(rest.len().min(3));
    let Some(mut builder) = gathered(alloc, front, bits)? else {
        return Ok(None);
    };
    let Some(next) = gathered(alloc, middle, bits)? else {
        return Ok(None);
    };
    builder.append(next)?;
    let Some(last) = gathered(alloc, back, bits)? else {
        return Ok(None);
    };
    builder.append(last)?;
    Ok(Some(builder.finish(alloc)?))
}

/// Gathers lists and joins them.
#[derive(Drop)]
struct Joining<'a> {
    ids: &'a [u64],
    /// The number of lowest bits that are dropped, at most 3.
    shift: u32,
    at: usize,
}

impl Joining<'_> {
    /// Returns the lowest bits that are dropped: those of the first identifier, or 0 if there is none.
    fn bits(&self) -> LowBits
        ensures shifted { result.shift < 64 }
        ensures low { result.low < 2 ^ result.shift }
    {
        let shift = self.shift.min(3);
        let first = match self.ids.first() {
            Some(id) => *id,
            None => 0,
        };
        LowBits {
            shift,
            low: first % (1 << shift),
        }
    }

    /// Tests whether an identifier has other lowest bits than the first one.
    fn differs(&self) -> bool {
        let bits = self.bits();
        self.ids
            .iter()
            .any(|id| *id % (1 << bits.shift) != bits.low)
    }

    /// Tests whether joining the lists on `heap` has a right result: an index that agrees with a search one by one, no
    /// index if an identifier differs, or out of memory after an allocation failed.
    fn is_right(&self, heap: &LimitedHeap<Global>) -> bool {
        if self.ids.len() > 1000 || self.at > self.ids.len() {
            return false;
        }
        let made = joined_index(heap, self.ids, self.bits(), self.at);
        serves_or_refused(&made, heap, self.ids, !self.differs())
    }
}

/// Lists are cut at each place, and each allocation fails in turn. If an index is made even so, the index agrees with a
/// search one by one.
#[test]
fn joined_as_one_by_one_or_out_of_memory(rt: HostRuntime) {
    for ids in LISTS {
        for at in 0..=ids.len() {
            for shift in [0, 3] {
                let joining = Joining { ids, shift, at };
                let requests = requests_of(rt.alloc(), |heap| joining.is_right(heap));
                assert!(rt; requests.is_some(), "{} identifiers cut at {at}", ids.len());
            }
        }
    }
}
