//! Makes an index from a list of identifiers, as callers do.

ghost use Rattle.std.specs.Prelude.{IfOk, IfSome, length, ◌<◌, ◌^◌, ◌≡◌};

use id_index::{IdIndex, IdIndexBuilder, LowBits};
use std::alloc::{AllocError, Allocator};

/// Returns the lowest three bits of the first of `ids`, or 0 if there is none.
fn first_low(ids: &[u64]) -> u64
    ensures { result < 8 }
{
    match ids.first() {
        Some(id) => return *id % 8,
        None => return 0,
    }
}

/// Returns a builder with `ids`, or `None` if not all have the lowest bits `bits`.
pub fn gathered<A: Allocator>(
    alloc: A,
    ids: &[u64],
    bits: LowBits,
) -> Result<Option<IdIndexBuilder<A>>, AllocError>
    requires shifted { bits.shift < 64 }
    requires low { bits.low < 2 ^ bits.shift }
    requires few { length ids.now < 2 ^ 32 }
    ensures { IfOk result (λ found. IfSome found (λ builder.
        (builder.ids ≡ ids.now) × (builder.shift ≡ bits.shift) × (builder.low ≡ bits.low))) }
{
    let mut builder = IdIndexBuilder::new(alloc, bits);
    for id in ids {
        if !builder.fits(*id) {
            return Ok(None);
        }
        builder.push(*id)?;
    }
    Ok(Some(builder))
}

/// Returns the index of objects with the identifiers `ids`, made with all bits.
fn whole_index<A: Allocator + Copy>(alloc: A, ids: &[u64]) -> Result<IdIndex<A>, AllocError>
    requires few { length ids.now < 2 ^ 32 }
    ensures { IfOk result (λ index. index ≡ ids.now) }
{
    let mut builder = IdIndexBuilder::new(alloc, LowBits { shift: 0, low: 0 });
    for id in ids {
        builder.push(*id)?;
    }
    builder.finish(alloc)
}

/// Returns the index of objects with the identifiers `ids`. It is made without the three lowest bits if those are the
/// same in all, as in dumps whose objects are at multiples of eight.
pub fn index_of<A: Allocator + Copy>(alloc: A, ids: &[u64]) -> Result<IdIndex<A>, AllocError>
    requires few { length ids.now < 2 ^ 32 }
    ensures { IfOk result (λ index. index ≡ ids.now) }
{
    let bits = LowBits {
        shift: 3,
        low: first_low(ids),
    };
    match gathered(alloc, ids, bits)? {
        Some(builder) => builder.finish(alloc),
        None => whole_index(alloc, ids),
    }
}
