//! The numbers under which sets are shown.

ghost use Rattle.std.specs.Prelude.{IfOk, length, ◌≡◌};
ghost use Rattle.held_table.specs.working.Plains.{ArePlains};

use label_sets::LabelSets;
use std::alloc::{AllocError, Allocator};

/// Returns for each set of `store` the number under which it is shown. Sets with the same labels, one of which is a
/// part of the other, are shown under one number.
pub(crate) fn plain_numbers<A: Allocator, B: Allocator>(
    alloc: A,
    store: &LabelSets<B>,
) -> Result<Vec<u32, A>, AllocError>
    ensures each { IfOk result (λ v. length v.items ≡ length store.now.sets) }
    ensures plain { IfOk result (λ v. ArePlains store.now (length store.now.sets) v.items) }
{
    let mut plains = Vec::new(alloc);
    for set in 0..store.len() {
        plains.push(store.plain(set))?;
    }
    Ok(plains)
}
