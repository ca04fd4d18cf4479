//! What identifiers name: 0 names nothing, any other identifier names the first object that bears it, if there is one.

ghost use Rattle.std.specs.Prelude.{IfOk, ◌≡◌};
ghost use Rattle.heap_graph.specs.working.Resolving.{Resolves, ResolvesOne, target_in};

use id_index::IdIndex;
use std::alloc::{AllocError, Allocator};

/// Returns the number of the object that `id` names, or `None` if `id` is 0 or names no object.
// Inlined, as the look-up that it calls is.
#[inline(always)]
pub(crate) fn target<A: Allocator>(index: &IdIndex<A>, id: u64) -> Option<u32>
    ensures { result ≡ target_in index.now id }
{
    if id == 0 {
        return None;
    }
    index.find(id)
}

/// Appends to `targets` the object that `id` names, if there is one. Returns whether `id` is not 0 and names no object.
fn push_target<A: Allocator, B: Allocator>(
    index: &IdIndex<A>,
    id: u64,
    targets: &mut Vec<u32, B>,
) -> Result<bool, AllocError>
    ensures { IfOk result (λ unresolved. ResolvesOne index.now id targets.old.items targets.new.items unresolved) }
{
    match target(index, id) {
        Some(number) => {
            targets.push(number)?;
            return Ok(false);
        }
        None => return Ok(id != 0),
    }
}

/// Appends to `targets` the objects that `ids` name, in order. Returns the number of `ids` that are not 0 and name no
/// object.
pub(crate) fn resolve<A: Allocator, B: Allocator>(
    index: &IdIndex<A>,
    ids: &[u64],
    targets: &mut Vec<u32, B>,
) -> Result<u64, AllocError>
    ensures { IfOk result (λ unresolved. Resolves index.now ids.now targets.old.items targets.new.items unresolved) }
{
    let mut unresolved = 0;
    for id in ids {
        if push_target(index, *id, targets)? {
            unresolved += 1;
        }
    }
    Ok(unresolved)
}
