//! The builder that makes extents of objects, which are added one after the other, and an index of these extents.

ghost use Rattle.std.specs.Prelude.{IfOk, OnErr, [], length, map, ◌++◌, ◌+◌, ◌<◌, ◌∷◌, ◌^◌, ◌≡◌, ℕ};
ghost use Rattle.id_index.specs.working.Building.{raised_by, with_last};
ghost use Rattle.id_index.specs.working.Extents.{extent_in};

use crate::beginnings::Beginnings;
use crate::extent_index::ExtentIndex;
use crate::extents::{Extent, GRANULES};
use crate::pruning::prune;
use crate::repeats::least_repeat;
use crate::sorting::sort_extents;
use std::alloc::{AllocError, Allocator};
use std::marker::Model;

/// The identifiers of objects in the order of the file: an index is made of them.
#[derive(Drop)]
pub(crate) struct ExtentIndexBuilder<A: Allocator> {
    /// The extents but for the one in `last`, in the order of the file.
    extents: Vec<Extent, A>,
    /// The last extent, which the next object may join. `None` before the first object, and directly after the objects
    /// of another builder were appended.
    last: Option<Extent>,
    /// The number of objects.
    count: u32,
}

impl<A: Allocator> Model for ExtentIndexBuilder<A> {
    ghost use Rattle.std.specs.Prelude.{List, ℕ};
    ghost use Rattle.id_index.specs.working.Building.{AreFewBuilt, ids_built};

    ghost Value = { List ℕ };

    ghost view = { λ b. ids_built b.extents.items b.last b.count };

    ghost invariant = { λ b. AreFewBuilt b.extents.items b.last (ids_built b.extents.items b.last b.count) b.count };
}

/// Pushes the extent in `last`, if there is one, onto `extents`. `AllocError` if the allocation fails.
fn close<A: Allocator>(extents: &mut Vec<Extent, A>, last: Option<Extent>) -> Result<(), AllocError>
    ensures extents { IfOk result (λ _. extents.new.items ≡ with_last extents.old.items last) }
    ensures err { OnErr result (extents.new.items ≡ extents.old.items) }
{
    if let Some(extent) = last {
        extents.push(extent)?;
    }
    Ok(())
}

/// Pushes the extents of `more` onto `extents`, with the numbers of their objects raised by `by`. `AllocError` if the
/// allocation fails.
fn push_raised<A: Allocator>(
    extents: &mut Vec<Extent, A>,
    more: &[Extent],
    by: u32,
) -> Result<(), AllocError>
    requires { (k : ℕ) → k < length more.now → (extent_in more.now k).first + by < 2 ^ 32 }
    ensures extents { IfOk result (λ _. extents.new.items ≡ extents.old.items ++ map (raised_by by) more.now) }
    ensures err { OnErr result (extents.new.items ≡ extents.old.items) }
{
    extents.reserve(more.len())?;
    for extent in more {
        extents.push_reserved(Extent {
            page: extent.page,
            first: extent.first + by,
            granules: extent.granules,
        });
    }
    Ok(())
}

impl<A: Allocator> ExtentIndexBuilder<A> {
    /// Creates a builder without an object.
    pub(crate) fn new(alloc: A) -> Self
        ensures { result ≡ [] }
    {
        ExtentIndexBuilder {
            extents: Vec::new(alloc),
            last: None,
            count: 0,
        }
    }

    /// Adds the next object, which has the identifier `id`. `AllocError` if an allocation fails.
    pub(crate) fn push(&mut self, id: u64) -> Result<(), AllocError>
        requires { length self.old + 1 < 2 ^ 32 }
        ensures { IfOk result (λ _. self.new ≡ self.old ++ id ∷ []) }
    {
        let (page, bit) = (id / GRANULES, 1 << (id % GRANULES) as u32);
        if let Some(extent) = self.last {
            if extent.page == page && extent.granules < bit {
                self.last = Some(Extent {
                    page: extent.page,
                    first: extent.first,
                    granules: extent.granules | bit,
                });
                self.count += 1;
                return Ok(());
            }
        }
        close(&mut self.extents, self.last)?;
        self.last = Some(Extent {
            page,
            first: self.count,
            granules: bit,
        });
        self.count += 1;
        Ok(())
    }

    /// Adds the objects of `other` after those of `self`. Does not join the last extent of `self` to the first of
    /// `other`. `AllocError` if an allocation fails.
    pub(crate) fn append(&mut self, other: Self) -> Result<(), AllocError>
        requires { length self.old + length other < 2 ^ 32 }
        ensures { IfOk result (λ _. self.new ≡ self.old ++ other) }
    {
        let (mut more, count) = (other.extents, other.count);
        close(&mut more, other.last)?;
        close(&mut self.extents, self.last)?;
        self.last = None;
        push_raised(&mut self.extents, &more, self.count)?;
        self.count += count;
        Ok(())
    }

    /// Returns the index of the added objects. `AllocError` if an allocation fails.
    pub(crate) fn finish(self, alloc: A) -> Result<ExtentIndex<A>, AllocError>
        ensures { IfOk result (λ index. index ≡ self) }
    {
        let (mut extents, count) = (self.extents, self.count);
        close(&mut extents, self.last)?;
        extents.shrink_to_fit();
        sort_extents(&mut extents)?;
        let repeat = least_repeat(&extents, count);
        let kept = prune(&mut extents);
        let beginnings = Beginnings::of(alloc, &extents[..kept])?;
        Ok(ExtentIndex {
            extents,
            kept,
            beginnings,
            count,
            repeat,
        })
    }
}
