//! The numbers of the objects that are not marked, in order.

ghost use Rattle.std.specs.Prelude.{◌≡◌, ◌++◌, ◌∷◌, ◌<◌, ◌≤◌, ◌^◌, IfOk, OnOk, length, vec_len};

use drain::Marked;
use std::alloc::{AllocError, Allocator};
use std::marker::Model;

/// The most numbers in one batch: they take a megabyte.
const MOST_AT_ONCE: usize = 262_144;

/// An iterator over the numbers of the objects that are not marked.
#[derive(Drop)]
pub(crate) struct UnmarkedNumbers<'m, A: Allocator> {
    marks: &'m Marked<A>,
    /// The least number that is still to be looked at.
    from: u32,
}

impl<'m, A: Allocator> Model for UnmarkedNumbers<'m, A> {
    ghost use Rattle.std.specs.Prelude.{List, length, ℕ, ◌<◌, ◌^◌};
    ghost use Rattle.histogram.specs.working.Unmarked.{unmarked_from};

    ghost Value = { List ℕ };

    ghost view = { λ n. unmarked_from n.marks.now.marks n.from };

    ghost invariant = { λ n. length n.marks.now.marks < 2 ^ 32 };
}

impl<'m, A: Allocator> UnmarkedNumbers<'m, A> {
    ghost use Rattle.histogram.specs.working.Unmarked.{unmarked_from};

    /// Creates an iterator over all objects that are not marked in `marks`.
    pub(crate) fn of(marks: &'m Marked<A>) -> Self
        requires { length marks.now.marks < 2 ^ 32 }
        ensures { result ≡ unmarked_from marks.now.marks 0 }
    {
        UnmarkedNumbers { marks, from: 0 }
    }

    /// Takes a batch: `first`, and the next numbers of the iterator, in all at most 262,144 ([`MOST_AT_ONCE`]).
    /// `AllocError` if an allocation fails.
    pub(crate) fn batch_from<B: Allocator>(
        &mut self,
        alloc: B,
        first: u32,
    ) -> Result<Vec<u32, B>, AllocError>
        ensures numbers { IfOk result (λ batch. first ∷ self.old ≡ batch.items ++ self.new) }
        ensures fewer { OnOk result (length self.new ≤ length self.old) }
        ensures few { IfOk result (λ batch. vec_len batch ≤ 262_144) }
    {
        let mut batch = Vec::with_capacity(alloc, MOST_AT_ONCE)?;
        batch.push(first)?;
        while batch.len() < MOST_AT_ONCE {
            match self.next() {
                Some(number) => batch.push(number)?,
                None => break,
            }
        }
        Ok(batch)
    }
}

impl<'m, A: Allocator> Iterator for UnmarkedNumbers<'m, A> {
    ghost use Rattle.std.specs.Iterator.{YieldsFirst, item_count};

    type Item = u32;

    ghost next_gives = { λ old object new. YieldsFirst (λ n. n) old object new };

    ghost remaining = { item_count (λ n. n) };

    fn next(&mut self) -> Option<u32> {
        let object = self.marks.next_unmarked(self.from)?;
        self.from = object + 1;
        Some(object)
    }
}
