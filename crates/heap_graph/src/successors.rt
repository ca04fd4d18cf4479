//! The objects that an object refers to.

ghost use Rattle.std.specs.Prelude.{length, ◌≡◌};

use crate::visit::Visit;
use std::alloc::Allocator;
use std::marker::Model;

/// An iterator over the numbers of the objects that an object refers to: a visit without the row and the bytes. Reads
/// the identifiers that the object holds, and looks up each of them except 0 and that of a class that is already known.
#[derive(Drop)]
pub struct Successors<'g, A: Allocator> {
    visit: Visit<'g, A>,
}

impl<'g, A: Allocator> Model for Successors<'g, A> {
    ghost use Rattle.std.specs.Prelude.{List};
    ghost use Rattle.heap_graph.specs.Walks.{Step};

    ghost Value = { List Step };

    ghost view = { λ s. s.visit.left };
}

impl<'g, A: Allocator> Successors<'g, A> {
    /// Creates the iterator over the objects that `visit` yields.
    pub(crate) fn of(visit: Visit<'g, A>) -> Self
        ensures { result ≡ visit.entry.left }
    {
        Successors { visit }
    }

    /// Returns the number of remaining identifiers of those that the object holds, including those that are 0 or name
    /// no object.
    pub fn left(&self) -> u64
        ensures { result ≡ length self.now }
    {
        self.visit.left()
    }
}

impl<'g, A: Allocator> Iterator for Successors<'g, A> {
    ghost use Rattle.std.specs.Iterator.{YieldsFirst, item_count};
    ghost use Rattle.heap_graph.specs.Walks.{GoesPast, references_in};

    type Item = u32;

    ghost next_gives = { λ old object new. YieldsFirst references_in old object new × GoesPast old object new };

    ghost remaining = { item_count references_in };

    fn next(&mut self) -> Option<u32> {
        self.visit.next()
    }
}
