//! The marks of all classes.

ghost use Rattle.std.specs.Prelude.{IfOk, ◌≡◌};
ghost use Rattle.labelled_graph.specs.working.ClassLists.{AreClassLists, list_of};
ghost use Rattle.labelled_graph.specs.working.MarkMaps.{IsFrom};

use crate::mark::PlacedMark;
use crate::marks::Marks;
use heap_graph::{Graph, RowKey};
use std::alloc::{AllocError, Allocator};
use std::marker::Model;

/// For each class its marks, in the order of their indices. Classes go by their numbers.
#[derive(Drop)]
pub(crate) struct ClassMarks<A: Allocator> {
    lists: Vec<Vec<PlacedMark, A>, A>,
}

impl<A: Allocator> Model for ClassMarks<A> {
    ghost use Rattle.std.specs.Prelude.{All, List, map};
    ghost use Rattle.labelled_graph.specs.declared.mark.PlacedMark.{PlacedMark};
    ghost use Rattle.labelled_graph.specs.working.MarkMaps.{IsFrom};

    ghost Value = { List (List PlacedMark) };

    ghost view = { λ c. map (λ list. list.items) c.lists.items };

    ghost invariant = { λ c. All (λ list. IsFrom 0 list.items) c.lists.items };
}

impl<A: Allocator + Copy> ClassMarks<A> {
    /// Creates the marks of the classes of `graph`, which `marks` has by the identifiers of classes. `Err` if an
    /// allocation fails.
    pub(crate) fn of(alloc: A, graph: &Graph<'_, A>, marks: &Marks<A>) -> Result<Self, AllocError>
        ensures { IfOk result (AreClassLists graph.now marks.now.marks) }
    {
        let mut lists = Vec::new(alloc);
        for class in 0..graph.classes() {
            let list = marks.of_key(alloc, graph.class_id(class))?;
            lists.push(list)?;
        }
        Ok(ClassMarks { lists })
    }
}

impl<A: Allocator> ClassMarks<A> {
    /// Returns the marks of the class whose row is `row`. Returns none if the row is of no class.
    pub(crate) fn of_row(&self, row: RowKey) -> &[PlacedMark]
        ensures value { result.now ≡ list_of self.now row }
        ensures ascends { IsFrom 0 result.now }
    {
        let RowKey::Class(class) = row else {
            return &[];
        };
        match self.lists.get(class as usize) {
            Some(list) => list.as_slice(),
            None => &[],
        }
    }
}
