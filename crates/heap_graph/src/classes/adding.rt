//! Creates an empty table of classes, and adds a class to it.

ghost use Rattle.std.specs.Prelude.{Contains, IfOk, OnOk, [], length, ◌<◌, ◌^◌, ◌≡◌};
ghost use Rattle.heap_graph.specs.working.ClassList.{ids_of};
ghost use Rattle.heap_graph.specs.working.IdPlaces.{size_together};
ghost use Rattle.hprof_grammar.specs.Standing.{Stands};
ghost use Rattle.hprof_grammar.specs.SubRecord.{Class};
ghost use Rattle.hprof_grammar.specs.SubRecord.SubRecord.{class_dump};

use crate::classes::hash::ClassHash;
use crate::classes::table::ClassTable;
use crate::classes::{ClassPlace, Classes};
use hprof_grammar::{Members, View};
use std::alloc::{AllocError, Allocator};

/// Returns the size in bytes of the values of `members` together.
fn bytes_of_fields(view: &View<'_>, members: Members<'_>) -> u64
    requires { length members < 2 ^ 16 }
    ensures value { result ≡ size_together view.now.id_size members.entry }
    ensures few { result < 2 ^ 32 }
{
    let mut bytes = 0;
    for member in members {
        bytes += u64::from(view.size_of(member.type_code));
    }
    bytes
}

impl<'d, A: Allocator + Copy> Classes<'d, A> {
    /// Creates an empty table. Only its guesses have room for `classes` classes yet.
    pub(crate) fn new(
        alloc: A,
        view: View<'d>,
        hash: ClassHash,
        classes: usize,
    ) -> Result<Self, AllocError>
        ensures view { IfOk result (λ classes. classes.view ≡ view.entry) }
        ensures entries { IfOk result (λ classes. classes.table.entries ≡ []) }
    {
        let table = ClassTable::new(alloc, hash, classes)?;
        Ok(Classes { view, table })
    }
}

impl<'d, A: Allocator> Classes<'d, A> {
    ghost use Rattle.heap_graph.specs.working.ClassTable.{AddsEntry};

    /// Adds the class `id`, whose dump is at `place`. The table must not contain `id` yet.
    pub(crate) fn add(&mut self, id: u64, place: u32) -> Result<(), AllocError>
        requires dump { (c : Class) × Stands self.old.view place (class_dump c) }
        requires new { Contains (ids_of self.old.table.entries) id → ⊥ }
        ensures view { OnOk result (self.new.view ≡ self.old.view) }
        ensures added { OnOk result ((c : Class) → Stands self.old.view place (class_dump c)
            → AddsEntry self.old.view.id_size c id place self.old.table.entries self.new.table.entries) }
    {
        let members = self.view.members(place);
        let size = bytes_of_fields(&self.view, members);
        self.table.push(id, ClassPlace { place, size })?;
        Ok(())
    }
}
