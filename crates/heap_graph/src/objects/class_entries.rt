//! The classes of a dump, with the texts that name them.

ghost use Rattle.std.specs.Prelude.{IfOk, List, length, map, option_copied, slice_index, ◌<◌, ◌^◌, ◌≡◌};
ghost use Rattle.hprof_grammar.specs.Record.{Record};
ghost use Rattle.heap_graph.specs.ClassNames as named;
ghost use Rattle.heap_graph.specs.Heap.{heap_of};
ghost use Rattle.heap_graph.specs.ObjectGraph.{named_classes};
ghost use Rattle.heap_graph.specs.working.ClassList.{ids_of};

use crate::names::NamesById;
use crate::objects::Objects;
use std::alloc::{AllocError, Allocator};

/// The identifier of a class, and the text that names the class, or `None` if the dump has none.
#[derive(Clone, Copy)]
pub(crate) struct ClassEntry<'a> {
    pub(crate) id: u64,
    pub(crate) text: Option<&'a [u8]>,
}

impl<'d, A: Allocator> Objects<'d, A> {
    ghost use Rattle.heap_graph.specs.working.ObjectIds.{AreLinkedOf};
    ghost use Rattle.heap_graph.specs.working.PlacedNames.{AreNamesByIdOf};
    ghost use Rattle.heap_graph.specs.working.Refinement.{named_class};
    ghost use Rattle.heap_graph.specs.working.ClassFates.{HaveFatesOf};

    /// Returns the identifier of class `number`, and the text that `names` has for the class, if any.
    fn class_entry<'a, B: Allocator>(
        &self,
        names: &NamesById<'_, 'a, B>,
        number: u32,
    ) -> ClassEntry<'a>
        requires below { number < length self.now.classes.table.entries }
        requires names { (records : List Record) × AreNamesByIdOf names.now records }
        ensures id { result.id ≡ slice_index (ids_of self.now.classes.table.entries) number }
        ensures text { (records : List Record) → AreNamesByIdOf names.now records
            → option_copied result.text ≡ named.class_text records result.id }
    {
        let id = self.classes.id(number);
        let text = names.class_text(id);
        ClassEntry { id, text }
    }

    /// Returns the identifiers of all classes, by class number, and the text that `names` has for each class, if any.
    pub(crate) fn classes<'a, B: Allocator + Copy>(
        &self,
        alloc: B,
        names: &NamesById<'_, 'a, B>,
    ) -> Result<Vec<ClassEntry<'a>, B>, AllocError>
        requires few { length self.now.classes.table.entries < 2 ^ 32 }
        requires names { (records : List Record) × AreNamesByIdOf names.now records }
        ensures { IfOk result (λ v. (records : List Record) → AreLinkedOf self.now (heap_of records)
            → HaveFatesOf self.now (heap_of records) → AreNamesByIdOf names.now records
            → map named_class v.items ≡ named_classes records) }
    {
        let count = self.classes.table.len();
        let mut classes = Vec::with_capacity(alloc, count)?;
        for number in 0..count {
            classes.push(self.class_entry(names, number as u32))?;
        }
        Ok(classes)
    }
}
