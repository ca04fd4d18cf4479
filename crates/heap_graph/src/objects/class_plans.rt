//! Plans the classes of a dump, by their numbers.

ghost use Rattle.std.specs.Prelude.{IfOk, List};
ghost use Rattle.hprof_grammar.specs.Record.{Record};
ghost use Rattle.hprof_grammar.specs.SubRecord.{SubRecord};
ghost use Rattle.heap_graph.specs.Heap.{heap_of};
ghost use Rattle.heap_graph.specs.Skips.{is_skipped};
ghost use Rattle.heap_graph.specs.working.PlacedNames.{AreNamesByIdOf};

use crate::names::NamesById;
use crate::objects::Objects;
use crate::plan::Plan;
use crate::resolving::target;
use crate::skip::{ClassSkips, SkipEntry};
use std::alloc::{AllocError, Allocator};

impl<'d, A: Allocator> Objects<'d, A> {
    ghost use Rattle.heap_graph.specs.working.ClassPlans.{IsPlanOf};
    ghost use Rattle.heap_graph.specs.working.ClassFates.{HaveFatesOf};

    /// Returns the plan of all classes, in which the fields that `skip` lists are not followed. `names` has the texts
    /// that name classes and fields.
    pub(crate) fn plan<B: Allocator + Copy>(
        &self,
        alloc: B,
        names: &NamesById<'_, '_, B>,
        skip: &[SkipEntry<'_>],
    ) -> Result<Plan<B>, AllocError>
        requires fates { (heap : List SubRecord) × HaveFatesOf self.now heap }
        requires names { (records : List Record) × AreNamesByIdOf names.now records }
        ensures { IfOk result (λ plan. (records : List Record) → HaveFatesOf self.now (heap_of records)
            → AreNamesByIdOf names.now records
            → IsPlanOf (is_skipped records skip.now) self.now (heap_of records) plan) }
    {
        let count = self.classes.table.len();
        let mut plan = Plan {
            classes: Vec::with_capacity(alloc, count)?,
            places: Vec::new(alloc),
        };
        for number in 0..count {
            let id = self.classes.id(number as u32);
            let skips = ClassSkips::of(names, skip, id);
            let place = self.classes.class_place(number as u32).place;
            let object = target(&self.index, id);
            plan.push(&self.view, self.view.members(place), &skips, object)?;
        }
        Ok(plan)
    }
}
