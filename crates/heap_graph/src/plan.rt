//! The places of the identifiers in the fields of instances, class by class.

ghost use Rattle.std.specs.Prelude.{Bool, IfOk, OnOk, length, ◌++◌, ◌<◌, ◌^◌, ◌≡◌};
ghost use Rattle.hprof_grammar.specs.SubRecord.{Member};
ghost use Rattle.heap_graph.specs.working.ClassSkips.{IsSkipTest};
ghost use Rattle.heap_graph.specs.working.IdPlaces.{id_places, size_together};

use crate::row::RowKey;
use crate::skip::ClassSkips;
use hprof_grammar::{Members, View};
use std::alloc::{AllocError, Allocator};

/// The plan of a class. The places of its followed fields are those from `start` up to `end` in `Plan::places`. `size`
/// is the size in bytes of the values of all fields that the class declares. `object` is the object that the identifier
/// of the class names: the class itself. `ClassPlace` has the size too, for the tests of layouts. It is also here, so
/// that a step up a chain finds the size beside the places.
#[derive(Clone, Copy)]
pub(crate) struct ClassPlan {
    pub(crate) start: usize,
    pub(crate) end: usize,
    pub(crate) size: u64,
    pub(crate) object: Option<u32>,
}

/// The plans of the classes, by class number: where the followed fields that a class declares are among the values of
/// its fields, the size of these values in bytes, and the object that is the class. A step up a chain reads a plan and
/// a fate.
#[derive(Drop)]
pub(crate) struct Plan<A: Allocator> {
    pub(crate) classes: Vec<ClassPlan, A>,
    /// The places of the followed fields, one class after the other. A field's place is the size in bytes of the values
    /// of the fields that its class declares before it.
    pub(crate) places: Vec<u32, A>,
}

/// Appends the places of the followed fields among `members` to `places`, and returns the size in bytes of the values
/// of all `members`.
fn push_id_places<A: Allocator, B: Allocator>(
    view: &View<'_>,
    members: Members<'_>,
    skips: &ClassSkips<'_, '_, B>,
    places: &mut Vec<u32, A>,
) -> Result<u64, AllocError>
    requires few { length members < 2 ^ 16 }
    requires skips { (test : Member → Bool) × IsSkipTest skips.now test }
    ensures places { OnOk result ((test : Member → Bool) → IsSkipTest skips.now test
        → places.new.items ≡ places.old.items ++ id_places test view.now.id_size 0 members.entry) }
    ensures size { IfOk result (λ size. size ≡ size_together view.now.id_size members.entry) }
{
    let mut size = 0;
    for member in members {
        if skips.follows(member) {
            places.push(size)?;
        }
        size += u32::from(view.size_of(member.type_code));
    }
    Ok(u64::from(size))
}

impl<A: Allocator> Plan<A> {
    ghost use Rattle.heap_graph.specs.working.ClassPlans.{AddsPlan, HasIdPlaces, HasPlan, id_places_of, object_of_row};
    ghost use Rattle.heap_graph.specs.working.ClassPlans.{plan_at};

    /// Adds the plan of the next class: it declares `members`, and its identifier names `object`.
    pub(crate) fn push<B: Allocator>(
        &mut self,
        view: &View<'_>,
        members: Members<'_>,
        skips: &ClassSkips<'_, '_, B>,
        object: Option<u32>,
    ) -> Result<(), AllocError>
        requires few { length members < 2 ^ 16 }
        requires skips { (test : Member → Bool) × IsSkipTest skips.now test }
        ensures { OnOk result ((test : Member → Bool) → IsSkipTest skips.now test
            → AddsPlan test view.now.id_size members.entry object
            self.old.classes.items self.old.places.items self.new.classes.items self.new.places.items) }
    {
        let start = self.places.len();
        let size = push_id_places(view, members, skips, &mut self.places)?;
        let end = self.places.len();
        self.classes.push(ClassPlan {
            start,
            end,
            size,
            object,
        })?;
        Ok(())
    }

    /// Returns the size in bytes of the values of all fields that class `number` declares.
    pub(crate) fn bytes_of(&self, number: u32) -> u64
        requires { number < length self.now.classes.items }
        ensures { result ≡ (plan_at self.now.classes.items number).size }
    {
        self.classes[number as usize].size
    }

    /// Returns the places of the followed fields that class `number` declares.
    pub(crate) fn id_places(&self, number: u32) -> &[u32]
        requires below { number < length self.now.classes.items }
        requires within { HasIdPlaces self.now.classes.items self.now.places.items number }
        ensures { result.now ≡ id_places_of self.now.classes.items self.now.places.items number }
    {
        let class = self.classes[number as usize];
        &self.places[class.start..class.end]
    }

    /// Returns the object that is the class of the objects in `row`, or `None` if `row` is not that of a class.
    pub(crate) fn object_of_row(&self, row: RowKey) -> Option<u32>
        requires { HasPlan self.now.classes.items row }
        ensures { result ≡ object_of_row self.now.classes.items row }
    {
        match row {
            RowKey::Class(number) => return self.classes[number as usize].object,
            _ => return None,
        }
    }
}
