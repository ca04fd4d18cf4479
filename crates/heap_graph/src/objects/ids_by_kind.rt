//! The identifiers that objects hold, read at their places.

ghost use Rattle.std.specs.Prelude.{Bool, List, ◌≡◌, ◌≤◌, ℕ};
ghost use Rattle.hprof_grammar.specs.Standing.{Stands};
ghost use Rattle.hprof_grammar.specs.SubRecord.{Class, Instance, Member, ObjectArray, SubRecord};
ghost use Rattle.hprof_grammar.specs.SubRecord.SubRecord.{class_dump, instance_dump, object_array_dump};

use crate::object_ids::{ClassIds, FieldIds, ObjectIds, Rest};
use crate::objects::Objects;
use crate::plan::Plan;
use std::alloc::Allocator;

impl<'d, A: Allocator> Objects<'d, A> {
    ghost use Rattle.heap_graph.specs.working.ClassFates.{HaveFatesOf};
    ghost use Rattle.heap_graph.specs.working.ClassPlans.{IsPlanOf};
    ghost use Rattle.heap_graph.specs.working.ClassTable.{ids_of};
    ghost use Rattle.heap_graph.specs.working.ObjectIds.{AreIdsOf, AreLinkedOf, IsFirstOfInstance, IsObjectAt};
    ghost use Rattle.heap_graph.specs.working.ObjectIds.{with_class};

    /// Returns the identifiers that the class dump at `at` holds, except the two reserved ones.
    // Inlined, like everything that makes up a visit.
    #[inline(always)]
    pub(crate) fn ids_of_class(&self, at: u32) -> ObjectIds<'_, A>
        requires size { (1 ≤ self.now.view.id_size) × (self.now.view.id_size ≤ 8) }
        requires dump { (c : Class) × Stands self.now.view at (class_dump c) }
        ensures { (skips : Class → Member → Bool) (heap : List SubRecord) (c : Class)
            → Stands self.now.view at (class_dump c)
            → AreIdsOf skips self.now.view.id_size heap (class_dump c) result }
    {
        let ids = ClassIds::new(&self.view, at);
        ObjectIds {
            rest: Rest::OfClass(ids),
        }
    }

    /// Returns the identifiers that the instance at `at` holds: `class`, the identifier of its class, unless
    /// `class_is_known`, and then those in its followed fields. `first` is the first class of its layout that declares
    /// fields.
    // Inlined, like everything that makes up a visit.
    #[inline(always)]
    pub(crate) fn ids_of_instance<'g>(
        &'g self,
        plan: &'g Plan<A>,
        at: u32,
        class: u64,
        first: Option<u32>,
        class_is_known: bool,
    ) -> ObjectIds<'g, A>
        requires { (skips : Class → Member → Bool) × (heap : List SubRecord) × (n : ℕ) × (i : Instance)
            × AreLinkedOf self.now heap × HaveFatesOf self.now heap × IsPlanOf skips self.now heap plan.now
            × IsObjectAt self.now.view heap n at (instance_dump i) × (class ≡ i.class)
            × IsFirstOfInstance self.now.view.id_size heap (ids_of self.now.classes.table.entries) i first }
        ensures { (skips : Class → Member → Bool) (heap : List SubRecord) (n : ℕ) (i : Instance)
            → AreLinkedOf self.now heap → HaveFatesOf self.now heap → IsPlanOf skips self.now heap plan.now
            → IsObjectAt self.now.view heap n at (instance_dump i) → class ≡ i.class
            → IsFirstOfInstance self.now.view.id_size heap (ids_of self.now.classes.table.entries) i first
            → AreIdsOf skips self.now.view.id_size heap (instance_dump i) (with_class class_is_known i.class result) }
    {
        let fields = FieldIds::new(self, plan, first, self.view.instance_values(at));
        if class_is_known {
            return ObjectIds {
                rest: Rest::Fields(fields),
            };
        }
        ObjectIds {
            rest: Rest::InstanceWithClass(class, fields),
        }
    }

    /// Returns the identifiers that the object array at `at` holds: `class`, the identifier of its class, unless
    /// `class_is_known`, and then its elements.
    // Inlined, like everything that makes up a visit.
    #[inline(always)]
    pub(crate) fn ids_of_array(&self, at: u32, class: u64, class_is_known: bool) -> ObjectIds<'_, A>
        requires { (a : ObjectArray) × Stands self.now.view at (object_array_dump a) × (class ≡ a.class) }
        ensures { (skips : Class → Member → Bool) (heap : List SubRecord) (a : ObjectArray)
            → Stands self.now.view at (object_array_dump a) → class ≡ a.class
            → AreIdsOf skips self.now.view.id_size heap (object_array_dump a)
            (with_class class_is_known a.class result) }
    {
        let elements = self.view.array_elements(at);
        if class_is_known {
            return ObjectIds {
                rest: Rest::Elements(elements),
            };
        }
        ObjectIds {
            rest: Rest::ArrayWithClass(class, elements),
        }
    }
}
