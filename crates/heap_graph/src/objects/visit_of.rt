//! Reads an object's row, its bytes and the identifiers that it holds in one step.

ghost use Rattle.std.specs.Prelude.{Bool, List, length, ◌<◌};
ghost use Rattle.hprof_grammar.specs.SubRecord.{Class, Member, SubRecord};

use crate::object_ids::{ObjectIds, Rest};
use crate::objects::Objects;
use crate::objects::bytes::{array_bytes, class_bytes, primitive_bytes};
use crate::plan::Plan;
use crate::row::RowKey;
use hprof_grammar::ObjectKind;
use std::alloc::Allocator;

impl<'d, A: Allocator> Objects<'d, A> {
    ghost use Rattle.heap_graph.specs.working.ClassFates.{HaveFatesOf};
    ghost use Rattle.heap_graph.specs.working.ClassPlans.{IsPlanOf};
    ghost use Rattle.heap_graph.specs.working.ObjectIds.{AreLinkedOf};
    ghost use Rattle.heap_graph.specs.working.ObjectVisits.{IsVisitOf};

    /// Returns four things of object `number`: its row, its bytes, the number of the object that is its class, and the
    /// identifiers that it holds. The third is `None` for a class and for a primitive array. If the third is a number,
    /// the fourth begins after the identifier of the class. Reads the kind of the object once, and looks up its class
    /// at most once.
    // Inlined, so that a visit is built in place.
    #[inline(always)]
    pub(crate) fn visit_of<'g>(
        &'g self,
        plan: &'g Plan<A>,
        number: usize,
    ) -> (RowKey, u64, Option<u32>, ObjectIds<'g, A>)
        requires below { number < length self.now.places.items }
        requires heap { (skips : Class → Member → Bool) × (heap : List SubRecord) × AreLinkedOf self.now heap
            × HaveFatesOf self.now heap × IsPlanOf skips self.now heap plan.now }
        ensures { (skips : Class → Member → Bool) (heap : List SubRecord) → AreLinkedOf self.now heap
            → HaveFatesOf self.now heap → IsPlanOf skips self.now heap plan.now
            → IsVisitOf skips self.now heap number result.0 result.1 result.2 result.3 }
    {
        let place = self.places[number];
        match self.view.kind(place) {
            ObjectKind::Class => {
                let bytes = class_bytes(&self.view, place);
                return (RowKey::ClassObject, bytes, None, self.ids_of_class(place));
            }
            ObjectKind::Instance => {
                let (id, class, first) = self.class_of(place);
                let bytes = self.view.instance_values(place).len() as u64;
                let known = plan.object_of_row(RowKey::Class(class));
                let ids = self.ids_of_instance(plan, place, id, first, known.is_some());
                return (RowKey::Class(class), bytes, known, ids);
            }
            ObjectKind::ObjectArray => {
                let id = self.view.array_class(place);
                let class = self.class_numbered(id);
                let bytes = array_bytes(&self.view, place);
                let known = plan.object_of_row(RowKey::Class(class));
                let ids = self.ids_of_array(place, id, known.is_some());
                return (RowKey::Class(class), bytes, known, ids);
            }
            ObjectKind::PrimitiveArray => {
                let code = self.view.element_type(place);
                let bytes = primitive_bytes(&self.view, place, code);
                let none = ObjectIds {
                    rest: Rest::Nothing,
                };
                return (RowKey::Primitive(code), bytes, None, none);
            }
        }
    }
}
