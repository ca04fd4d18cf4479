//! The class of an instance, and the classes above it that declare fields.

ghost use Rattle.std.specs.Prelude.{List, None, Some, length, position, ◌<◌, ◌==◌, ◌≡◌, ◌≢◌, ℕ};
ghost use Rattle.hprof_grammar.specs.SubRecord.{Instance, SubRecord};
ghost use Rattle.hprof_grammar.specs.SubRecord.SubRecord.{instance_dump};
ghost use Rattle.heap_graph.specs.Heap.{class_named, class_number};

use crate::classes::Fate;
use crate::objects::Objects;
use std::alloc::Allocator;

impl<'d, A: Allocator> Objects<'d, A> {
    ghost use Rattle.heap_graph.specs.working.ClassFates.{HaveFatesOf};
    ghost use Rattle.heap_graph.specs.working.ClassTable.{ids_of};
    ghost use Rattle.heap_graph.specs.working.FieldsUp.{next_above};
    ghost use Rattle.heap_graph.specs.working.ObjectIds.{AreLinkedOf, IsFirstOfInstance, IsObjectAt};

    /// Returns the number of the class that `id` names. `id` must name a class.
    // Inlined, like everything that makes up a visit, so that a visit is built in place.
    #[inline(always)]
    pub(crate) fn class_numbered(&self, id: u64) -> u32
        requires { (heap : List SubRecord) × AreLinkedOf self.now heap × HaveFatesOf self.now heap
            × (class_named heap id ≢ None) }
        ensures found { Some result ≡ position (λ x. x == id) (ids_of self.now.classes.table.entries) }
        ensures number { (heap : List SubRecord) → AreLinkedOf self.now heap → HaveFatesOf self.now heap
            → result ≡ class_number heap id }
    {
        match self.classes.find(id) {
            Some(number) => return number,
            None => unreachable!(),
        }
    }

    /// Returns the identifier and the number of the class of the instance at `at`. The third result is the number of
    /// the first class that declares fields, from the instance's class up, or `None` if none of them does.
    // Inlined, like everything that makes up a visit.
    #[inline(always)]
    pub(crate) fn class_of(&self, at: u32) -> (u64, u32, Option<u32>)
        requires { (heap : List SubRecord) × (n : ℕ) × (i : Instance) × AreLinkedOf self.now heap
            × HaveFatesOf self.now heap × IsObjectAt self.now.view heap n at (instance_dump i) }
        ensures id { (heap : List SubRecord) (n : ℕ) (i : Instance)
            → IsObjectAt self.now.view heap n at (instance_dump i) → result.0 ≡ i.class }
        ensures class { (heap : List SubRecord) (n : ℕ) (i : Instance) → AreLinkedOf self.now heap
            → HaveFatesOf self.now heap → IsObjectAt self.now.view heap n at (instance_dump i)
            → result.1 ≡ class_number heap i.class }
        ensures first { (heap : List SubRecord) (n : ℕ) (i : Instance) → AreLinkedOf self.now heap
            → HaveFatesOf self.now heap → IsObjectAt self.now.view heap n at (instance_dump i)
            → IsFirstOfInstance self.now.view.id_size heap (ids_of self.now.classes.table.entries) i result.2 }
    {
        let id = self.view.instance_class(at);
        let number = self.class_numbered(id);
        match self.fates[number as usize] {
            Fate::Whole(layout) => return (id, number, layout.first),
            _ => return (id, number, None),
        }
    }

    /// Returns the first class above class `number` that declares fields. Returns `None` if there is none, or if the
    /// chain of class `number` does not end at 0 ([`Fate::Whole`]).
    pub(crate) fn next_of(&self, number: u32) -> Option<u32>
        requires { number < length self.now.fates.items }
        ensures { result ≡ next_above self.now.fates.items number }
    {
        match self.fates[number as usize] {
            Fate::Whole(layout) => return layout.next,
            _ => return None,
        }
    }
}
