//! Computes the layouts of classes from those of their superclasses.

ghost use Rattle.std.specs.Prelude.{List, length, slice_index, ◌<◌, ◌∷◌, ◌≡◌, ℕ};
ghost use Rattle.hprof_grammar.specs.SubRecord.{Class, SubRecord};

use crate::classes::{Classes, Fate, Layout};
use std::alloc::Allocator;

/// The largest size that a layout stores: a larger size is stored as this.
const MOST_SIZE: u64 = 4_294_967_296;

impl<'d, A: Allocator> Classes<'d, A> {
    ghost use Rattle.heap_graph.specs.working.ClassTable.{AreClassesOf, ids_of};
    ghost use Rattle.heap_graph.specs.working.Chains.{IsChainAtOf, IsFateOf, IsFirstOf, IsLayoutAtOf, IsSettled};
    ghost use Rattle.heap_graph.specs.working.Chains.{IsUnderOf};

    /// Returns the first class that declares fields, from class `number` up, or `None` if none does. `above` is the
    /// first class above class `number` that declares fields.
    fn first_of(&self, number: u32, above: Option<u32>) -> Option<u32>
        requires below { number < length self.now.table.entries }
        requires heap { (heap : List SubRecord) × AreClassesOf self.now heap }
        ensures { (heap : List SubRecord) (c : Class) (rest : List Class) → AreClassesOf self.now heap
            → IsChainAtOf self.now heap number c rest → IsFirstOf self.now heap rest above
            → IsFirstOf self.now heap (c ∷ rest) result }
    {
        if self.class_place(number).size == 0 {
            return above;
        }
        Some(number)
    }

    /// Returns the layout of class `number`. `above` is the layout of its superclass, or an empty layout if it has no
    /// superclass.
    fn layout_below(&self, number: u32, above: Layout) -> Layout
        requires below { number < length self.now.table.entries }
        requires heap { (heap : List SubRecord) × (c : Class) × (rest : List Class) × AreClassesOf self.now heap
            × IsChainAtOf self.now heap number c rest × IsLayoutAtOf self.now heap rest above }
        ensures { (heap : List SubRecord) (c : Class) (rest : List Class) → AreClassesOf self.now heap
            → IsChainAtOf self.now heap number c rest → IsLayoutAtOf self.now heap rest above
            → IsLayoutAtOf self.now heap (c ∷ rest) result }
    {
        let bytes = self.class_place(number).size + above.size;
        Layout {
            size: bytes.min(MOST_SIZE),
            first: self.first_of(number, above.first),
            next: above.first,
        }
    }

    /// Returns the fate of class `number`. `above` is the fate of what is above the class.
    pub(crate) fn fate_below(&self, number: u32, above: Fate) -> Fate
        requires below { number < length self.now.table.entries }
        requires heap { (heap : List SubRecord) × (super : ℕ) × AreClassesOf self.now heap
            × IsUnderOf self.now heap number super × IsFateOf self.now heap super above }
        ensures settled { IsSettled above → IsSettled result }
        ensures fate { (heap : List SubRecord) (super : ℕ) → AreClassesOf self.now heap
            → IsUnderOf self.now heap number super → IsFateOf self.now heap super above
            → IsFateOf self.now heap (slice_index (ids_of self.now.table.entries) number) result }
    {
        match above {
            Fate::Whole(layout) => return Fate::Whole(self.layout_below(number, layout)),
            fate => return fate,
        }
    }
}
