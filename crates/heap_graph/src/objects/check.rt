//! Tests an object by the rules of the links.

ghost use Rattle.std.specs.Prelude.{IfNone, List, false, length, true, ◌<◌, ◌≡◌, ◌≢◌, ◌≤◌};
ghost use Rattle.hprof_grammar.specs.Dump.{is_object};
ghost use Rattle.hprof_grammar.specs.Standing.{Stands};
ghost use Rattle.hprof_grammar.specs.SubRecord.{Class, Instance, ObjectArray, SubRecord};
ghost use Rattle.hprof_grammar.specs.SubRecord.SubRecord.{class_dump, instance_dump, object_array_dump};

use crate::classes::{Fate, Layout};
use crate::objects::Objects;
use crate::refusal::LinkRule;
use hprof_grammar::ObjectKind;
use std::alloc::Allocator;

/// The largest number of objects of a linked dump.
const MOST_OBJECTS: usize = 16_777_216;

/// Tests whether `values` have the size of `layout`.
fn has_size(values: &[u8], layout: Layout) -> bool
    ensures right { result ≡ true → length values.now ≡ layout.size }
    ensures wrong { result ≡ false → length values.now ≢ layout.size }
{
    values.len() as u64 == layout.size
}

impl<'d, A: Allocator> Objects<'d, A> {
    ghost use Rattle.id_index.specs.Repeats.{IsFirstRepeat};
    ghost use Rattle.heap_graph.specs.working.PlacedObjects.{AreOf};
    ghost use Rattle.heap_graph.specs.working.ClassFates.{HaveFatesOf};
    ghost use Rattle.heap_graph.specs.working.RuleAnswers.{IsLeastRule, IsRuleOfKind};

    /// Returns `LinkRule::SuperChain` if the class dump at `at` breaks this rule, otherwise `None`.
    fn class_rule(&self, at: u32) -> Option<LinkRule>
        requires object { (c : Class) × Stands self.now.view at (class_dump c) }
        requires heap { (heap : List SubRecord) × HaveFatesOf self.now heap }
        ensures { (heap : List SubRecord) (c : Class) → HaveFatesOf self.now heap
            → Stands self.now.view at (class_dump c) → IsRuleOfKind self.now.view.id_size heap (class_dump c) result }
    {
        let superclass = self.view.superclass(at);
        if superclass == 0 {
            return None;
        }
        let number = match self.classes.find(superclass) {
            Some(number) => number,
            None => return Some(LinkRule::SuperChain),
        };
        match self.fates[number as usize] {
            Fate::Endless => return Some(LinkRule::SuperChain),
            Fate::Unknown | Fate::OnPath | Fate::Whole(_) | Fate::Broken => return None,
        }
    }

    /// Returns the first of the rules on class and size that the instance at `at` breaks, or `None` if it breaks none.
    fn instance_rule(&self, at: u32) -> Option<LinkRule>
        requires object { (i : Instance) × Stands self.now.view at (instance_dump i) }
        requires heap { (heap : List SubRecord) × HaveFatesOf self.now heap }
        ensures { (heap : List SubRecord) (i : Instance) → HaveFatesOf self.now heap
            → Stands self.now.view at (instance_dump i)
            → IsRuleOfKind self.now.view.id_size heap (instance_dump i) result }
    {
        let number = match self.classes.find(self.view.instance_class(at)) {
            Some(number) => number,
            None => return Some(LinkRule::UnknownClass),
        };
        match self.fates[number as usize] {
            Fate::Whole(layout) => {
                if !has_size(self.view.instance_values(at), layout) {
                    return Some(LinkRule::InstanceSize);
                }
                return None;
            }
            Fate::Unknown | Fate::OnPath | Fate::Broken | Fate::Endless => return None,
        }
    }

    /// Returns `LinkRule::UnknownClass` if the object array at `at` breaks this rule, otherwise `None`.
    fn array_rule(&self, at: u32) -> Option<LinkRule>
        requires object { (a : ObjectArray) × Stands self.now.view at (object_array_dump a) }
        requires heap { (heap : List SubRecord) × HaveFatesOf self.now heap }
        ensures { (heap : List SubRecord) (a : ObjectArray) → HaveFatesOf self.now heap
            → Stands self.now.view at (object_array_dump a)
            → IsRuleOfKind self.now.view.id_size heap (object_array_dump a) result }
    {
        match self.classes.find(self.view.array_class(at)) {
            Some(_) => return None,
            None => return Some(LinkRule::UnknownClass),
        }
    }

    /// Returns the first of the rules for the kind of the object at `at` that the object breaks, or `None` if it breaks
    /// none. These rules are on classes, superclasses and sizes.
    fn rule_of_kind(&self, at: u32) -> Option<LinkRule>
        requires object { (o : SubRecord) × Stands self.now.view at o × (is_object o ≡ true) }
        requires heap { (heap : List SubRecord) × HaveFatesOf self.now heap }
        ensures { (heap : List SubRecord) (o : SubRecord) → HaveFatesOf self.now heap → Stands self.now.view at o
            → is_object o ≡ true → IsRuleOfKind self.now.view.id_size heap o result }
    {
        match self.view.kind(at) {
            ObjectKind::Class => self.class_rule(at),
            ObjectKind::Instance => self.instance_rule(at),
            ObjectKind::ObjectArray => self.array_rule(at),
            ObjectKind::PrimitiveArray => None,
        }
    }

    /// Returns the first rule that object `number` breaks, or `None` if it breaks none. `repeat` is the number of the
    /// first object whose identifier an earlier one has, or the number of objects if no identifier repeats. `number` is
    /// at most `repeat`.
    pub(super) fn broken_rule(&self, number: usize, repeat: usize) -> Option<LinkRule>
        requires below { number < length self.now.places.items }
        requires repeat { IsFirstRepeat self.now.index repeat }
        requires first { number ≤ repeat }
        requires heap { (heap : List SubRecord) × AreOf self.now heap × HaveFatesOf self.now heap }
        ensures rule { (heap : List SubRecord) → AreOf self.now heap → HaveFatesOf self.now heap
            → IsLeastRule self.now.view.id_size heap number result }
        ensures first { IfNone result (number < repeat) }
    {
        let place = self.places[number];
        let id = self.view.object_id(place);
        if id == 0 {
            return Some(LinkRule::ZeroObject);
        }
        if number == repeat {
            return Some(LinkRule::DuplicateObject);
        }
        if let Some(rule) = self.rule_of_kind(place) {
            return Some(rule);
        }
        if number >= MOST_OBJECTS {
            return Some(LinkRule::TooLarge);
        }
        None
    }
}
