//! Tests all objects of a dump, part by part.

ghost use Rattle.std.specs.Prelude.{IfErr, List, OnOk};
ghost use Rattle.hprof_grammar.specs.SubRecord.{SubRecord};
ghost use Rattle.heap_graph.specs.working.TestedParts.{HasTested, MayTest};

use crate::objects::Objects;
use crate::refusal::LinkFault;
use hprof_grammar::Team;
use std::alloc::Allocator;
use std::thread::Threads;

impl<'d, A: Allocator> Objects<'d, A> {
    /// Tests the objects of `part` in turn, up to the first fault. `part` holds the places of the objects from number
    /// `start` on. The result is meaningful only if no object before `start` breaks a rule. `repeat` is the number of
    /// the first object whose identifier an earlier one has, or the number of objects if no identifier repeats. Nothing
    /// is tested if `repeat` is less than `start`.
    fn check_part(&self, start: usize, part: &[u32], repeat: usize) -> Result<(), LinkFault>
        requires { MayTest self.now repeat start part.now }
        ensures { HasTested self.now repeat start part.now result }
    {
        if repeat < start {
            return Ok(());
        }
        for number in start..start + part.len() {
            if let Some(rule) = self.broken_rule(number, repeat) {
                return Err(LinkFault {
                    code: rule.code(),
                    offset: u64::from(self.places[number]),
                });
            }
        }
        Ok(())
    }
}

impl<'d, A: Allocator + Copy + Send + Sync> Objects<'d, A> {
    ghost use Rattle.heap_graph.specs.LinkRules.{IsLinked};
    ghost use Rattle.heap_graph.specs.working.PlacedObjects.{AreOf};
    ghost use Rattle.heap_graph.specs.working.ClassFates.{HaveFatesOf};
    ghost use Rattle.heap_graph.specs.working.RuleAnswers.{IsFaultOf};

    /// Tests the objects, and returns the first fault in the order of the file. If there are many objects
    /// (`Team::splits`), they are tested in parts, at most one for each thread of `team`. If there are few, or if the
    /// allocation for the results of the parts fails, they are tested in one part.
    pub(crate) fn check<T: Threads + Sync>(
        &self,
        team: &Team<'_, T>,
        alloc: A,
    ) -> Result<(), LinkFault>
        requires { (heap : List SubRecord) × AreOf self.now heap × HaveFatesOf self.now heap }
        ensures linked { OnOk result ((heap : List SubRecord) → AreOf self.now heap → HaveFatesOf self.now heap
            → IsLinked self.now.view.id_size heap) }
        ensures fault { IfErr result (λ f. (heap : List SubRecord) → AreOf self.now heap → HaveFatesOf self.now heap
            → IsFaultOf self.now.view.id_size heap self.now.places.items f) }
    {
        let repeat = self.index.first_repeat();
        let places = self.places.as_slice();
        if !team.splits(places.len()) {
            return self.check_part(0, places, repeat);
        }
        let test = |start: usize, part: &[u32]| -> Result<(), LinkFault>
            requires { MayTest self.now repeat start part.now }
            ensures { HasTested self.entry.now repeat start part.entry.now result }
        { self.check_part(start, part, repeat) };
        let Ok(answers) = team.map_parts(alloc, places, &test) else {
            return self.check_part(0, places, repeat);
        };
        for answer in &answers {
            if let Err(fault) = answer {
                return Err(*fault);
            }
        }
        Ok(())
    }
}
