//! Follows the chains of superclasses, each class once.

ghost use Rattle.std.specs.Prelude.{Contains, IfOk, List, OnOk, Some, [], length, slice_get, ◌<◌, ◌^◌, ◌≡◌, ℕ};
ghost use Rattle.hprof_grammar.specs.SubRecord.{SubRecord};
ghost use Rattle.heap_graph.specs.declared.classes.fate.Fate.{Fate};
ghost use Rattle.heap_graph.specs.declared.classes.fate.Fate.TheVariants as fates;

use crate::classes::{Classes, Fate, Layout};
use std::alloc::{AllocError, Allocator};

/// What is above a class.
pub(crate) enum Above {
    /// Nothing: the class has no superclass.
    Nothing,
    /// A superclass that is missing.
    Missing,
    /// The class with that number.
    Class(u32),
}

/// How a climb continues above a class.
pub(crate) enum Step {
    /// At the class with that number, whose fate is unknown.
    Up(u32),
    /// The climb ends: what is above the class has this fate.
    End(Fate),
}

/// The layout above a class without a superclass.
const NO_LAYOUT: Layout = Layout {
    size: 0,
    first: None,
    next: None,
};

/// Returns `count` unknown fates.
fn unknown<B: Allocator>(alloc: B, count: usize) -> Result<Vec<Fate, B>, AllocError>
    ensures count { IfOk result (λ known. length known.items ≡ count) }
    ensures each { IfOk result (λ known. (k : ℕ) (f : Fate) → slice_get known.items k ≡ Some f → f ≡ fates.Unknown) }
{
    let mut known = Vec::new(alloc);
    while known.len() < count {
        known.push(Fate::Unknown)?;
    }
    Ok(known)
}

impl<'d, A: Allocator> Classes<'d, A> {
    ghost use Rattle.heap_graph.specs.working.ClassTable.{AreClassesOf};
    ghost use Rattle.heap_graph.specs.working.Chains.{AreFatesOf, AreSettledOf, DoesStay, IsAboveOf, IsClimbOf};
    ghost use Rattle.heap_graph.specs.working.Chains.{IsKnown, IsPathOf, IsStepOf, IsTopOf, IsUnderOf};

    /// Returns what is above class `number`.
    fn above(&self, number: u32) -> Above
        requires below { number < length self.now.table.entries }
        requires few { length self.now.table.entries < 2 ^ 32 }
        requires heap { (heap : List SubRecord) × AreClassesOf self.now heap }
        ensures { (heap : List SubRecord) (super : ℕ) → AreClassesOf self.now heap
            → IsUnderOf self.now heap number super → IsAboveOf self.now heap super result }
    {
        let superclass = self.view.superclass(self.class_place(number).place);
        if superclass == 0 {
            return Above::Nothing;
        }
        match self.find(superclass) {
            Some(found) => return Above::Class(found),
            None => return Above::Missing,
        }
    }

    /// Returns how a climb continues above class `at`, which is on the path. `known` are the fates of all classes so
    /// far.
    fn next_step(&self, at: u32, known: &[Fate]) -> Step
        requires below { at < length self.now.table.entries }
        requires few { length self.now.table.entries < 2 ^ 32 }
        requires each { length known.now ≡ length self.now.table.entries }
        requires heap { (heap : List SubRecord) × AreClassesOf self.now heap }
        ensures { (heap : List SubRecord) (path : List ℕ) (super : ℕ) → AreClassesOf self.now heap
            → AreFatesOf self.now heap path known.now → IsUnderOf self.now heap at super
            → IsPathOf self.now heap path super → IsStepOf self.now heap known.now super result }
    {
        match self.above(at) {
            Above::Nothing => return Step::End(Fate::Whole(NO_LAYOUT)),
            Above::Missing => return Step::End(Fate::Broken),
            Above::Class(next) => match known[next as usize] {
                Fate::Unknown => return Step::Up(next),
                Fate::OnPath => return Step::End(Fate::Endless),
                fate => return Step::End(fate),
            },
        }
    }

    /// Follows the superclasses from class `first`, whose fate is unknown, until the fate of what is above is known.
    /// Appends to `path` the classes on the way, from `first` on, and marks them in `known` as [`Fate::OnPath`].
    /// Returns the fate of what is above the last.
    fn climb<B: Allocator>(
        &self,
        first: u32,
        known: &mut [Fate],
        path: &mut Vec<u32, B>,
    ) -> Result<Fate, AllocError>
        requires few { length self.now.table.entries < 2 ^ 32 }
        requires heap { (heap : List SubRecord) × AreClassesOf self.now heap
            × IsClimbOf self.now heap first path.old.items known.old first }
        ensures stays { OnOk result (DoesStay known.old known.new) }
        ensures top { IfOk result (λ fate. (heap : List SubRecord) → AreClassesOf self.now heap
            → IsClimbOf self.now heap first path.old.items known.old first
            → AreFatesOf self.now heap path.new.items known.new × IsTopOf self.now heap path.new.items fate
            × Contains path.new.items first) }
    {
        let mut at = first;
        // The loop has a name for its invariant.
        'up: loop {
            known[at as usize] = Fate::OnPath;
            path.push(at)?;
            match self.next_step(at, known) {
                Step::Up(next) => at = next,
                Step::End(fate) => return Ok(fate),
            }
        }
    }

    /// Settles the classes of `path` from the last to the first, and empties `path`. `above` is the fate of what is
    /// above the last class.
    fn unwind<B: Allocator>(&self, above: Fate, known: &mut [Fate], path: &mut Vec<u32, B>)
        requires heap { (heap : List SubRecord) × AreClassesOf self.now heap
            × AreFatesOf self.now heap path.old.items known.old × IsTopOf self.now heap path.old.items above }
        ensures stays { DoesStay known.old known.new }
        ensures done { path.new.items ≡ [] }
        ensures known { (k : ℕ) → Contains path.old.items k → IsKnown known.new k }
        ensures fates { (heap : List SubRecord) → AreClassesOf self.now heap
            → AreFatesOf self.now heap path.old.items known.old → IsTopOf self.now heap path.old.items above
            → AreFatesOf self.now heap [] known.new }
    {
        let mut fate = above;
        while let Some(number) = path.pop() {
            fate = self.fate_below(number, fate);
            known[number as usize] = fate;
        }
    }

    /// Settles class `first` and the classes above it, unless `first` is settled already. `path` must be empty, and is
    /// empty again afterwards, unless an allocation failed.
    fn settle<B: Allocator>(
        &self,
        first: u32,
        known: &mut [Fate],
        path: &mut Vec<u32, B>,
    ) -> Result<(), AllocError>
        requires below { first < length self.now.table.entries }
        requires few { length self.now.table.entries < 2 ^ 32 }
        requires path { path.old.items ≡ [] }
        requires heap { (heap : List SubRecord) × AreClassesOf self.now heap × AreFatesOf self.now heap [] known.old }
        ensures stays { OnOk result (DoesStay known.old known.new) }
        ensures path { OnOk result (path.new.items ≡ []) }
        ensures known { OnOk result (IsKnown known.new first) }
        ensures fates { OnOk result ((heap : List SubRecord) → AreClassesOf self.now heap
            → AreFatesOf self.now heap [] known.old → AreFatesOf self.now heap [] known.new) }
    {
        match known[first as usize] {
            Fate::Unknown => {
                let fate = self.climb(first, known, path)?;
                self.unwind(fate, known, path);
                return Ok(());
            }
            _ => return Ok(()),
        }
    }

    /// Returns the fates of all classes.
    pub(crate) fn settle_all<B: Allocator + Copy>(
        &self,
        alloc: B,
    ) -> Result<Vec<Fate, B>, AllocError>
        requires few { length self.now.table.entries < 2 ^ 32 }
        requires heap { (heap : List SubRecord) × AreClassesOf self.now heap }
        ensures { IfOk result (λ known. (heap : List SubRecord) → AreClassesOf self.now heap
            → AreSettledOf self.now heap known.items) }
    {
        let count = self.table.len();
        let mut known = unknown(alloc, count)?;
        let mut path = Vec::new(alloc);
        for number in 0..count {
            self.settle(number as u32, &mut known, &mut path)?;
        }
        Ok(known)
    }
}
