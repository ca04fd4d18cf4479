//! Gathers the identifiers of objects and the numbers of the class dumps among them, part by part.

ghost use Rattle.hprof_grammar.specs.Standing.{Sight, StandInTurn, Stands};
ghost use Rattle.hprof_grammar.specs.SubRecord.{SubRecord};
ghost use Rattle.std.specs.Prelude.{IfOk, List, [], length, ◌++◌, ◌+◌, ◌<◌, ◌^◌, ◌≡◌, ℕ};
ghost use Rattle.heap_graph.specs.Heap.{objects};
ghost use Rattle.heap_graph.specs.working.ClassNumbers.{AreClassNumbers};
ghost use Rattle.heap_graph.specs.working.GatheredParts.{AreJoined, AreOfParts, IsGathering, MayGather};

use hprof_grammar::{ObjectKind, Team, View};
use id_index::{IdIndexBuilder, LowBits};
use std::alloc::{AllocError, Allocator};
use std::thread::Threads;

/// The identifiers of objects, and which of the objects are class dumps.
#[derive(Drop)]
pub(crate) struct Gathered<A: Allocator> {
    pub(crate) ids: IdIndexBuilder<A>,
    /// The numbers of the class dumps, in order.
    pub(crate) class_dumps: Vec<u32, A>,
}

impl<A: Allocator + Copy> Gathered<A> {
    /// Creates a value without an object, for identifiers with the lowest bits `bits`.
    fn new(alloc: A, bits: LowBits) -> Self
        requires shifted { bits.shift < 64 }
        requires low { bits.low < 2 ^ bits.shift }
        ensures ids { result.ids.ids ≡ [] }
        ensures shift { result.ids.shift ≡ bits.shift }
        ensures low { result.ids.low ≡ bits.low }
        ensures class_dumps { result.class_dumps.items ≡ [] }
    {
        Gathered {
            ids: IdIndexBuilder::new(alloc, bits),
            class_dumps: Vec::new(alloc),
        }
    }

    /// Appends `next`, which was gathered from the next part. `AllocError` if an allocation fails.
    fn append(&mut self, next: Self) -> Result<(), AllocError>
        requires shift { next.ids.shift ≡ self.old.ids.shift }
        requires low { next.ids.low ≡ self.old.ids.low }
        requires few { length self.old.ids.ids + length next.ids.ids < 2 ^ 32 }
        ensures { IfOk result (λ _. AreJoined self.old next self.new) }
    {
        self.ids.append(next.ids)?;
        let mut class_dumps = next.class_dumps;
        self.class_dumps.append(&mut class_dumps)
    }
}

/// Appends `number` to `class_dumps` if object `number` is a class dump. `AllocError` if the allocation fails.
pub(super) fn note_class<B: Allocator>(
    class_dumps: &mut Vec<u32, B>,
    view: &View<'_>,
    places: &[u32],
    number: usize,
) -> Result<(), AllocError>
    requires below { number < length places.now }
    requires few { length places.now < 2 ^ 32 }
    requires stand { (heap : List SubRecord) × StandInTurn (Stands view.now) places.now (objects heap) }
    ensures { IfOk result (λ _. (heap : List SubRecord) (before : List ℕ)
        → StandInTurn (Stands view.now) places.now (objects heap)
        → AreClassNumbers (objects heap) number (before ++ class_dumps.old.items)
        → AreClassNumbers (objects heap) (number + 1) (before ++ class_dumps.new.items)) }
{
    match view.kind(places[number]) {
        ObjectKind::Class => {
            class_dumps.push(number as u32)?;
            return Ok(());
        }
        _ => return Ok(()),
    }
}

/// Gathers the objects of `part`, of which the first has the number `start`. Returns `None` if an identifier has other
/// lowest bits than `bits`. `AllocError` if an allocation fails.
fn gather_part<B: Allocator + Copy>(
    alloc: B,
    view: &View<'_>,
    places: &[u32],
    start: usize,
    part: &[u32],
    bits: LowBits,
) -> Result<Option<Gathered<B>>, AllocError>
    requires { MayGather view.now places.now bits start part.now }
    ensures { IsGathering view.now places.now bits start part.now result }
{
    let mut gathered = Gathered::new(alloc, bits);
    for number in start..start + part.len() {
        let id = view.object_id(places[number]);
        if !gathered.ids.fits(id) {
            return Ok(None);
        }
        gathered.ids.push(id)?;
        note_class(&mut gathered.class_dumps, view, places, number)?;
    }
    Ok(Some(gathered))
}

/// Joins `parts`, what was gathered from each part of the places, in order. Returns the first `None` or `AllocError`
/// among `parts`, if there is one. `AllocError` also if an allocation fails.
fn join_parts<B: Allocator + Copy>(
    alloc: B,
    bits: LowBits,
    parts: Vec<Result<Option<Gathered<B>>, AllocError>, B>,
) -> Result<Option<Gathered<B>>, AllocError>
    requires { (v : Sight) × (places : List ℕ) × (size : ℕ) × AreOfParts v places bits size parts.items }
    ensures { (v : Sight) (places : List ℕ) (size : ℕ) → AreOfParts v places bits size parts.items
        → IsGathering v places bits 0 places result }
{
    let mut all = Gathered::new(alloc, bits);
    for part in parts {
        match part? {
            Some(gathered) => all.append(gathered)?,
            None => return Ok(None),
        }
    }
    Ok(Some(all))
}

/// Gathers the objects at `places` in parts, at most one for each thread of `team`, and joins the parts in order.
/// Returns `None` if an identifier has other lowest bits than `bits`. `AllocError` if an allocation fails.
fn gather_in_parts<T: Threads + Sync, B: Allocator + Copy + Send + Sync>(
    team: &Team<'_, T>,
    alloc: B,
    view: &View<'_>,
    places: &[u32],
    bits: LowBits,
) -> Result<Option<Gathered<B>>, AllocError>
    requires { MayGather view.now places.now bits 0 places.now }
    ensures { IsGathering view.now places.now bits 0 places.now result }
{
    let gather = |start: usize, part: &[u32]| -> Result<Option<Gathered<B>>, AllocError>
        requires { MayGather view.now places.now bits start part.now }
        ensures { IsGathering view.entry.now places.entry.now bits start part.entry.now result }
    { gather_part(alloc, view, places, start, part, bits) };
    let parts = team.map_parts(alloc, places, &gather)?;
    join_parts(alloc, bits, parts)
}

/// Gathers the objects at `places`: in parts if there are many (`Team::splits`), and in one part if there are few, or
/// if an allocation for several parts fails. Returns `None` if an identifier has other lowest bits than `bits`.
/// `AllocError` if an allocation fails while all is gathered in one part.
pub(crate) fn gather<T: Threads + Sync, B: Allocator + Copy + Send + Sync>(
    team: &Team<'_, T>,
    alloc: B,
    view: &View<'_>,
    places: &[u32],
    bits: LowBits,
) -> Result<Option<Gathered<B>>, AllocError>
    requires { MayGather view.now places.now bits 0 places.now }
    ensures { IsGathering view.now places.now bits 0 places.now result }
{
    if team.splits(places.len()) {
        if let Ok(gathered) = gather_in_parts(team, alloc, view, places, bits) {
            return Ok(gathered);
        }
    }
    gather_part(alloc, view, places, 0, places, bits)
}
