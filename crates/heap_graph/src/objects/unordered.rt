//! Indexes objects in no order by their identifiers, straight from the bytes.
//!
//! ZGC and Shenandoah write objects in the order of a walk over references. In that order nearly each object would be
//! an extent of its own, so the index is made of entries, each with an identifier and a number. If the objects are
//! close together, the entries are narrow: the identifiers are read once to note the granules that they take, and once
//! more to write the entries (more often if the ends of a sample do not serve). If they are far apart, if identifiers
//! repeat, or if their lowest bits differ, the entries are wide and are sorted. In neither case anything is gathered
//! beside the index.

ghost use Rattle.hprof_grammar.specs.Standing.{StandInTurn, Stands};
ghost use Rattle.hprof_grammar.specs.SubRecord.{SubRecord};
ghost use Rattle.std.specs.Prelude.{IfOk, IfSome, List, length, ◌<◌};
ghost use Rattle.heap_graph.specs.Heap.{objects};
ghost use Rattle.heap_graph.specs.working.ClassNumbers.{AreIndexed};
ghost use Rattle.heap_graph.specs.working.GatheredParts.{MayGather, MayIndex};

use crate::objects::gathering::note_class;
use crate::objects::indexing::Indexed;
use hprof_grammar::{Team, View};
use id_index::{LowBits, NarrowEntriesBuilder, UsedIds, WideEntriesBuilder, are_close};
use std::alloc::{AllocError, Allocator};
use std::thread::Threads;

/// The number of stretches of objects in a sample.
const STRETCHES: usize = 64;

/// The largest number of objects in a stretch. The objects of a stretch have consecutive numbers.
const NEIGHBOURS: usize = 1024;

/// The number of granules on a page of the index.
const GRANULES: u64 = 64;

/// The least and the greatest of some identifiers.
#[derive(Clone, Copy)]
struct Ends {
    least: u64,
    greatest: u64,
}

impl Ends {
    /// The ends of no identifiers.
    const NONE: Ends = Ends {
        least: u64::MAX,
        greatest: 0,
    };

    /// Returns the ends of the identifiers of `self`, and of `id`.
    fn with(self, id: u64) -> Ends {
        self.joined(Ends {
            least: id,
            greatest: id,
        })
    }

    /// Returns the ends of the identifiers of `self` and of `other`.
    fn joined(self, other: Ends) -> Ends {
        Ends {
            least: self.least.min(other.least),
            greatest: self.greatest.max(other.greatest),
        }
    }
}

/// What is known of the objects of a sample.
#[derive(Clone, Copy)]
struct Sample {
    objects: usize,
    /// The number of objects of the sample that begin an extent.
    extents: usize,
    /// The ends of the objects' identifiers.
    ends: Ends,
}

impl Sample {
    /// Adds up to `NEIGHBOURS` objects, from number `start` on.
    fn add(&mut self, view: &View<'_>, places: &[u32], start: usize, bits: LowBits)
        requires { MayGather view.now places.now bits 0 places.now }
    {
        let end = places.len().min(start.saturating_add(NEIGHBOURS));
        let mut last = u64::MAX;
        for number in start..end {
            let id = view.object_id(places[number]);
            let at = id >> bits.shift;
            if at <= last || at / GRANULES != last / GRANULES {
                self.extents = self.extents.saturating_add(1);
            }
            self.objects = self.objects.saturating_add(1);
            self.ends = self.ends.with(id);
            last = at;
        }
    }

    /// Returns a sample of the objects at `places`.
    fn of(view: &View<'_>, places: &[u32], bits: LowBits) -> Sample
        requires { MayGather view.now places.now bits 0 places.now }
    {
        let mut sample = Sample {
            objects: 0,
            extents: 0,
            ends: Ends::NONE,
        };
        let step = (places.len() / STRETCHES).max(NEIGHBOURS);
        for stretch in 0..STRETCHES {
            sample.add(view, places, stretch.saturating_mul(step), bits);
        }
        sample
    }

    /// Tests whether the objects are in no order: whether more than half of the sampled objects begin an extent.
    fn is_scattered(self) -> bool {
        self.extents > self.objects / 2
    }
}

/// Returns the ends of the identifiers of `part`, which begins with object number `start`. Returns `None` if an
/// identifier has other lowest bits than `bits`.
fn ends_of_part(
    view: &View<'_>,
    places: &[u32],
    start: usize,
    part: &[u32],
    bits: LowBits,
) -> Option<Ends>
    requires { MayGather view.now places.now bits start part.now }
{
    let mut ends = Ends::NONE;
    for number in start..start + part.len() {
        let id = view.object_id(places[number]);
        if id % (1 << bits.shift) != bits.low {
            return None;
        }
        ends = ends.with(id);
    }
    Some(ends)
}

/// Like [`ends_of`], in parts, at most one for each thread of `team`. `AllocError` if the allocation for the results of
/// the parts fails.
fn ends_in_parts<T: Threads + Sync, B: Allocator + Copy + Send + Sync>(
    team: &Team<'_, T>,
    alloc: B,
    view: &View<'_>,
    places: &[u32],
    bits: LowBits,
) -> Result<Option<Ends>, AllocError>
    requires { MayGather view.now places.now bits 0 places.now }
{
    let read = |start: usize, part: &[u32]| -> Option<Ends>
        requires { MayGather view.now places.now bits start part.now }
    { ends_of_part(view, places, start, part, bits) };
    let mut all = Ends::NONE;
    for ends in team.map_parts(alloc, places, &read)? {
        match ends {
            Some(ends) => all = all.joined(ends),
            None => return Ok(None),
        }
    }
    Ok(Some(all))
}

/// Returns the ends of the identifiers of the objects at `places`. Returns `None` if an identifier has other lowest
/// bits than `bits`. The identifiers are read in parts if there are many objects (`Team::splits`), and in one part if
/// there are few, or if the allocation for several parts fails.
fn ends_of<T: Threads + Sync, B: Allocator + Copy + Send + Sync>(
    team: &Team<'_, T>,
    alloc: B,
    view: &View<'_>,
    places: &[u32],
    bits: LowBits,
) -> Option<Ends>
    requires { MayGather view.now places.now bits 0 places.now }
{
    if team.splits(places.len()) {
        if let Ok(ends) = ends_in_parts(team, alloc, view, places, bits) {
            return ends;
        }
    }
    ends_of_part(view, places, 0, places, bits)
}

/// Notes which granules of the index the identifiers of the objects at `places` take. Notes only identifiers between
/// `ends` or not far outside. If there are many objects (`Team::splits`), the threads of `team` share the work.
/// `AllocError` if the allocation fails.
fn noted_granules<T: Threads + Sync, B: Allocator>(
    team: &Team<'_, T>,
    alloc: B,
    view: &View<'_>,
    places: &[u32],
    bits: LowBits,
    ends: Ends,
) -> Result<UsedIds<B>, AllocError>
    requires { MayGather view.now places.now bits 0 places.now }
{
    let count = places.len();
    let parts = team.parts(count);
    let mut noted = UsedIds::new(alloc, bits, ends.least, ends.greatest, count as u32, parts)?;
    let id_of = |number: usize| -> u64
        requires { (number < length places.now) × MayIndex view.now places.now }
    { view.object_id(places[number]) };
    noted.note_all(team, &id_of);
    Ok(noted)
}

/// Indexes the objects at `places` by narrow entries. `noted` has the granules that their identifiers take. Returns
/// `None` if an identifier was not noted, has other lowest bits than `bits`, or belongs to two objects. `AllocError` if
/// an allocation fails.
fn filled<B: Allocator + Copy>(
    alloc: B,
    view: &View<'_>,
    places: &[u32],
    bits: LowBits,
    noted: UsedIds<B>,
) -> Result<Option<Indexed<B>>, AllocError>
    requires { MayGather view.now places.now bits 0 places.now }
    ensures { IfOk result (λ found. IfSome found (λ indexed. (heap : List SubRecord)
        → StandInTurn (Stands view.now) places.now (objects heap) → AreIndexed view.now places.now heap indexed)) }
{
    let mut ids = NarrowEntriesBuilder::new(alloc, bits, noted)?;
    let mut class_dumps = Vec::new(alloc);
    for number in 0..places.len() {
        let id = view.object_id(places[number]);
        if !ids.fits(id) || !ids.push(id) {
            return Ok(None);
        }
        note_class(&mut class_dumps, view, places, number)?;
    }
    match ids.finish() {
        Some(index) => return Ok(Some(Indexed { index, class_dumps })),
        None => return Ok(None),
    }
}

/// Indexes the objects at `places` by narrow entries, if all their identifiers are between `ends` or not far outside.
/// Returns `None` if an identifier is farther outside or has other lowest bits than `bits`, if two objects have the
/// same identifier, or if the ends are too far apart (`are_close`). `AllocError` if an allocation fails.
fn narrow_between<T: Threads + Sync, B: Allocator + Copy>(
    team: &Team<'_, T>,
    alloc: B,
    view: &View<'_>,
    places: &[u32],
    bits: LowBits,
    ends: Ends,
) -> Result<Option<Indexed<B>>, AllocError>
    requires { MayGather view.now places.now bits 0 places.now }
    ensures { IfOk result (λ found. IfSome found (λ indexed. (heap : List SubRecord)
        → StandInTurn (Stands view.now) places.now (objects heap) → AreIndexed view.now places.now heap indexed)) }
{
    if !are_close(bits, ends.least, ends.greatest, places.len() as u32) {
        return Ok(None);
    }
    let noted = noted_granules(team, alloc, view, places, bits, ends)?;
    filled(alloc, view, places, bits, noted)
}

/// Indexes the objects at `places` by narrow entries, if they are close together. First tries `ends`, those of a
/// sample, and then the ends of all identifiers. Returns `None` if [`narrow_between`] does so for both. `AllocError` if
/// an allocation for entries fails.
fn narrow<T: Threads + Sync, B: Allocator + Copy + Send + Sync>(
    team: &Team<'_, T>,
    alloc: B,
    view: &View<'_>,
    places: &[u32],
    bits: LowBits,
    ends: Ends,
) -> Result<Option<Indexed<B>>, AllocError>
    requires { MayGather view.now places.now bits 0 places.now }
    ensures { IfOk result (λ found. IfSome found (λ indexed. (heap : List SubRecord)
        → StandInTurn (Stands view.now) places.now (objects heap) → AreIndexed view.now places.now heap indexed)) }
{
    // If the ends of a sample are too far apart, those of all identifiers are, too.
    if !are_close(bits, ends.least, ends.greatest, places.len() as u32) {
        return Ok(None);
    }
    // The ends of a sample nearly always serve, and save the pass over all identifiers that finds their ends.
    if let Some(indexed) = narrow_between(team, alloc, view, places, bits, ends)? {
        return Ok(Some(indexed));
    }
    let Some(ends) = ends_of(team, alloc, view, places, bits) else {
        return Ok(None);
    };
    narrow_between(team, alloc, view, places, bits, ends)
}

/// Indexes the objects at `places` by their whole identifiers, whatever these are. `AllocError` if an allocation fails.
fn sorted<B: Allocator + Copy>(
    alloc: B,
    view: &View<'_>,
    places: &[u32],
) -> Result<Indexed<B>, AllocError>
    requires { MayIndex view.now places.now }
    ensures { IfOk result (λ indexed. (heap : List SubRecord)
        → StandInTurn (Stands view.now) places.now (objects heap) → AreIndexed view.now places.now heap indexed) }
{
    let mut ids = WideEntriesBuilder::new(alloc, places.len() as u32)?;
    let mut class_dumps = Vec::new(alloc);
    for number in 0..places.len() {
        ids.push(view.object_id(places[number]))?;
        note_class(&mut class_dumps, view, places, number)?;
    }
    let index = ids.finish(alloc)?;
    Ok(Indexed { index, class_dumps })
}

/// Indexes the objects at `places`, if a sample shows that they are in no order: by narrow entries if they are close
/// together, otherwise by their whole identifiers. Returns `None` if the sample shows an order. `AllocError` if an
/// allocation fails.
pub(super) fn scattered<T: Threads + Sync, B: Allocator + Copy + Send + Sync>(
    team: &Team<'_, T>,
    alloc: B,
    view: &View<'_>,
    places: &[u32],
    bits: LowBits,
) -> Result<Option<Indexed<B>>, AllocError>
    requires { MayGather view.now places.now bits 0 places.now }
    ensures { IfOk result (λ found. IfSome found (λ indexed. (heap : List SubRecord)
        → StandInTurn (Stands view.now) places.now (objects heap) → AreIndexed view.now places.now heap indexed)) }
{
    let sample = Sample::of(view, places, bits);
    if !sample.is_scattered() {
        return Ok(None);
    }
    match narrow(team, alloc, view, places, bits, sample.ends)? {
        Some(indexed) => return Ok(Some(indexed)),
        None => return Ok(Some(sorted(alloc, view, places)?)),
    }
}
