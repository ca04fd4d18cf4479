//! Indexes objects by their identifiers, which are read at the places of the objects.
//!
//! In most dumps the identifiers are the addresses of objects, and all have the same lowest three bits. The index omits
//! these bits, so that neighbours share an extent. If an identifier has other lowest bits, all identifiers are gathered
//! again and indexed with all their bits. Objects in no order are indexed without extents ([`scattered`]). In each case
//! the numbers of the class dumps are noted on the way, so that only class dumps are read for the class table.

ghost use Rattle.hprof_grammar.specs.Standing.{StandInTurn, Stands};
ghost use Rattle.hprof_grammar.specs.SubRecord.{SubRecord};
ghost use Rattle.std.specs.Prelude.{IfOk, List, length, ◌<◌, ◌^◌, ◌≡◌};
ghost use Rattle.heap_graph.specs.Heap.{objects};
ghost use Rattle.heap_graph.specs.working.ClassNumbers.{AreIndexed};
ghost use Rattle.heap_graph.specs.working.GatheredParts.{MayIndex};

use crate::objects::gathering::{Gathered, gather};
use crate::objects::unordered::scattered;
use hprof_grammar::{Team, View};
use id_index::{IdIndex, LowBits};
use std::alloc::{AllocError, Allocator};
use std::thread::Threads;

/// The objects by their identifiers, and which of them are class dumps.
#[derive(Drop)]
pub(crate) struct Indexed<A: Allocator> {
    pub(crate) index: IdIndex<A>,
    /// The numbers of the class dumps, in order.
    pub(crate) class_dumps: Vec<u32, A>,
}

/// Returns the lowest three bits of the first object's identifier, or 0 if there is no object.
fn first_bits(view: &View<'_>, places: &[u32]) -> LowBits
    requires { (heap : List SubRecord) × StandInTurn (Stands view.now) places.now (objects heap) }
    ensures shift { result.shift ≡ 3 }
    ensures low { result.low < 8 }
{
    match places.first() {
        Some(at) => LowBits {
            shift: 3,
            low: view.object_id(*at) % 8,
        },
        None => LowBits { shift: 3, low: 0 },
    }
}

/// No lowest bits: identifiers are indexed with all their bits.
const ALL_BITS: LowBits = LowBits { shift: 0, low: 0 };

impl<A: Allocator> Indexed<A> {
    /// Indexes the objects of `gathered`. `AllocError` if an allocation fails.
    fn of(alloc: A, gathered: Gathered<A>) -> Result<Self, AllocError>
        ensures { IfOk result (λ indexed. (indexed.index ≡ gathered.ids.ids)
            × (indexed.class_dumps.items ≡ gathered.class_dumps.items)) }
    {
        Ok(Indexed {
            index: gathered.ids.finish(alloc)?,
            class_dumps: gathered.class_dumps,
        })
    }
}

/// Indexes the objects at `places` by their identifiers. `AllocError` if an allocation fails.
pub(crate) fn index_of<T: Threads + Sync, B: Allocator + Copy + Send + Sync>(
    team: &Team<'_, T>,
    alloc: B,
    view: &View<'_>,
    places: &[u32],
) -> Result<Indexed<B>, AllocError>
    requires { MayIndex view.now places.now }
    ensures { IfOk result (λ indexed. (heap : List SubRecord)
        → StandInTurn (Stands view.now) places.now (objects heap) → AreIndexed view.now places.now heap indexed) }
{
    let bits = first_bits(view, places);
    if let Some(indexed) = scattered(team, alloc, view, places, bits)? {
        return Ok(indexed);
    }
    if let Some(gathered) = gather(team, alloc, view, places, bits)? {
        return Indexed::of(alloc, gathered);
    }
    match gather(team, alloc, view, places, ALL_BITS)? {
        Some(gathered) => Indexed::of(alloc, gathered),
        None => unreachable!(),
    }
}
