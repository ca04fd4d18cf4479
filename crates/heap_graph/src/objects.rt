//! The objects of a dump at their places.

mod bytes;
mod check;
mod check_parts;
pub(crate) mod class_entries;
mod class_of;
mod class_plans;
pub(crate) mod class_table;
mod gathering;
mod ids_by_kind;
pub(crate) mod indexing;
mod unordered;
mod visit_of;

ghost use Rattle.hprof_grammar.specs.SubRecord.{SubRecord};
ghost use Rattle.hprof_grammar.specs.Standing.{StandInTurn, Stands};
ghost use Rattle.hprof_grammar.specs.Dump.{id_of};
ghost use Rattle.std.specs.Prelude.{IfOk, List, map, ◌≡◌};

use crate::classes::{Classes, Fate};
use hprof_grammar::View;
use id_index::IdIndex;
use std::alloc::{AllocError, Allocator};

/// The objects of a dump: their places in the order of the file, their identifiers, and the classes among them.
#[derive(Drop)]
pub(crate) struct Objects<'d, A: Allocator> {
    pub(crate) view: View<'d>,
    pub(crate) places: Vec<u32, A>,
    pub(crate) index: IdIndex<A>,
    pub(crate) classes: Classes<'d, A>,
    /// The fate of each class's chain of superclasses, by the number of the class.
    pub(crate) fates: Vec<Fate, A>,
}

/// Returns the identifiers of the objects or roots at `places`.
pub(crate) fn read_ids<B: Allocator>(
    alloc: B,
    view: &View<'_>,
    places: &[u32],
) -> Result<Vec<u64, B>, AllocError>
    requires { (subs : List SubRecord) × StandInTurn (Stands view.now) places.now subs }
    ensures { IfOk result (λ v. (subs : List SubRecord) → StandInTurn (Stands view.now) places.now subs
        → v.items ≡ map id_of subs) }
{
    let mut ids = Vec::new(alloc);
    for at in places {
        ids.push(view.object_id(*at))?;
    }
    Ok(ids)
}
