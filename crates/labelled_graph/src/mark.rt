//! The mark of a place: what is said of it.

ghost use Rattle.std.specs.Prelude.{IfOk, IfSome, ◌<◌};
ghost use Rattle.label_sets.specs.Sets.{Extends};
ghost use Rattle.labelled_graph.specs.working.MarkWords.{IsJoined, IsSound, IsSoundIfSome, IsWithLabel};

use label_sets::{LabelSet, LabelSets};
use std::alloc::{AllocError, Allocator};

/// What is said of a place.
#[derive(Clone, Copy, Drop)]
pub enum Mark {
    /// What is at the place is not followed.
    Cut,
    /// The labels of the place.
    Labels(LabelSet),
}

impl Mark {
    /// The mark of a place of which nothing is said.
    pub(crate) const NONE: Mark = Mark::Labels(LabelSet::NONE);
}

/// A mark, and the number of the identifier that has it.
#[derive(Clone, Copy, Drop)]
pub(crate) struct PlacedMark {
    /// The number of the identifier.
    pub(crate) index: u32,
    /// What is said of it.
    pub(crate) mark: Mark,
}

/// What an entry says of a place: the identifier number `index` of what has the key `key`.
#[derive(Clone, Copy, Drop)]
pub(crate) struct Said {
    /// The key.
    pub(crate) key: u64,
    /// The number of the identifier.
    pub(crate) index: u32,
    /// The label that the place is given, or `None` if it is cut.
    pub(crate) label: Option<u32>,
}

/// Returns the mark of a place that has the mark `mark` and is given `label`. `Err` if an allocation fails.
fn with_label<A: Allocator>(
    store: &mut LabelSets<A>,
    mark: Mark,
    label: u32,
) -> Result<Mark, AllocError>
    requires mark { IsSound store.old mark }
    requires label { label < store.old.labels }
    ensures extends { Extends store.old store.new }
    ensures joined { IfOk result (IsWithLabel store.old store.new mark label) }
{
    match mark {
        Mark::Cut => Ok(Mark::Cut),
        Mark::Labels(set) => {
            let _sets = store.len();
            let one = store.of_label(label)?;
            let both = store.union(set, one)?;
            Ok(Mark::Labels(both))
        }
    }
}

/// Returns the mark of a place that has the mark `before` and is given `label`, or is cut if there is no label. `Err`
/// if an allocation fails.
pub(crate) fn joined<A: Allocator>(
    store: &mut LabelSets<A>,
    before: Option<Mark>,
    label: Option<u32>,
) -> Result<Mark, AllocError>
    requires before { IsSoundIfSome store.old before }
    requires label { IfSome label (λ l. l < store.old.labels) }
    ensures extends { Extends store.old store.new }
    ensures joined { IfOk result (IsJoined store.old store.new before label) }
{
    let Some(label) = label else {
        return Ok(Mark::Cut);
    };
    match before {
        Some(mark) => with_label(store, mark, label),
        None => {
            let one = store.of_label(label)?;
            Ok(Mark::Labels(one))
        }
    }
}
