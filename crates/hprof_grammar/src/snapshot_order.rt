//! The order of the records that make the one snapshot of a file.

ghost use Rattle.std.specs.Prelude.{◌≡◌};
ghost use Rattle.hprof_grammar.specs.working.SnapshotOrder as orders;

use crate::tags;

/// The state of the snapshot after some records.
#[derive(Clone, Copy, Debug, PartialEq, Eq)]
pub enum SnapshotState {
    /// No record of the snapshot has come.
    Before,
    /// The whole snapshot has come, in one HEAP DUMP.
    Whole,
    /// One HEAP DUMP SEGMENT or more, but no HEAP DUMP END.
    Segments,
    /// One HEAP DUMP SEGMENT or more, and the HEAP DUMP END.
    Ended,
}

impl SnapshotState {
    /// Returns the state after a record with `tag`. Returns `None` if that record breaks the order.
    pub fn after(self, tag: u8) -> Option<SnapshotState>
        ensures { orders.StepsTo self tag result }
    {
        match self {
            SnapshotState::Before => match tag {
                tags::HEAP_DUMP => Some(SnapshotState::Whole),
                tags::HEAP_DUMP_SEGMENT => Some(SnapshotState::Segments),
                tags::HEAP_DUMP_END => None,
                _ => Some(SnapshotState::Before),
            },
            SnapshotState::Segments => match tag {
                tags::HEAP_DUMP => None,
                tags::HEAP_DUMP_SEGMENT => Some(SnapshotState::Segments),
                tags::HEAP_DUMP_END => Some(SnapshotState::Ended),
                _ => Some(SnapshotState::Segments),
            },
            SnapshotState::Whole | SnapshotState::Ended => match tag {
                tags::HEAP_DUMP | tags::HEAP_DUMP_SEGMENT | tags::HEAP_DUMP_END => None,
                _ => Some(self),
            },
        }
    }

    /// Tests whether the snapshot is complete.
    pub fn is_done(self) -> bool
        ensures { result ≡ orders.is_done self }
    {
        match self {
            SnapshotState::Before | SnapshotState::Segments => false,
            SnapshotState::Whole | SnapshotState::Ended => true,
        }
    }
}
