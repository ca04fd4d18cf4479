//! The places at which the records of a dump are cut into parts.

ghost use Rattle.std.specs.Prelude.{IfSome, ◌+◌, ◌<◌, ◌^◌, length};
ghost use Rattle.hprof_grammar.specs.Dump.{header_length};
ghost use Rattle.hprof_grammar.specs.working.Cuts.{AreCuts};

use crate::frame::next_frame;
use crate::reader::Reader;
use crate::record_list::FIRST_RECORD;
use crate::snapshot_order::SnapshotState;
use std::alloc::Allocator;

/// A place between two records, before the first or after the last, and the snapshot state there.
#[derive(Clone, Copy, PartialEq, Eq)]
pub struct Seam {
    /// The offset of the next record, or of the end if there is none.
    pub place: u32,
    /// The snapshot state after all records before `place`.
    pub order: SnapshotState,
}

/// The seam before the first record of a dump.
pub const FIRST_SEAM: Seam = Seam {
    place: FIRST_RECORD,
    order: SnapshotState::Before,
};

/// The records of one part.
#[derive(Clone, Copy)]
pub struct Cut {
    /// The seam before the first record.
    pub from: Seam,
    /// The offset of the byte after the last record.
    pub to: u32,
}

/// Returns the tag of the first record of `bytes` and the bytes after that record. Returns `None` if `bytes` do not
/// begin with a whole record.
fn behind_record(bytes: &[u8]) -> Option<(u8, &[u8])>
    ensures { IfSome result (λ found. length found.1.now < length bytes.now) }
{
    let mut reader = Reader::new(bytes);
    let Ok(frame) = next_frame(&mut reader) else {
        return None;
    };
    Some((frame.tag, reader.rest))
}

/// Cuts the records of a dump into parts of `size` bytes or more; only the last part may be shorter. `bytes` are the
/// bytes after the header. Reads only the tag and the length of each record. Returns `None` if a record runs past the
/// end or breaks the order of the snapshot, or if an allocation fails.
pub fn cut_records<A: Allocator>(alloc: A, bytes: &[u8], size: usize) -> Option<Vec<Cut, A>>
    requires { header_length + length bytes.now < 2 ^ 32 }
    ensures { IfSome result (λ cuts. AreCuts size header_length cuts.items (header_length + length bytes.now)) }
{
    let mut cuts = Vec::new(alloc);
    let mut from = FIRST_SEAM;
    let mut reached = from;
    let mut rest = bytes;
    while !rest.is_empty() {
        let (tag, behind) = behind_record(rest)?;
        rest = behind;
        reached = Seam {
            place: FIRST_RECORD + (bytes.len() - rest.len()) as u32,
            order: reached.order.after(tag)?,
        };
        if rest.is_empty() || reached.place.saturating_sub(from.place) as usize >= size {
            let to = reached.place;
            cuts.push(Cut { from, to }).ok()?;
            from = reached;
        }
    }
    Some(cuts)
}
