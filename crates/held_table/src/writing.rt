//! Writing a table.

ghost use Rattle.std.specs.Prelude.{All, IsErrOf, OnOk, true, ◌+◌, ◌-◌, ◌<◌, ◌↔◌, ◌≡◌, ◌≢◌, ◌^◌};
ghost use Rattle.std.specs.Io.KnownBytes.{Appends, Keeps};
ghost use Rattle.heap_graph.specs.RowNumbers.{row_count};
ghost use Rattle.histogram.specs.Counting.{AppendsBeginning, failures_of, inner_of, is_flushed};
ghost use Rattle.held_table.specs.TableText.{table_text};

use crate::table::Table;
use crate::text::text_of;
use heap_graph::Graph;
use histogram::{Counted, WriteRefusal};
use std::alloc::Allocator;
use std::io::Write;

/// Writes the text of `table`, a table of `graph`, and flushes `writer`. Makes the whole text before the first write.
///
/// `Err(OutOfMemory)` if an allocation for the text fails, `Err(WriteFault)` if a write or the flush fails. The
/// variants of [`WriteRefusal`] say what was written then.
pub fn write_table<A: Allocator + Copy, B: Allocator, C: Allocator, W: Write>(
    alloc: A,
    graph: &Graph<'_, B>,
    table: &Table<C>,
    writer: &mut Counted<W>,
) -> Result<(), WriteRefusal>
    requires rows { All (λ l. l.row < row_count graph.now) table.now.lines.items }
    requires failures { failures_of writer.old < 2 ^ 64 - 1 }
    ensures written { OnOk result (Appends (W.contents (inner_of writer.old)) (W.contents (inner_of writer.new))
        (table_text graph.now table.now.joints.items table.now.lines.items)) }
    ensures beginning { result ≡ Err WriteRefusal.WriteFault
        → AppendsBeginning (W.contents (inner_of writer.old)) (W.contents (inner_of writer.new))
        (table_text graph.now table.now.joints.items table.now.lines.items) }
    ensures untouched { result ≡ Err WriteRefusal.OutOfMemory
        → Keeps (W.contents (inner_of writer.old)) (W.contents (inner_of writer.new)) }

    // A successful flush came after the last write that took something.
    ensures flushed { OnOk result (is_flushed writer.new ≡ true) }

    // The count rises if a write or the flush failed, and only then.
    ensures fault { IsErrOf result WriteRefusal.WriteFault ↔ (failures_of writer.new ≡ failures_of writer.old + 1) }
    ensures no_fault { result ≢ Err WriteRefusal.WriteFault → failures_of writer.new ≡ failures_of writer.old }
{
    let Ok(text) = text_of(alloc, graph, table) else {
        return Err(WriteRefusal::OutOfMemory);
    };
    match writer.write_whole(text.as_slice()) {
        Ok(()) => Ok(()),
        Err(_) => Err(WriteRefusal::WriteFault),
    }
}
