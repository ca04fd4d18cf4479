//! Writing a report.

ghost use Rattle.std.specs.Prelude.{◌≡◌, ◌≢◌, ◌+◌, ◌-◌, ◌^◌, ◌<◌, ◌↔◌, IsErrOf, OnOk, true};
ghost use Rattle.std.specs.Io.KnownBytes.{Appends, Keeps};
ghost use Rattle.histogram.specs.Counting.{AppendsBeginning, failures_of, inner_of, is_flushed};
ghost use Rattle.histogram.specs.Report.{report_of};
ghost use Rattle.histogram.specs.HistogramOf.{histogram_of};

use crate::counted::Counted;
use crate::report::Report;
use crate::report_text::text_of;
use std::alloc::Allocator;
use std::io::Write;
use thiserror::Error;

/// Why a report was not written.
#[derive(Clone, Copy, PartialEq, Eq, Debug, Error)]
pub enum WriteRefusal {
    /// An allocation for the text failed. Nothing was written.
    #[error("out of memory")]
    OutOfMemory,
    /// A write or the flush failed. It was not tried again. A beginning of the text was written: nothing, some or all.
    #[error("a write failed")]
    WriteFault,
}

/// Writes the text of `report`, and flushes `writer`. Makes the whole text before the first write.
///
/// `Err(OutOfMemory)` if an allocation for the text fails, `Err(WriteFault)` if a write or the flush fails. The
/// variants of [`WriteRefusal`] say what was written then.
pub fn write_report<A: Allocator, B: Allocator, W: Write>(
    alloc: B,
    report: &Report<A>,
    writer: &mut Counted<W>,
) -> Result<(), WriteRefusal>
    requires { failures_of writer.old < 2 ^ 64 - 1 }
    ensures written { OnOk result (Appends (W.contents (inner_of writer.old)) (W.contents (inner_of writer.new))
        (report_of (histogram_of report.now))) }
    ensures beginning { result ≡ Err WriteRefusal.WriteFault
        → AppendsBeginning (W.contents (inner_of writer.old)) (W.contents (inner_of writer.new))
        (report_of (histogram_of report.now)) }
    ensures untouched { result ≡ Err WriteRefusal.OutOfMemory
        → Keeps (W.contents (inner_of writer.old)) (W.contents (inner_of writer.new)) }

    // A successful flush came after the last write that took something.
    ensures flushed { OnOk result (is_flushed writer.new ≡ true) }

    // The count rises if a write or the flush failed, and only then.
    ensures fault { IsErrOf result WriteRefusal.WriteFault ↔ (failures_of writer.new ≡ failures_of writer.old + 1) }
    ensures no_fault { result ≢ Err WriteRefusal.WriteFault → failures_of writer.new ≡ failures_of writer.old }
{
    let Ok(text) = text_of(alloc, report) else {
        return Err(WriteRefusal::OutOfMemory);
    };
    match writer.write_whole(text.as_slice()) {
        Ok(()) => Ok(()),
        Err(_) => Err(WriteRefusal::WriteFault),
    }
}
