//! The text of a report.

ghost use Rattle.std.specs.Prelude.{◌≡◌, ◌++◌, IfOk, OnOk};
ghost use Rattle.histogram.specs.Report.{line, report_of};
ghost use Rattle.histogram.specs.HistogramOf.{histogram_of};

use crate::report::Report;
use std::alloc::{AllocError, Allocator};
use std::io::Write;

/// Returns the whole text of `report`: a line for each row, then the totals.
pub(crate) fn text_of<A: Allocator, B: Allocator>(
    alloc: B,
    report: &Report<A>,
) -> Result<Vec<u8, B>, AllocError>
    ensures { IfOk result (λ text. text.items ≡ report_of (histogram_of report.now)) }
{
    let mut text = Vec::new(alloc);
    for row in &report.rows {
        append_line(&mut text, row.count, row.bytes, row.name.as_slice())?;
    }
    let (count, bytes) = report.reachable;
    append_line(&mut text, count, bytes, b"(reachable)")?;
    let (count, bytes) = report.unreachable;
    append_line(&mut text, count, bytes, b"(unreachable)")?;
    append_line(&mut text, report.unresolved, 0, b"(unresolved)")?;
    Ok(text)
}

/// Appends one line: `count` right-aligned in 10 places, two spaces, `bytes` right-aligned in 14 places, two spaces,
/// `name`, a newline.
fn append_line<A: Allocator>(
    out: &mut Vec<u8, A>,
    count: u64,
    bytes: u64,
    name: &[u8],
) -> Result<(), AllocError>
    ensures { OnOk result (out.new.items ≡ out.old.items ++ line count bytes name.now) }
{
    write!(out, "{count:>10}  {bytes:>14}  ").map_err(|_| AllocError)?;
    out.extend_from_slice(name)?;
    out.push(b'\n')?;
    Ok(())
}
