//! The histogram of a marked heap, and its report.
//!
//! `rows` makes the histogram of a graph and of a marking of it: a line for each row with a marked object, and the
//! three totals. `write_report` writes the histogram's text and nothing else. `Counted` wraps a reader or a writer and
//! counts its failures, so that contracts can say whether a call failed.
//!
//! From `crates/histogram_tests/src/reports.rt`, which is proved and run:
//!
//!     let mut writer = Counted::new(Vec::new(alloc));
//!     let is_whole = write_report(alloc, report, &mut writer).is_ok() && writer.failures() == 0;
//!     is_whole && writer.into_inner().as_slice() == text.as_bytes()
//!
//! The histogram is defined in `specs/Histogram.antt`, its text in `specs/Report.antt`; `docs/HISTOGRAM.md` and
//! `docs/FORMAT.md` have both in words.

#![tactic(auto)]

mod counted;
mod laws;
mod names;
mod reachable;
mod read_to_limit;
mod report;
mod report_rows;
mod report_text;
mod report_writing;
mod unmarked;
mod unmarked_numbers;
mod write_whole;

pub use counted::Counted;
pub use laws::{one_histogram, one_report};
pub use mark_core::OutOfMemory;
pub use names::{append_unnamed, row_name};
pub use read_to_limit::ReaderRefusal;
pub use report::{Line, Report};
pub use report_rows::rows;
pub use report_writing::{WriteRefusal, write_report};
pub use write_whole::WriteFault;
