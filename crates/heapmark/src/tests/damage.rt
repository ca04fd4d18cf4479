//! The dump of two objects with each byte changed to each other value.
//!
//! These are 44,370 files. The runs are fast enough in the build of `rt test`, but too slow in that of `rt try --test`.

mod answers;
mod two_workers;

use super::dumps::two_objects;
use super::{least, run_with};
use crate::{Causes, NoGate, Options, Skip};
use answers::ANSWERS;
use std::alloc::Global;
use std::sync::Wait;
use std::thread::Threads;

/// A place, the first and the last value of a range, and the result of the dump with any of these values at that place,
/// except the dump's own. For refusals the result is their code, their place, and 0; for reports it is 0, their length,
/// and a number mixed from all reports of the range in order ([`mixed`]).
pub type Answer = (usize, u8, u8, u8, u64, u32);

/// For each code, or 0 for reports: the number of files with this result, and the sum of their places or lengths.
static SUMS: [(u32, u64); 15] = [
    (26_261, 4_847_130),
    (4_845, 0),
    (1_019, 19_361),
    (2_837, 147_838),
    (136, 6_351),
    (1_030, 134_856),
    (2_117, 289_402),
    (1_780, 140_785),
    (254, 44_196),
    (1, 79),
    (2, 296),
    (3_059, 409_913),
    (1_020, 80_580),
    (9, 1_164),
    (0, 0),
];

/// Mixes `report` into `before`, the number that was mixed from the reports before it, and returns the new number.
fn mixed(before: u32, report: &[u8]) -> u32 {
    let mut mix = before;
    for byte in report {
        mix = mix.wrapping_mul(31).wrapping_add(u32::from(*byte));
    }
    mix
}

/// Runs on `dump`. Returns the code and the place of its refusal, or 0 and the length of its report; and `mix` with the
/// report mixed in. Returns the code 255 if a run that is refused has written something.
fn told<T: Causes + Threads + Wait + Sync>(
    rt: &T,
    alloc: Global,
    options: &Options,
    dump: &[u8],
    mix: u32,
) -> (u8, u64, u32) {
    let (skip, written) = (Skip::none(alloc), Vec::new(alloc));
    let (outcome, written) = run_with(rt, alloc, options, &skip, &NoGate, dump, written);
    let report = written.as_slice();
    match outcome {
        Ok(()) => (0, report.len() as u64, mixed(mix, report)),
        Err(refusal) if report.is_empty() => (
            refusal.code,
            refusal.offset.unwrap_or(u64::MAX),
            mix,
        ),
        Err(_) => (u8::MAX, 0, mix),
    }
}

/// The first file of a row whose result is not the one that the row says: its value, and the two numbers of [`told`].
type Other = Option<(u8, u8, u64)>;

/// Runs on each file of `row`, made by changing `dump`. Returns the number of files, the number mixed from their
/// reports, and the first file with another result.
fn run_row<T: Causes + Threads + Wait + Sync>(
    rt: &T,
    alloc: Global,
    options: &Options,
    row: &Answer,
    dump: &mut [u8],
) -> (u32, u32, Other) {
    let (place, first, last, code, at, _) = *row;
    let was = dump.get(place).copied();
    let mut files: u32 = 0;
    let mut reports = 0;
    let mut other = None;
    for value in first..=last {
        if was == Some(value) {
            continue;
        }
        if let Some(byte) = dump.get_mut(place) {
            *byte = value;
        }
        let (told_code, told_place, mix) = told(rt, alloc, options, dump, reports);
        if other.is_none() && (told_code, told_place) != (code, at) {
            other = Some((value, told_code, told_place));
        }
        files = files.wrapping_add(1);
        reports = mix;
    }
    (files, reports, other)
}

/// Returns the number of files of `row`, without the dump itself. Returns `None` if a file has another result than
/// `row` says, or if an allocation fails.
fn files_of<T: Causes + Threads + Wait + Sync>(
    rt: &T,
    alloc: Global,
    options: &Options,
    row: &Answer,
) -> Option<u32> {
    let Ok(mut dump) = two_objects(alloc) else {
        return None;
    };
    match run_row(rt, alloc, options, row, dump.bytes.as_mut_slice()) {
        (files, reports, None) if reports == row.5 => Some(files),
        _ => None,
    }
}

/// Returns for each code the sums over the files of all rows, as in `SUMS`. The error is the place and the values of
/// the first row that overlaps the rows before it or has a file with another result.
fn sums_of_rows<T: Causes + Threads + Wait + Sync>(
    rt: &T,
    alloc: Global,
    options: &Options,
) -> Result<[(u32, u64); 15], (usize, u8, u8)> {
    let mut sums = [(0u32, 0u64); 15];
    let mut end = 0;
    for row in &ANSWERS {
        let (place, first, last, code, at, _) = *row;
        let files = files_of(rt, alloc, options, row).ok_or((place, first, last))?;
        if let Some(sum) = sums.get_mut(usize::from(code)) {
            sum.0 = sum.0.wrapping_add(files);
            sum.1 = sum.1.wrapping_add(u64::from(files).wrapping_mul(at));
        }
        // each row begins after the end of the row before, so no value of a place is in two rows
        let begin = place.wrapping_mul(256);
        if end > begin.wrapping_add(usize::from(first)) {
            return Err((place, first, last));
        }
        end = begin.wrapping_add(usize::from(last)).wrapping_add(1);
    }
    Ok(sums)
}

#[test]
fn each_byte_changed(rt: HostRuntime) {
    let sums = sums_of_rows(&rt, rt.alloc(), &least(1));
    assert_eq!(rt; sums, Ok(SUMS));
}
