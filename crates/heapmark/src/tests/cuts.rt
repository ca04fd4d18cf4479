//! The dump of two objects cut at each length.

use super::dumps::{NOTHING_REPORT, TWO_OBJECTS_REPORT, two_objects};
use super::{least, refused, runs_are_answered, usual};
use crate::{Causes, Refusal, Skip};
use std::alloc::Global;
use std::sync::Wait;
use std::thread::Threads;

/// The first and the last length of a range, and the code and place of the refusal at each.
type Cut = (usize, usize, u8, u64);

/// The refusals of the file cut to each length below 174, which is its whole length.
static CUTS: [Cut; 8] = [
    (0, 18, 1, 0),
    (19, 30, 3, 0),
    (31, 31, 8, 31),
    (32, 44, 3, 31),
    (45, 45, 8, 45),
    (46, 69, 3, 45),
    (70, 70, 8, 70),
    (71, 173, 3, 70),
];

/// The refusals of the file if the body of its heap record is cut within a sub-record. The record's length is lowered
/// to that of the cut body.
static BODIES: [Cut; 4] = [
    (1, 47, 6, 79),
    (49, 68, 6, 127),
    (70, 89, 6, 148),
    (91, 94, 6, 169),
];

/// The lengths at which the cut body is empty or ends with a whole sub-record, and the report for each.
static WHOLE_BODIES: [(usize, &str); 5] = [
    (0, NOTHING_REPORT),
    (
        48,
        "         0               0  (reachable)
         1               0  (unreachable)
         0               0  (unresolved)
",
    ),
    (
        69,
        "         0               0  (reachable)
         2               4  (unreachable)
         1               0  (unresolved)
",
    ),
    (
        90,
        "         0               0  (reachable)
         3               8  (unreachable)
         0               0  (unresolved)
",
    ),
    (95, TWO_OBJECTS_REPORT),
];

/// Returns the first `length` of `bytes`, or all of `bytes` if there are fewer.
pub fn front(bytes: &[u8], length: usize) -> &[u8] {
    &bytes[..length.min(bytes.len())]
}

fn put(bytes: &mut Vec<u8>, place: usize, value: u8) {
    if let Some(byte) = bytes.get_mut(place) {
        *byte = value;
    }
}

/// Returns `dump` cut after the first `length` bytes of its heap record's body, and sets the record's length to
/// `length`.
fn with_body(dump: &mut Vec<u8>, length: usize) -> &[u8] {
    put(dump, 78, u8::try_from(length).unwrap_or(u8::MAX));
    front(dump.as_slice(), length.saturating_add(79))
}

/// Tests whether the runs on `bytes` have the result `want` and write `report`: with two workers and the least buffers,
/// and with 1, 2 and 64 workers and the program's default buffers.
fn is_answered<T: Causes + Threads + Wait + Sync>(
    rt: &T,
    alloc: Global,
    bytes: &[u8],
    want: Result<(), Refusal>,
    report: &str,
) -> bool {
    let options = [least(2), usual(1), usual(2), usual(64)];
    runs_are_answered(rt, alloc, &options, &Skip::none(alloc), bytes, want, report)
}

/// Tests whether the runs on the first `length` bytes of the file are refused with `code` and `place`.
fn file_is_refused<T: Causes + Threads + Wait + Sync>(
    rt: &T,
    alloc: Global,
    length: usize,
    code: u8,
    place: u64,
) -> bool {
    let want = refused(code, Some(place));
    match two_objects(alloc) {
        Ok(dump) => is_answered(rt, alloc, front(dump.bytes.as_slice(), length), want, ""),
        Err(_) => false,
    }
}

/// Tests whether the runs on the dump with `length` bytes of its heap record's body have the result `want` and write
/// `report`.
fn body_is_answered<T: Causes + Threads + Wait + Sync>(
    rt: &T,
    alloc: Global,
    length: usize,
    want: Result<(), Refusal>,
    report: &str,
) -> bool {
    match two_objects(alloc) {
        Ok(mut dump) => {
            let cut = with_body(&mut dump.bytes, length);
            is_answered(rt, alloc, cut, want, report)
        }
        Err(_) => false,
    }
}

/// Returns the number of bytes of the file, or `None` if an allocation fails.
fn file_length(alloc: Global) -> Option<usize> {
    match two_objects(alloc) {
        Ok(dump) => Some(dump.bytes.len()),
        Err(_) => None,
    }
}

#[test]
fn a_file_that_is_cut_is_refused(rt: HostRuntime) {
    assert_eq!(rt; file_length(rt.alloc()), Some(174));
    for (from, to, code, place) in CUTS {
        for length in from..=to {
            assert!(rt;
                file_is_refused(&rt, rt.alloc(), length, code, place),
                "{length} bytes"
            );
        }
    }
}

#[test]
fn a_heap_record_that_is_cut_in_a_sub_record_is_refused(rt: HostRuntime) {
    for (from, to, code, place) in BODIES {
        let want = refused(code, Some(place));
        for length in from..=to {
            assert!(rt;
                body_is_answered(&rt, rt.alloc(), length, want, ""),
                "{length} bytes"
            );
        }
    }
}

#[test]
fn a_heap_record_may_end_at_a_sub_record(rt: HostRuntime) {
    for (length, report) in WHOLE_BODIES {
        assert!(rt;
            body_is_answered(&rt, rt.alloc(), length, Ok(()), report),
            "{length} bytes"
        );
    }
}
