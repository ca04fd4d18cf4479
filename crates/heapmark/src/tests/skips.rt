//! Runs with 1, 2 and 64 workers that do not follow some fields, and texts that are no list of fields.

mod names;
mod unmet;

use super::dumps::Record::{Heap, Load, Text};
use super::dumps::Sub::{Class, Instance, Root};
use super::dumps::{Bytes, Record, Sample};
use super::program::{Asked, Outcome, answered, answered_on};
use super::rows::{Line, report_of};
use super::{runs_are_answered, usual_options};
use crate::{Causes, Dumps, Skip, SkipRefusal};
use names::NAMES;
use std::alloc::Global;
use std::env::Env;
use std::process::Abort;
use std::rt::Files;
use std::sync::Wait;
use std::thread::Threads;

/// What a case shows, its records with identifiers of 4 bytes, its list if it has one, and the lines of the report.
pub type Skipped = (
    &'static str,
    &'static [Record],
    Option<&'static str>,
    &'static [Line],
);

/// Three instances of a class `T`. The class and its superclass declare a field `referent` each. The two fields of the
/// first instance name the other instances. In the third instance, the superclass's field names no object of the dump.
pub const REFERENCES: &[Record] = &[
    Text(1, b"java/lang/ref/Reference"),
    Text(2, b"referent"),
    Text(3, b"T"),
    Load(0x100, 1),
    Load(0x110, 3),
    Heap(&[
        Class(0x100, 0, &[2]),
        Class(0x110, 0x100, &[2]),
        Instance(0x201, 0x110, &[0, 0, 2, 2, 0, 0, 2, 3]),
        Instance(0x202, 0x110, &[0; 8]),
        Instance(0x203, 0x110, &[0, 0, 0, 0, 0, 0, 9, 0x99]),
        Root(0x201),
    ]),
];

/// The report of `REFERENCES` if nothing is skipped.
const ALL: &[Line] = &[
    (3, 24, "T"),
    (2, 0, "<class>"),
    (5, 24, "(reachable)"),
    (0, 0, "(unreachable)"),
    (1, 0, "(unresolved)"),
];

/// The report of `REFERENCES` if the fields of `java/lang/ref/Reference` are skipped.
const SUPERCLASS_SKIPPED: &[Line] = &[
    (2, 16, "T"),
    (2, 0, "<class>"),
    (4, 16, "(reachable)"),
    (1, 8, "(unreachable)"),
    (0, 0, "(unresolved)"),
];

static LISTS: [Skipped; 6] = [
    ("no list", REFERENCES, None, ALL),
    (
        "a field that no class declares",
        REFERENCES,
        Some("T.other"),
        ALL,
    ),
    (
        "a class that the dump does not have",
        REFERENCES,
        Some("U.referent"),
        ALL,
    ),
    (
        "a field that instances of a subclass have",
        REFERENCES,
        Some("java/lang/ref/Reference.referent"),
        SUPERCLASS_SKIPPED,
    ),
    (
        "a field of the subclass only",
        REFERENCES,
        Some("T.referent"),
        &[
            (2, 16, "T"),
            (2, 0, "<class>"),
            (4, 16, "(reachable)"),
            (1, 8, "(unreachable)"),
            (1, 0, "(unresolved)"),
        ],
    ),
    (
        "both",
        REFERENCES,
        Some("java/lang/ref/Reference.referent,T.referent"),
        &[
            (1, 8, "T"),
            (2, 0, "<class>"),
            (3, 8, "(reachable)"),
            (2, 16, "(unreachable)"),
            (0, 0, "(unresolved)"),
        ],
    ),
];

/// Tests whether runs with 1, 2 and 64 workers on `dump` without the fields of `skip` write the report of `lines`.
fn lines_are_written<T: Causes + Threads + Wait + Sync>(
    rt: &T,
    alloc: Global,
    dump: &[u8],
    skip: &Skip<'_, Global>,
    lines: &[Line],
) -> bool {
    match report_of(alloc, lines) {
        Ok(report) => runs_are_answered(
            rt,
            alloc,
            &usual_options(),
            skip,
            dump,
            Ok(()),
            report.as_str(),
        ),
        Err(_) => false,
    }
}

/// Like [`lines_are_written`], without the fields of `list`.
fn list_is_skipped<T: Causes + Threads + Wait + Sync>(
    rt: &T,
    alloc: Global,
    dump: &[u8],
    list: Option<&'static str>,
    lines: &[Line],
) -> bool {
    let Some(text) = list else {
        return lines_are_written(rt, alloc, dump, &Skip::none(alloc), lines);
    };
    match Skip::new(alloc, text) {
        Ok(skip) => lines_are_written(rt, alloc, dump, &skip, lines),
        Err(_) => false,
    }
}

/// Tests whether the runs of `case` write its report.
fn is_skipped<T: Causes + Threads + Wait + Sync>(rt: &T, alloc: Global, case: &Skipped) -> bool {
    let (_, records, list, lines) = *case;
    match Bytes::dump(alloc, 4, records) {
        Ok(dump) => list_is_skipped(rt, alloc, dump.bytes.as_slice(), list, lines),
        Err(_) => false,
    }
}

#[test]
fn fields_are_skipped(rt: HostRuntime) {
    for case in &LISTS {
        assert!(rt; is_skipped(&rt, rt.alloc(), case), "{}", case.0);
    }
}

#[test]
fn fields_are_skipped_by_both_names(rt: HostRuntime) {
    for case in &NAMES {
        assert!(rt; is_skipped(&rt, rt.alloc(), case), "{}", case.0);
    }
}

/// Tests whether the program writes the report of `lines` for the command line `line`.
fn is_reported<
    T: AllocGlobal + Causes + Dumps<Dump = T::File> + Env + Files + Threads + Wait + Sync,
>(rt: &T, line: &str, lines: &[Line]) -> bool {
    let (name, sample) = ("heapmark_skipped.hprof", Sample::Records(4, REFERENCES));
    match report_of(rt.alloc(), lines) {
        Ok(report) => {
            let asked = Asked::Both(report.as_str(), "");
            answered_on(rt, name, sample, line, asked) == Some(Outcome::right(0))
        }
        Err(_) => false,
    }
}

/// Like [`is_reported`], for a command line with `list`.
fn list_is_reported<
    T: AllocGlobal + Causes + Dumps<Dump = T::File> + Env + Files + Threads + Wait + Sync,
>(rt: &T, list: Option<&'static str>, lines: &[Line]) -> bool {
    let Some(list) = list else {
        return is_reported(rt, "FILE", lines);
    };
    match format!(in rt.alloc(); "FILE --skip {list}") {
        Ok(line) => is_reported(rt, line.as_str(), lines),
        Err(_) => false,
    }
}

#[test]
fn the_words_list_the_fields(rt: HostRuntime) {
    for (_, _, list, lines) in LISTS {
        assert!(rt; list_is_reported(&rt, list, lines), "{list:?}");
    }
    assert!(rt; is_reported(&rt, "--skip=T.other FILE", ALL));
}

/// Checks that the program refuses `words` with just the line `refusal` on standard error, and writes no report.
fn is_refused<
    T: Abort + AllocGlobal + Causes + Dumps<Dump = T::File> + Files + Threads + Wait + Sync,
>(rt: &T, words: &[&str], refusal: &str) {
    let told = answered(rt, words, "", refusal);
    assert_eq!(rt; told, Outcome::right(1), "{refusal}");
}

/// Texts that are no list of fields.
const BAD_LISTS: [&str; 8] = [
    "referent",
    "T.",
    ".f",
    "T.f,,U.g",
    "",
    "a.b,",
    ",a.b",
    "a.b,c.d,.f",
];

/// The file does not exist: had it been opened, the refusal would be 19.
#[test]
fn bad_lists_are_refused(rt: HostRuntime) {
    let gone = "/nowhere/heapmark.hprof";
    let bad_options = "heapmark: refused 21 BadOptions\n";
    for list in BAD_LISTS {
        let refusal = Skip::new(rt.alloc(), list).err();
        assert_eq!(rt; refusal, Some(SkipRefusal::BadOptions), "{list}");
        is_refused(&rt, &["heapmark", gone, "--skip", list], bad_options);
    }
    let both = ["heapmark", gone, "--skip=", "--workers=4", "--buffers=9"];
    is_refused(&rt, &both, bad_options);
    let read_fault = "heapmark: refused 19 ReadFault\n";
    is_refused(&rt, &["heapmark", gone, "--skip", "T.f"], read_fault);
}
