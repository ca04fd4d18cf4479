//! The lines that follow the report at a terminal: each is about an entry of `--skip` that names no field of the dump.

use super::{ALL, REFERENCES, SUPERCLASS_SKIPPED};
use crate::tests::dumps::Record::{Heap, Load, Text};
use crate::tests::dumps::Sub::{Root, Static};
use crate::tests::dumps::{Record, Sample};
use crate::tests::program::{Asked, Outcome, answered_on};
use crate::tests::rows::{Line, report_of};
use crate::tests::texts::VERSION;
use crate::{Causes, Dumps};
use std::alloc::{AllocError, Global};
use std::env::Env;
use std::rt::Files;
use std::sync::Wait;
use std::thread::Threads;

/// Records, a list, the lines of the report, and the entries about which a line follows the report at a terminal.
type Unmet = (
    &'static [Record],
    &'static str,
    &'static [Line],
    &'static [&'static str],
);

/// A class `T` whose static field `referent` names the class itself.
const STATIC: &[Record] = &[
    Text(2, b"referent"),
    Text(3, b"T"),
    Load(0x110, 3),
    Heap(&[Static(0x110, 2, &[0, 0, 1, 0x10]), Root(0x110)]),
];

const STATIC_ALONE: &[Line] = &[
    (1, 4, "<class>"),
    (1, 4, "(reachable)"),
    (0, 0, "(unreachable)"),
    (0, 0, "(unresolved)"),
];

static UNMET: [Unmet; 9] = [
    (
        REFERENCES,
        "java/lang/ref/Reference.referent",
        SUPERCLASS_SKIPPED,
        &[],
    ),
    (
        REFERENCES,
        "java/lang/ref/Reference.referent,T.other",
        SUPERCLASS_SKIPPED,
        &["T.other"],
    ),
    (
        REFERENCES,
        "T.other,java/lang/ref/Reference.referent",
        SUPERCLASS_SKIPPED,
        &["T.other"],
    ),
    (
        REFERENCES,
        "java.lang.ref.Reference.referent,U.referent",
        ALL,
        &["java.lang.ref.Reference.referent", "U.referent"],
    ),
    (
        REFERENCES,
        "T.referen,T.referents",
        ALL,
        &["T.referen", "T.referents"],
    ),
    (
        REFERENCES,
        "referent.T,T.java/lang/ref/Reference",
        ALL,
        &["referent.T", "T.java/lang/ref/Reference"],
    ),
    (
        REFERENCES,
        "T.a\x1bb,T.a\x1bb",
        ALL,
        &["T.a\\x1bb", "T.a\\x1bb"],
    ),
    (STATIC, "T.referent", STATIC_ALONE, &["T.referent"]),
    (
        &[Heap(&[])],
        "T.referent",
        &[
            (0, 0, "(reachable)"),
            (0, 0, "(unreachable)"),
            (0, 0, "(unresolved)"),
        ],
        &["T.referent"],
    ),
];

/// Returns the lines about `entries`.
fn lines_about(alloc: Global, entries: &[&str]) -> Result<String, AllocError> {
    let mut lines = String::new(alloc);
    for entry in entries {
        write!(
            lines,
            "heapmark: --skip {entry}: no class of the dump declares this field of its instances \
            (static fields are always followed)\n"
        )?;
    }
    Ok(lines)
}

/// Tests whether the process writes the report of `case` and just `told` on standard error.
fn is_printed<
    T: AllocGlobal + Causes + Dumps<Dump = T::File> + Env + Files + Threads + Wait + Sync,
>(rt: &T, case: &Unmet, is_terminal: bool, told: &str) -> bool {
    let (records, list, lines, _) = *case;
    let Ok(report) = report_of(rt.alloc(), lines) else {
        return false;
    };
    let Ok(line) = format!(in rt.alloc(); "FILE --skip {list}") else {
        return false;
    };
    let (name, sample) = ("heapmark_unmet.hprof", Sample::Records(4, records));
    let asked = Asked::Whole(is_terminal, report.as_str(), told);
    answered_on(rt, name, sample, line.as_str(), asked) == Some(Outcome::right(0))
}

/// Tests whether the process writes the report of `case` and just the lines about `entries` on standard error.
fn is_told<T: AllocGlobal + Causes + Dumps<Dump = T::File> + Env + Files + Threads + Wait + Sync>(
    rt: &T,
    case: &Unmet,
    is_terminal: bool,
    entries: &[&str],
) -> bool {
    match lines_about(rt.alloc(), entries) {
        Ok(told) => is_printed(rt, case, is_terminal, told.as_str()),
        Err(_) => false,
    }
}

/// The lines are printed only if standard error is a terminal.
#[test]
fn entries_that_name_no_field_are_told(rt: HostRuntime) {
    for case in &UNMET {
        let (_, list, _, entries) = *case;
        assert!(rt; is_told(&rt, case, true, entries), "{list}");
        assert!(rt; is_told(&rt, case, false, &[]), "{list}, no terminal");
    }
}

/// Returns a command line whose list has more than 25,000 bytes. Only the last of its two entries names a field.
fn long_line(alloc: Global) -> Result<String, AllocError> {
    let mut line = String::new(alloc);
    line.push_str("FILE --skip ")?;
    for _ in 0..5_000 {
        line.push_str("long/")?;
    }
    line.push_str("T.referent,java/lang/ref/Reference.referent")?;
    Ok(line)
}

/// Tests whether the process, run with [`long_line`], writes the report without the field of the last entry.
fn long_line_is_read<
    T: AllocGlobal + Causes + Dumps<Dump = T::File> + Env + Files + Threads + Wait + Sync,
>(rt: &T, is_terminal: bool) -> bool {
    let Ok(report) = report_of(rt.alloc(), SUPERCLASS_SKIPPED) else {
        return false;
    };
    let Ok(line) = long_line(rt.alloc()) else {
        return false;
    };
    let (name, sample) = ("heapmark_long_line.hprof", Sample::Records(4, REFERENCES));
    let asked = Asked::Process(is_terminal, report.as_str());
    answered_on(rt, name, sample, line.as_str(), asked) == Some(Outcome::right(0))
}

#[test]
fn a_long_word_is_read_to_its_end(rt: HostRuntime) {
    assert!(rt; long_line_is_read(&rt, false));
    assert!(rt; long_line_is_read(&rt, true), "a terminal");
}

/// A list that is refused has a second line of its own. If the version is requested, no line about entries follows.
#[test]
fn other_lines_are_told_nothing_of_entries(rt: HostRuntime) {
    let (name, sample) = ("heapmark_unmet_else.hprof", Sample::Records(4, REFERENCES));
    let refused = "heapmark: refused 21 BadOptions
heapmark: --skip: give 1 to 64 entries with commas between, as java/lang/ref/Reference.referent
";
    let cases = [
        ("FILE --skip A", 1, "", refused),
        ("FILE --skip T.other --version", 0, VERSION, ""),
    ];
    for (line, status, report, told) in cases {
        let asked = Asked::Whole(true, report, told);
        let answer = answered_on(&rt, name, sample, line, asked);
        assert_eq!(rt; answer, Some(Outcome::right(status)), "{line}");
    }
}
