//! The second line after a refusal at a terminal, which says what to do.

use super::cuts::front;
use super::dumps::Record::{Heap, Text};
use super::dumps::Sub::{Raw, Root};
use super::dumps::{Bytes, Record, two_objects};
use super::program::{Asked, Outcome, refused_with_reason, told_on};
use crate::hint::advise;
use crate::{Arguments, Causes, Dumps, Refusal};
use std::alloc::{AllocError, Global};
use std::env::Env;
use std::rt::Files;
use std::sync::Wait;
use std::thread::Threads;

/// Returns the hint that is printed for the `refusal` of `file` if the options are `workers` and `buffers`.
pub fn advice<T: Files + AllocGlobal>(
    rt: &T,
    file: &str,
    refusal: Refusal,
    workers: u32,
    buffers: u32,
) -> Vec<u8> {
    let arguments = Arguments {
        file,
        workers,
        buffer: 256,
        buffers,
        first_tag: 281_474_976_710_655,
        skip: None,
    };
    let mut err = Vec::new(rt.alloc());
    advise(rt, &mut err, &arguments, &refusal, None);
    err
}

/// Tests whether just `want` is printed as the hint for the `refusal` of a file that does not exist.
fn is_hint<T: Files + AllocGlobal>(
    rt: &T,
    refusal: Refusal,
    workers: u32,
    buffers: u32,
    want: &str,
) -> bool {
    let hint = advice(rt, "/nowhere/a.hprof", refusal, workers, buffers);
    hint.as_slice() == want.as_bytes()
}

/// Here neither the refusal's offset nor the file's length is known, so codes 6 and 8 have no hint.
#[test]
fn seven_codes_have_a_hint_wherever_they_are(rt: HostRuntime) {
    for code in 0..=255u8 {
        let refusal = Refusal { code, offset: None };
        let has_hint = matches!(code, 1 | 3 | 14 | 15 | 16 | 18 | 21);
        assert_eq!(rt; is_hint(&rt, refusal, 4, 1024, ""), !has_hint, "{code}");
    }
}

const NO_DUMP: &str = "heapmark: /nowhere/a.hprof: \
no HPROF binary dump of version 1.0.2, as `jcmd PID GC.heap_dump FILE` writes it
";

const ENDS_EARLY: &str = "heapmark: /nowhere/a.hprof: \
ends too early: still being written, or cut
";

const TOO_MANY_BYTES: &str = "heapmark: /nowhere/a.hprof: \
more than 1,073,741,824 bytes: dump a smaller heap, or live objects only (without -all)
";

const TOO_MANY_OBJECTS: &str = "heapmark: /nowhere/a.hprof: \
more than 16,777,216 objects: dump a smaller heap, or live objects only (without -all)
";

const MEMORY: &str = "heapmark: /nowhere/a.hprof: \
takes its own size in memory and more for each object: free some memory
";

const MEMORY_OR_WORKERS: &str = "heapmark: /nowhere/a.hprof: \
takes its own size in memory and more for each object: free some memory, \
or try --workers 1, which takes the least
";

const FIRST_TAG: &str = "heapmark: \
--first-tag 281474976710655: too few tags are left after it: leave the option out
";

const NO_THREAD: &str = "heapmark: \
--workers 1: the system starts no thread: see ulimit -u and ulimit -v
";

const NO_MORE_THREADS: &str = "heapmark: \
--workers 64: the system starts no more threads: try fewer, or see ulimit -u and ulimit -v
";

const BUFFERS: &str = "heapmark: --buffers 129: too few for 64 workers: give 130 at least
";

const FIELDS: &str = "heapmark: \
--skip: give 1 to 64 entries with commas between, as java/lang/ref/Reference.referent
";

#[test]
fn each_hint_says_what_to_do(rt: HostRuntime) {
    let cases: [(u8, Option<u64>, u32, u32, &str); 11] = [
        (1, Some(0), 4, 1024, NO_DUMP),
        (3, Some(31), 4, 1024, ENDS_EARLY),
        (14, Some(1_073_741_824), 4, 1024, TOO_MANY_BYTES),
        (14, Some(1_073_741_823), 4, 1024, TOO_MANY_OBJECTS),
        (15, None, 1, 1024, MEMORY),
        (15, None, 2, 1024, MEMORY_OR_WORKERS),
        (16, None, 4, 1024, FIRST_TAG),
        (18, None, 1, 1024, NO_THREAD),
        (18, None, 64, 1024, NO_MORE_THREADS),
        (21, None, 64, 129, BUFFERS),
        (21, None, 64, 130, FIELDS),
    ];
    for (code, offset, workers, buffers, want) in cases {
        let refusal = Refusal { code, offset };
        assert!(rt;
            is_hint(&rt, refusal, workers, buffers, want),
            "{code}: {want}"
        );
    }
}

/// Tests whether the program refuses a file of `bytes` by the line `refusal`. At a terminal, a line that ends with
/// `want` must follow, or no line if `want` is empty.
fn is_told<T: AllocGlobal + Causes + Dumps<Dump = T::File> + Env + Files + Threads + Wait + Sync>(
    rt: &T,
    bytes: &[u8],
    refusal: &str,
    want: &str,
) -> bool {
    let name = "heapmark_hints.hprof";
    let line = told_on(rt, name, bytes, "FILE", Asked::Both("", refusal));
    let ends = if want.is_empty() { refusal } else { want };
    let lines = told_on(rt, name, bytes, "FILE", Asked::People(refusal, ends));
    line == Some(Outcome::right(1)) && lines == Some(Outcome::right(1))
}

const EMPTY: &str = "heapmark_hints.hprof: empty: still being written, or on a full disk\n";

const EARLY: &str = "heapmark_hints.hprof: ends too early: still being written, or cut\n";

const NONE_OF_IT: &str = "heapmark_hints.hprof: \
no HPROF binary dump of version 1.0.2, as `jcmd PID GC.heap_dump FILE` writes it
";

const OLDER: &str = "heapmark_hints.hprof: \
HPROF of version 1.0.1; only 1.0.2 is read, as `jcmd PID GC.heap_dump FILE` writes it
";

const OTHER: &str = "heapmark_hints.hprof: \
HPROF of version 1.2.3; only 1.0.2 is read, as `jcmd PID GC.heap_dump FILE` writes it
";

const NEWER: &str = "heapmark_hints.hprof: \
HPROF of version 1.0.3; only 1.0.2 is read, as `jcmd PID GC.heap_dump FILE` writes it
";

/// The first bytes of compressed files are taken from the descriptions of their formats.
#[test]
fn a_file_is_told_by_its_first_bytes(rt: HostRuntime) {
    let gzipped = "heapmark_hints.hprof: compressed: gunzip it first\n";
    let cases: [(&[u8], &str); 20] = [
        (b"", EMPTY),
        (b"J", EARLY),
        (b"JAVA PROFILE 1.0.2", EARLY),
        (b"JAVA PROFILE 1.0.1\0\0\0\0\x04", OLDER),
        (b"JAVA PROFILE 1.0.3\0", NEWER),
        (b"JAVA PROFILE 1.0.1", NONE_OF_IT),
        (b"JAVA PROFILE 1.0.x\0", NONE_OF_IT),
        (b"JAVA PROFILE 1.x.3\0", NONE_OF_IT),
        (b"JAVA PROFILE x.0.3\0", NONE_OF_IT),
        (b"JAVA PROFILE 1.2-3\0", NONE_OF_IT),
        (b"JAVA PROFILE 1.2.3\0", OTHER),
        (b"JAVA PROFILE 1.0.10\0", NONE_OF_IT),
        (&[0x1f, 0x8b, 8, 0], gzipped),
        (&[0x1f, 0x8b], gzipped),
        (&[0x1f, 0x8a, 8, 0], NONE_OF_IT),
        (&[0x1f], NONE_OF_IT),
        (b"PK\x03\x04\x14\0", ": compressed: unzip it first\n"),
        (
            &[0x28, 0xb5, 0x2f, 0xfd, 4],
            ": compressed: unzstd it first\n",
        ),
        (b"\xfd7zXZ\0\0\x04", ": compressed: unxz it first\n"),
        (b"BZh91AY&SY", ": compressed: bunzip2 it first\n"),
    ];
    for (bytes, want) in cases {
        let refusal = "heapmark: refused 1 BadHeader at 0\n";
        assert!(rt; is_told(&rt, bytes, refusal, want), "{bytes:?}: {want}");
    }
}

/// Tests whether the program refuses the first `length` bytes of the dump of two objects by the line `refusal`, and
/// says at a terminal that the file ends too early.
fn cut_is_told<
    T: AllocGlobal + Causes + Dumps<Dump = T::File> + Env + Files + Threads + Wait + Sync,
>(rt: &T, length: usize, refusal: &str) -> bool {
    match two_objects(rt.alloc()) {
        Ok(dump) => is_told(rt, front(dump.bytes.as_slice(), length), refusal, EARLY),
        Err(_) => false,
    }
}

#[test]
fn a_cut_file_is_told(rt: HostRuntime) {
    let cases = [
        (19, "heapmark: refused 3 Truncated at 0\n"),
        (31, "heapmark: refused 8 DumpOrder at 31\n"),
        (32, "heapmark: refused 3 Truncated at 31\n"),
        (70, "heapmark: refused 8 DumpOrder at 70\n"),
        (173, "heapmark: refused 3 Truncated at 70\n"),
    ];
    for (length, refusal) in cases {
        assert!(rt; cut_is_told(&rt, length, refusal), "{length}: {refusal}");
    }
}

/// Like [`is_told`], for a file with the dump of `records`.
fn dump_is_told<
    T: AllocGlobal + Causes + Dumps<Dump = T::File> + Env + Files + Threads + Wait + Sync,
>(rt: &T, records: &[Record], refusal: &str, want: &str) -> bool {
    match Bytes::dump(rt.alloc(), 4, records) {
        Ok(dump) => is_told(rt, dump.bytes.as_slice(), refusal, want),
        Err(_) => false,
    }
}

/// Records, their refusal, and the end of the line that follows it. The first two dumps end with a cut root; in the
/// third, another record follows the cut root; the fourth has two heap dumps.
static FAULTS: [(&[Record], &str, &str); 4] = [
    (
        &[Heap(&[Raw(&[0xff, 0])])],
        "heapmark: refused 6 SubTruncated at 40\n",
        EARLY,
    ),
    (
        &[Text(1, b"A"), Heap(&[Root(0x201), Raw(&[0xff, 0])])],
        "heapmark: refused 6 SubTruncated at 59\n",
        EARLY,
    ),
    (
        &[Heap(&[Raw(&[0xff, 0])]), Text(1, b"A")],
        "heapmark: refused 6 SubTruncated at 40\n",
        "",
    ),
    (
        &[Heap(&[]), Heap(&[])],
        "heapmark: refused 8 DumpOrder at 40\n",
        "",
    ),
];

#[test]
fn a_fault_before_the_end_is_told_apart(rt: HostRuntime) {
    for (records, refusal, want) in FAULTS {
        assert!(rt;
            dump_is_told(&rt, records, refusal, want),
            "{refusal}: {want}"
        );
    }
}

/// A name with four characters that are not printable ASCII; three of them are control characters.
#[test]
fn a_name_is_shown_without_control_characters(rt: HostRuntime) {
    let name = "/nowhere/\x1b[31m\u{9b}\u{e4}\n";
    let reason = "heapmark: /nowhere/\\x1b[31m\\xc2\\x9b\u{e4}\\x0a: \
        No such file or directory (os error 2)\n";
    let refusal = "heapmark: refused 19 ReadFault\n";
    let told = refused_with_reason(&rt, &["heapmark", name], refusal, reason);
    assert_eq!(rt; told, Outcome::right(1));
}

/// A name's control characters are shown as four bytes each. The system takes names of 4,095 bytes.
const LONG: usize = 4_000;

/// Returns `front`, [`LONG`] times `part`, and `end`.
fn long_text(alloc: Global, front: &str, part: &str, end: &str) -> Result<String, AllocError> {
    let mut text = String::from_str(alloc, front)?;
    for _ in 0..LONG {
        text.push_str(part)?;
    }
    text.push_str(end)?;
    Ok(text)
}

#[test]
fn a_long_name_is_shown_whole(rt: HostRuntime) -> Result<(), AllocError> {
    let name = long_text(rt.alloc(), "/nowhere/", "\x1b", "")?;
    let end = ": No such file or directory (os error 2)\n";
    let reason = long_text(rt.alloc(), "heapmark: /nowhere/", "\\x1b", end)?;
    let refusal = "heapmark: refused 19 ReadFault\n";
    let words = ["heapmark", name.as_str()];
    let told = refused_with_reason(&rt, &words, refusal, reason.as_str());
    assert_eq!(rt; told, Outcome::right(1));
    Ok(())
}
