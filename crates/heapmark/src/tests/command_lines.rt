//! Command lines that the program takes or refuses, and what it prints for each.

use super::dumps::{
    NINE_ROOTS_REPORT, NOTHING_REPORT, SEVEN_ROOTS_REPORT, Sample, TWO_OBJECTS_REPORT,
    WIDE_ARRAY_REPORT,
};
use super::program::{Asked, Broken, Outcome, answered, answered_on, answered_unheard};
use super::texts::{
    ALMOST_AN_OPTION, ANOTHER_WORD, BUFFER_1, BUFFER_4097, BUFFERS_3, BUFFERS_65535, HELP,
    HEXADECIMAL_TAG, NO_FILE, NO_FILE_BUT_WORKERS, NO_VALUE, SKIP_TWICE, TAG_AFTER_THE_LAST,
    UNKNOWN_OPTION, VERSION, WORKERS_0, WORKERS_65, WORKERS_TWICE,
};
use crate::{Causes, Counted, Dumps, program};
use std::env::Env;
use std::process::Abort;
use std::rt::Files;
use std::sync::Wait;
use std::thread::Threads;

/// A command line without the program's name, in which FILE stands for a dump; its status, and the whole text on
/// standard error.
type Line = (&'static str, u8, &'static str);

const BAD_OPTIONS: &str = "heapmark: refused 21 BadOptions\n";

const TAG_SPENT: &str = "heapmark: refused 16 TagSpent\n";

/// Options for a dump without objects.
const OPTIONS: &[Line] = &[
    ("--workers 64 --buffers 130 FILE", 0, ""),
    ("--workers 64 --buffers 129 FILE", 1, BAD_OPTIONS),
    ("FILE --workers 4 --buffers 9", 1, BAD_OPTIONS),
    ("--workers 4 --buffers 9 /nowhere/a.hprof", 1, BAD_OPTIONS),
    (
        "FILE --workers=1 --buffer=2 --buffers=4 --first-tag=0",
        0,
        "",
    ),
    ("FILE --buffer 4096 --buffers 65534", 0, ""),
    ("FILE --workers 0", 2, WORKERS_0),
    ("FILE --workers 65", 2, WORKERS_65),
    ("FILE --buffer 1", 2, BUFFER_1),
    ("FILE --buffer 4097", 2, BUFFER_4097),
    ("FILE --buffers 3", 2, BUFFERS_3),
    ("FILE --buffers 65535", 2, BUFFERS_65535),
    ("FILE --first-tag 281474976710656", 2, TAG_AFTER_THE_LAST),
    ("FILE --first-tag 0x10", 2, HEXADECIMAL_TAG),
    ("", 2, NO_FILE),
    ("--workers 2", 2, NO_FILE_BUT_WORKERS),
    ("FILE --workers", 2, NO_VALUE),
    ("a b", 2, ANOTHER_WORD),
    ("--treads 2 a", 2, UNKNOWN_OPTION),
    ("--worker 2 a", 2, ALMOST_AN_OPTION),
    ("a --workers 1 --workers 2", 2, WORKERS_TWICE),
    ("a --skip a.b --skip c.d", 2, SKIP_TWICE),
];

/// For a dump without objects: for each number of workers, the highest first tag that leaves enough tags, and the next
/// tag, which leaves too few. The leader and each worker make four exchanges of one head.
const TAGS_OF_NOTHING: &[Line] = &[
    ("FILE --workers 1 --first-tag 281474976710647", 0, ""),
    ("FILE --workers 1 --first-tag 281474976710648", 1, TAG_SPENT),
    ("FILE --workers 2 --first-tag 281474976710643", 0, ""),
    ("FILE --workers 2 --first-tag 281474976710644", 1, TAG_SPENT),
    (
        "FILE --workers 64 --buffers 130 --first-tag 281474976710395",
        0,
        "",
    ),
    (
        "FILE --workers 64 --buffers 130 --first-tag 281474976710396",
        1,
        TAG_SPENT,
    ),
];

/// The first tag is the last one: the first exchange needs one more.
const LAST_TAG: &[Line] = &[("FILE --first-tag 281474976710655", 1, TAG_SPENT)];

/// The least buffers for one worker.
const LEAST_BUFFERS: &[Line] = &[("FILE --workers 1 --buffer 2 --buffers 4", 0, "")];

/// For an array of 64 objects: the default buffers, few or small buffers, and for one worker the highest first tags
/// that leave enough tags. The head of the empty stack changes 72 times with 128 buffers of 2 objects, 20 times with 8
/// of 64, and 12 times with 4 of 2. So these tags show that a run uses the numbers of its command line.
const BUFFERS_OF_AN_ARRAY: &[Line] = &[
    ("FILE --workers 1", 0, ""),
    ("FILE --workers 2", 0, ""),
    ("FILE --workers 64", 0, ""),
    ("FILE --workers 1 --buffer 2 --buffers 4", 0, ""),
    ("FILE --workers 64 --buffer 2", 0, ""),
    (
        "FILE --workers 1 --buffer 2 --buffers 128 --first-tag 281474976710583",
        0,
        "",
    ),
    (
        "FILE --workers 1 --buffer 2 --buffers 128 --first-tag 281474976710584",
        1,
        TAG_SPENT,
    ),
    (
        "FILE --workers 1 --buffer 64 --buffers 8 --first-tag 281474976710635",
        0,
        "",
    ),
    (
        "FILE --workers 1 --buffer 64 --buffers 8 --first-tag 281474976710636",
        1,
        TAG_SPENT,
    ),
    (
        "FILE --workers 1 --buffer 2 --buffers 4 --first-tag 281474976710643",
        0,
        "",
    ),
    (
        "FILE --workers 1 --buffer 2 --buffers 4 --first-tag 281474976710644",
        1,
        TAG_SPENT,
    ),
];

/// The name of a file, the dump in it, the dump's report, and the command lines that are tried on the file.
type Tried = (&'static str, Sample, &'static str, &'static [Line]);

static LINES: [Tried; 6] = [
    (
        "heapmark_nothing.hprof",
        Sample::Nothing,
        NOTHING_REPORT,
        OPTIONS,
    ),
    (
        "heapmark_tags.hprof",
        Sample::Nothing,
        NOTHING_REPORT,
        TAGS_OF_NOTHING,
    ),
    (
        "heapmark_last_tag.hprof",
        Sample::TwoObjects,
        TWO_OBJECTS_REPORT,
        LAST_TAG,
    ),
    (
        "heapmark_seven_roots.hprof",
        Sample::Roots(7),
        SEVEN_ROOTS_REPORT,
        LEAST_BUFFERS,
    ),
    (
        "heapmark_nine_roots.hprof",
        Sample::Roots(9),
        NINE_ROOTS_REPORT,
        LEAST_BUFFERS,
    ),
    (
        "heapmark_wide_array.hprof",
        Sample::WideArray,
        WIDE_ARRAY_REPORT,
        BUFFERS_OF_AN_ARRAY,
    ),
];

/// Tests whether the program has the status of `line` on a file of `sample`, also if standard error fails, and whether
/// it prints just the text of `line` on standard error, and on the output `report` at status 0, otherwise nothing.
fn line_is_answered<
    T: AllocGlobal + Causes + Dumps<Dump = T::File> + Env + Files + Threads + Wait + Sync,
>(rt: &T, name: &str, sample: Sample, report: &str, line: &Line) -> bool {
    let (words, want, told) = *line;
    let report = if want == 0 { report } else { "" };
    let right = Some(Outcome::right(want));
    answered_on(rt, name, sample, words, Asked::Both(report, told)) == right
        && answered_on(rt, name, sample, words, Asked::Unheard) == right
}

/// Checks the command lines of a file by [`line_is_answered`].
fn file_is_answered<
    T: Abort + AllocGlobal + Causes + Dumps<Dump = T::File> + Env + Files + Threads + Wait + Sync,
>(rt: &T, tried: &Tried) {
    let (name, sample, report, lines) = *tried;
    for line in lines {
        let right = line_is_answered(rt, name, sample, report, line);
        assert!(rt; right, "{}: {}", line.0, line.2);
    }
}

/// Checks the command lines of all `files`.
fn files_are_answered<
    T: Abort + AllocGlobal + Causes + Dumps<Dump = T::File> + Env + Files + Threads + Wait + Sync,
>(rt: &T, files: &[Tried]) {
    for tried in files {
        file_is_answered(rt, tried);
    }
}

#[test]
fn lines_are_answered(rt: HostRuntime) {
    files_are_answered(&rt, &LINES);
}

/// A command line without any word, even without the program's own name.
#[test]
fn no_words_are_told(rt: HostRuntime) {
    assert_eq!(rt; answered(&rt, &[], "", NO_FILE), Outcome::right(2));
    assert_eq!(rt; answered_unheard(&rt, &[]), 2);
}

/// Words for which the program prints a text, and that text.
static TEXTS: [(&str, &str); 4] = [
    ("--help", HELP),
    ("-h", HELP),
    ("--version", VERSION),
    ("-V", VERSION),
];

/// Returns the status for `word` if both streams fail, and the number of failures of the output.
fn asked_in_vain<T: AllocGlobal + Causes + Dumps + Threads + Wait + Sync>(
    rt: &T,
    word: &str,
) -> (u8, u64) {
    let mut out = Counted::new(Broken);
    let status = program(rt, &["heapmark", word], &mut out, &mut Broken);
    (status, out.failures())
}

/// Tests whether `word` alone prints just `text`, on the output, at status 0, which it has also if both streams fail.
fn is_printed<T: AllocGlobal + Causes + Dumps + Threads + Wait + Sync>(
    rt: &T,
    word: &str,
    text: &str,
) -> bool {
    answered(rt, &["heapmark", word], text, "") == Outcome::right(0)
        && asked_in_vain(rt, word) == (0, 1)
}

#[test]
fn help_and_version_are_printed_on_the_output(rt: HostRuntime) {
    for (word, text) in TEXTS {
        assert!(rt; is_printed(&rt, word, text), "{word}");
    }
}
