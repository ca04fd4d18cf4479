//! The process: its exit status and what it prints for the words of a command line, which need not be text.

use super::dumps::{Sample, TWO_OBJECTS_REPORT};
use super::program::{Asked, Outcome, answered_on};
use crate::{Causes, Counted, Dumps, process};
use std::alloc::{AllocError, Global};
use std::env::{Env, FillError};
use std::rt::Files;
use std::sync::Wait;
use std::thread::Threads;

/// The words of a command line. They need not be text.
#[derive(Drop)]
struct Words<'a> {
    words: &'a [&'a [u8]],
}

impl Env for Words<'_> {
    fn arg(&self, i: usize, buf: &mut [u8]) -> Result<usize, FillError> {
        let Some(word) = self.words.get(i) else {
            return Err(FillError::NotPresent);
        };
        let Some(room) = buf.get_mut(..word.len()) else {
            return Err(FillError::TooLong);
        };
        room.copy_from_slice(word);
        Ok(word.len())
    }

    fn var(&self, _name: &str, _buf: &mut [u8]) -> Result<usize, FillError> {
        Err(FillError::NotPresent)
    }

    fn var_at(&self, _i: usize, _buf: &mut [u8]) -> Result<usize, FillError> {
        Err(FillError::NotPresent)
    }
}

/// The message about a word that is not text.
const NO_TEXT: &str = "error: a word of the command line is not UTF-8 text

For more information, try '--help'.
";

/// The refusal of a file that does not exist.
const NOT_READ: &str = "heapmark: refused 19 ReadFault\n";

/// The refusal of a file that does not exist, and the line that follows it at a terminal.
const NOT_THERE: &str = "heapmark: refused 19 ReadFault
heapmark: /nowhere/heapmark.hprof: No such file or directory (os error 2)
";

/// Returns what the process does for `words`, and whether it prints just `report` on the output and just `told` on
/// standard error.
fn answered<T: AllocGlobal + Causes + Dumps + Threads + Wait + Sync>(
    rt: &T,
    words: &[&[u8]],
    is_terminal: bool,
    report: &str,
    told: &str,
) -> Outcome {
    let mut out = Counted::new(Vec::new(rt.alloc()));
    let mut err = Vec::new(rt.alloc());
    let status = process(rt, &Words { words }, &mut out, &mut err, is_terminal);
    Outcome {
        status,
        is_printed: out.into_inner().as_slice() == report.as_bytes(),
        is_told: err.as_slice() == told.as_bytes(),
    }
}

#[test]
fn each_line_has_its_status(rt: HostRuntime) {
    let cases: [(&[&[u8]], bool, u8, &str); 5] = [
        (&[b"heapmark", b"\xff"], false, 2, NO_TEXT),
        (&[b"heapmark", b"a\xc3"], true, 2, NO_TEXT),
        (&[b"\xff", b"/nowhere/heapmark.hprof"], false, 2, NO_TEXT),
        (
            &[b"heapmark", b"/nowhere/heapmark.hprof"],
            false,
            1,
            NOT_READ,
        ),
        (
            &[b"heapmark", b"/nowhere/heapmark.hprof"],
            true,
            1,
            NOT_THERE,
        ),
    ];
    for (words, is_terminal, want, told) in cases {
        let answer = answered(&rt, words, is_terminal, "", told);
        assert_eq!(rt; answer, Outcome::right(want), "{told}");
    }
}

/// Returns the bytes of each of `words`.
fn bytes_of<'a>(alloc: Global, words: &[&'a str]) -> Result<Vec<&'a [u8]>, AllocError> {
    words.iter().map(|word| word.as_bytes()).collect(alloc)
}

/// Like [`answered`], for words that are text.
pub fn processed<T: AllocGlobal + Causes + Dumps + Threads + Wait + Sync>(
    rt: &T,
    words: &[&str],
    is_terminal: bool,
    report: &str,
    told: &str,
) -> Outcome {
    match bytes_of(rt.alloc(), words) {
        Ok(words) => answered(rt, words.as_slice(), is_terminal, report, told),
        Err(_) => Outcome {
            status: u8::MAX,
            is_printed: false,
            is_told: false,
        },
    }
}

/// A command line without the program's name, its status, and all that is printed on the output.
static LINES: [(&str, u8, &str); 7] = [
    ("FILE", 0, TWO_OBJECTS_REPORT),
    ("FILE --workers 0", 2, ""),
    ("FILE --buffer 1", 2, ""),
    ("FILE --buffers 3", 2, ""),
    ("FILE --first-tag x", 2, ""),
    ("FILE --skip A", 1, ""),
    (
        "FILE --workers 1 --buffer 2 --buffers 4 --first-tag 0 --skip A",
        1,
        "",
    ),
];

/// A file is reported, at a terminal or not, and the words after FILE count, too.
#[test]
fn a_line_is_answered_to_its_end(rt: HostRuntime) {
    // The blanks, also the last one, are part of the name.
    let (name, sample) = ("heapmark process .hprof ", Sample::TwoObjects);
    for (line, want, report) in LINES {
        for is_terminal in [false, true] {
            let asked = Asked::Process(is_terminal, report);
            let told = answered_on(&rt, name, sample, line, asked);
            assert_eq!(rt; told, Some(Outcome::right(want)), "{line}, {is_terminal}");
        }
    }
}
