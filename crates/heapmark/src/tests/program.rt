//! What the program prints, and its exit status.

use super::dumps::Record::Heap;
use super::dumps::Sub::Raw;
use super::dumps::{Record, Sample, TWO_OBJECTS_REPORT};
use super::process::processed;
use crate::command::program_at_terminal;
use crate::{Causes, Counted, Dumps, program};
use std::alloc::{AllocError, Global};
use std::env::Env;
use std::io::{ErrorKind, Write};
use std::path::{Path, PathBuf};
use std::process::Abort;
use std::rt::Files;
use std::sync::Wait;
use std::thread::Threads;
use std::{env, fs, io};

/// A writer whose every call fails.
#[derive(Drop)]
pub struct Broken;

impl Write for Broken {
    fn write(&mut self, _buf: &[u8]) -> io::Result<usize> {
        Err(io::Error::from(ErrorKind::BrokenPipe))
    }

    fn flush(&mut self) -> io::Result<()> {
        Err(io::Error::from(ErrorKind::BrokenPipe))
    }
}

/// A root, and after it a byte that is no tag of a sub-record.
pub const BAD_TAG: &[Record] = &[Heap(&[Raw(&[0xff, 0, 0, 0, 0, 0x7a])])];

/// Makes a file of `bytes` in the temporary folder.
pub fn file_of<T: AllocGlobal + Env + Files>(
    rt: &T,
    name: &str,
    bytes: &[u8],
) -> io::Result<PathBuf> {
    let path = env::temp_dir(rt)?.join(rt.alloc(), name)?;
    fs::write(rt, path.as_path(), bytes)?;
    Ok(path)
}

/// Returns `word`, or `file` for the word FILE.
fn word_of<'a>(word: &'a str, file: &'a str) -> &'a str {
    if word == "FILE" { file } else { word }
}

/// Returns `heapmark` and the words of `line`, with `file` in place of the word FILE.
fn words_of<'a>(alloc: Global, line: &'a str, file: &'a str) -> Result<Vec<&'a str>, AllocError> {
    let mut words = Vec::new(alloc);
    words.push("heapmark")?;
    for word in line.split_whitespace() {
        words.push(word_of(word, file))?;
    }
    Ok(words)
}

/// Where the program or the process prints, and what is tested of its output and standard error.
#[derive(Clone, Copy)]
pub enum Asked<'a> {
    /// Tests whether the output is the first text, and standard error the second.
    Both(&'a str, &'a str),
    /// At a terminal: tests whether the output is empty, and whether standard error begins with the first text and ends
    /// with the second.
    People(&'a str, &'a str),
    /// The output fails: tests whether standard error is this text.
    Unwritten(&'a str),
    /// Standard error fails: tests nothing but the status.
    Unheard,
    /// The process, at a terminal or not: tests whether the output is this text.
    Process(bool, &'a str),
    /// The process, at a terminal or not: tests whether the output is the first text, and standard error the second.
    Whole(bool, &'a str, &'a str),
}

/// What the program or the process did.
#[derive(Clone, Copy, Debug, PartialEq)]
pub struct Outcome {
    /// The exit status.
    pub status: u8,
    /// Whether the output is what it should be.
    pub is_printed: bool,
    /// Whether standard error is what it should be.
    pub is_told: bool,
}

impl Outcome {
    /// Returns that the status is `status`, and both streams are what they should be.
    pub fn right(status: u8) -> Self {
        Outcome {
            status,
            is_printed: true,
            is_told: true,
        }
    }
}

/// Returns what the program does for `words`, and whether output and standard error are as `asked` says. What `asked`
/// does not test counts as right.
fn told<T: AllocGlobal + Causes + Dumps<Dump = T::File> + Files + Threads + Wait + Sync>(
    rt: &T,
    words: &[&str],
    asked: Asked<'_>,
) -> Outcome {
    match asked {
        Asked::Both(report, refusal) => answered(rt, words, report, refusal),
        Asked::People(begins, ends) => answered_to_people(rt, words, begins, ends),
        Asked::Unwritten(refusal) => answered_unwritten(rt, words, refusal),
        Asked::Unheard => Outcome::right(answered_unheard(rt, words)),
        Asked::Process(is_terminal, report) => Outcome {
            is_told: true,
            ..processed(rt, words, is_terminal, report, "")
        },
        Asked::Whole(is_terminal, report, lines) => processed(
            rt,
            words,
            is_terminal,
            report,
            lines,
        ),
    }
}

/// Like [`told`], for the words of `line`, with the file at `path` in place of FILE.
fn told_at<T: AllocGlobal + Causes + Dumps<Dump = T::File> + Files + Threads + Wait + Sync>(
    rt: &T,
    path: Path<'_>,
    line: &str,
    asked: Asked<'_>,
) -> Option<Outcome> {
    let file = path.to_str()?;
    match words_of(rt.alloc(), line, file) {
        Ok(words) => Some(told(rt, words.as_slice(), asked)),
        Err(_) => None,
    }
}

/// Like [`told`], for the words of `line`, with a file of `bytes` in place of FILE.
pub fn told_on<
    T: AllocGlobal + Causes + Dumps<Dump = T::File> + Env + Files + Threads + Wait + Sync,
>(rt: &T, name: &str, bytes: &[u8], line: &str, asked: Asked<'_>) -> Option<Outcome> {
    let Ok(path) = file_of(rt, name, bytes) else {
        return None;
    };
    let told = told_at(rt, path.as_path(), line, asked);
    match fs::remove_file(rt, path.as_path()) {
        Ok(()) => told,
        Err(_) => None,
    }
}

/// Like [`told`], for the words of `line`, with a file of `sample` in place of FILE.
pub fn answered_on<
    T: AllocGlobal + Causes + Dumps<Dump = T::File> + Env + Files + Threads + Wait + Sync,
>(rt: &T, name: &str, sample: Sample, line: &str, asked: Asked<'_>) -> Option<Outcome> {
    match sample.dump(rt.alloc()) {
        Ok(dump) => told_on(rt, name, dump.bytes.as_slice(), line, asked),
        Err(_) => None,
    }
}

/// Returns what the program does for `words`, and whether it prints just `report` on the output and just `refusal` on
/// standard error.
pub fn answered<T: AllocGlobal + Causes + Dumps + Threads + Wait + Sync>(
    rt: &T,
    words: &[&str],
    report: &str,
    refusal: &str,
) -> Outcome {
    let mut out = Counted::new(Vec::new(rt.alloc()));
    let mut err = Vec::new(rt.alloc());
    let status = program(rt, words, &mut out, &mut err);
    Outcome {
        status,
        is_printed: out.into_inner().as_slice() == report.as_bytes(),
        is_told: err.as_slice() == refusal.as_bytes(),
    }
}

/// Returns the status of the program for `words` at a terminal, whether it prints nothing on the output, and what it
/// prints on standard error.
fn printed_for_people<T: AllocGlobal + Causes + Dumps + Threads + Wait + Sync>(
    rt: &T,
    words: &[&str],
) -> (u8, bool, Vec<u8>) {
    let mut out = Counted::new(Vec::new(rt.alloc()));
    let mut err = Vec::new(rt.alloc());
    let status = program_at_terminal(rt, words, &mut out, &mut err);
    (status, out.into_inner().is_empty(), err)
}

/// Returns what the program does for `words` at a terminal, whether it prints nothing on the output, and whether what
/// it prints on standard error begins with `begins` and ends with `ends`.
fn answered_to_people<T: AllocGlobal + Causes + Dumps + Threads + Wait + Sync>(
    rt: &T,
    words: &[&str],
    begins: &str,
    ends: &str,
) -> Outcome {
    let (status, is_printed, err) = printed_for_people(rt, words);
    let told = err.as_slice();
    Outcome {
        status,
        is_printed,
        is_told: told.starts_with(begins.as_bytes()) && told.ends_with(ends.as_bytes()),
    }
}

/// Returns what the program does for `words` at a terminal, whether it prints nothing on the output, and whether it
/// prints just the lines `refusal` and `reason` on standard error.
pub fn refused_with_reason<T: AllocGlobal + Causes + Dumps + Threads + Wait + Sync>(
    rt: &T,
    words: &[&str],
    refusal: &str,
    reason: &str,
) -> Outcome {
    let (status, is_printed, err) = printed_for_people(rt, words);
    let told = err.as_slice();
    let is_told = match told.get(refusal.len()..) {
        Some(rest) => told.starts_with(refusal.as_bytes()) && rest == reason.as_bytes(),
        None => false,
    };
    Outcome {
        status,
        is_printed,
        is_told,
    }
}

#[test]
fn a_file_is_reported_or_refused(rt: HostRuntime) {
    let bad_tag = "heapmark: refused 5 BadSubTag at 45\n";
    let files = [
        (Sample::TwoObjects, 0, TWO_OBJECTS_REPORT, ""),
        (Sample::Records(4, BAD_TAG), 1, "", bad_tag),
    ];
    for (sample, status, report, refusal) in files {
        let asked = Asked::Both(report, refusal);
        let told = answered_on(&rt, "heapmark_one_file.hprof", sample, "FILE", asked);
        assert_eq!(rt; told, Some(Outcome::right(status)), "{report}{refusal}");
    }
}

/// Returns what the program does for `words` if the output fails, and whether it prints just `refusal` on standard
/// error.
fn answered_unwritten<T: AllocGlobal + Causes + Dumps + Threads + Wait + Sync>(
    rt: &T,
    words: &[&str],
    refusal: &str,
) -> Outcome {
    let mut out = Counted::new(Broken);
    let mut err = Vec::new(rt.alloc());
    let status = program(rt, words, &mut out, &mut err);
    Outcome {
        status,
        is_printed: true,
        is_told: err.as_slice() == refusal.as_bytes(),
    }
}

/// Returns the status for `words` if standard error fails.
pub fn answered_unheard<T: AllocGlobal + Causes + Dumps + Threads + Wait + Sync>(
    rt: &T,
    words: &[&str],
) -> u8 {
    let mut out = Counted::new(Vec::new(rt.alloc()));
    program(rt, words, &mut out, &mut Broken)
}

#[test]
fn a_report_that_is_not_written_is_refused(rt: HostRuntime) {
    let (name, sample) = ("heapmark_not_written.hprof", Sample::TwoObjects);
    let asked = Asked::Unwritten("heapmark: refused 20 WriteFault\n");
    let told = answered_on(&rt, name, sample, "FILE", asked);
    assert_eq!(rt; told, Some(Outcome::right(1)));
}

#[test]
fn a_file_that_is_not_there_is_refused(rt: HostRuntime) {
    let not_there = "heapmark: /nowhere/heapmark.hprof: No such file or directory (os error 2)\n";
    is_not_opened(&rt, "/nowhere/heapmark.hprof", not_there);
    is_not_opened(&rt, "/", "heapmark: /: is a directory\n");
}

/// Checks that `file` is refused in one line, and that at a terminal a second line says why.
fn is_not_opened<
    T: Abort + AllocGlobal + Causes + Dumps<Dump = T::File> + Files + Threads + Wait + Sync,
>(rt: &T, file: &str, reason: &str) {
    let refusal = "heapmark: refused 19 ReadFault\n";
    let words = ["heapmark", file];
    assert_eq!(rt;
        answered(rt, &words, "", refusal),
        Outcome::right(1),
        "{file}"
    );
    let told = refused_with_reason(rt, &words, refusal, reason);
    assert_eq!(rt; told, Outcome::right(1), "{file}");
}
