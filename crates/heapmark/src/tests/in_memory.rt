//! The program and the process on a dump in memory, for the words of a command line in memory. Contracts can name these
//! bytes and words.

ghost use Rattle.std.specs.Prelude.{◌≡◌, ◌≢◌, IfOk, map, string_bytes};
ghost use Rattle.command_line.specs.Line.{texts_of};
ghost use Rattle.histogram.specs.Counting.{failures_of};

use super::dumps::{Sample, TWO_OBJECTS_REPORT};
use super::memory::SUPERCLASS_SKIPPED_REPORT;
use super::program::{BAD_TAG, Outcome, answered};
use super::skips::REFERENCES;
use crate::{Causes, CommandWords, Counted, Dumps, process};
use buffer_pool::SpentTag;
use drain::RefusedThread;
use std::alloc::{Alloc, AllocError, Global};
use std::io;
use std::io::{Cursor, Seek};
use std::sync::Wait;
use std::thread::Threads;

/// The name of the only dump.
const NAME: &str = "a.hprof";

/// A runtime without files, with one dump in memory.
#[derive(Drop)]
struct InMemory<'a, T> {
    rt: &'a T,
    bytes: &'a [u8],
}

impl<T: Threads> Threads for InMemory<'_, T> {}

impl<T: Wait> Wait for InMemory<'_, T> {}

impl<T: AllocGlobal> Alloc for InMemory<'_, T> {
    type A = Global;

    fn alloc(&self) -> Global {
        self.rt.alloc()
    }
}

impl<'a, T> Dumps for InMemory<'a, T> {
    ghost use Rattle.std.specs.Prelude.{Some};

    // No other name opens a dump.
    ghost bytes_at = { λ dumps _. Some dumps.bytes.now };

    // True of each dump, so no test shows that a call failed.
    ghost is_unread = { λ _ _. Unit };

    type Dump = Cursor<&'a [u8]>;

    fn open_dump(&self, name: &str) -> io::Result<Counted<Cursor<&'a [u8]>>> {
        if name == NAME {
            Ok(Counted::new(Cursor::new(self.bytes)))
        } else {
            Err(io::Error::from(io::ErrorKind::NotFound))
        }
    }

    fn position(&self, _name: &str, reader: Counted<Cursor<&'a [u8]>>) -> Option<u64>
        ensures { failures_of reader.entry ≢ 0 → Unit }
    {
        reader.into_inner().stream_position().ok()
    }

    fn reopen_dump(&self, name: &str) -> io::Result<Counted<Cursor<&'a [u8]>>> {
        self.open_dump(name)
    }

    fn dump_size(&self, _name: &str) -> io::Result<u64> {
        Ok(self.bytes.len() as u64)
    }
}

impl<T> Causes for InMemory<'_, T> {
    ghost use Rattle.heapmark.specs.Causes.{KnownCauses};

    // True of each cause, so no test shows one.
    ghost causes = { λ _. record { spent_tag = λ _. Unit; refused_thread = Unit } };

    fn tag_is_spent(&self, _token: SpentTag)
        ensures { Unit }
    {}

    fn worker_is_refused(&self, _token: RefusedThread)
        ensures { Unit }
    {}
}

/// A command line in memory.
#[derive(Drop)]
struct KnownWords<'a> {
    words: &'a [&'a str],
    /// The number of words that can be read before an allocation fails.
    readable: usize,
}

impl CommandWords for KnownWords<'_> {
    ghost use Rattle.std.specs.Prelude.{Some};

    ghost words = { λ line. Some (texts_of line.words.now) };

    fn texts(&self, alloc: Global) -> io::Result<Vec<String>> {
        match texts_before(self.words, self.readable, alloc) {
            Ok(texts) => Ok(texts),
            Err(refused) => Err(io::Error::from(refused)),
        }
    }
}

/// Copies `words`. `Err(AllocError)` if there are more than `readable`.
fn texts_before(words: &[&str], readable: usize, alloc: Global) -> Result<Vec<String>, AllocError>
    ensures { IfOk result (λ texts. map string_bytes texts.items ≡ texts_of words.now) }
{
    let mut texts = Vec::new(alloc);
    for word in words {
        if texts.len() == readable {
            return Err(AllocError);
        }
        texts.push(String::from_str(alloc, word)?)?;
    }
    Ok(texts)
}

/// Tests whether the process on `dump` has the exit status `want`, and prints just `report` on the output and just
/// `told` and then `after` on standard error.
fn is_processed<T: AllocGlobal + Threads + Wait + Sync>(
    rt: &T,
    dump: &[u8],
    line: &KnownWords<'_>,
    is_terminal: bool,
    want: u8,
    report: &str,
    told: &str,
    after: &str,
) -> bool {
    let mut out = Counted::new(Vec::new(rt.alloc()));
    let mut err = Vec::new(rt.alloc());
    let rt = InMemory { rt, bytes: dump };
    let status = process(&rt, line, &mut out, &mut err, is_terminal);
    let is_reported = out.into_inner().as_slice() == report.as_bytes();
    let rest = err.as_slice().strip_prefix(told.as_bytes());
    status == want && is_reported && rest == Some(after.as_bytes())
}

/// A dump, the words after the program's name, the exit status, the output, standard error, and what follows on
/// standard error at a terminal.
type Row = (
    Sample,
    &'static [&'static str],
    u8,
    &'static str,
    &'static str,
    &'static str,
);

const BAD_OPTIONS: &str = "heapmark: refused 21 BadOptions\n";

const BAD_SUB_TAG: &str = "heapmark: refused 5 BadSubTag at 45\n";

const OUT_OF_MEMORY: &str = "heapmark: refused 15 OutOfMemory\n";

const READ_FAULT: &str = "heapmark: refused 19 ReadFault\n";

const TAG_SPENT: &str = "heapmark: refused 16 TagSpent\n";

const NO_OTHER: &str = "heapmark: b.hprof: entity not found\n";

const FEW_BUFFERS: &str = "heapmark: --buffers 9: too few for 4 workers: give 10 at least\n";

const FEW_TAGS: &str =
    "heapmark: --first-tag 281474976710655: too few tags are left after it: leave the option out\n";

const UNMET: &str =
    "heapmark: --skip T.other: no class of the dump declares this field of its instances \
(static fields are always followed)\n";

const REFERENT: &str = "java/lang/ref/Reference.referent";

static ROWS: [Row; 7] = [
    (Sample::TwoObjects, &[NAME], 0, TWO_OBJECTS_REPORT, "", ""),
    (Sample::Records(4, BAD_TAG), &[NAME], 1, "", BAD_SUB_TAG, ""),
    (
        Sample::TwoObjects,
        &["b.hprof"],
        1,
        "",
        READ_FAULT,
        NO_OTHER,
    ),
    (
        Sample::TwoObjects,
        &["--buffers", "9", NAME],
        1,
        "",
        BAD_OPTIONS,
        FEW_BUFFERS,
    ),
    (
        Sample::Records(4, REFERENCES),
        &["--skip", REFERENT, NAME],
        0,
        SUPERCLASS_SKIPPED_REPORT,
        "",
        "",
    ),
    (
        Sample::TwoObjects,
        &["--skip", "T.other", NAME],
        0,
        TWO_OBJECTS_REPORT,
        "",
        UNMET,
    ),
    // The entry names no field, but after a refusal there is no line about it.
    (
        Sample::TwoObjects,
        &["--skip", "T.other", NAME, "--first-tag", "281474976710655"],
        1,
        "",
        TAG_SPENT,
        FEW_TAGS,
    ),
];

/// Returns `heapmark` and `words`.
fn line_of(alloc: Global, words: &[&'static str]) -> Result<Vec<&'static str>, AllocError> {
    let mut line = Vec::new(alloc);
    line.push("heapmark")?;
    line.extend_from_slice(words)?;
    Ok(line)
}

/// Tests whether program and process print what `row` says for `line` and `dump`.
fn line_is_printed<T: AllocGlobal + Threads + Wait + Sync>(
    rt: &T,
    dump: &[u8],
    line: &[&str],
    row: &Row,
) -> bool {
    let (_, _, status, report, told, after) = *row;
    let words = KnownWords {
        words: line,
        readable: line.len(),
    };
    answered(&InMemory { rt, bytes: dump }, line, report, told) == Outcome::right(status)
        && is_processed(rt, dump, &words, false, status, report, told, "")
        && is_processed(rt, dump, &words, true, status, report, told, after)
}

/// Tests whether the process is refused with 15 if an allocation fails after `readable` words of `line`.
fn is_starved<T: AllocGlobal + Threads + Wait + Sync>(
    rt: &T,
    dump: &[u8],
    line: &[&str],
    readable: usize,
    is_terminal: bool,
) -> bool {
    let words = KnownWords {
        words: line,
        readable,
    };
    is_processed(rt, dump, &words, is_terminal, 1, "", OUT_OF_MEMORY, "")
}

/// Tests whether the process is refused with 15 if an allocation fails while any word of `line` is read.
fn no_word_is_read<T: AllocGlobal + Threads + Wait + Sync>(
    rt: &T,
    dump: &[u8],
    line: &[&str],
) -> bool {
    for readable in 0..line.len() {
        if !is_starved(rt, dump, line, readable, false)
            || !is_starved(rt, dump, line, readable, true)
        {
            return false;
        }
    }
    true
}

/// Tests the lines of `row` on `dump` by [`line_is_printed`] and [`no_word_is_read`].
fn dump_is_printed<T: AllocGlobal + Threads + Wait + Sync>(rt: &T, dump: &[u8], row: &Row) -> bool {
    match line_of(rt.alloc(), row.1) {
        Ok(line) => {
            let line = line.as_slice();
            line_is_printed(rt, dump, line, row) && no_word_is_read(rt, dump, line)
        }
        Err(_) => false,
    }
}

/// Like [`dump_is_printed`], on the dump of `row`.
fn row_is_printed<T: AllocGlobal + Threads + Wait + Sync>(rt: &T, row: &Row) -> bool {
    match row.0.dump(rt.alloc()) {
        Ok(dump) => dump_is_printed(rt, dump.bytes.as_slice(), row),
        Err(_) => false,
    }
}

#[test]
fn a_dump_in_memory_is_reported_or_refused(rt: HostRuntime) {
    for (number, row) in ROWS.iter().enumerate() {
        assert!(rt; row_is_printed(&rt, row), "row {number}");
    }
}
