//! The process on two files in memory, for the words of a command line in memory.

ghost use Rattle.std.specs.Prelude.{◌≡◌, ◌≢◌, IfOk, map, string_bytes};
ghost use Rattle.histogram.specs.Counting.{failures_of};
ghost use Rattle.retained_line.specs.Line.{texts_of};

use crate::process;
use front_end::{CommandWords, Dumps};
use histogram::Counted;
use std::alloc::{Alloc, AllocError, Global};
use std::io;
use std::io::{Cursor, Seek};
use std::thread::Threads;
use test_dumps::Sub::{Class, Instance, Root};
use test_dumps::{Bytes, Record};

/// The name of the file that has the dump.
const DUMP: &str = "a.hprof";

/// The name of the file that has the labels.
const LABELS: &str = "a.labels";

/// A root with two fields that refer to two other instances of its class.
const THREE_OBJECTS: &[Record] = &[
    Record::Text(1, b"A"),
    Record::Load(0x100, 1),
    Record::Heap(&[
        Class(0x100, 0, &[2, 2]),
        Instance(0x201, 0x100, &[0, 0, 2, 2, 0, 0, 2, 3]),
        Instance(0x202, 0x100, &[0; 8]),
        Instance(0x203, 0x100, &[0; 8]),
        Root(0x201),
    ]),
];

/// A runtime without files, with a dump and a text of labels in memory.
#[derive(Drop)]
struct InMemory<'a, T> {
    rt: &'a T,
    dump: &'a [u8],
    labels: &'a [u8],
}

impl<T: Threads> Threads for InMemory<'_, T> {}

impl<T: AllocGlobal> Alloc for InMemory<'_, T> {
    type A = Global;

    fn alloc(&self) -> Global {
        self.rt.alloc()
    }
}

impl<'a, T> Dumps for InMemory<'a, T> {
    ghost use Rattle.std.specs.Prelude.{None};

    // A contract knows no bytes here: two names have different ones.
    ghost bytes_at = { λ _ _. None };

    ghost is_unread = { λ _ _. Unit };

    type Dump = Cursor<&'a [u8]>;

    fn open_dump(&self, name: &str) -> io::Result<Counted<Cursor<&'a [u8]>>> {
        match name {
            DUMP => Ok(Counted::new(Cursor::new(self.dump))),
            LABELS => Ok(Counted::new(Cursor::new(self.labels))),
            _ => Err(io::Error::from(io::ErrorKind::NotFound)),
        }
    }

    fn position(&self, _name: &str, reader: Counted<Cursor<&'a [u8]>>) -> Option<u64>
        ensures { failures_of reader.entry ≢ 0 → Unit }
    {
        reader.into_inner().stream_position().ok()
    }

    fn reopen_dump(&self, name: &str) -> io::Result<Counted<Cursor<&'a [u8]>>> {
        self.open_dump(name)
    }

    fn dump_size(&self, _name: &str) -> io::Result<u64> {
        Ok(self.dump.len() as u64)
    }
}

/// A command line in memory.
#[derive(Drop)]
struct KnownWords<'a> {
    words: &'a [&'a str],
}

impl CommandWords for KnownWords<'_> {
    ghost use Rattle.std.specs.Prelude.{Some};

    ghost words = { λ line. Some (texts_of line.words.now) };

    fn texts(&self, alloc: Global) -> io::Result<Vec<String>> {
        match copied(self.words, alloc) {
            Ok(texts) => Ok(texts),
            Err(refused) => Err(io::Error::from(refused)),
        }
    }
}

/// Copies `words`. `Err(AllocError)` if an allocation fails.
fn copied(words: &[&str], alloc: Global) -> Result<Vec<String>, AllocError>
    ensures { IfOk result (λ texts. map string_bytes texts.items ≡ texts_of words.now) }
{
    let mut texts = Vec::new(alloc);
    for word in words {
        texts.push(String::from_str(alloc, word)?)?;
    }
    Ok(texts)
}

/// A command line on a text of labels: the exit status, the output, standard error, and what follows there at a
/// terminal.
struct Row {
    words: &'static [&'static str],
    labels: &'static str,
    status: u8,
    table: &'static str,
    told: &'static str,
    after: &'static str,
}

static ROWS: [Row; 6] = [
    Row {
        words: &["retained", DUMP, LABELS],
        labels: "label 0 class 256 1\n",
        status: 0,
        table: "         2              16   8  -  A
         1               8   8  0  A
         1               0   0  -  <class>
",
        told: "",
        after: "",
    },
    Row {
        words: &["retained", DUMP, LABELS],
        labels: "label 0 class 256 1\nlabel\n",
        status: 1,
        table: "",
        told: "retained: refused 21 BadOptions\n",
        after: "retained: a.labels: line 2 is none of `label L PLACE`, `cut PLACE` and `root ID`: \
see `retained --help`\n",
    },
    Row {
        words: &["retained", LABELS, LABELS],
        labels: "",
        status: 1,
        table: "",
        told: "retained: refused 1 BadHeader at 0\n",
        after: "",
    },
    Row {
        words: &["retained", DUMP, "b.labels"],
        labels: "",
        status: 1,
        table: "",
        told: "retained: refused 19 ReadFault\n",
        after: "retained: b.labels: entity not found\n",
    },
    Row {
        words: &["retained", "b.hprof", LABELS],
        labels: "",
        status: 1,
        table: "",
        told: "retained: refused 19 ReadFault\n",
        after: "retained: b.hprof: entity not found\n",
    },
    // The text of clap follows on standard error, and is not compared.
    Row {
        words: &["retained", DUMP],
        labels: "",
        status: 2,
        table: "",
        told: "error: ",
        after: "",
    },
];

/// Tests whether the process does on `dump` what `row` says.
fn is_processed<T: AllocGlobal + Threads + Sync>(
    rt: &T,
    dump: &[u8],
    row: &Row,
    is_terminal: bool,
) -> bool {
    let mut out = Counted::new(Vec::new(rt.alloc()));
    let mut err = Vec::new(rt.alloc());
    let files = InMemory {
        rt,
        dump,
        labels: row.labels.as_bytes(),
    };
    let line = KnownWords { words: row.words };
    let status = process(&files, &line, &mut out, &mut err, is_terminal);
    let is_written = out.into_inner().as_slice() == row.table.as_bytes();
    let after = if is_terminal { row.after } else { "" };
    let is_told = match err.as_slice().strip_prefix(row.told.as_bytes()) {
        Some(rest) => row.status == 2 || rest == after.as_bytes(),
        None => false,
    };
    status == row.status && is_written && is_told
}

/// Tests whether the process does on the dump of three objects what `row` says.
fn is_right<T: AllocGlobal + Threads + Sync>(rt: &T, row: &Row) -> bool {
    match Bytes::dump(rt.alloc(), 4, THREE_OBJECTS) {
        Ok(dump) => {
            let dump = dump.bytes.as_slice();
            is_processed(rt, dump, row, false) && is_processed(rt, dump, row, true)
        }
        Err(_) => false,
    }
}

#[test]
fn two_files_in_memory_have_a_table_or_a_refusal(rt: HostRuntime) {
    for (number, row) in ROWS.iter().enumerate() {
        assert!(rt; is_right(&rt, row), "row {number}");
    }
}
