//! The names of classes in a report.

use crate::graphs::graph_of;
use drain::{NoGate, Options, mark};
use heap_graph::{Graph, Skip};
use histogram::{Report, append_unnamed, rows};
use hprof_grammar::Team;
use std::alloc::Global;
use std::sync::Wait;
use std::thread::Threads;
use test_dumps::{Bytes, Record, Sub};

/// A class and an instance of it, which is a root.
const HEAP: Record = Record::Heap(&[
    Sub::Class(0x100, 0, &[]),
    Sub::Instance(0x201, 0x100, &[]),
    Sub::Root(0x201),
]);

/// Tests whether the row of the class shows the name `want`.
fn is_shown_in(report: &Report<Global>, want: &str) -> bool {
    for line in &report.rows {
        if line.class == 0x100 {
            return line.name.as_slice() == want.as_bytes();
        }
    }
    false
}

/// Tests whether the row of the class in the histogram of `graph` shows the name `want`.
fn is_shown_in_rows<T: Threads + Wait + Sync>(
    rt: &T,
    alloc: Global,
    graph: &Graph<'_, Global>,
    want: &str,
) -> bool {
    let Ok(options) = Options::new(1, 2, 4, 0) else {
        return false;
    };
    let Ok(marks) = mark(rt, alloc, graph, &options, &NoGate) else {
        return false;
    };
    match rows(&Team::new(rt, 2), alloc, graph, &marks) {
        Ok(report) => is_shown_in(&report, want),
        Err(_) => false,
    }
}

/// Tests whether the row of the class in the dump `bytes` shows the name `want`.
fn is_shown_of<T: Threads + Wait + Sync>(rt: &T, alloc: Global, bytes: &[u8], want: &str) -> bool {
    let skip = Skip::none(alloc);
    let Some(graph) = graph_of(rt, alloc, bytes, &skip) else {
        return false;
    };
    let is_shown = is_shown_in_rows(rt, alloc, &graph, want);
    drop(graph);
    is_shown
}

/// Tests whether the name `text` of a class is shown as `want`.
fn is_shown<T: Threads + Wait + Sync>(
    rt: &T,
    alloc: Global,
    text: &'static [u8],
    want: &str,
) -> bool {
    let records = [Record::Text(1, text), Record::Load(0x100, 1), HEAP];
    match Bytes::dump(alloc, 4, &records) {
        Ok(dump) => is_shown_of(rt, alloc, dump.bytes.as_slice(), want),
        Err(_) => false,
    }
}

/// Tests whether a class without a name is shown as `want`.
fn is_unnamed(alloc: Global, class: u64, want: &str) -> bool {
    let mut shown = Vec::new(alloc);
    append_unnamed(&mut shown, class).is_ok() && shown.as_slice() == want.as_bytes()
}

#[test]
fn shows_the_worked_names(rt: HostRuntime) {
    let names: [(&[u8], &str); 5] = [
        (b"A \xc3", "A\\x20\\xc3"),
        (b"[Ljava/lang/Object;", "[Ljava/lang/Object;"),
        (b"!~", "!~"),
        (b"\\\x7f\x00\x0a", "\\x5c\\x7f\\x00\\x0a"),
        (b"", ""),
    ];
    for (text, want) in names {
        assert!(rt; is_shown(&rt, rt.alloc(), text, want), "{want}");
    }
    for (class, want) in [
        (0xab0, "?0xab0"),
        (0, "?0x0"),
        (u64::MAX, "?0xffffffffffffffff"),
    ] {
        assert!(rt; is_unnamed(rt.alloc(), class, want), "{want}");
    }
}
