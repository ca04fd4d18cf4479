//! Worked tables.

use retention::{Counted, Fault, run};
use std::alloc::{AllocError, Allocator, Global};
use std::test::Fail;
use std::thread::Threads;
use test_dumps::Sub::{Class, Instance, Root};
use test_dumps::{Bytes, Record};

/// Five instances of a class with two fields, with the identifiers 513 to 517. The first, a root, refers to the next
/// two, both of which refer to the fourth. The fourth and the fifth refer to each other.
pub const DIAMOND: &[Record] = &[
    Record::Text(1, b"A"),
    Record::Load(0x100, 1),
    Record::Heap(&[
        Class(0x100, 0, &[2, 2]),
        Instance(0x201, 0x100, &[0, 0, 2, 2, 0, 0, 2, 3]),
        Instance(0x202, 0x100, &[0, 0, 2, 4, 0, 0, 0, 0]),
        Instance(0x203, 0x100, &[0, 0, 2, 4, 0, 0, 0, 0]),
        Instance(0x204, 0x100, &[0, 0, 2, 5, 0, 0, 0, 0]),
        Instance(0x205, 0x100, &[0, 0, 2, 4, 0, 0, 0, 0]),
        Root(0x201),
    ]),
];

/// A list of labels, and the table of `DIAMOND` with it.
pub struct Row {
    name: &'static str,
    pub labels: &'static str,
    pub table: &'static str,
}

/// All objects without a label.
const NO_LABEL: &str = "         5              40   8  -  A
         1               0   0  -  <class>
";

pub static ROWS: [Row; 9] = [
    Row {
        name: "no label",
        labels: "",
        table: NO_LABEL,
    },
    Row {
        name: "places that the dump does not have",
        labels: "label 0 class 999 1
label 1 object 513 9
label 2 root 5
label 3 object 0 1
root 999
cut object 999 0
",
        table: NO_LABEL,
    },
    Row {
        name: "two paths with one label in common",
        labels: "label 0 object 514 1
label 0 object 515 1
label 1 object 513 1
",
        table: "         2              16   8  -  A
         2              16   8  0  A
         1               8   8  1  A
         1               0   0  -  <class>
",
    },
    Row {
        name: "a cycle that only one label enters",
        labels: "label 0 object 514 1
label 0 object 515 1
",
        table: "         3              24   8  -  A
         2              16   8  0  A
         1               0   0  -  <class>
",
    },
    Row {
        name: "a label on a root",
        labels: "label 3 root 0
",
        table: "         5              40   8  3  A
         1               0   0  3  <class>
",
    },
    Row {
        name: "another root, so that the cycle is reachable late and without the label",
        labels: "root 517
label 0 object 514 1
label 0 object 515 1
",
        table: NO_LABEL,
    },
    Row {
        name: "places that are not followed",
        labels: "cut object 514 1
cut class 256 2
",
        table: "         2              16   8  -  A
         1               0   0  -  <class>
",
    },
    Row {
        name: "a field of all instances",
        labels: "label 0 class 256 1
",
        table: "         3              24   8  0  A
         2              16   8  -  A
         1               0   0  -  <class>
",
    },
    Row {
        name: "the class of all instances",
        labels: "label 0 class 256 0
",
        table: "         5              40   8  -  A
         1               0   0  0  <class>
",
    },
];

/// Returns the table of the dump `bytes` with `labels`, or why there is none.
fn table_of<T: Threads + Sync>(
    rt: &T,
    alloc: Global,
    bytes: &[u8],
    labels: &str,
) -> Result<Vec<u8>, Fault> {
    let mut reader = Counted::new(bytes);
    let mut writer = Counted::new(Vec::new(alloc));
    match run(rt, alloc, labels.as_bytes(), &mut reader, &mut writer) {
        Ok(()) => Ok(writer.into_inner()),
        Err(fault) => Err(fault),
    }
}

/// Tests whether the table of `DIAMOND` with `labels` is `table`.
fn is_table<T: Threads + Sync>(
    rt: &T,
    alloc: Global,
    labels: &str,
    table: &str,
) -> Result<bool, AllocError> {
    let file = Bytes::dump(alloc, 4, DIAMOND)?;
    match table_of(rt, alloc, &file.bytes, labels) {
        Ok(written) => Ok(written.as_slice() == table.as_bytes()),
        Err(_) => Ok(false),
    }
}

#[test]
fn worked_tables(rt: HostRuntime) -> Result<(), Fail> {
    for row in &ROWS {
        let right = is_table(&rt, rt.alloc(), row.labels, row.table)?;
        assert!(rt; right, "{}", row.name);
    }
    Ok(())
}

/// The same two labels in two orders: the fourth object and the fifth have both.
const BOTH: &str = "label 0 object 513 1
label 1 object 514 1
label 1 object 513 2
label 0 object 515 1
";

/// Tests whether the table of `DIAMOND` with `BOTH` shows the set of both labels as `number`. Any number above the
/// labels may stand for it.
fn is_both<T: Threads + Sync>(rt: &T, alloc: Global, number: u32) -> Result<bool, AllocError> {
    let Ok(table) = format!(in alloc;
        "set {number} = 0 + 1
         2              16   8  {number}  A
         1               8   8  -  A
         1               8   8  0  A
         1               8   8  1  A
         1               0   0  -  <class>
"
    ) else {
        return Err(AllocError);
    };
    is_table(rt, alloc, BOTH, &table)
}

#[test]
fn a_set_of_two_labels(rt: HostRuntime) -> Result<(), Fail> {
    let mut found = false;
    for number in 2..64 {
        found = found || is_both(&rt, rt.alloc(), number)?;
    }
    assert!(rt; found);
    Ok(())
}

/// Returns why `DIAMOND` has no table with `labels`, or `None` if it has one.
fn fault_with<T: Threads + Sync>(
    rt: &T,
    alloc: Global,
    labels: &str,
) -> Result<Option<Fault>, AllocError> {
    let file = Bytes::dump(alloc, 4, DIAMOND)?;
    Ok(table_of(rt, alloc, &file.bytes, labels).err())
}

/// Lists that are refused, and the number of the first bad line of each.
const BAD: [(&str, u64); 4] = [
    ("label 0 root 0", 1),
    ("label 0 root 0\nlabel 1\n", 2),
    ("label 1048576 root 0\n", 1),
    ("root 1\n\n", 2),
];

#[test]
fn bad_lists(rt: HostRuntime) -> Result<(), Fail> {
    for (labels, line) in BAD {
        let fault = fault_with(&rt, rt.alloc(), labels)?;
        assert_eq!(rt; fault, Some(Fault::BadLabels(line)), "{labels}");
    }
    Ok(())
}

#[test]
fn a_bad_dump(rt: HostRuntime) {
    let fault = table_of(&rt, rt.alloc(), b"JAVA PROFILE 1.0.1\0", "").err();
    assert_eq!(rt; fault, Some(Fault::Dump(1, 0)));
}
