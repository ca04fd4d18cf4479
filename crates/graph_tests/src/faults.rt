//! Dumps that are not linked, with the code and the place of their first fault.

use crate::chains::{CHAINS, SIZES};
use crate::graphs::count_objects;
use heap_graph::{LinkFault, LinkRefusal, Skip};
use hprof_grammar::Team;
use std::alloc::{AllocError, Global};
use std::test::Fail;
use std::thread::Threads;
use test_dumps::Sub::{Class, Instance, Objects, Values};
use test_dumps::{Bytes, Record, Sub, TWO_OBJECTS};

/// The name of a heap dump, its sub-records, and the code and the place of its first fault.
pub type Faulty = (&'static str, &'static [Sub], u8, u64);

/// Identifiers that are 0 or repeated, and classes that are missing.
static IDENTIFIERS: [Faulty; 17] = [
    (
        "a class with ID 0 and a missing superclass",
        &[Class(0, 0x999, &[])],
        9,
        40,
    ),
    (
        "an instance with ID 0 of a missing class",
        &[Class(0x100, 0, &[]), Instance(0, 0x999, &[])],
        9,
        83,
    ),
    (
        "an object array with ID 0",
        &[Class(0x100, 0, &[]), Objects(0, 0x100, &[])],
        9,
        83,
    ),
    (
        "a primitive array with ID 0",
        &[Values(0, 8, 0, &[])],
        9,
        40,
    ),
    (
        "a class that comes again",
        &[Class(0x100, 0, &[]), Class(0x100, 0, &[])],
        10,
        83,
    ),
    (
        "a class that comes again behind others, with a missing superclass",
        &[
            Class(0x100, 0, &[]),
            Class(0x110, 0, &[]),
            Instance(0x201, 0x100, &[]),
            Class(0x100, 0x999, &[]),
        ],
        10,
        143,
    ),
    (
        "an instance that comes again behind another, with a missing class",
        &[
            Class(0x100, 0, &[]),
            Instance(0x201, 0x100, &[]),
            Instance(0x202, 0x100, &[]),
            Instance(0x201, 0x999, &[1]),
        ],
        10,
        117,
    ),
    (
        "a primitive array that comes again behind another",
        &[
            Values(0x201, 8, 1, &[0]),
            Values(0x202, 8, 0, &[]),
            Values(0x201, 8, 0, &[]),
        ],
        10,
        69,
    ),
    (
        "an object array with the ID of a class",
        &[Class(0x100, 0, &[]), Objects(0x100, 0x999, &[])],
        10,
        83,
    ),
    (
        "an instance of a missing class",
        &[Instance(0x201, 0x100, &[])],
        11,
        40,
    ),
    (
        "an instance of class 0",
        &[Instance(0x201, 0, &[]), Class(0x100, 0, &[])],
        11,
        40,
    ),
    (
        "an instance of a class with ID 0",
        &[Instance(0x201, 0, &[]), Class(0, 0, &[])],
        11,
        40,
    ),
    (
        "an instance with the ID of its class",
        &[Instance(0x100, 0x100, &[]), Class(0x100, 0, &[])],
        11,
        40,
    ),
    (
        "an instance whose class ID is an array's",
        &[Values(0x300, 8, 0, &[]), Instance(0x201, 0x300, &[])],
        11,
        54,
    ),
    (
        "an array of a missing class",
        &[Objects(0x201, 0x999, &[])],
        11,
        40,
    ),
    (
        "an array that is its own class",
        &[Objects(0x201, 0x201, &[])],
        11,
        40,
    ),
    (
        "an array whose class ID is an instance's",
        &[
            Class(0x100, 0, &[]),
            Instance(0x201, 0x100, &[]),
            Objects(0x202, 0x201, &[]),
        ],
        11,
        100,
    ),
];

/// Changes of one byte in the dump of two instances: the place of the byte, its new value, and the code and the place
/// of the first fault.
static CHANGES: [(usize, u8, u8, u64); 5] = [
    (82, 0, 9, 79),
    (152, 1, 10, 148),
    (138, 2, 11, 127),
    (91, 1, 12, 79),
    (126, 5, 13, 127),
];

/// Returns the code and the place of the fault that is the result `built`. Returns `None` if a graph was built, or
/// memory ran out.
fn fault_of(built: Result<u32, LinkRefusal>) -> Option<(u8, u64)> {
    match built {
        Err(LinkRefusal::Fault(LinkFault { code, offset })) => Some((code, offset)),
        _ => None,
    }
}

/// Returns the code and the place of the fault for which the dump `bytes` has no graph. Returns `None` if its graph is
/// built, or memory runs out.
fn fault_in<T: Threads + Sync>(rt: &T, alloc: Global, bytes: &[u8]) -> Option<(u8, u64)> {
    let team = Team::new(rt, 4);
    fault_of(count_objects(&team, alloc, bytes, &Skip::none(alloc)))
}

/// Like [`fault_in`], for a heap dump of `subs`.
fn first_fault<T: Threads + Sync>(
    rt: &T,
    alloc: Global,
    subs: &'static [Sub],
) -> Result<Option<(u8, u64)>, AllocError> {
    let file = Bytes::dump(alloc, 4, &[Record::Heap(subs)])?;
    Ok(fault_in(rt, alloc, &file.bytes))
}

/// Returns the name of the first dump of `table` whose fault is not the one in the table, or `None` if there is no such
/// dump.
fn first_other<T: Threads + Sync>(
    rt: &T,
    alloc: Global,
    table: &[Faulty],
) -> Result<Option<&'static str>, AllocError> {
    for (name, subs, code, place) in table {
        if first_fault(rt, alloc, subs)? != Some((*code, *place)) {
            return Ok(Some(*name));
        }
    }
    Ok(None)
}

/// Returns the result of [`first_other`] for each table.
fn first_others<T: Threads + Sync>(
    rt: &T,
    alloc: Global,
) -> [Result<Option<&'static str>, AllocError>; 3] {
    [
        first_other(rt, alloc, &IDENTIFIERS),
        first_other(rt, alloc, &CHAINS),
        first_other(rt, alloc, &SIZES),
    ]
}

#[test]
fn first_faults(rt: HostRuntime) {
    assert_eq!(rt;
        first_others(&rt, rt.alloc()),
        [Ok(None), Ok(None), Ok(None)]
    );
}

/// Like [`fault_in`], for the dump of two instances with the byte at `at` changed to `byte`. Returns `None` also if the
/// dump has no such place.
fn fault_of_change<T: Threads + Sync>(
    rt: &T,
    alloc: Global,
    at: usize,
    byte: u8,
) -> Result<Option<(u8, u64)>, AllocError> {
    let mut file = Bytes::dump(alloc, 4, TWO_OBJECTS)?;
    let Some(changed) = file.bytes.get_mut(at) else {
        return Ok(None);
    };
    *changed = byte;
    Ok(fault_in(rt, alloc, &file.bytes))
}

#[test]
fn first_faults_of_changed_bytes(rt: HostRuntime) -> Result<(), Fail> {
    for (at, byte, code, place) in &CHANGES {
        let fault = fault_of_change(&rt, rt.alloc(), *at, *byte)?;
        assert_eq!(rt; fault, Some((*code, *place)), "{byte} at {at}");
    }
    Ok(())
}
