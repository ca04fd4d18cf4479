//! The worked dump: its places, and the faults of its prefixes and of changed bytes.

use hprof_grammar::{Dump, FormatFault, ReadRefusal, Team, read};
use limited_heap::{LimitedHeap, requests_of};
use std::alloc::{Allocator, Global};
use std::test::Fail;
use std::thread::Threads;

/// A class `A` with one field, two instances that refer to each other, and a root: 174 bytes.
#[rattlefmt::skip]
const FILE: [u8; 174] = [
    0x4a, 0x41, 0x56, 0x41, 0x20, 0x50, 0x52, 0x4f, 0x46, 0x49, 0x4c, 0x45, 0x20, 0x31, 0x2e, 0x30, 0x2e, 0x32, 0,
    0, 0, 0, 0x04, 0, 0, 0, 0, 0, 0, 0, 0,
    0x01, 0, 0, 0, 0, 0, 0, 0, 0x05,
    0, 0, 0, 0x01, 0x41,
    0x02, 0, 0, 0, 0, 0, 0, 0, 0x10,
    0, 0, 0, 0x01, 0, 0, 0x01, 0, 0, 0, 0, 0, 0, 0, 0, 0x01,
    0x0c, 0, 0, 0, 0, 0, 0, 0, 0x5f,
    0x20, 0, 0, 0x01, 0, 0, 0, 0, 0,
    0, 0, 0, 0, 0, 0, 0, 0, 0, 0, 0, 0, 0, 0, 0, 0, 0, 0, 0, 0, 0, 0, 0, 0,
    0, 0, 0, 0, 0, 0, 0, 0, 0, 0x01,
    0, 0, 0, 0x02, 0x02,
    0x21, 0, 0, 0x02, 0x01, 0, 0, 0, 0, 0, 0, 0x01, 0, 0, 0, 0, 0x04, 0, 0, 0x02, 0x02,
    0x21, 0, 0, 0x02, 0x02, 0, 0, 0, 0, 0, 0, 0x01, 0, 0, 0, 0, 0x04, 0, 0, 0x02, 0x01,
    0xff, 0, 0, 0x02, 0x01,
];

/// The faults of the file's prefixes: the least length, the greatest length, the fault's code, the fault's offset.
const CUTS: [(usize, usize, u8, u64); 8] = [
    (0, 18, 1, 0),
    (19, 30, 3, 0),
    (31, 31, 8, 31),
    (32, 44, 3, 31),
    (45, 45, 8, 45),
    (46, 69, 3, 45),
    (70, 70, 8, 70),
    (71, 173, 3, 70),
];

/// The faults of the file with one byte changed: the byte's offset, the new byte, the fault's code, the fault's offset.
const CHANGES: [(usize, u8, u8, u64); 8] = [
    (0, 0, 1, 0),
    (22, 2, 2, 19),
    (39, 3, 4, 31),
    (53, 15, 4, 45),
    (77, 1, 3, 70),
    (126, 3, 7, 79),
    (127, 0x7e, 5, 127),
    (140, 1, 6, 127),
];

/// Returns the code and the offset of the fault, or `None` if `outcome` is no fault.
pub fn fault<D>(outcome: Result<D, ReadRefusal>) -> Option<(u8, u64)>
where
    D: Drop,
{
    match outcome {
        Err(ReadRefusal::Fault(FormatFault { code, offset })) => Some((code, offset)),
        _ => None,
    }
}

#[test]
fn places_of_the_file(rt: HostRuntime) -> Result<(), Fail> {
    let dump = read(&Team::new(&rt, 1), rt.alloc(), &FILE)?;
    assert_eq!(rt; dump.id_size(), 4);
    assert_eq!(rt; dump.strings(), [31].as_slice());
    assert_eq!(rt; dump.loaded(), [45].as_slice());
    assert_eq!(rt; dump.objects(), [79, 127, 148].as_slice());
    assert_eq!(rt; dump.roots(), [169].as_slice());
    Ok(())
}

#[test]
fn first_faults(rt: HostRuntime) -> Result<(), Fail> {
    for (from, to, code, place) in CUTS {
        for length in from..to + 1 {
            assert!(rt; length <= FILE.len());
            assert_eq!(rt;
                fault(read(&Team::new(&rt, 1), rt.alloc(), &FILE[..length])),
                Some((code, place)),
                "{length} bytes"
            );
        }
    }
    for (at, byte, code, place) in CHANGES {
        let mut file = FILE;
        assert!(rt; at < file.len());
        file[at] = byte;
        assert_eq!(rt;
            fault(read(&Team::new(&rt, 1), rt.alloc(), &file)),
            Some((code, place)),
            "{byte} at {at}"
        );
    }
    Ok(())
}

/// A second snapshot breaks the order, even if it is empty.
#[test]
fn one_snapshot(rt: HostRuntime) -> Result<(), Fail> {
    let mut file = FILE.to_vec(rt.alloc())?;
    file.extend_from_slice(&[0x0c, 0, 0, 0, 0, 0, 0, 0, 0])?;
    let team = Team::new(&rt, 1);
    assert_eq!(rt; fault(read(&team, rt.alloc(), &file)), Some((8, 174)));
    Ok(())
}

/// Tests whether `dump` is the dump that the file spells.
fn is_of_the_file<A: Allocator>(dump: &Dump<A>) -> bool {
    dump.id_size() == 4
        && dump.strings() == [31].as_slice()
        && dump.loaded() == [45].as_slice()
        && dump.objects() == [79, 127, 148].as_slice()
        && dump.roots() == [169].as_slice()
}

/// Tests whether `team` reads the file on `heap`, or reports out of memory after the heap refused a request.
fn is_right_or_told<T: Threads + Sync>(team: &Team<'_, T>, heap: &LimitedHeap<Global>) -> bool {
    match read(team, heap, &FILE) {
        Ok(dump) => is_of_the_file(&dump),
        Err(refusal) => heap.refusals() > 0 && refusal == ReadRefusal::OutOfMemory,
    }
}

/// Refuses in turn each request that `team` makes to read the file. Returns the number of requests, or 0 if
/// `requests_of` returns `None`.
fn requests_of_the_file<T: Threads + Sync>(team: &Team<'_, T>, alloc: Global) -> u64 {
    requests_of(alloc, |heap| is_right_or_told(team, heap)).unwrap_or(0)
}

/// The first team reads the file with one thread, the second in parts.
#[test]
fn memory_refused_in_turn(rt: HostRuntime) {
    for fewest in [u32::MAX, 0] {
        let team = Team::sharing_from(&rt, 4, fewest);
        assert!(rt;
            requests_of_the_file(&team, rt.alloc()) > 0,
            "from {fewest} on"
        );
    }
}

/// Reads the file on a heap that grants exactly as many requests as that takes, and then takes the dump's objects.
/// Returns the number of requests left after the read, whether the dump is right, whether the right objects were taken
/// and none is left in the dump, and the number of refused requests.
fn looked_at<T: Threads + Sync>(
    rt: &T,
    alloc: Global,
) -> Result<(u64, bool, bool, u64), ReadRefusal> {
    let team = Team::new(rt, 4);
    let heap = LimitedHeap::new(alloc, requests_of_the_file(&team, alloc));
    let mut dump = read(&team, &heap, &FILE)?;
    let left = heap.requests_left();
    let right = is_of_the_file(&dump);
    let objects = dump.take_objects(&heap);
    let handed = dump.objects().is_empty() && objects.as_slice() == [79, 127, 148].as_slice();
    Ok((left, right, handed, heap.refusals()))
}

/// The methods of a dump allocate nothing: they are called on a heap that would refuse any further request, and it
/// refuses none. A `View` has no allocator.
#[test]
fn reading_fields_takes_no_memory(rt: HostRuntime) -> Result<(), Fail> {
    assert_eq!(rt; looked_at(&rt, rt.alloc())?, (0, true, true, 0));
    Ok(())
}
