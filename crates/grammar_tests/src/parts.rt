//! Tests that a dump has the same places or the same first fault, whether threads read it in parts or one thread reads
//! it whole.

use hprof_grammar::{Dump, FormatFault, ReadRefusal, Team, read};
use std::alloc::{Allocator, Global};
use std::test::Fail;
use std::thread::Threads;

/// A dump of 215 bytes: three segments, with strings, loaded classes and a skipped record before or between them, then
/// a HEAP DUMP END and one more string.
#[rattlefmt::skip]
pub const FILE: [u8; 215] = [
    0x4a, 0x41, 0x56, 0x41, 0x20, 0x50, 0x52, 0x4f, 0x46, 0x49, 0x4c, 0x45, 0x20, 0x31, 0x2e, 0x30, 0x2e, 0x32, 0,
    0, 0, 0, 0x04, 0, 0, 0, 0, 0, 0, 0, 0,
    0x01, 0, 0, 0, 0, 0, 0, 0, 0x05, 0, 0, 0, 0x01, 0x41,
    0x1c, 0, 0, 0, 0, 0, 0, 0, 0x16,
    0x21, 0, 0, 0x02, 0x01, 0, 0, 0, 0, 0, 0, 0x01, 0, 0, 0, 0, 0,
    0xff, 0, 0, 0x02, 0x01,
    0x01, 0, 0, 0, 0, 0, 0, 0, 0x05, 0, 0, 0, 0x02, 0x42,
    0x02, 0, 0, 0, 0, 0, 0, 0, 0x10, 0, 0, 0, 0x01, 0, 0, 0x01, 0, 0, 0, 0, 0, 0, 0, 0, 0x01,
    0x1c, 0, 0, 0, 0, 0, 0, 0, 0x16,
    0x05, 0, 0, 0x01, 0,
    0x21, 0, 0, 0x02, 0x02, 0, 0, 0, 0, 0, 0, 0x01, 0, 0, 0, 0, 0,
    0x0d, 0, 0, 0, 0, 0, 0, 0, 0x03, 0, 0, 0,
    0x02, 0, 0, 0, 0, 0, 0, 0, 0x10, 0, 0, 0, 0x02, 0, 0, 0x02, 0, 0, 0, 0, 0, 0, 0, 0, 0x02,
    0x1c, 0, 0, 0, 0, 0, 0, 0, 0,
    0x2c, 0, 0, 0, 0, 0, 0, 0, 0,
    0x01, 0, 0, 0, 0, 0, 0, 0, 0x05, 0, 0, 0, 0x03, 0x43,
];

/// The offsets of the file's records.
const RECORDS: [usize; 10] = [31, 45, 76, 90, 115, 146, 158, 183, 192, 201];

/// Two changes of the file, each an offset and the new byte there, and the code and the offset of the first fault that
/// the file then has.
const CHANGES: [([(usize, u8); 2], u8, u64); 6] = [
    ([(54, 0x7e), (124, 0x7e)], 5, 54),
    ([(71, 0x7e), (192, 0x0c)], 5, 71),
    ([(98, 0x11), (129, 0x7e)], 4, 90),
    ([(129, 0x7e), (209, 0xff)], 5, 129),
    ([(183, 0x2c), (209, 0xff)], 8, 192),
    ([(192, 0x0c), (209, 0xff)], 8, 192),
];

/// Tests whether `dump` has the places of the file.
pub fn is_of_the_file<A: Allocator>(dump: &Dump<A>) -> bool {
    dump.strings() == [31, 76, 201].as_slice()
        && dump.loaded() == [90, 158].as_slice()
        && dump.objects() == [54, 129].as_slice()
        && dump.roots() == [71, 124].as_slice()
}

#[test]
fn places_of_parts(rt: HostRuntime) -> Result<(), Fail> {
    for threads in [0, 1, 2, 3, 4, 64] {
        let dump = read(&Team::sharing_from(&rt, threads, 0), rt.alloc(), &FILE)?;
        assert!(rt; is_of_the_file(&dump), "{threads} threads");
    }
    Ok(())
}

/// Tests whether two dumps have the same places.
fn are_same(one: &Dump<Global>, other: &Dump<Global>) -> bool {
    one.strings() == other.strings()
        && one.loaded() == other.loaded()
        && one.objects() == other.objects()
        && one.roots() == other.roots()
}

/// Returns the refusal of `bytes` that one thread reports, or `None` if it reads them as a dump. Returns also whether a
/// team of four threads reads the same places or reports the same refusal.
fn told_by_four<T: Threads + Sync>(
    rt: &T,
    alloc: Global,
    bytes: &[u8],
) -> (Option<ReadRefusal>, bool) {
    let alone = read(&Team::sharing_from(rt, 1, 0), alloc, bytes);
    let shared = read(&Team::sharing_from(rt, 4, 0), alloc, bytes);
    match (alone, shared) {
        (Ok(one), Ok(other)) => (None, are_same(&one, &other)),
        (Err(one), Err(other)) => (Some(one), one == other),
        (Ok(_), Err(_)) => (None, false),
        (Err(one), Ok(_)) => (Some(one), false),
    }
}

/// Cuts the file at each length, and replaces the tag of each record by each of five tags.
#[test]
fn same_answers(rt: HostRuntime) {
    for length in 0..FILE.len() {
        let (_, same) = told_by_four(&rt, rt.alloc(), &FILE[..length]);
        assert!(rt; same, "{length} bytes");
    }
    for at in RECORDS {
        for tag in [0x01, 0x0c, 0x1c, 0x2c, 0x7e] {
            let mut file = FILE;
            assert!(rt; at < file.len());
            file[at] = tag;
            let (_, same) = told_by_four(&rt, rt.alloc(), &file);
            assert!(rt; same, "{tag} at {at}");
        }
    }
}

/// The first of two faults is reported, whichever parts they are in.
#[test]
fn first_of_two_faults(rt: HostRuntime) {
    for (changes, code, place) in CHANGES {
        let mut file = FILE;
        for (at, byte) in changes {
            assert!(rt; at < file.len());
            file[at] = byte;
        }
        let (refusal, same) = told_by_four(&rt, rt.alloc(), &file);
        let fault = ReadRefusal::Fault(FormatFault {
            code,
            offset: place,
        });
        assert_eq!(rt; (refusal, same), (Some(fault), true), "{code} at {place}");
    }
}
