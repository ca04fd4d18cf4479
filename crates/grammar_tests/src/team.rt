//! Tests the number of threads of a team, and the parts that it makes.

use hprof_grammar::Team;
use std::alloc::{AllocError, Global};
use std::test::Fail;
use std::thread::{Threads, available_parallelism};

/// Numbers of threads that a team is asked for.
const ASKED: [u32; 6] = [0, 1, 2, 3, 64, u32::MAX];

/// The items that are cut into parts.
const ITEMS: [u8; 7] = [7, 6, 5, 4, 3, 2, 1];

/// A number of threads, a number of items, and the parts that a team makes of them: for each part the number of its
/// first item, and the number of its items.
const PARTS: [(u32, usize, &[(usize, usize)]); 8] = [
    (0, 7, &[(0, 7)]),
    (1, 7, &[(0, 7)]),
    (2, 7, &[(0, 4), (4, 3)]),
    (3, 7, &[(0, 3), (3, 3), (6, 1)]),
    (4, 7, &[(0, 2), (2, 2), (4, 2), (6, 1)]),
    (5, 7, &[(0, 2), (2, 2), (4, 2), (6, 1)]),
    (64, 2, &[(0, 1), (1, 1)]),
    (64, 0, &[]),
];

/// The team has as many threads as it is asked for, but no more than the system grants, and at least one.
#[test]
fn as_many_threads_as_granted(rt: HostRuntime) -> Result<(), Fail> {
    let granted = available_parallelism(&rt)?.get();
    for asked in ASKED {
        let threads = Team::at_most(&rt, asked).threads() as usize;
        assert_eq!(rt; threads, (asked as usize).min(granted).max(1));
    }
    Ok(())
}

/// Returns the parts that a team of `threads` threads makes of `items`.
fn parts_of<T: Threads + Sync>(
    rt: &T,
    alloc: Global,
    threads: u32,
    items: &[u8],
) -> Result<Vec<(usize, usize)>, AllocError> {
    let part_of = |first: usize, part: &[u8]| -> (usize, usize) { (first, part.len()) };
    Team::new(rt, threads).map_parts(alloc, items, &part_of)
}

#[test]
fn parts_in_order(rt: HostRuntime) -> Result<(), Fail> {
    for (threads, count, parts) in PARTS {
        let items = ITEMS.get(..count).unwrap_or(&[]);
        let made = parts_of(&rt, rt.alloc(), threads, items)?;
        assert!(rt;
            made.as_slice() == parts,
            "{threads} threads, {count} items"
        );
    }
    Ok(())
}

/// Work that is not shared has one part.
#[test]
fn number_of_parts(rt: HostRuntime) {
    for (threads, count, parts) in PARTS {
        assert!(rt; Team::sharing_from(&rt, threads, 0).parts(count) == parts.len().max(1));
        assert!(rt; Team::sharing_from(&rt, threads, 8).parts(count) == 1);
    }
}
