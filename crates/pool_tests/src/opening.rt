//! Numbers that are just in the ranges of `Pool::new`, and numbers that are just outside.

use crate::edges::Roots;
use buffer_pool::{Pool, PoolFault};
use std::alloc::Global;
use std::process::Abort;
use tagged_index::LAST_TAG;

/// The numbers of objects and buffers, the size of a buffer and the first tag, and whether a pool may have them.
type Row = (u32, u32, u32, u64, bool);

/// Numbers that are just in range, or just outside.
const SIZES: [Row; 10] = [
    (0, 4, 2, 0, true),
    (16_777_216, 4, 2, LAST_TAG, true),
    (16_777_217, 4, 2, 0, false),
    (0, 3, 2, 0, false),
    (0, 65_534, 2, 0, true),
    (0, 65_535, 2, 0, false),
    (0, 4, 1, 0, false),
    (0, 4, 4_096, 0, true),
    (0, 65_534, 4_096, 0, true),
    (0, 4, 4_097, 0, false),
];

/// Returns the fault of the opening of a pool, or `None` if it succeeds.
fn fault_of(
    alloc: Global,
    objects: u32,
    buffers: u32,
    size: u32,
    first_tag: u64,
) -> Option<PoolFault> {
    Pool::new(alloc, &Roots { objects }, buffers, size, first_tag).err()
}

/// Tests the opening of a pool with the numbers of `row`.
fn check_row<R: Abort>(rt: &R, alloc: Global, row: Row) {
    let (objects, buffers, size, first_tag, inside) = row;
    let fault = fault_of(alloc, objects, buffers, size, first_tag);
    let wanted = (!inside).then_some(PoolFault::BadOptions);
    assert_eq!(rt;
        fault,
        wanted,
        "{objects} objects, {buffers} buffers of {size}"
    );
}

#[test]
fn sizes_at_their_bounds(rt: HostRuntime) {
    for row in SIZES {
        check_row(&rt, rt.alloc(), row);
    }
    check_row(&rt, rt.alloc(), (0, 4, 2, LAST_TAG + 1, false));
}
