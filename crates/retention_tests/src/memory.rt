//! Allocations that fail: each allocation of a run fails in turn.

use crate::tables::{DIAMOND, ROWS, Row};
use limited_heap::LimitedHeap;
use retention::{Counted, Fault, run};
use std::alloc::{AllocError, Global};
use std::test::Fail;
use std::thread::Threads;
use test_dumps::Bytes;

/// The most allocations of a run.
const MOST: u64 = 4096;

/// Runs on the dump `bytes` while allocation number `request` fails. Returns whether none failed, or `None` if the run
/// was wrong: it may write the table, or be out of memory and write nothing.
fn run_refusing<T: Threads + Sync>(
    rt: &T,
    alloc: Global,
    bytes: &[u8],
    row: &Row,
    request: u64,
) -> Option<bool> {
    let heap = LimitedHeap::refusing(alloc, request);
    let mut reader = Counted::new(bytes);
    let mut writer = Counted::new(Vec::new(alloc));
    let outcome = run(rt, &heap, row.labels.as_bytes(), &mut reader, &mut writer);
    let written = writer.into_inner();
    let right = match outcome {
        Ok(()) => written.as_slice() == row.table.as_bytes(),
        Err(fault) => fault == Fault::OutOfMemory && written.is_empty(),
    };
    if right {
        Some(heap.refusals() == 0)
    } else {
        None
    }
}

/// Fails each allocation in turn, until none fails in a run. Returns whether each run was right, and at least nine
/// failed.
fn is_right_in_turn<T: Threads + Sync>(rt: &T, alloc: Global, bytes: &[u8], row: &Row) -> bool {
    for request in 0..MOST {
        match run_refusing(rt, alloc, bytes, row, request) {
            Some(true) => return request >= 9,
            Some(false) => {}
            None => return false,
        }
    }
    false
}

/// Like [`is_right_in_turn`], for `DIAMOND`.
fn is_right<T: Threads + Sync>(rt: &T, alloc: Global, row: &Row) -> Result<bool, AllocError> {
    let file = Bytes::dump(alloc, 4, DIAMOND)?;
    Ok(is_right_in_turn(rt, alloc, &file.bytes, row))
}

#[test]
fn memory_refused_in_turn(rt: HostRuntime) -> Result<(), Fail> {
    for row in &ROWS[2..4] {
        let right = is_right(&rt, rt.alloc(), row)?;
        assert!(rt; right, "{}", row.labels);
    }
    Ok(())
}
