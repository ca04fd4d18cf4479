//! Tests the bytes that a `LimitedHeap` counts, since no clause of it says which.

use limited_heap::{LimitedHeap, Usage};
use std::alloc::{AllocError, Allocator, Global};
use std::test::Fail;
use std::thread::join;

/// Creates a heap that refuses nothing.
fn counting(alloc: Global) -> LimitedHeap<Global> {
    LimitedHeap::new(alloc, u64::MAX)
}

/// Tests whether `heap` has `in_use` bytes in use, and had at most `peak`.
fn has_used<A: Allocator>(heap: &LimitedHeap<A>, in_use: usize, peak: usize) -> bool {
    heap.usage() == Usage { in_use, peak }
}

/// A growth or a shrinking moves a block, so its bytes count twice for a moment.
#[test]
fn bytes_of_a_block_that_grows_and_shrinks(rt: HostRuntime) -> Result<(), Fail> {
    let heap = counting(rt.alloc());
    assert!(rt; has_used(&heap, 0, 0));
    let mut list = Vec::<u64, _>::with_capacity(&heap, 4)?;
    assert!(rt; has_used(&heap, 32, 32));
    list.push(7)?;
    assert!(rt; has_used(&heap, 32, 32));
    list.reserve_exact(10)?;
    assert!(rt; has_used(&heap, 88, 120));
    list.shrink_to_fit();
    assert!(rt; has_used(&heap, 8, 120));
    list.reserve_exact(3)?;
    assert!(rt; has_used(&heap, 32, 120));
    drop(list);
    assert!(rt; has_used(&heap, 0, 120));
    Ok(())
}

/// Makes a list of `size` bytes on `heap` and frees it.
fn make_and_free<A: Allocator>(heap: A, size: usize) -> Result<(), AllocError> {
    let list = Vec::<u8, A>::with_capacity(heap, size)?;
    drop(list);
    Ok(())
}

/// The peak is what several blocks take at the same time, not their sum.
#[test]
fn peak_is_of_blocks_at_the_same_time(rt: HostRuntime) -> Result<(), Fail> {
    let heap = counting(rt.alloc());
    for size in [1, 100, 7, 100, 30] {
        make_and_free(&heap, size)?;
    }
    assert!(rt; has_used(&heap, 0, 100));
    let first = Box::new(&heap, 7u64)?;
    make_and_free(&heap, 60)?;
    assert!(rt; has_used(&heap, 8, 100));
    make_and_free(&heap, 93)?;
    assert!(rt; has_used(&heap, 8, 101));
    drop(first);
    assert!(rt; has_used(&heap, 0, 101));
    Ok(())
}

/// The sizes of lists that heaps refuse, in bytes.
const REFUSED: [usize; 4] = [1, 24, 4_096, 1 << 20];

#[test]
fn refused_bytes_do_not_count(rt: HostRuntime) -> Result<(), Fail> {
    for size in REFUSED {
        let heap = LimitedHeap::new(rt.alloc(), 1);
        let kept = Box::new(&heap, 7u64)?;
        assert!(rt; make_and_free(&heap, size).is_err());
        assert!(rt; has_used(&heap, 8, 8), "{size} bytes");
        drop(kept);
        assert!(rt; has_used(&heap, 0, 8), "{size} bytes");
    }
    Ok(())
}

/// Makes `tries` boxes of 4 bytes on `heap`, one after the other, and frees each.
fn box_after_box<A: Allocator + Copy>(heap: A, tries: u32) -> bool {
    for number in 0..tries {
        if Box::new(heap, number).is_err() {
            return false;
        }
    }
    true
}

#[test]
fn two_threads_count_together(rt: HostRuntime) -> Result<(), Fail> {
    let heap = counting(rt.alloc());
    let shared = &heap;
    let made = join(
        &rt,
        move || box_after_box(shared, 5_000),
        move || box_after_box(shared, 5_000),
    );
    assert_eq!(rt; made, (true, true));
    let usage = heap.usage();
    assert!(rt;
        usage.in_use == 0 && (usage.peak == 4 || usage.peak == 8),
        "{usage:?}"
    );
    let (one, other) = join(
        &rt,
        move || Vec::from_slice(shared, b"heap"),
        move || Vec::from_slice(shared, b"mark it"),
    );
    assert!(rt; one.is_ok() && other.is_ok());
    assert!(rt; has_used(&heap, 11, 11), "{:?}", heap.usage());
    Ok(())
}
