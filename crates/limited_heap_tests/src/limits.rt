//! Tests that heaps keep their limits, for many limits and many sizes of blocks.

use limited_heap::LimitedHeap;
use std::alloc::{AllocError, Allocator};
use std::test::Fail;

/// Sizes of blocks in bytes, up to a mebibyte.
const SIZES: [usize; 9] = [1, 8, 63, 64, 65, 1_000, 4_096, 65_536, 1 << 20];

/// Requests `tries` blocks of `size` bytes from `heap`. Returns how many were granted before the first refusal, and how
/// many were refused.
fn granted_and_refused<A: Allocator + Copy>(heap: A, size: usize, tries: u64) -> (u64, u64) {
    let mut granted = 0u64;
    let mut refused = 0u64;
    for _ in 0..tries {
        if Vec::<u8, A>::with_capacity(heap, size).is_err() {
            refused = refused.saturating_add(1);
        } else if refused == 0 {
            granted = granted.saturating_add(1);
        }
    }
    (granted, refused)
}

/// Tests two heaps with blocks of `size` bytes. Both must grant `limit` blocks. Then one must refuse all further
/// blocks, the other only the next one.
fn limits_blocks<A: Allocator + Copy>(alloc: A, limit: u64, size: usize) -> bool {
    let tries = limit.saturating_add(3);
    let all_later = LimitedHeap::new(alloc, limit);
    let only_one = LimitedHeap::refusing(alloc, limit);
    granted_and_refused(&all_later, size, tries) == (limit, 3)
        && granted_and_refused(&only_one, size, tries) == (limit, 1)
}

#[test]
fn each_limit_holds(rt: HostRuntime) {
    for limit in (0..=1_024u64).chain(99_999..100_002) {
        assert!(rt; limits_blocks(rt.alloc(), limit, 16), "{limit}");
    }
}

#[test]
fn blocks_of_each_size_are_limited(rt: HostRuntime) {
    for size in SIZES {
        for limit in [0u64, 1, 4, 100, 699] {
            assert!(rt;
                limits_blocks(rt.alloc(), limit, size),
                "{limit} of {size} bytes"
            );
        }
    }
}

/// Makes a block of one byte on `heap`. Returns whether the block can grow by `size` bytes, and whether it can shrink
/// after that. `Err` if `heap` refuses the block.
fn grows_and_shrinks<A: Allocator>(heap: A, size: usize) -> Result<(bool, bool), AllocError> {
    let mut list = Vec::with_capacity(heap, 1)?;
    list.push(7u8)?;
    let grows = list.reserve_exact(size).is_ok();
    let room = list.capacity();
    list.shrink_to_fit();
    Ok((grows, list.capacity() < room))
}

/// Tests whether a block is the first request, its growth by `size` bytes the second, and its shrinking the third.
fn limits_growths<A: Allocator + Copy>(alloc: A, size: usize) -> Result<bool, AllocError> {
    let block_only = grows_and_shrinks(&LimitedHeap::new(alloc, 1), size)?;
    let growth_too = grows_and_shrinks(&LimitedHeap::new(alloc, 2), size)?;
    let all = grows_and_shrinks(&LimitedHeap::new(alloc, 3), size)?;
    let no_growth = grows_and_shrinks(&LimitedHeap::refusing(alloc, 1), size)?;
    Ok(
        (block_only, growth_too) == ((false, false), (true, false))
            && (all, no_growth) == ((true, true), (false, false)),
    )
}

#[test]
fn growths_to_each_size_are_limited(rt: HostRuntime) -> Result<(), Fail> {
    for size in SIZES {
        assert!(rt; limits_growths(rt.alloc(), size)?, "{size} bytes");
    }
    Ok(())
}
