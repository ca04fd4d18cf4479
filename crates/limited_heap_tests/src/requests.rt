//! Tests which requests a `LimitedHeap` grants, since no clause of it says which.

use limited_heap::LimitedHeap;
use std::alloc::{AllocError, Allocator, Global};
use std::test::Fail;
use std::thread::{Threads, join};

#[test]
fn without_a_grant_all_is_refused(rt: HostRuntime) -> Result<(), Fail> {
    let heap = LimitedHeap::new(rt.alloc(), 0);
    assert!(rt; Vec::<u64, _>::with_capacity(&heap, 4).is_err());
    assert!(rt; Box::new(&heap, 7u8).is_err());
    assert_eq!(rt; (heap.requests_left(), heap.refusals()), (0, 2));
    Ok(())
}

/// Pushes three items on `list`, which has room for two. Returns whether the third item alone was refused, and the list
/// has the other two.
fn third_is_refused(list: &mut Vec<u64, &LimitedHeap<Global>>) -> Result<bool, AllocError> {
    list.push(3)?;
    list.push(5)?;
    Ok(list.push(8).is_err() && &list[..] == &[3, 5][..])
}

#[test]
fn a_growth_is_a_request(rt: HostRuntime) -> Result<(), Fail> {
    let heap = LimitedHeap::new(rt.alloc(), 1);
    assert_eq!(rt; (heap.requests_left(), heap.refusals()), (1, 0));
    let mut list = Vec::with_capacity(&heap, 2)?;
    assert_eq!(rt; (heap.requests_left(), heap.refusals()), (0, 0));
    assert!(rt; third_is_refused(&mut list)?);
    assert_eq!(rt; heap.refusals(), 1);
    Ok(())
}

/// Requests `tries` boxes from `heap` and returns how many were granted.
fn boxes_made<A: Allocator + Copy>(heap: A, tries: u32) -> u32 {
    let mut made = 0u32;
    for number in 0..tries {
        if Box::new(heap, number).is_ok() {
            made = made.saturating_add(1);
        }
    }
    made
}

/// The number of requests of each of two threads: enough that both are at work at the same time. A count that is read
/// in one step and written in another would then lose some.
const MANY: u32 = 200_000;

#[test]
fn two_threads_draw_on_one_limit(rt: HostRuntime) -> Result<(), Fail> {
    let heap = LimitedHeap::new(rt.alloc(), 300_000);
    let shared = &heap;
    let (one, other) = join(
        &rt,
        move || boxes_made(shared, MANY),
        move || boxes_made(shared, MANY),
    );
    assert_eq!(rt; one.saturating_add(other), 300_000);
    assert_eq!(rt; (heap.requests_left(), heap.refusals()), (0, 100_000));
    Ok(())
}

#[test]
fn one_request_is_refused_alone(rt: HostRuntime) -> Result<(), Fail> {
    for refused in 0..4u64 {
        let heap = LimitedHeap::refusing(rt.alloc(), refused);
        for request in 0..6u64 {
            assert_eq!(rt; heap.requests_left(), refused.saturating_sub(request));
            assert_eq!(rt; Box::new(&heap, 7u8).is_err(), request == refused);
            assert_eq!(rt; heap.refusals(), u64::from(request >= refused));
        }
    }
    let heap = LimitedHeap::refusing(rt.alloc(), u64::MAX);
    assert_eq!(rt; (boxes_made(&heap, 6), heap.refusals()), (6, 0));
    Ok(())
}

#[test]
fn two_threads_meet_one_refusal(rt: HostRuntime) -> Result<(), Fail> {
    let heap = LimitedHeap::refusing(rt.alloc(), 300_000);
    let shared = &heap;
    let (one, other) = join(
        &rt,
        move || boxes_made(shared, MANY),
        move || boxes_made(shared, MANY),
    );
    assert_eq!(rt; one.saturating_add(other), 399_999);
    assert_eq!(rt; (heap.requests_left(), heap.refusals()), (0, 1));
    Ok(())
}

type Lists<'a, A> = (
    Result<Vec<u8, &'a A>, AllocError>,
    Result<Vec<u8, &'a A>, AllocError>,
);

/// Copies `text` to `heap` twice, in two threads.
fn copied_twice<'a, R: Threads, A: Allocator + Sync>(
    rt: &R,
    heap: &'a A,
    text: &[u8],
) -> Lists<'a, A> {
    join(
        rt,
        move || Vec::from_slice(heap, text),
        move || Vec::from_slice(heap, text),
    )
}

/// Tests whether the request for a copy of `text` was granted, and the copy is right.
fn is_copy<A: Allocator>(copy: &Result<Vec<u8, &A>, AllocError>, text: &[u8]) -> bool {
    match copy {
        Ok(bytes) => &bytes[..] == text,
        Err(_) => false,
    }
}

/// Tests whether both copies of `text` are granted and right.
fn are_copied<R: Threads, A: Allocator + Sync>(rt: &R, heap: &A, text: &[u8]) -> bool {
    let (one, other) = copied_twice(rt, heap, text);
    is_copy(&one, text) && is_copy(&other, text)
}

/// Tests whether both copies of `text` are refused.
fn are_refused<R: Threads, A: Allocator + Sync>(rt: &R, heap: &A, text: &[u8]) -> bool {
    let (one, other) = copied_twice(rt, heap, text);
    one.is_err() && other.is_err()
}

#[test]
fn a_block_goes_from_thread_to_thread(rt: HostRuntime) {
    let heap = LimitedHeap::new(rt.alloc(), 2);
    assert!(rt; are_copied(&rt, &heap, b"heap"));
    assert!(rt; are_refused(&rt, &heap, b"heap"));
    assert_eq!(rt; heap.refusals(), 2);
}
