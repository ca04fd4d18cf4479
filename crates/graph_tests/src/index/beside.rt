//! Compares an index with a search through the list, one by one.

use id_index::IdIndex;
use limited_heap::LimitedHeap;
use std::alloc::{AllocError, Allocator, Global};

/// Returns the place in `ids` of the first that is `id`, or `None` if none is.
pub fn first_of(ids: &[u64], id: u64) -> Option<usize> {
    for (place, other) in ids.iter().enumerate() {
        if *other == id {
            return Some(place);
        }
    }
    None
}

/// Returns the place of the first of `ids` that repeats an earlier one, or their number if none does.
fn first_repeat_of(ids: &[u64]) -> usize {
    for (place, id) in ids.iter().enumerate() {
        if first_of(ids, *id) != Some(place) {
            return place;
        }
    }
    ids.len()
}

/// Tests whether the index finds `id` at `first`, or does not find `id` if `first` is `None`.
pub fn finds<A: Allocator>(index: &IdIndex<A>, id: u64, first: Option<usize>) -> bool {
    match index.find(id) {
        Some(number) => return first == Some(number as usize),
        None => return first.is_none(),
    }
}

/// Tests whether the index says the same of `id` as a search one by one: which object is the first that bears `id`, and
/// for each number whether an object before that number bears `id`.
fn answers<A: Allocator>(index: &IdIndex<A>, ids: &[u64], id: u64) -> bool {
    let first = first_of(ids, id);
    for number in 0..ids.len() {
        let before = first.is_some_and(|first| first < number);
        if index.is_repeated(id, number) != before {
            return false;
        }
    }
    index.is_repeated(id, usize::MAX) == first.is_some() && finds(index, id, first)
}

/// Like [`answers`], for `id` and for identifiers around it: of its page and of the next ones, with other lowest bits,
/// and far away.
fn answers_around<A: Allocator>(index: &IdIndex<A>, ids: &[u64], id: u64) -> bool {
    answers(index, ids, id)
        && answers(index, ids, id.wrapping_add(1))
        && answers(index, ids, id.wrapping_sub(1))
        && answers(index, ids, id.wrapping_add(8))
        && answers(index, ids, id.wrapping_add(64))
        && answers(index, ids, id.wrapping_sub(512))
        && answers(index, ids, id ^ 0x8000_0000_0000_0000)
}

/// Like [`answers_around`], for each of `ids`. Also tests what the index says of identifier 0, and whether it returns
/// the first repeat of `ids`.
pub fn answers_all<A: Allocator>(index: &IdIndex<A>, ids: &[u64]) -> bool {
    for id in ids {
        if !answers_around(index, ids, *id) {
            return false;
        }
    }
    answers(index, ids, 0) && index.first_repeat() == first_repeat_of(ids)
}

/// Tests whether the index `made` on `heap` agrees with a search one by one, or was not made because `heap` refused an
/// allocation.
pub fn agrees_or_refused<A: Allocator>(
    made: &Result<IdIndex<A>, AllocError>,
    heap: &LimitedHeap<Global>,
    ids: &[u64],
) -> bool {
    match made {
        Ok(index) => answers_all(index, ids),
        Err(AllocError) => heap.refusals() > 0,
    }
}

/// Tests whether `index` agrees with a search one by one if `serves` is true, and is `None` if `serves` is false.
pub fn serves_as<A: Allocator>(index: Option<&IdIndex<A>>, ids: &[u64], serves: bool) -> bool {
    match index {
        Some(index) => serves && answers_all(index, ids),
        None => !serves,
    }
}

/// Like [`serves_as`], for the index `made` on `heap`. Returns `true` also if none was made because `heap` refused an
/// allocation.
pub fn serves_or_refused<A: Allocator>(
    made: &Result<Option<IdIndex<A>>, AllocError>,
    heap: &LimitedHeap<Global>,
    ids: &[u64],
    serves: bool,
) -> bool {
    match made {
        Ok(index) => serves_as(index.as_ref(), ids, serves),
        Err(AllocError) => heap.refusals() > 0,
    }
}
