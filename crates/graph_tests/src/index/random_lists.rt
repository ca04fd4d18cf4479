//! Many short lists of random identifiers.

ghost use Rattle.std.specs.Prelude.{◌<◌};

use super::beside::{answers_all, serves_as};
use super::making::index_of;
use super::narrow::narrow_index;
use super::wide::wide_index;
use std::alloc::{AllocError, Global};
use std::test::Fail;
use std::thread::Threads;

/// The number of lists that are tried.
const LISTS: usize = 100_000;

/// Where identifiers begin: at the least one, within a page, near a page's end, and near the greatest one.
const BASES: [u64; 4] = [0, 37, 0x7f00_01f8, u64::MAX - 600];

/// A generator of random numbers.
#[derive(Drop)]
struct Numbers {
    state: u64,
}

impl Numbers {
    /// Returns a random number below `end`, and below 2^31 if `end` is greater.
    fn below(&mut self, end: u64) -> u64
        requires { 0 < end }
        ensures { result < end }
    {
        self.state = self
            .state
            .wrapping_mul(6_364_136_223_846_793_005)
            .wrapping_add(1_442_695_040_888_963_407);
        (self.state >> 33) % end
    }

    /// Returns an identifier: in about three of four cases `last`, `last + step` or `last + 2 * step`, and else any on
    /// a few pages from `base` on.
    fn next_id(&mut self, last: u64, base: u64, step: u64) -> u64 {
        match self.below(4) {
            0 => return base.wrapping_add(self.below(200).wrapping_mul(step)),
            _ => return last.wrapping_add(self.below(3).wrapping_mul(step)),
        }
    }

    /// Returns up to 40 identifiers. In about half of the lists, all agree in their three lowest bits.
    fn list(&mut self, alloc: Global) -> Result<Vec<u64>, AllocError> {
        let base = BASES[self.below(4) as usize];
        let step = match self.below(2) {
            0 => 1,
            _ => 8,
        };
        let mut ids = Vec::new(alloc);
        let mut id = base;
        for _ in 0..self.below(41) {
            id = self.next_id(id, base, step);
            ids.push(id)?;
        }
        Ok(ids)
    }
}

/// Tests whether an index of `ids` agrees with a search one by one.
fn is_right(alloc: Global, ids: &[u64]) -> Result<bool, AllocError> {
    if ids.len() > 1000 {
        return Ok(false);
    }
    let index = index_of(alloc, ids)?;
    Ok(answers_all(&index, ids))
}

#[test]
fn random_lists(rt: HostRuntime) -> Result<(), Fail> {
    let mut numbers = Numbers { state: 1 };
    for list in 0..LISTS {
        let ids = numbers.list(rt.alloc())?;
        let right = is_right(rt.alloc(), &ids);
        assert_eq!(rt; right, Ok(true), "list {list}");
    }
    Ok(())
}

/// The number of lists of identifiers in no order that are tried.
const SCATTERED: usize = 2_000;

impl Numbers {
    /// Returns 4 to 43 identifiers in no order on one page or two. None is repeated.
    fn scattered(&mut self, alloc: Global) -> Result<Vec<u64>, AllocError> {
        let base = BASES[self.below(3) as usize];
        let (first, step) = (self.below(64), self.below(32) * 2 + 1);
        let mut ids = Vec::new(alloc);
        for number in 0..self.below(40) + 4 {
            let place = first.wrapping_add(number.wrapping_mul(step)) % 64;
            ids.push(base.wrapping_add(place * 8))?;
        }
        Ok(ids)
    }

    /// Copies one of `ids`, chosen at random, to a place in `ids` that is chosen at random. Returns whether that is
    /// another place.
    fn repeat_one(&mut self, ids: &mut [u64]) -> bool {
        if ids.is_empty() || ids.len() > 1000 {
            return false;
        }
        let (to, from) = (self.below(ids.len() as u64), self.below(ids.len() as u64));
        ids[to as usize] = ids[from as usize];
        to != from
    }
}

/// Tests whether an index of narrow entries of `ids` is made exactly if `repeats` is false, and whether it and an index
/// of whole identifiers agree with a search one by one. Places are noted in at most `parts` parts.
fn agrees_with_narrow<T: Threads + Sync>(
    rt: &T,
    alloc: Global,
    ids: &[u64],
    repeats: bool,
    parts: usize,
) -> Result<bool, AllocError> {
    if ids.len() > 1000 {
        return Ok(false);
    }
    let wide = answers_all(&wide_index(alloc, ids)?, ids);
    let low = ids.first().copied().unwrap_or(0) % 8;
    let narrow = narrow_index(rt, alloc, ids, low, parts)?;
    Ok(wide && serves_as(narrow.as_ref(), ids, !repeats))
}

/// In each second list, an identifier is copied to another place, or to its own.
#[test]
fn scattered_lists(rt: HostRuntime) -> Result<(), Fail> {
    let mut numbers = Numbers { state: 1 };
    for list in 0..SCATTERED {
        let mut ids = numbers.scattered(rt.alloc())?;
        let repeats = list % 2 == 1 && numbers.repeat_one(&mut ids);
        let right = agrees_with_narrow(&rt, rt.alloc(), &ids, repeats, list % 7);
        assert_eq!(rt; right, Ok(true), "list {list}");
    }
    Ok(())
}
