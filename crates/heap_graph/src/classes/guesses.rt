//! Guesses at the numbers of classes.
//!
//! Each instance and object array names its class, and a look-up in the map of classes reads a hash, a group of its
//! table and a key. So an array of buckets comes before the map. The array has at least four buckets for each class,
//! and an identifier selects one of these buckets. A look-up first tests the class that was noted there, and searches
//! the map only if that is another class. No contract mentions a guess: only time depends on it. A file whose classes
//! all share one bucket makes nearly each look-up one test longer.

ghost use Rattle.std.specs.Prelude.{length, ◌<◌};

use std::alloc::{AllocError, Allocator};
use std::marker::Model;

/// The smallest number of buckets for each class.
const BUCKETS: usize = 4;

/// The largest number of classes with `BUCKETS` buckets each: 32 bits choose among all buckets.
const MOST_CLASSES: usize = 1 << 30;

/// An odd number whose bits show no pattern: 2^64 divided by the golden ratio.
const SPREAD: u64 = 0x9E37_79B9_7F4A_7C15;

/// Buckets with numbers of classes. An identifier selects one of them.
#[derive(Drop)]
pub(crate) struct Guesses<A: Allocator> {
    /// The number of the class that was last noted at each bucket, or 0. The number of buckets is a power of two.
    buckets: Vec<u32, A>,
    /// The number of buckets minus one.
    mask: usize,
}

impl<A: Allocator> Model for Guesses<A> {
    ghost use Rattle.std.specs.Prelude.{List, length, ℕ, ◌<◌};

    ghost Value = { List ℕ };

    ghost view = { λ g. g.buckets.items };

    ghost invariant = { λ g. g.mask < length g.buckets.items };
}

impl<A: Allocator> Guesses<A> {
    /// Creates the buckets for `classes` classes, none of which is noted.
    pub(crate) fn new(alloc: A, classes: usize) -> Result<Self, AllocError> {
        let count = (BUCKETS * classes.min(MOST_CLASSES)).next_power_of_two();
        let mut buckets = Vec::new(alloc);
        buckets.resize(count, 0)?;
        Ok(Guesses {
            buckets,
            mask: count - 1,
        })
    }

    /// Returns the bucket that `id` selects.
    // Inlined, as `guess` is.
    #[inline(always)]
    fn bucket_of(&self, id: u64) -> usize
        ensures { result < length self.now }
    {
        (id.wrapping_mul(SPREAD) >> 32) as usize & self.mask
    }

    /// Notes `number` as the number of the class with the identifier `id`.
    pub(crate) fn note(&mut self, id: u64, number: usize) {
        let bucket = self.bucket_of(id);
        if let Ok(number) = u32::try_from(number) {
            self.buckets[bucket] = number;
        }
    }

    /// Returns the number at the bucket that `id` selects.
    // Inlined, because it is called for each instance and each object array that is marked.
    #[inline(always)]
    pub(crate) fn guess(&self, id: u64) -> u32 {
        self.buckets[self.bucket_of(id)]
    }
}
