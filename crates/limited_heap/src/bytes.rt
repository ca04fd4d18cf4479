//! How many bytes the blocks of a heap take.

ghost use Rattle.std.specs.Prelude.{◌≤◌};

use std::sync::atomic::{AtomicUsize, Ordering};

/// The bytes that the blocks of a heap take.
#[derive(Clone, Copy, Debug, PartialEq, Eq)]
pub struct Usage {
    /// The bytes of all blocks that are not freed yet.
    pub in_use: usize,
    /// The most bytes that were in use at the same time.
    pub peak: usize,
}

/// A count of the bytes in use, and of the most that ever were. Threads may count together.
#[derive(Drop)]
pub(crate) struct Bytes {
    in_use: AtomicUsize,
    peak: AtomicUsize,
}

impl Bytes {
    /// Creates a count of no bytes.
    pub(crate) fn new() -> Bytes {
        Bytes {
            in_use: AtomicUsize::new(0),
            peak: AtomicUsize::new(0),
        }
    }

    /// Counts a block of `size` bytes.
    pub(crate) fn add(&self, size: usize) {
        let before = self.in_use.fetch_add(size, Ordering::SeqCst);
        self.peak
            .fetch_max(before.saturating_add(size), Ordering::SeqCst);
    }

    /// Stops counting a block of `size` bytes, which was counted.
    pub(crate) fn subtract(&self, size: usize) {
        self.in_use.fetch_sub(size, Ordering::SeqCst);
    }

    /// Returns the bytes in use and the most that ever were.
    // The bytes in use are read first. A thread that counts a block meanwhile has raised them, but maybe not yet the
    // peak.
    pub(crate) fn usage(&self) -> Usage
        ensures { result.in_use ≤ result.peak }
    {
        let in_use = self.in_use.load(Ordering::SeqCst);
        let peak = self.peak.load(Ordering::SeqCst).max(in_use);
        Usage { in_use, peak }
    }
}
