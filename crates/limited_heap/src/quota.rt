//! Which requests are granted, and how many bytes the granted blocks take.

ghost use Rattle.std.specs.Prelude.{◌≡◌, ◌+◌, ◌<◌, ◌≤◌, ◌^◌, false, true};

use crate::bytes::{Bytes, Usage};
use std::sync::atomic::{AtomicU64, Ordering};

/// A count of the requests made, and the number of requests granted before the first refusal. All later requests are
/// refused too, unless `alone`. Also counts the bytes of the granted blocks.
#[derive(Drop)]
pub(crate) struct Quota {
    granted: u64,
    alone: bool,
    made: AtomicU64,
    bytes: Bytes,
}

impl Quota {
    /// Creates a quota that grants the first `granted` requests and refuses the next one. It grants all later ones if
    /// `alone`, and refuses them otherwise.
    pub(crate) fn new(granted: u64, alone: bool) -> Quota
        ensures granted { result.granted ≡ granted }
        ensures alone { result.alone ≡ alone }
    {
        Quota {
            granted,
            alone,
            made: AtomicU64::new(0),
            bytes: Bytes::new(),
        }
    }

    /// Counts a request for `size` bytes and tests whether it is granted. If so, counts the bytes as in use. Each call
    /// takes a number of its own from the count, so the requests granted are exactly those whose numbers `grants`
    /// accepts, whichever threads make them. The count would wrap after 2^64 requests, which no run makes.
    pub(crate) fn take(&self, size: usize) -> bool {
        let is_granted = self.grants(self.made.fetch_add(1, Ordering::SeqCst));
        if is_granted {
            self.bytes.add(size);
        }
        is_granted
    }

    /// Counts the `size` bytes of a granted block as no longer in use.
    pub(crate) fn give_back(&self, size: usize) {
        self.bytes.subtract(size);
    }

    /// Returns the bytes in use and the most that ever were.
    pub(crate) fn usage(&self) -> Usage
        ensures { result.in_use ≤ result.peak }
    {
        self.bytes.usage()
    }

    /// Tests whether request number `number` is granted.
    fn grants(&self, number: u64) -> bool
        ensures before { number < self.now.granted → result ≡ true }
        ensures refused { number ≡ self.now.granted → result ≡ false }
        ensures after { self.now.granted < number → result ≡ self.now.alone }
    {
        number < self.granted || self.alone && number > self.granted
    }

    /// Returns how many more requests are granted before one is refused: 0 after the first refusal.
    pub(crate) fn left(&self) -> u64
        ensures { result ≤ self.now.granted }
    {
        let made = self.made.load(Ordering::SeqCst);
        self.granted.saturating_sub(made)
    }

    /// Returns the number of requests that were refused.
    pub(crate) fn refused(&self) -> u64
        ensures beyond { result + self.now.granted < 2 ^ 64 }
        ensures one { self.now.alone ≡ true → result ≤ 1 }
    {
        let made = self.made.load(Ordering::SeqCst);
        let beyond = made.saturating_sub(self.granted);
        if self.alone { beyond.min(1) } else { beyond }
    }
}
