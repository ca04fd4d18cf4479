//! Readers and writers that count how many of their calls failed.

mod calls;

/// A reader or a writer of the standard library, with the number of its calls that failed.
///
/// A call fails if it returns a fault, and a write also if it takes nothing of a slice that is not empty. A count of 0
/// says what no error value can: that no fault ended a reader's bytes, and that no write or flush of a writer failed.
#[derive(Drop)]
pub struct Counted<T> {
    inner: T,
    failures: u64,
    /// Whether no write has taken something since the last successful flush, or since the start if there was no such
    /// flush. A count of flushes would need a limit, and could not tell a flush before a write from one after it.
    is_flushed: bool,
    /// The number of bytes that a reader is expected to give, or 0 if none was named.
    expected: usize,
}
