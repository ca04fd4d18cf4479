//! The calls that count failures. Code elsewhere can neither set the count nor note a flush.

ghost use Rattle.std.specs.Prelude.{◌≡◌, ◌+◌, ◌-◌, ◌^◌, ◌<◌, ◌&&◌, if◌then◌else◌, is_err, true};
ghost use Rattle.std.specs.Io.{ReadsAtMost, WritesAtMost};
ghost use Rattle.std.specs.Io.KnownBytes.{Keeps, ReadConsumes, WriteAppends};
ghost use Rattle.histogram.specs.Counting.{failures_of, inner_of, is_flushed};
ghost use Rattle.histogram.specs.Failing.{is_failed_write, takes_nothing};

use super::Counted;
use std::io;
use std::io::{Read, Write};

impl<T> Counted<T> {
    /// Wraps `inner`, a reader or a writer. The count of its failures starts at 0.
    pub fn new(inner: T) -> Self
        ensures wraps { inner_of result ≡ inner }
        ensures starts { failures_of result ≡ 0 }
    {
        Counted::of_size(inner, 0)
    }

    /// Wraps the reader `inner`, which is expected to give `expected` bytes: `read_to_limit` takes room for them at
    /// once, up to its limit. The reader may give more or fewer.
    pub fn of_size(inner: T, expected: usize) -> Self
        ensures wraps { inner_of result ≡ inner }
        ensures starts { failures_of result ≡ 0 }
        ensures flushed { is_flushed result ≡ true }
    {
        Counted {
            inner,
            failures: 0,
            is_flushed: true,
            expected,
        }
    }

    /// Returns how many calls of the reader or the writer have failed since it was wrapped.
    pub fn failures(&self) -> u64
        ensures { result ≡ failures_of self.now }
    {
        self.failures
    }

    /// Returns the number of bytes that the reader is expected to give.
    pub(crate) fn expected(&self) -> usize {
        self.expected
    }

    /// Returns the reader or the writer itself, without the count.
    pub fn into_inner(self) -> T
        ensures { result ≡ inner_of self }
    {
        let Counted {
            inner,
            failures: _,
            is_flushed: _,
            expected: _,
        } = self;
        inner
    }

    /// Raises the count by one if a call `failed`.
    fn count_if(&mut self, failed: bool)
        requires { failures_of self.old < 2 ^ 64 - 1 }
        ensures counts { failures_of self.new ≡ (if failed then failures_of self.old + 1 else failures_of self.old) }
        ensures keeps { inner_of self.new ≡ inner_of self.old }
        ensures flushed { is_flushed self.new ≡ is_flushed self.old }
    {
        if failed {
            self.failures += 1;
        }
    }
}

impl<R: Read> Counted<R> {
    /// Calls `read` of the wrapped reader once, and counts the call if it fails.
    pub fn read(&mut self, buf: &mut [u8]) -> io::Result<usize>
        requires { failures_of self.old < 2 ^ 64 - 1 }
        ensures bound { ReadsAtMost result buf.new }
        ensures bytes { ReadConsumes (R.remaining (inner_of self.old)) (R.remaining (inner_of self.new))
            result buf.new }
        ensures counts { failures_of self.new
            ≡ (if is_err result then failures_of self.old + 1 else failures_of self.old) }
    {
        let outcome = self.inner.read(buf);
        self.count_if(outcome.is_err());
        outcome
    }
}

impl<W: Write> Counted<W> {
    /// Calls `write` of the wrapped writer once. Counts the call if it returns a fault, or takes nothing of a `buf`
    /// that is not empty.
    pub fn write(&mut self, buf: &[u8]) -> io::Result<usize>
        requires { failures_of self.old < 2 ^ 64 - 1 }
        ensures bound { WritesAtMost result buf.now }
        ensures bytes { WriteAppends (W.contents (inner_of self.old)) (W.contents (inner_of self.new)) result buf.now }
        ensures counts { failures_of self.new
            ≡ (if is_failed_write result buf.now then failures_of self.old + 1 else failures_of self.old) }
        ensures flushed { is_flushed self.new ≡ (is_flushed self.old && takes_nothing result) }
    {
        let outcome = self.inner.write(buf);
        let took_nothing = matches!(outcome, Ok(0));
        self.is_flushed = self.is_flushed && (outcome.is_err() || took_nothing);
        self.count_if(outcome.is_err() || took_nothing && !buf.is_empty());
        outcome
    }

    /// Calls `flush` of the wrapped writer once, and counts the call if it fails.
    pub fn flush(&mut self) -> io::Result<()>
        requires { failures_of self.old < 2 ^ 64 - 1 }
        ensures bytes { Keeps (W.contents (inner_of self.old)) (W.contents (inner_of self.new)) }
        ensures counts { failures_of self.new
            ≡ (if is_err result then failures_of self.old + 1 else failures_of self.old) }
        ensures flushed { is_flushed self.new ≡ (if is_err result then is_flushed self.old else true) }
    {
        let outcome = self.inner.flush();
        if outcome.is_ok() {
            self.is_flushed = true;
        }
        self.count_if(outcome.is_err());
        outcome
    }
}
