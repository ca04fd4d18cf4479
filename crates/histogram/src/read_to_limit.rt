//! Reading up to a limit.

ghost use Rattle.std.specs.Prelude.{◌≡◌, ◌≢◌, ◌+◌, ◌-◌, ◌^◌, ◌<◌, ◌≤◌, ◌↔◌, if◌then◌else◌, take, drop, is_err, length};
ghost use Rattle.std.specs.Prelude.{IfOk, IfSome, IsErrOf, OnErr, OnOk, vec_len};
ghost use Rattle.std.specs.Io.KnownBytes.{Consumes, IsAtEnd, Keeps};
ghost use Rattle.histogram.specs.Counting.{ConsumesFewer, failures_of, inner_of};

use crate::counted::Counted;
use std::alloc::{AllocError, Allocator};
use std::io;
use std::io::Read;
use thiserror::Error;

/// Why the bytes of a reader could not be read.
#[derive(Clone, Copy, PartialEq, Eq, Debug, Error)]
pub enum ReaderRefusal {
    /// A read failed. It was not tried again, whatever its kind.
    #[error("a read failed")]
    ReadFault,
    /// An allocation for the bytes failed.
    #[error("out of memory")]
    OutOfMemory,
}

/// The most bytes that one read asks for, and the most for which room is asked when the vector is full.
const CHUNK: usize = 262_144;

/// The number of bytes that are zeroed at a time.
// The C library zeroes 2 KiB and more with one instruction that runs over many pages. This is slow if the pages are
// touched for the first time: to zero 587 MB took 440 ms with that instruction, and 405 ms in steps of this size.
const ZEROED_AT_ONCE: usize = 2_047;

impl<R: Read> Counted<R> {
    /// Reads, straight into the result, until a read returns 0 or `limit` bytes were read. The limit is a parameter, so
    /// that a test can give a small one.
    ///
    /// `Err(ReadFault)` if a read fails; it is not tried again. `Err(OutOfMemory)` if an allocation for the bytes
    /// fails. After a refusal, the clauses bound the number of bytes that were read, and say nothing else about them.
    pub fn read_to_limit<A: Allocator>(
        &mut self,
        alloc: A,
        limit: usize,
    ) -> Result<Vec<u8, A>, ReaderRefusal>
        requires { failures_of self.old < 2 ^ 64 - 1 }
        ensures bytes { IfOk result (λ v. IfSome (R.remaining (inner_of self.old)) (λ xs. v.items ≡ take limit xs)) }
        ensures consumed { IfOk result (λ v.
            Consumes (R.remaining (inner_of self.old)) (R.remaining (inner_of self.new)) v.items) }
        ensures size { IfOk result (λ v. vec_len v ≤ limit) }

        // The count rises if a read failed, and only then.
        ensures fault { IsErrOf result ReaderRefusal.ReadFault ↔ (failures_of self.new ≡ failures_of self.old + 1) }
        ensures no_fault { result ≢ Err ReaderRefusal.ReadFault → failures_of self.new ≡ failures_of self.old }

        // No read is made after the limit is reached: fewer bytes were read before the read that failed.
        ensures below { result ≡ Err ReaderRefusal.ReadFault
            → ConsumesFewer limit (R.remaining (inner_of self.old)) (R.remaining (inner_of self.new)) }
        ensures within { result ≡ Err ReaderRefusal.OutOfMemory
            → ConsumesFewer (limit + 1) (R.remaining (inner_of self.old)) (R.remaining (inner_of self.new)) }
    {
        let Ok(mut bytes) = Vec::with_capacity(alloc, self.expected().min(limit)) else {
            return Err(ReaderRefusal::OutOfMemory);
        };
        let mut filled = 0;
        while filled < limit {
            if make_room(&mut bytes, filled, limit).is_err() {
                return Err(ReaderRefusal::OutOfMemory);
            }
            match self.read_behind(bytes.as_mut_slice(), filled) {
                Ok(0) => break,
                Ok(count) => filled += count,
                Err(_) => return Err(ReaderRefusal::ReadFault),
            }
        }
        bytes.truncate(filled);
        Ok(bytes)
    }

    /// Makes one read into `bytes`, after the first `filled` of them.
    fn read_behind(&mut self, bytes: &mut [u8], filled: usize) -> io::Result<usize>
        requires below { failures_of self.old < 2 ^ 64 - 1 }
        requires room { filled < length bytes.old }
        ensures front { take filled bytes.new ≡ take filled bytes.old }
        ensures fits { IfOk result (λ n. filled + n ≤ length bytes.new) }
        ensures grown { IfOk result (λ n.
            Consumes (R.remaining (inner_of self.old)) (R.remaining (inner_of self.new))
            (take n (drop filled bytes.new))) }
        ensures end { IfOk result (λ n. n ≡ 0 → IsAtEnd (R.remaining (inner_of self.new))) }
        ensures kept { OnErr result (Keeps (R.remaining (inner_of self.old)) (R.remaining (inner_of self.new))) }
        ensures counts { failures_of self.new
            ≡ (if is_err result then failures_of self.old + 1 else failures_of self.old) }
    {
        self.read(&mut bytes[filled..])
    }
}

/// Makes room in `bytes` after the first `filled` of them, by appending zeros. The length stays at most `limit`.
/// `AllocError` if an allocation fails.
fn make_room<A: Allocator>(
    bytes: &mut Vec<u8, A>,
    filled: usize,
    limit: usize,
) -> Result<(), AllocError>
    requires filled { filled ≤ vec_len bytes.old }
    requires below { filled < limit }
    requires within { vec_len bytes.old ≤ limit }
    ensures room { OnOk result (filled < vec_len bytes.new) }
    ensures within { vec_len bytes.new ≤ limit }
    ensures front { take filled bytes.new.items ≡ take filled bytes.old.items }
{
    if filled == bytes.capacity() {
        bytes.reserve(CHUNK.min(limit - filled))?;
    }
    let end = bytes
        .capacity()
        .min(filled.saturating_add(CHUNK))
        .min(limit);
    while bytes.len() < end {
        let next = end.min(bytes.len().saturating_add(ZEROED_AT_ONCE));
        bytes.resize(next, 0)?;
    }
    Ok(())
}
