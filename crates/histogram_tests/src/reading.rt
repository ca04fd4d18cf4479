//! Readers that end, fail, or never end.

use histogram::{Counted, ReaderRefusal};
use std::alloc::Global;
use std::io;
use std::io::Read;

/// The kinds of fault after which a caller might be tempted to try again.
const KINDS: [io::ErrorKind; 2] = [io::ErrorKind::Interrupted, io::ErrorKind::WouldBlock];

/// A reader that gives one of `bytes` a call, and none at their end. Call number `fails_at`, counted from 1, fails with
/// a fault of the kind `kind`; none fails if `fails_at` is 0.
#[derive(Drop)]
struct Drip<'a> {
    bytes: &'a [u8],
    calls: u32,
    fails_at: u32,
    kind: io::ErrorKind,
}

impl Read for Drip<'_> {
    fn read(&mut self, buf: &mut [u8]) -> io::Result<usize> {
        self.calls = self.calls.saturating_add(1);
        if self.calls == self.fails_at {
            return Err(io::Error::from(self.kind));
        }
        let count = self.bytes.len().min(buf.len()).min(1);
        let (front, rest) = self.bytes.split_at(count);
        buf[..count].copy_from_slice(front);
        self.bytes = rest;
        Ok(count)
    }
}

/// A reader that never ends: each read returns the length of the buffer, and writes nothing into the buffer.
#[derive(Drop)]
struct Endless {
    given: usize,
}

impl Read for Endless {
    fn read(&mut self, buf: &mut [u8]) -> io::Result<usize> {
        self.given = self.given.saturating_add(buf.len());
        Ok(buf.len())
    }
}

/// Returns how many bytes are read up to `limit`, and how many the reader gave.
fn read_endless(alloc: Global, limit: usize) -> Result<(usize, usize), ReaderRefusal> {
    let mut reader = Counted::new(Endless { given: 0 });
    let bytes = reader.read_to_limit(alloc, limit)?;
    let Endless { given } = reader.into_inner();
    Ok((bytes.len(), given))
}

#[test]
fn a_reader_without_an_end_is_read_up_to_the_limit(rt: HostRuntime) {
    for limit in [0, 1, 9, 20_000] {
        let counts = read_endless(rt.alloc(), limit);
        assert_eq!(rt; counts, Ok((limit, limit)), "no read behind the limit");
    }
}

/// Returns a reader of four bytes that fails at the call `fails_at`.
fn dripping(fails_at: u32, kind: io::ErrorKind) -> Drip<'static> {
    Drip {
        bytes: b"heap",
        calls: 0,
        fails_at,
        kind,
    }
}

/// Tests whether a read of the four bytes, up to `limit` of them, returns `want`, and no call failed.
fn reads(alloc: Global, limit: usize, want: &str) -> bool {
    let mut reader = Counted::new(dripping(0, io::ErrorKind::Other));
    match reader.read_to_limit(alloc, limit) {
        Ok(bytes) => bytes.as_slice() == want.as_bytes() && reader.failures() == 0,
        Err(_) => false,
    }
}

/// A reader of `left` bytes that counts its calls. Each read gives as many bytes as the buffer has room for, or all
/// that are left.
#[derive(Drop)]
struct Block {
    left: usize,
    calls: u32,
}

impl Read for Block {
    fn read(&mut self, buf: &mut [u8]) -> io::Result<usize> {
        self.calls = self.calls.saturating_add(1);
        let count = self.left.min(buf.len());
        self.left -= count;
        Ok(count)
    }
}

/// Reads a block of `length` bytes, of which `expected` are expected. Returns how many bytes are read, and with how
/// many calls.
fn read_block(
    alloc: Global,
    length: usize,
    expected: usize,
) -> (Result<usize, ReaderRefusal>, u32) {
    let block = Block {
        left: length,
        calls: 0,
    };
    let mut reader = Counted::of_size(block, expected);
    let outcome = reader
        .read_to_limit(alloc, 10_000_000)
        .map(|bytes| bytes.len());
    (outcome, reader.into_inner().calls)
}

/// One read takes 262,144 bytes at most, and the last read finds the end.
#[test]
fn a_large_file_takes_few_reads(rt: HostRuntime) {
    for (length, calls) in [(0usize, 1), (262_144, 2), (600_000, 4), (2_621_440, 11)] {
        for expected in [0, length.saturating_add(1)] {
            let told = read_block(rt.alloc(), length, expected);
            assert_eq!(rt; told, (Ok(length), calls), "{expected} bytes are expected");
        }
    }
}

#[test]
fn reads_to_the_end_or_the_limit(rt: HostRuntime) {
    for (limit, want) in [(9, "heap"), (4, "heap"), (3, "hea"), (0, "")] {
        assert!(rt; reads(rt.alloc(), limit, want), "limit {limit}");
    }
}

/// Reads from a reader that fails at the call `fails_at`. Returns how many bytes are read, or the refusal; how many
/// calls failed; and how many calls there were.
fn read_failing(
    alloc: Global,
    fails_at: u32,
    kind: io::ErrorKind,
) -> (Result<usize, ReaderRefusal>, u64, u32) {
    let mut reader = Counted::new(dripping(fails_at, kind));
    let outcome = reader.read_to_limit(alloc, 9).map(|bytes| bytes.len());
    let failures = reader.failures();
    (outcome, failures, reader.into_inner().calls)
}

#[test]
fn a_read_fault_is_no_end(rt: HostRuntime) {
    for kind in KINDS {
        for fails_at in 1..=5 {
            assert_eq!(rt;
                read_failing(rt.alloc(), fails_at, kind),
                (Err(ReaderRefusal::ReadFault), 1, fails_at),
                "no call after the fault at call {fails_at}"
            );
        }
    }
}
