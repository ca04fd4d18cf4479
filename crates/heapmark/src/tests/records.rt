//! The walk over the records of a file for a hint: it makes few reads and seeks, even if there are many records.

use crate::hint::records::record_end;
use std::alloc::{AllocError, Global};
use std::io;
use std::io::{Cursor, Read, Seek, SeekFrom};
use std::sync::atomic::{AtomicU64, Ordering};

/// A file that counts its reads and seeks.
#[derive(Drop)]
struct Observed<'a> {
    file: Cursor<&'a [u8]>,
    calls: &'a AtomicU64,
}

impl Read for Observed<'_> {
    fn read(&mut self, buf: &mut [u8]) -> io::Result<usize> {
        self.calls.fetch_add(1, Ordering::SeqCst);
        self.file.read(buf)
    }
}

impl Seek for Observed<'_> {
    fn seek(&mut self, to: SeekFrom) -> io::Result<u64> {
        self.calls.fetch_add(1, Ordering::SeqCst);
        self.file.seek(to)
    }
}

/// The number of short records in the file, 9 bytes each.
const RECORDS: u64 = 50_000;

/// Returns a header, the short records, and a last record with a body of 300 bytes.
fn many_records(alloc: Global) -> Result<Vec<u8>, AllocError> {
    let mut bytes = vec![in alloc; 0u8; 31]?;
    for _ in 0..RECORDS {
        bytes.extend_from_slice(&[1, 0, 0, 0, 0, 0, 0, 0, 0])?;
    }
    bytes.extend_from_slice(&[12, 0, 0, 0, 0, 0, 0, 1, 44])?;
    bytes.resize(bytes.len().saturating_add(300), 0)?;
    Ok(bytes)
}

/// Returns the end of the record in which the offset `place` of `bytes` lies ([`record_end`]), and how many reads and
/// seeks that took.
fn end_at(alloc: Global, bytes: &[u8], place: u64) -> (Option<u64>, u64) {
    let calls = AtomicU64::new(0);
    let file = Observed {
        file: Cursor::new(bytes),
        calls: &calls,
    };
    let end = record_end(alloc, file, place);
    (end, calls.load(Ordering::SeqCst))
}

/// Tests whether the record around each offset of `cases` has the end that its case names, found by at most 200 reads
/// and seeks.
fn ends_are_found(alloc: Global, bytes: &[u8], cases: &[(u64, Option<u64>)]) -> bool {
    for (place, want) in cases {
        let (end, calls) = end_at(alloc, bytes, *place);
        if end != *want || calls > 200 {
            return false;
        }
    }
    true
}

#[test]
fn many_records_take_few_calls(rt: HostRuntime) {
    let last = 31 + 9 * RECORDS;
    let cases = [
        (0, Some(31)),
        (31, Some(40)),
        (39, Some(40)),
        (last - 1, Some(last)),
        (last, Some(last + 309)),
        (last + 308, Some(last + 309)),
        (last + 309, None),
    ];
    let is_right = match many_records(rt.alloc()) {
        Ok(bytes) => ends_are_found(rt.alloc(), bytes.as_slice(), &cases),
        Err(_) => false,
    };
    assert!(rt; is_right);
}
