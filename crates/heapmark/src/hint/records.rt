//! Where the records of a file end.

ghost use Rattle.std.specs.Int.{from_be_bytes, w32};
ghost use Rattle.std.specs.Prelude.{◌≡◌, ◌<◌, IfSome, drop};

use std::alloc::Global;
use std::io::{BufReader, Read, Seek, SeekFrom};

/// The offset of the first record.
const FIRST: u64 = 31;

/// The number of bytes of a record before its body: the tag, a time and the length of the body.
const FRONT: usize = 9;

/// Returns the end of the record of `file` in which the offset `place` lies, by the length in that record: the file may
/// end earlier. For a place in the header, returns the header's end. Returns `None` if the file has no such record, or
/// if a read, a seek or an allocation fails.
///
/// A file may have a hundred million records. They are read through a buffer, so that one system call serves hundreds
/// of short records.
pub(crate) fn record_end<F: Read + Seek + Drop>(alloc: Global, file: F, place: u64) -> Option<u64>
    ensures { IfSome result (λ end. place < end) }
{
    let mut file = BufReader::new(alloc, file).ok()?;
    file.seek(SeekFrom::Start(FIRST)).ok()?;
    let mut end = FIRST;
    while end <= place {
        let mut front = [0; FRONT];
        file.read_exact(&mut front).ok()?;
        let length = body_length(&front);
        file.seek_relative(i64::from(length)).ok()?;
        end = end.checked_add(FRONT as u64 + u64::from(length))?;
    }
    Some(end)
}

/// Returns the length of the body of the record that begins with `front`.
fn body_length(front: &[u8; FRONT]) -> u32
    ensures { result ≡ from_be_bytes w32 (drop 5 front.now) }
{
    let [_, _, _, _, _, a, b, c, d] = *front;
    u32::from_be_bytes([a, b, c, d])
}
