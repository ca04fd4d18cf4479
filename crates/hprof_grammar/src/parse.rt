//! Reads a whole dump, from its first byte to its last.

ghost use Rattle.std.specs.Prelude.{◌≡◌, ◌≤◌, IfOk, length};
ghost use Rattle.hprof_grammar.specs.Places.{IsDumpOf};
ghost use Rattle.hprof_grammar.specs.Fault.{FirstFault};
ghost use Rattle.hprof_grammar.specs.working.Joining.{HasHeader};
ghost use Rattle.hprof_grammar.specs.Refusal.{IfFault};

use crate::dump::Dump;
use crate::fault_codes;
use crate::flaw::ReadRefusal;
use crate::parts::read_in_parts;
use crate::record_list::{FIRST_RECORD, note_all};
use crate::tags_and_types::is_id_size;
use crate::team::Team;
use byteorder::{BigEndian, ByteOrder};
use std::alloc::Allocator;
use std::thread::Threads;

/// The length in bytes of the longest dump that is read.
pub const LIMIT: u32 = 1_073_741_824;

/// The first bytes of a dump.
const MAGIC: &[u8] = b"JAVA PROFILE 1.0.2\0";

/// The offset of the size of identifiers.
const ID_SIZE_AT: u32 = 19;

/// Returns the size of identifiers that the header states. `Err` has the first fault if the bytes are too many or the
/// header is wrong.
fn header_id_size(bytes: &[u8]) -> Result<u8, ReadRefusal>
    ensures ok { IfOk result (λ id_size. HasHeader id_size bytes.now) }
    ensures fault { IfFault result (λ fault. FirstFault bytes.now fault.code fault.offset) }
{
    if bytes.len() > LIMIT as usize {
        return Err(ReadRefusal::fault(fault_codes::TOO_LARGE, LIMIT));
    }
    if !bytes.starts_with(MAGIC) {
        return Err(ReadRefusal::fault(fault_codes::BAD_HEADER, 0));
    }
    if bytes.len() < FIRST_RECORD as usize {
        return Err(ReadRefusal::fault(fault_codes::TRUNCATED, 0));
    }
    let size = BigEndian::read_u32(&bytes[ID_SIZE_AT as usize..]);
    if !is_id_size(size) {
        return Err(ReadRefusal::fault(fault_codes::BAD_ID_SIZE, ID_SIZE_AT));
    }
    Ok(size as u8)
}

/// Reads a dump in the format of the HPROF manual, JAVA PROFILE 1.0.2, of at most 2^30 bytes. Returns the dump that
/// `bytes` spell, as places in them.
///
/// `Err(ReadRefusal::Fault(..))` has the first fault if `bytes` spell no dump, `Err(ReadRefusal::OutOfMemory)` means
/// that an allocation failed.
///
/// If `team` shares work of this size and the records make two parts or more, its threads read the dump in parts. If
/// the bytes have a fault or an allocation fails, the calling thread reads the whole dump again, and only that second
/// result counts.
pub fn read<T: Threads + Sync, A: Allocator + Copy + Send + Sync>(
    team: &Team<'_, T>,
    alloc: A,
    bytes: &[u8],
) -> Result<Dump<A>, ReadRefusal>
    ensures dump { IfOk result (λ dump. IsDumpOf bytes.now dump) }
    ensures fault { IfFault result (λ fault. FirstFault bytes.now fault.code fault.offset) }
{
    let id_size = header_id_size(bytes)?;
    if let Some(dump) = read_in_parts(team, alloc, bytes, id_size) {
        return Ok(dump);
    }
    let mut dump = Dump::new(alloc, id_size);
    note_all(&mut dump, &bytes[FIRST_RECORD as usize..])?;
    Ok(dump)
}
