//! Notes the places of a dump's records and sub-records.

ghost use Rattle.std.specs.Prelude.{[], ◌≡◌, ◌+◌, ◌<◌, ◌≤◌, ◌^◌, IfOk, OnOk, ℕ, length};
ghost use Rattle.hprof_grammar.specs.Dump.{header_length};
ghost use Rattle.hprof_grammar.specs.working.Joining.{AddsAll, AddsRecord, AddsRecordsFrom, FrameFault};
ghost use Rattle.hprof_grammar.specs.working.Joining.{HasRecordFault};
ghost use Rattle.hprof_grammar.specs.Refusal.{IfFault};

use crate::dump::Dump;
use crate::flaw::ReadRefusal;
use crate::frame::next_frame;
use crate::reader::Reader;
use crate::snapshot_order::SnapshotState;
use crate::sub_record_list::note_subs;
use crate::tags_and_types::is_length_of;
use crate::{fault_codes, tags};
use std::alloc::Allocator;

/// The offset of the first record of a dump: the length of its header.
pub const FIRST_RECORD: u32 = 31;

/// The number of bytes of a record before its body: tag, time and length.
const FRAME: u32 = 9;

/// Notes in `dump` the record at the offset `at`, which has `tag` and `body`: the place of a string or a loaded class,
/// the places of a heap record's sub-records, and nothing of other records. `order` is the snapshot state before the
/// record. Returns the state after the record.
fn note_record<A: Allocator>(
    dump: &mut Dump<A>,
    order: SnapshotState,
    tag: u8,
    body: &[u8],
    at: u32,
) -> Result<SnapshotState, ReadRefusal>
    requires low { 1 ≤ dump.old.id_size }
    requires high { dump.old.id_size ≤ 8 }
    requires room { at + 9 + length body.now < 2 ^ 32 }
    ensures adds { IfOk result (λ next. (time : ℕ) → AddsRecord at tag time body.now order next dump.old dump.new) }
    ensures fault { IfFault result (FrameFault dump.old.id_size at tag body.now order) }
{
    if !is_length_of(dump.id_size(), tag, body.len()) {
        return Err(ReadRefusal::fault(fault_codes::BAD_LENGTH, at));
    }
    let Some(next) = order.after(tag) else {
        return Err(ReadRefusal::fault(fault_codes::DUMP_ORDER, at));
    };
    match tag {
        tags::STRING_IN_UTF8 => dump.note_string(at)?,
        tags::LOAD_CLASS => dump.note_loaded(at)?,
        tags::HEAP_DUMP | tags::HEAP_DUMP_SEGMENT => note_subs(dump, body, at + FRAME)?,
        _ => {}
    }
    Ok(next)
}

/// Notes in `dump` the records in `bytes`. `at` is the offset at which `bytes` begin, `order` the snapshot state there.
/// Returns the state after all of the records. A returned fault is the first one of the dump if `bytes` are all bytes
/// after the header.
pub fn note_records<A: Allocator>(
    dump: &mut Dump<A>,
    order: SnapshotState,
    bytes: &[u8],
    at: u32,
) -> Result<SnapshotState, ReadRefusal>
    requires low { 1 ≤ dump.old.id_size }
    requires high { dump.old.id_size ≤ 8 }
    requires room { at + length bytes.now < 2 ^ 32 }
    ensures adds { IfOk result (λ reached. AddsRecordsFrom at order bytes.now [] reached dump.old dump.new) }
    ensures fault { IfFault result (λ fault. at ≡ header_length → order ≡ SnapshotState.Before
        → HasRecordFault dump.old.id_size bytes.now fault) }
{
    let mut order = order;
    let mut reader = Reader::new(bytes);
    while !reader.is_empty() {
        let place = at + (bytes.len() - reader.rest.len()) as u32;
        let Ok(frame) = next_frame(&mut reader) else {
            return Err(ReadRefusal::fault(fault_codes::TRUNCATED, place));
        };
        order = note_record(dump, order, frame.tag, frame.body, place)?;
    }
    Ok(order)
}

/// Notes all records of a dump, and tests that its snapshot is complete. `bytes` are all bytes after the header.
pub fn note_all<A: Allocator>(dump: &mut Dump<A>, bytes: &[u8]) -> Result<(), ReadRefusal>
    requires low { 1 ≤ dump.old.id_size }
    requires high { dump.old.id_size ≤ 8 }
    requires room { header_length + length bytes.now < 2 ^ 32 }
    ensures adds { OnOk result (AddsAll bytes.now dump.old dump.new) }
    ensures fault { IfFault result (HasRecordFault dump.old.id_size bytes.now) }
{
    let order = note_records(dump, SnapshotState::Before, bytes, FIRST_RECORD)?;
    if !order.is_done() {
        let end = FIRST_RECORD + bytes.len() as u32;
        return Err(ReadRefusal::fault(fault_codes::DUMP_ORDER, end));
    }
    Ok(())
}
