//! Reads the sub-records of a heap record, one after another to its end.

ghost use Rattle.std.specs.Prelude.{◌≡◌, ◌+◌, ◌<◌, ◌≤◌, ◌^◌, OnOk, [], length};
ghost use Rattle.hprof_grammar.specs.working.Joining.{AddsSubs, HasSubFault};
ghost use Rattle.hprof_grammar.specs.Refusal.{IfFault};

use crate::dump::Dump;
use crate::flaw::ReadRefusal;
use crate::reader::Reader;
use crate::sub_records::sub_record;
use std::alloc::Allocator;

/// Notes the sub-records of a heap record. `body` is the record's body, `at` the offset of that body in the dump.
pub fn note_subs<A: Allocator>(dump: &mut Dump<A>, body: &[u8], at: u32) -> Result<(), ReadRefusal>
    requires low { 1 ≤ dump.old.id_size }
    requires high { dump.old.id_size ≤ 8 }
    requires room { at + length body.now < 2 ^ 32 }
    ensures adds { OnOk result (AddsSubs at body.now [] dump.old dump.new) }
    ensures fault { IfFault result (HasSubFault dump.old.id_size at body.now) }
{
    let id_size = dump.id_size();
    let mut reader = Reader::new(body);
    while !reader.is_empty() {
        let place = at + (body.len() - reader.rest.len()) as u32;
        match sub_record(&mut reader, id_size) {
            Ok(kind) => dump.note(kind, place)?,
            Err(flaw) => {
                let code = flaw.code();
                return Err(ReadRefusal::fault(code, place));
            }
        }
    }
    Ok(())
}
