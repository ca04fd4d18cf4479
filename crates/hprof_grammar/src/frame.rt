//! The parts that every record of a dump has: a tag, a time, a length, and a body of that length.

ghost use Rattle.std.specs.Prelude.{◌≡◌};
ghost use Rattle.hprof_grammar.specs.working.Reading.{ReadsAs, frame_at};

use crate::flaw::Flaw;
use crate::reader::Reader;

/// A whole record, whose body has not been read yet.
#[derive(Clone, Copy)]
pub struct Frame<'a> {
    /// The tag, which says the kind of the record.
    pub tag: u8,
    /// The time, in microseconds since the time of the header.
    pub time: u32,
    /// The bytes after the length field, which states their number.
    pub body: &'a [u8],
}

/// Reads the next record. `Err(Flaw::Short)` if no byte is left or the record runs past the end.
#[tactic(auto, unfolding(crate::specs::working::Reading::frame_at))]
pub fn next_frame<'a>(reader: &mut Reader<'a>) -> Result<Frame<'a>, Flaw>
    ensures { ReadsAs (λ frame. (frame.tag, frame.time, frame.body.now))
        result reader.new.rest.now (frame_at reader.old.rest.now) }
{
    let [tag, behind @ ..] = reader.rest else {
        return Err(Flaw::Short);
    };
    let tag = *tag;
    reader.rest = behind;
    let time = reader.u32()?;
    let length = reader.u32()?;
    let body = reader.raw(u64::from(length))?;
    Ok(Frame { tag, time, body })
}
