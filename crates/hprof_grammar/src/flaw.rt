//! The faults that bytes can have as a dump, and the refusals.

use crate::fault_codes;
use std::fmt;
use thiserror::Error;

/// The reason why bytes do not begin with a whole record or sub-record.
#[derive(Clone, Copy, Debug, PartialEq, Eq)]
pub enum Flaw {
    /// The tag of a sub-record is in no table.
    UnknownTag,
    /// A field runs past the end of the bytes.
    Short,
    /// A type code is not allowed at its place.
    WrongType,
}

impl Flaw {
    ghost use Rattle.std.specs.Prelude.{◌≡◌};
    ghost use Rattle.hprof_grammar.specs.working.Reading as reading;

    /// Returns the code of this flaw in a sub-record.
    pub fn code(self) -> u8
        ensures { result ≡ reading.flaw_code self }
    {
        match self {
            Flaw::UnknownTag => fault_codes::BAD_SUB_TAG,
            Flaw::Short => fault_codes::SUB_TRUNCATED,
            Flaw::WrongType => fault_codes::BAD_TYPE,
        }
    }
}

/// The first fault of bytes that are no dump.
#[derive(Clone, Copy, Debug, PartialEq, Eq, Error)]
pub struct FormatFault {
    /// The code, one of `fault_codes`: 1 for the text of the header, 2 for the size of identifiers, 3 if the header or
    /// a record runs past the end, 4 for the length of a record, 5 for the tag of a sub-record, 6 if a sub-record runs
    /// past the end of its heap record, 7 for a type code, 8 for the order of the snapshot's records, 14 for too many
    /// bytes.
    pub code: u8,
    /// The offset of the fault, in bytes from the beginning of the dump.
    pub offset: u64,
}

impl fmt::Display for FormatFault {
    ghost use Rattle.std.specs.Prelude.{Some};
    ghost use Rattle.hprof_grammar.specs.Refusal.{fault_text};

    ghost output = { λ fault. Some (fault_text fault) };

    fn fmt<W: fmt::Write>(&self, f: &mut fmt::Formatter<W>) -> fmt::Result {
        let code = self.code;
        let offset = self.offset;
        write!(f, "fault {code} at {offset}")
    }
}

/// The reason why bytes were not read as a dump.
#[derive(Clone, Copy, Debug, PartialEq, Eq, Error)]
pub enum ReadRefusal {
    /// The bytes are no dump.
    Fault(FormatFault),
    /// An allocation failed.
    OutOfMemory,
}

impl ReadRefusal {
    ghost use Rattle.std.specs.Prelude.{◌≡◌};

    /// Returns the refusal of bytes whose first fault has `code` and is at the offset `at`.
    pub(crate) fn fault(code: u8, at: u32) -> Self
        ensures { result ≡ ReadRefusal.Fault (record { code = code; offset = at }) }
    {
        ReadRefusal::Fault(FormatFault {
            code,
            offset: u64::from(at),
        })
    }
}

impl fmt::Display for ReadRefusal {
    ghost use Rattle.std.specs.Prelude.{Some};
    ghost use Rattle.hprof_grammar.specs.Refusal.{read_refusal_text};

    ghost output = { λ refusal. Some (read_refusal_text refusal) };

    fn fmt<W: fmt::Write>(&self, f: &mut fmt::Formatter<W>) -> fmt::Result {
        match self {
            ReadRefusal::Fault(fault) => write!(f, "the bytes are no heap dump: {fault}"),
            ReadRefusal::OutOfMemory => write!(f, "out of memory"),
        }
    }
}
