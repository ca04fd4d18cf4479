//! Reads bytes from left to right.

ghost use Rattle.std.specs.Prelude.{◌≡◌, ◌==◌, length};
ghost use Rattle.hprof_grammar.specs.working.Reading.{Reads, ReadsAs, Passes, list_at, number_at, raw_at, type_at};

use crate::flaw::Flaw;
use crate::kinds::TypePlace;
use crate::tags_and_types::is_type_at;
use byteorder::{BigEndian, ByteOrder};

/// A reader of bytes. A method returns `Err(Flaw::Short)` if it needs more bytes than are left.
#[derive(Clone, Copy)]
pub struct Reader<'a> {
    /// The bytes that are left to read.
    pub rest: &'a [u8],
}

impl<'a> Reader<'a> {
    /// Creates a reader of `bytes`.
    pub fn new(bytes: &'a [u8]) -> Self
        ensures { result.rest.now ≡ bytes.now }
    {
        Reader { rest: bytes }
    }

    /// Tests whether no byte is left.
    pub fn is_empty(&self) -> bool
        ensures { result ≡ (length self.now.rest.now == 0) }
    {
        self.rest.is_empty()
    }

    /// Reads `count` bytes as they are.
    pub fn raw(&mut self, count: u64) -> Result<&'a [u8], Flaw>
        ensures { ReadsAs (λ x. x.now) result self.new.rest.now (raw_at count self.old.rest.now) }
    {
        let bytes = self.rest;
        let end = count as usize;
        if bytes.len() < end {
            return Err(Flaw::Short);
        }
        let (first, behind) = bytes.split_at(end);
        self.rest = behind;
        Ok(first)
    }

    /// Advances past a number of `width` bytes.
    pub fn advance(&mut self, width: u8) -> Result<(), Flaw>
        ensures { Passes result self.new.rest.now (number_at width self.old.rest.now) }
    {
        self.raw(u64::from(width))?;
        Ok(())
    }

    /// Advances past `count` numbers of `width` bytes each.
    #[tactic(auto, using(crate::proofs::Counts::numbers_are_bytes))]
    pub fn advance_all(&mut self, count: u32, width: u8) -> Result<(), Flaw>
        ensures { Passes result self.new.rest.now (list_at (number_at width) count self.old.rest.now) }
    {
        self.raw(u64::from(count) * u64::from(width))?;
        Ok(())
    }

    /// Reads a big-endian number of 2 bytes.
    pub fn u16(&mut self) -> Result<u16, Flaw>
        ensures { Reads result self.new.rest.now (number_at 2 self.old.rest.now) }
    {
        let bytes = self.rest;
        self.raw(2)?;
        Ok(BigEndian::read_u16(bytes))
    }

    /// Reads a big-endian number of 4 bytes.
    pub fn u32(&mut self) -> Result<u32, Flaw>
        ensures { Reads result self.new.rest.now (number_at 4 self.old.rest.now) }
    {
        let bytes = self.rest;
        self.raw(4)?;
        Ok(BigEndian::read_u32(bytes))
    }

    /// Reads a type code. `Err(Flaw::WrongType)` if the code is not allowed at `place`.
    pub fn type_code(&mut self, place: TypePlace) -> Result<u8, Flaw>
        ensures { Reads result self.new.rest.now (type_at place self.old.rest.now) }
    {
        let [code, behind @ ..] = self.rest else {
            return Err(Flaw::Short);
        };
        if !is_type_at(place, *code) {
            return Err(Flaw::WrongType);
        }
        self.rest = behind;
        Ok(*code)
    }
}
