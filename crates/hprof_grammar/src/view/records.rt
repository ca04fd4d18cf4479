//! Reads the header's time and the fields of records.

ghost use Rattle.std.specs.Prelude.{List, length, ℕ, ◌≡◌};
ghost use Rattle.hprof_grammar.specs.Record.{Record, body_of, time_of};
ghost use Rattle.hprof_grammar.specs.Standing.{HeaderStands, LoadStands, RecordStands, StringStands};

use crate::view::identifiers::number_at;
use crate::view::{View, bytes_at, u32_at};

/// The offset of the two words of the header's time.
const HEADER_TIME: usize = 23;

/// The offset of a record's time. This and the next two offsets are numbers of bytes from the tag.
const TIME: usize = 1;

const LENGTH: usize = 5;

const BODY: usize = 9;

/// The offset of the serial number in a LOAD CLASS. This and the offsets below are numbers of bytes from the tag,
/// without the identifier before the field.
const SERIAL: usize = BODY;

const CLASS: usize = SERIAL + 4;

const STACK_TRACE: usize = CLASS;

const NAME: usize = STACK_TRACE + 4;

impl<'a> View<'a> {
    /// Returns the time of the dump in milliseconds since 1970, which the header has as two words.
    pub fn header_time(&self) -> u64
        requires { (time : ℕ) × HeaderStands self.now time }
        ensures { (time : ℕ) → HeaderStands self.now time → result ≡ time }
    {
        number_at(self.bytes, HEADER_TIME, 8)
    }

    /// Returns the time of a record, in microseconds since the time of the header.
    pub fn record_time(&self, at: u32) -> u32
        requires { (r : Record) × RecordStands self.now at r }
        ensures { (r : Record) → RecordStands self.now at r → result ≡ time_of r }
    {
        u32_at(self.bytes, at as usize + TIME)
    }

    /// Returns the length in bytes of a record's body.
    pub fn record_length(&self, at: u32) -> u32
        requires { (r : Record) × RecordStands self.now at r }
        ensures { (r : Record) → RecordStands self.now at r → result ≡ length (body_of self.now.id_size r) }
    {
        u32_at(self.bytes, at as usize + LENGTH)
    }

    /// Returns the identifier of a string.
    pub fn string_id(&self, at: u32) -> u64
        requires { (time id : ℕ) × (text : List ℕ) × StringStands self.now at time id text }
        ensures { (time id : ℕ) (text : List ℕ) → StringStands self.now at time id text → result ≡ id }
    {
        number_at(self.bytes, at as usize + BODY, self.id_size as usize)
    }

    /// Returns the bytes of a string's text.
    pub fn string_text(&self, at: u32) -> &'a [u8]
        requires { (time id : ℕ) × (text : List ℕ) × StringStands self.now at time id text }
        ensures { (time id : ℕ) (text : List ℕ) → StringStands self.now at time id text → result.now ≡ text }
    {
        let size = self.id_size as usize;
        let length = u32_at(self.bytes, at as usize + LENGTH) as usize;
        bytes_at(self.bytes, at as usize + BODY + size, length - size)
    }

    /// Returns the serial number of a loaded class.
    pub fn loaded_class_serial(&self, at: u32) -> u32
        requires { (time serial class stack name : ℕ) × LoadStands self.now at time serial class stack name }
        ensures { (time serial class stack name : ℕ) → LoadStands self.now at time serial class stack name
            → result ≡ serial }
    {
        u32_at(self.bytes, at as usize + SERIAL)
    }

    /// Returns the identifier of a loaded class.
    pub fn loaded_class_id(&self, at: u32) -> u64
        requires { (time serial class stack name : ℕ) × LoadStands self.now at time serial class stack name }
        ensures { (time serial class stack name : ℕ) → LoadStands self.now at time serial class stack name
            → result ≡ class }
    {
        number_at(self.bytes, at as usize + CLASS, self.id_size as usize)
    }

    /// Returns the serial number of the stack trace of a loaded class.
    pub fn loaded_class_stack_trace(&self, at: u32) -> u32
        requires { (time serial class stack name : ℕ) × LoadStands self.now at time serial class stack name }
        ensures { (time serial class stack name : ℕ) → LoadStands self.now at time serial class stack name
            → result ≡ stack }
    {
        u32_at(
            self.bytes,
            at as usize + STACK_TRACE + self.id_size as usize,
        )
    }

    /// Returns the identifier of the string that names a loaded class.
    pub fn loaded_class_name(&self, at: u32) -> u64
        requires { (time serial class stack name : ℕ) × LoadStands self.now at time serial class stack name }
        ensures { (time serial class stack name : ℕ) → LoadStands self.now at time serial class stack name
            → result ≡ name }
    {
        let size = self.id_size as usize;
        number_at(self.bytes, at as usize + NAME + size, size)
    }
}
