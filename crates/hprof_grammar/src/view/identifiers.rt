//! Reads identifiers.

ghost use Rattle.std.specs.Prelude.{◌+◌, ◌≡◌, ◌≤◌, drop, length};
ghost use Rattle.byteorder.specs.Endian.{big_number};
ghost use Rattle.hprof_grammar.specs.Dump.{id_of};
ghost use Rattle.hprof_grammar.specs.SubRecord.{SubRecord};
ghost use Rattle.hprof_grammar.specs.Standing.{Stands};

use crate::view::{OBJECT, View};
use byteorder::{BigEndian, ByteOrder};

/// Returns the big-endian number of `width` bytes at the offset `at`: the identifier there, if `width` is the size of
/// identifiers.
// The widths of a dump's fields (2, 4 and 8) have arms of their own, so that the compiler knows the width.
// Inlined, because this function reads every reference that is followed.
#[inline(always)]
pub fn number_at(bytes: &[u8], at: usize, width: usize) -> u64
    requires low { 1 ≤ width }
    requires high { width ≤ 8 }
    requires room { at + width ≤ length bytes.now }
    ensures { result ≡ big_number width (drop at bytes.now) }
{
    let (_, behind) = bytes.split_at(at);
    match width {
        2 => u64::from(BigEndian::read_u16(behind)),
        4 => u64::from(BigEndian::read_u32(behind)),
        8 => BigEndian::read_u64(behind),
        _ => BigEndian::read_uint(behind, width),
    }
}

impl<'a> View<'a> {
    /// Returns the first identifier of the sub-record at `at`: that of the object that a root names, or that a class,
    /// instance or array dump describes.
    pub fn object_id(&self, at: u32) -> u64
        requires { (sub : SubRecord) × Stands self.now at sub }
        ensures { (sub : SubRecord) → Stands self.now at sub → result ≡ id_of sub }
    {
        number_at(self.bytes, at as usize + OBJECT, self.id_size as usize)
    }

    /// Returns the identifier at the offset `at` of `bytes`, which are, for example, the values of an instance.
    pub fn identifier_at(&self, bytes: &[u8], at: usize) -> u64
        requires room { at + self.now.id_size ≤ length bytes.now }
        ensures { result ≡ big_number self.now.id_size (drop at bytes.now) }
    {
        number_at(bytes, at, self.id_size as usize)
    }
}
