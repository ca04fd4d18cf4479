//! Reads the fields of a dump's header, records and sub-records.
//!
//! A method that reads a field of a record or sub-record takes the place `at`, and requires that a record or sub-record
//! of the right kind is there. `dump_is_placed` says that this holds for all places of a `Dump`. Only
//! `View::identifier_at` and `number_at` read from bytes that the caller passes, and require that the identifier ends
//! within the bytes. Nothing here allocates.

mod arrays;
mod classes;
pub mod identifiers;
pub mod ids;
mod instances;
pub mod members;
mod records;
mod roots;
pub mod values;

ghost use Rattle.std.specs.Prelude.{Some, true, ◌+◌, ◌≡◌, ◌≤◌, drop, length, take};
ghost use Rattle.byteorder.specs.Endian.{big_number};
ghost use Rattle.hprof_grammar.specs.Dump.{is_object};
ghost use Rattle.hprof_grammar.specs.SubRecord.{SubRecord};
ghost use Rattle.hprof_grammar.specs.TagsAndTypes as tables;
ghost use Rattle.hprof_grammar.specs.Standing.{Stands, stack_of};

use crate::kinds::{Kind, ObjectKind};
use crate::tags_and_types;
use byteorder::{BigEndian, ByteOrder};
use std::marker::Model;

/// The offset of the first identifier of a sub-record. This and the offsets below are numbers of bytes from the tag,
/// without the identifiers before the field.
const OBJECT: usize = 1;

/// The offset of the serial number of the stack trace in the dump of an object.
const STACK_TRACE: usize = OBJECT;

const BEHIND_STACK_TRACE: usize = STACK_TRACE + 4;

/// The bytes of a dump and the size of its identifiers. Reads the fields of the header, and those of records and
/// sub-records at their places.
#[derive(Drop)]
pub struct View<'a> {
    bytes: &'a [u8],
    id_size: u8,
}

impl<'a> Model for View<'a> {
    ghost use Rattle.std.specs.Prelude.{◌≤◌};
    ghost use Rattle.hprof_grammar.specs.Standing.{Sight};

    ghost Value = { Sight };

    ghost view = { λ v. record { bytes = v.bytes.now; id_size = v.id_size } };

    ghost invariant = { λ v. (1 ≤ v.id_size) × (v.id_size ≤ 8) };
}

impl<'a> View<'a> {
    ghost use Rattle.hprof_grammar.specs.ObjectKinds.{object_kind};

    /// Creates a view of the bytes of a dump whose identifiers have `id_size` bytes, from 1 to 8.
    pub fn new(bytes: &'a [u8], id_size: u8) -> Self
        requires low { 1 ≤ id_size }
        requires high { id_size ≤ 8 }
        ensures bytes { result.bytes ≡ bytes.now }
        ensures size { result.id_size ≡ id_size }
    {
        View { bytes, id_size }
    }

    /// Returns the size of an identifier in bytes, from 1 to 8.
    pub fn id_size(&self) -> u8
        ensures size { result ≡ self.now.id_size }
        ensures low { 1 ≤ self.now.id_size }
        ensures high { self.now.id_size ≤ 8 }
    {
        self.id_size
    }

    /// Returns the size in bytes of a value with `type_code`, or 0 if `type_code` is no type.
    pub fn size_of(&self, type_code: u8) -> u8
        ensures { result ≡ tables.size_of self.now.id_size type_code }
    {
        tags_and_types::size_of(self.id_size, type_code)
    }

    /// Returns the kind of the object that the sub-record at `at` describes.
    pub fn kind(&self, at: u32) -> ObjectKind
        requires { (sub : SubRecord) × Stands self.now at sub × (is_object sub ≡ true) }
        ensures { (sub : SubRecord) → Stands self.now at sub → is_object sub ≡ true → object_kind sub ≡ Some result }
    {
        match tags_and_types::kind_of(self.bytes[at as usize]) {
            Some(Kind::Object(kind)) => kind,
            _ => ObjectKind::PrimitiveArray,
        }
    }

    /// Returns the serial number of the stack trace of the object whose dump is at `at`.
    pub fn stack_trace(&self, at: u32) -> u32
        requires { (sub : SubRecord) × Stands self.now at sub × (is_object sub ≡ true) }
        ensures { (sub : SubRecord) → Stands self.now at sub → is_object sub ≡ true → stack_of sub ≡ Some result }
    {
        let size = self.id_size as usize;
        u32_at(self.bytes, at as usize + STACK_TRACE + size)
    }
}

/// Returns the big-endian number of 4 bytes at the offset `at`.
fn u32_at(bytes: &[u8], at: usize) -> u32
    requires { at + 4 ≤ length bytes.now }
    ensures { result ≡ big_number 4 (drop at bytes.now) }
{
    BigEndian::read_u32(&bytes[at..])
}

/// Returns the `count` bytes from the offset `at` on.
fn bytes_at(bytes: &[u8], at: usize, count: usize) -> &[u8]
    requires { at + count ≤ length bytes.now }
    ensures { result.now ≡ take count (drop at bytes.now) }
{
    let (_, behind) = bytes.split_at(at);
    let (part, _) = behind.split_at(count);
    part
}

/// Returns all bytes from the offset `at` on.
fn bytes_from(bytes: &[u8], at: usize) -> &[u8]
    requires { at ≤ length bytes.now }
    ensures { result.now ≡ drop at bytes.now }
{
    let (_, behind) = bytes.split_at(at);
    behind
}
