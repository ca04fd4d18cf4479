//! Reads the values of constants and of static fields.

ghost use Rattle.std.specs.Prelude.{◌≡◌, ◌≤◌, ◌↔◌, [], IsTrue, drop, length, slice_index};
ghost use Rattle.hprof_grammar.specs.Series.{HasCountedValues, behind_counted_values, count_in, counted_values_in};
ghost use Rattle.hprof_grammar.specs.Series.{value_end, value_in};

use crate::tags_and_types::size_of;
use crate::view::bytes_at;
use crate::view::identifiers::number_at;
use byteorder::{BigEndian, ByteOrder};
use std::marker::Model;

/// A value of a constant or of a static field.
#[derive(Clone, Copy, Debug)]
pub struct TypedValue<'a> {
    /// The index of the constant, or the identifier of the string that names the static field.
    pub label: u64,
    /// The type code of the value: 2, or 4 to 11.
    pub type_code: u8,
    /// The bytes of the value, as many as a value of its type has.
    pub value: &'a [u8],
}

/// An iterator over the constants or the static fields of a class.
#[derive(Drop)]
pub struct Values<'a> {
    bytes: &'a [u8],
    id_size: u8,
    front: u8,
    left: u16,
}

impl<'a> Model for Values<'a> {
    ghost use Rattle.std.specs.Prelude.{List};
    ghost use Rattle.hprof_grammar.specs.Series.{HasLabelledValues, LabelledValue, values_in};

    ghost Value = { List LabelledValue };

    ghost view = { λ v. values_in v.id_size v.front v.left v.bytes.now };

    ghost invariant = { λ v. HasLabelledValues v.id_size v.front v.left v.bytes.now };
}

impl<'a> Values<'a> {
    /// Creates an iterator over the values in `bytes`, which begin with the number of values. Each value follows a
    /// label of `front` bytes and a type code.
    pub(crate) fn new(bytes: &'a [u8], id_size: u8, front: u8) -> Self
        requires low { 1 ≤ front }
        requires high { front ≤ 8 }
        requires room { HasCountedValues id_size front bytes.now }
        ensures { result ≡ counted_values_in id_size front bytes.now }
    {
        let (left, behind) = split_count(bytes);
        Values {
            bytes: behind,
            id_size,
            front,
            left,
        }
    }

    /// Returns another iterator over the remaining values. `self` does not move.
    pub fn again(&self) -> Values<'a>
        ensures { result ≡ self.now }
    {
        Values {
            bytes: self.bytes,
            id_size: self.id_size,
            front: self.front,
            left: self.left,
        }
    }

    /// Returns the number of remaining values.
    pub fn len(&self) -> usize
        ensures { result ≡ length self.now }
    {
        self.left as usize
    }

    /// Tests whether no value remains.
    pub fn is_empty(&self) -> bool
        ensures { IsTrue result ↔ (self.now ≡ []) }
    {
        self.left == 0
    }
}

impl<'a> Iterator for Values<'a> {
    ghost use Rattle.std.specs.Iterator.{YieldsFirstBy, item_count};
    ghost use Rattle.hprof_grammar.specs.MemberFields.{value_of};

    type Item = TypedValue<'a>;

    ghost next_gives = { YieldsFirstBy value_of (λ values. values) };

    ghost remaining = { item_count (λ values. values) };

    fn next(&mut self) -> Option<TypedValue<'a>> {
        if self.left == 0 {
            return None;
        }
        let bytes = self.bytes;
        let label = number_at(bytes, 0, self.front as usize);
        let (type_code, value, behind) = split_value(bytes, self.id_size, self.front);
        self.left -= 1;
        self.bytes = behind;
        Some(TypedValue {
            label,
            type_code,
            value,
        })
    }
}

/// Returns the count of 2 bytes that `bytes` begin with, and the bytes after it.
pub(crate) fn split_count(bytes: &[u8]) -> (u16, &[u8])
    requires { 2 ≤ length bytes.now }
    ensures count { result.0 ≡ count_in bytes.now }
    ensures behind { result.1.now ≡ drop 2 bytes.now }
{
    let (_, behind) = bytes.split_at(2);
    (BigEndian::read_u16(bytes), behind)
}

/// Returns the type code after the first `front` bytes, the bytes of the value after that code, and all bytes after the
/// value.
fn split_value(bytes: &[u8], id_size: u8, front: u8) -> (u8, &[u8], &[u8])
    requires { value_end id_size front bytes.now ≤ length bytes.now }
    ensures type_code { result.0 ≡ slice_index bytes.now front }
    ensures value { result.1.now ≡ (value_in id_size front bytes.now).value }
    ensures behind { result.2.now ≡ drop (value_end id_size front bytes.now) bytes.now }
{
    let front = front as usize;
    let type_code = bytes[front];
    let size = size_of(id_size, type_code) as usize;
    let value = bytes_at(bytes, front + 1, size);
    let (_, behind) = bytes.split_at(front + 1 + size);
    (type_code, value, behind)
}

/// Returns the bytes after a count and that many values.
pub(crate) fn after_values(bytes: &[u8], id_size: u8, front: u8) -> &[u8]
    requires { HasCountedValues id_size front bytes.now }
    ensures { result.now ≡ behind_counted_values id_size front bytes.now }
{
    let (mut left, mut rest) = split_count(bytes);
    while left > 0 {
        let (_, _, behind) = split_value(rest, id_size, front);
        left -= 1;
        rest = behind;
    }
    rest
}
