//! The instance fields that a class declares.

ghost use Rattle.std.specs.Prelude.{◌*◌, ◌+◌, ◌≡◌, ◌≤◌, ◌↔◌, [], IsTrue, drop, length};
ghost use Rattle.hprof_grammar.specs.Series.{count_in, members_in};

use crate::view::identifiers::number_at;
use crate::view::values::split_count;
use std::marker::Model;

/// An instance field that a class declares.
#[derive(Clone, Copy, Debug, PartialEq, Eq)]
pub struct MemberField {
    /// The identifier of the string that names the field.
    pub name: u64,
    /// The type code of the field's values: 2, or 4 to 11.
    pub type_code: u8,
}

/// An iterator over the instance fields that a class declares.
#[derive(Clone, Drop)]
pub struct Members<'a> {
    bytes: &'a [u8],
    id_size: u8,
    left: u16,
}

impl<'a> Model for Members<'a> {
    ghost use Rattle.std.specs.Prelude.{List};
    ghost use Rattle.hprof_grammar.specs.SubRecord.{Member};
    ghost use Rattle.hprof_grammar.specs.Series.{HasMembers, members_in};

    ghost Value = { List Member };

    ghost view = { λ v. members_in v.id_size v.left v.bytes.now };

    ghost invariant = { λ v. HasMembers v.id_size v.left v.bytes.now };
}

impl<'a> Members<'a> {
    /// Creates an iterator over the instance fields in `bytes`, which begin with the number of fields.
    pub(crate) fn new(bytes: &'a [u8], id_size: u8) -> Self
        requires low { 1 ≤ id_size }
        requires high { id_size ≤ 8 }
        requires room { 2 + count_in bytes.now * (id_size + 1) ≤ length bytes.now }
        ensures { result ≡ members_in id_size (count_in bytes.now) (drop 2 bytes.now) }
    {
        let (left, behind) = split_count(bytes);
        Members {
            bytes: behind,
            id_size,
            left,
        }
    }

    /// Returns the number of remaining fields.
    pub fn len(&self) -> usize
        ensures { result ≡ length self.now }
    {
        self.left as usize
    }

    /// Tests whether no field remains.
    pub fn is_empty(&self) -> bool
        ensures { IsTrue result ↔ (self.now ≡ []) }
    {
        self.left == 0
    }
}

impl<'a> Iterator for Members<'a> {
    ghost use Rattle.std.specs.Iterator.{YieldsFirstBy, item_count};
    ghost use Rattle.hprof_grammar.specs.MemberFields.{member_of};

    type Item = MemberField;

    ghost next_gives = { YieldsFirstBy member_of (λ members. members) };

    ghost remaining = { item_count (λ members. members) };

    fn next(&mut self) -> Option<MemberField> {
        if self.left == 0 {
            return None;
        }
        let size = self.id_size as usize;
        let bytes = self.bytes;
        let name = number_at(bytes, 0, size);
        let type_code = bytes[size];
        let (_, behind) = bytes.split_at(size + 1);
        self.left -= 1;
        self.bytes = behind;
        Some(MemberField { name, type_code })
    }
}
