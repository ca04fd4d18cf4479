//! Identifiers that are next to one another.

ghost use Rattle.std.specs.Prelude.{◌*◌, ◌+◌, ◌≡◌, ◌≤◌, ◌↔◌, [], IsTrue, drop, length};
ghost use Rattle.hprof_grammar.specs.Series.{numbers_in};

use crate::view::identifiers::number_at;
use std::marker::Model;

/// An iterator over identifiers that are next to one another in a dump.
#[derive(Drop)]
pub struct Ids<'a> {
    bytes: &'a [u8],
    width: u8,
    left: u32,
}

impl<'a> Model for Ids<'a> {
    ghost use Rattle.std.specs.Prelude.{List, ℕ};
    ghost use Rattle.hprof_grammar.specs.Series.{HasNumbers, numbers_in};

    ghost Value = { List ℕ };

    ghost view = { λ v. numbers_in v.width v.left v.bytes.now };

    ghost invariant = { λ v. HasNumbers v.width v.left v.bytes.now };
}

impl<'a> Ids<'a> {
    /// Creates an iterator over the `count` identifiers of `width` bytes from the offset `at` on.
    pub(crate) fn new(bytes: &'a [u8], at: usize, width: u8, count: u32) -> Self
        requires low { 1 ≤ width }
        requires high { width ≤ 8 }
        requires room { at + count * width ≤ length bytes.now }
        ensures { result ≡ numbers_in width count (drop at bytes.now) }
    {
        let (_, behind) = bytes.split_at(at);
        Ids {
            bytes: behind,
            width,
            left: count,
        }
    }

    /// Returns the number of remaining identifiers.
    pub fn len(&self) -> usize
        ensures { result ≡ length self.now }
    {
        self.left as usize
    }

    /// Tests whether no identifier remains.
    pub fn is_empty(&self) -> bool
        ensures { IsTrue result ↔ (self.now ≡ []) }
    {
        self.left == 0
    }
}

impl<'a> Iterator for Ids<'a> {
    ghost use Rattle.std.specs.Iterator.{YieldsFirst, item_count};

    type Item = u64;

    ghost next_gives = { YieldsFirst (λ ids. ids) };

    ghost remaining = { item_count (λ ids. ids) };

    fn next(&mut self) -> Option<u64> {
        if self.left == 0 {
            return None;
        }
        let width = self.width as usize;
        let bytes = self.bytes;
        let (_, behind) = bytes.split_at(width);
        self.left -= 1;
        self.bytes = behind;
        Some(number_at(bytes, 0, width))
    }
}
