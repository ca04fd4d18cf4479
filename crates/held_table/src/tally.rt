//! Counting objects into lines.

ghost use Rattle.std.specs.Prelude.{All, IfOk, OnOk, IsTrue, [], length, slice_index_or, slice_set, ◌<◌, ◌+◌, ◌≡◌};
ghost use Rattle.std.specs.Prelude.{◌^◌, ◌↔◌};
ghost use Rattle.held_table.specs.working.Counting.{HasRoom, IsCounted, IsLast, add_line, counted_at, one_object};

use crate::hash::FixedHash;
use crate::line::{Key, Line};
use histogram::OutOfMemory;
use indexmap::IndexSet;
use std::alloc::Allocator;

/// The lines of the objects counted so far.
#[derive(Drop)]
pub(crate) struct Tally<A: Allocator> {
    /// The keys of the lines, in the same order.
    pub(crate) keys: IndexSet<Key, FixedHash, A>,
    pub(crate) lines: Vec<Line, A>,
    /// The place of the line that was counted in last. The next object is often of the same line.
    pub(crate) last: usize,
}

impl<A: Allocator + Copy> Tally<A> {
    /// Creates a tally without lines.
    pub(crate) fn new(alloc: A) -> Self
        ensures lines { result.lines.items ≡ [] }
        ensures counted { IsCounted result }
    {
        Tally {
            keys: IndexSet::with_hasher(alloc, FixedHash::new()),
            lines: Vec::new(alloc),
            last: 0,
        }
    }
}

impl<A: Allocator> Tally<A> {
    /// Counts an object of `bytes` bytes in the line of `key`. `Err` if an allocation fails.
    pub(crate) fn add(&mut self, key: Key, bytes: u64) -> Result<(), OutOfMemory>
        requires counted { IsCounted self.old }
        requires room { All HasRoom self.old.lines.items }
        requires bytes { bytes < 2 ^ 63 }
        ensures counted { OnOk result (IsCounted self.new) }
        ensures lines { OnOk result (self.new.lines.items ≡ add_line (one_object key bytes) self.old.lines.items) }
    {
        if self.is_last(key) {
            self.count_at(self.last, bytes);
            return Ok(());
        }
        let (place, is_new) = self.keys.insert_full(key)?;
        if is_new {
            self.lines.push(Line {
                set: key.set,
                row: key.row,
                remainder: key.remainder,
                count: 1,
                bytes,
            })?;
        } else {
            self.count_at(place, bytes);
        }
        self.last = place;
        Ok(())
    }

    /// Tests whether the line that was counted in last is that of `key`.
    fn is_last(&self, key: Key) -> bool
        ensures { IsTrue result ↔ IsLast self.now key }
    {
        match self.lines.get(self.last) {
            Some(line) => {
                line.set == key.set && line.row == key.row && line.remainder == key.remainder
            }
            None => false,
        }
    }

    /// Counts an object of `bytes` bytes in the line at `place`.
    fn count_at(&mut self, place: usize, bytes: u64)
        requires place { place < length self.old.lines.items }
        requires room { All HasRoom self.old.lines.items }
        requires bytes { bytes < 2 ^ 63 }
        ensures keys { self.new.keys ≡ self.old.keys }
        ensures lines { self.new.lines.items ≡ counted_at self.old.lines.items place bytes }
    {
        let line = &mut self.lines[place];
        line.count += 1;
        line.bytes += bytes;
    }
}
