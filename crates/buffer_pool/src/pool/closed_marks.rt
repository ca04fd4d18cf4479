//! The marks of a pool that is closed.
ghost use Rattle.std.specs.Prelude.{◌≡◌, ◌↔◌, ◌+◌, ◌/◌, ◌%◌, ◌<◌, ◌≤◌, length, slice_index, IsTrue};
ghost use Rattle.std.specs.Prelude.{◌-◌, ◌==◌, ℕ, IfNone, IfSome, count_by, find, not};
ghost use Rattle.std.specs.List.{range_with_len};
ghost use Rattle.std.specs.Slots.{IsFull, slots_filled, slots_items, slots_len};
ghost use Rattle.buffer_pool.specs.Closing.{IsEmptied};
ghost use Rattle.buffer_pool.specs.working.MarkBits.{mark_of, mark_words, marks_in, mark_at};
ghost use Rattle.buffer_pool.specs.working.Unfinished.{AreFinishedBelow, IsFirstUnfinished};

use crate::buffer::Buffer;
use crate::mark_bits::mark_place;
use atomic_table::Closed;
use std::alloc::Allocator;
use std::marker::Model;

/// The marks of the objects after the last step: which were claimed, and which were finished.
pub struct Marks<A: Allocator> {
    pub(super) closed: Closed<Option<Buffer<A>>, A>,
    pub(super) first_mark: usize,
    pub(super) objects: u32,
    /// The number of finished objects.
    pub(super) finished: u64,
}

impl<A: Allocator> Model for Marks<A> {
    ghost use Rattle.std.specs.Prelude.{◌≡◌, ◌==◌, ◌+◌, ℕ, List, count_by};
    ghost use Rattle.std.specs.Slots.{IsFull, slots_filled, slots_items, slots_len};
    ghost use Rattle.buffer_pool.specs.Closing.{IsEmptied};
    ghost use Rattle.buffer_pool.specs.working.MarkBits.{mark_words, marks_in};

    ghost Value = { List ℕ };

    ghost view = { λ m. marks_in (slots_items m.closed.words) m.first_mark m.objects };

    ghost invariant = { λ m. IsFull m.closed.words
        × IsEmptied (slots_len m.closed.slots) (slots_filled m.closed.slots)
        × (m.first_mark + mark_words m.objects ≡ slots_len m.closed.words)
        × (m.finished ≡ count_by (λ k. k == 2) (marks_in (slots_items m.closed.words) m.first_mark m.objects)) };
}

impl<A: Allocator> Marks<A> {
    /// Creates the marks of the table `closed`, whose slots are empty. The words from `first_mark` to the last have the
    /// marks of `objects` objects, of which `finished` are finished.
    pub(super) fn of_words(
        closed: Closed<Option<Buffer<A>>, A>,
        first_mark: usize,
        objects: u32,
        finished: u64,
    ) -> Marks<A>
        requires full { IsFull closed.words }
        requires emptied { IsEmptied (slots_len closed.slots) (slots_filled closed.slots) }
        requires place { first_mark + mark_words objects ≡ slots_len closed.words }
        requires counted { finished
            ≡ count_by (λ m. m == 2) (marks_in (slots_items closed.words) first_mark objects) }
        ensures { result ≡ marks_in (slots_items closed.words) first_mark objects }
    {
        Marks {
            closed,
            first_mark,
            objects,
            finished,
        }
    }

    /// Returns how many objects have marks.
    fn len(&self) -> u32
        ensures { result ≡ length self.now }
    {
        self.objects
    }

    /// Returns the word that has the mark of `object`.
    fn word_of(&self, object: u32) -> u64
        requires { object < length self.now }
        ensures { (o : ℕ) → o / 32 ≡ object / 32 → o < length self.now
            → slice_index self.now o ≡ mark_at result (o % 32) }
    {
        self.closed.word(self.first_mark + object as usize / 32)
    }

    /// Returns the two bits of the mark of `object`.
    fn bits(&self, object: u32) -> u64
        requires { object < length self.now }
        ensures few { result < 4 }
        ensures mark { slice_index self.now object ≡ mark_of (result % 2) (result / 2) }
    {
        (self.word_of(object) >> mark_place(object)) & 3
    }

    /// Returns the first unfinished object from `object` on, among the objects whose marks are in the same word.
    /// Returns `None` if all of these are finished. The result may be a number beyond the last object.
    fn first_unfinished_of_word(&self, object: u32) -> Option<u32>
        requires { object < length self.now }
        ensures found { IfSome result (λ found. IsFirstUnfinished self.now object found) }
        ensures none { IfNone result (AreFinishedBelow self.now object (object - object % 32 + 32)) }
    {
        let unfinished = !self.word_of(object) >> mark_place(object);
        if unfinished == 0 {
            return None;
        }
        Some(object + unfinished.trailing_zeros() / 2)
    }

    /// Tests whether `object` was claimed. A finished object was claimed too.
    pub fn is_claimed(&self, object: u32) -> bool
        requires { object < length self.now }
        ensures { IsTrue result ↔ (1 ≤ slice_index self.now object) }
    {
        self.bits(object) != 0
    }

    /// Tests whether `object` was finished.
    pub fn is_finished(&self, object: u32) -> bool
        requires { object < length self.now }
        ensures { IsTrue result ↔ (slice_index self.now object ≡ 2) }
    {
        self.bits(object) == 3
    }

    /// Returns the first object from number `from` on that was not finished, or `None` if there is none. Reads each
    /// word of 32 marks as a whole.
    pub fn next_unfinished(&self, from: u32) -> Option<u32>
        ensures { result ≡ find (λ o. not (slice_index self.now o == 2))
            (range_with_len from (length self.now - from)) }
    {
        let objects = self.len();
        let mut object = from;
        while object < objects {
            match self.first_unfinished_of_word(object) {
                Some(found) if found < objects => return Some(found),
                Some(_) => return None,
                None => object = (object - object % 32).saturating_add(32),
            }
        }
        None
    }

    /// Returns the number of finished objects. An object that was claimed and not finished does not count. The workers
    /// counted the finished objects, so no mark is read.
    pub fn finished_len(&self) -> u64
        ensures { result ≡ count_by (λ m. m == 2) self.now }
    {
        self.finished
    }
}

impl<A: Allocator> Drop for Marks<A> {
    fn drop(self) {
        let Self {
            closed,
            first_mark: _,
            objects: _,
            finished: _,
        } = self;
        closed.free();
    }
}
