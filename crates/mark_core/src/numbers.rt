//! Lists of numbers.

ghost use Rattle.std.specs.Prelude.{◌≡◌, ◌++◌, ◌∷◌, [], ◌↔◌, IsTrue, IsSome, Contains, OnOk, ◌==◌, length};
ghost use Rattle.std.specs.Prelude.{vec_items, position};
ghost use Rattle.std.specs.Bool.{OnTrue};
ghost use Rattle.mark_core.specs.Lists.{remove_one, without, IsPart};

use crate::out_of_memory::OutOfMemory;
use std::alloc::Allocator;
use std::marker::Model;

/// A list of numbers in the order in which they were added. A number may be in it more than once.
#[derive(Drop)]
pub struct Numbers<A: Allocator> {
    items: Vec<u32, A>,
}

impl<A: Allocator> Model for Numbers<A> {
    ghost use Rattle.std.specs.Prelude.{List, ℕ};

    ghost Value = { List ℕ };

    ghost view = { λ n. n.items.items };
}

impl<A: Allocator> Numbers<A> {
    /// Creates an empty list.
    pub fn new(alloc: A) -> Self
        ensures { result ≡ [] }
    {
        Numbers {
            items: Vec::new(alloc),
        }
    }

    /// Creates a list of `items`.
    pub fn of(items: Vec<u32, A>) -> Self
        ensures { result ≡ vec_items items }
    {
        Numbers { items }
    }

    /// Returns the numbers as a slice.
    pub fn as_slice(&self) -> &[u32]
        ensures { result.now ≡ self.now }
    {
        self.items.as_slice()
    }

    /// Returns how many numbers the list has, repeats included.
    pub fn len(&self) -> usize
        ensures { result ≡ length self.now }
    {
        self.items.len()
    }

    /// Tests whether the list is empty.
    pub fn is_empty(&self) -> bool
        ensures { IsTrue result ↔ (self.now ≡ []) }
    {
        self.items.is_empty()
    }

    /// Tests whether the list contains `number`.
    pub fn contains(&self, number: u32) -> bool
        ensures { IsTrue result ↔ Contains self.now number }
    {
        self.items.contains(&number)
    }

    /// Appends `number`.
    pub fn add(&mut self, number: u32) -> Result<(), OutOfMemory>
        ensures { OnOk result (self.new ≡ self.old ++ number ∷ []) }
    {
        self.items.push(number)?;
        Ok(())
    }

    /// Appends the numbers in `other`.
    pub fn append(&mut self, other: &[u32]) -> Result<(), OutOfMemory>
        ensures { OnOk result (self.new ≡ self.old ++ other.now) }
    {
        self.items.extend_from_slice(other)?;
        Ok(())
    }

    /// Returns the position of the first `number`, or `None` if the list does not contain `number`.
    fn place_of(&self, number: u32) -> Option<usize>
        ensures there { IsSome result ↔ Contains self.now number }
        ensures first { result ≡ position (λ item. item == number) self.now }
    {
        self.items.iter().position(|item| *item == number)
    }

    /// Removes the first `number` and returns `true`, or returns `false` if the list does not contain `number`.
    pub fn take_one(&mut self, number: u32) -> bool
        ensures there { IsTrue result ↔ Contains self.old number }
        ensures left { self.new ≡ remove_one number self.old }
    {
        match self.place_of(number) {
            Some(place) => {
                let _ = self.items.remove(place);
                true
            }
            None => false,
        }
    }

    /// Removes each of `numbers`, as often as `numbers` has it. Returns whether the list had each number at least that
    /// often. If it had not, the list afterwards is not specified.
    pub fn take_all(&mut self, numbers: &[u32]) -> bool
        ensures part { IsTrue result ↔ IsPart numbers.now self.old }
        ensures left { OnTrue result (self.new ≡ without numbers.now self.old) }
    {
        for number in numbers {
            if !self.take_one(*number) {
                return false;
            }
        }
        true
    }
}
