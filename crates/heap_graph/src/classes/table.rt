//! The table of classes: finds a class by its identifier, and keeps the place of its dump and the size of its fields.

ghost use Rattle.std.specs.Prelude.{Contains, IfOk, OnOk, Some, [], length, position, slice_get, slice_index};
ghost use Rattle.std.specs.Prelude.{true, ◌++◌, ◌<◌, ◌==◌, ◌^◌, ◌∷◌, ◌≡◌, ℕ};
ghost use Rattle.heap_graph.specs.working.ClassList.{TableEntry, ids_of};

use crate::classes::guesses::Guesses;
use crate::classes::hash::ClassHash;
use crate::classes::{ClassPlace, Classes};
use indexmap::IndexMap;
use std::alloc::{AllocError, Allocator};
use std::marker::Model;

/// The result of a look-up of a class.
#[derive(Clone, Copy)]
pub(crate) struct LookUp {
    /// The number of the class, or `None` if there is none.
    number: Option<u32>,
    /// Whether the guessed class was the right one, so that the map was not searched.
    is_guess: bool,
}

/// Classes in order, found by their identifiers. A class's number is its position in the map. The map is searched only
/// if the guessed class is another one.
#[derive(Drop)]
pub(crate) struct ClassTable<A: Allocator> {
    map: IndexMap<u64, ClassPlace, ClassHash, A>,
    guesses: Guesses<A>,
}

impl<A: Allocator> Model for ClassTable<A> {
    ghost use Rattle.std.specs.Prelude.{nat_eq};
    ghost use Rattle.indexmap.specs.IndexMap.{IsUnique};
    ghost use Rattle.heap_graph.specs.working.ClassList.{ClassList};

    ghost Value = { ClassList };

    ghost view = { λ t. record { entries = t.map.entries } };

    ghost invariant = { λ t. IsUnique nat_eq t.map };
}

impl<A: Allocator + Copy> ClassTable<A> {
    /// Creates an empty table. Only its guesses have room for `classes` classes yet.
    pub(crate) fn new(alloc: A, hash: ClassHash, classes: usize) -> Result<Self, AllocError>
        ensures { IfOk result (λ t. t.entries ≡ []) }
    {
        let guesses = Guesses::new(alloc, classes)?;
        Ok(ClassTable {
            map: IndexMap::with_hasher(alloc, hash),
            guesses,
        })
    }
}

impl<A: Allocator> ClassTable<A> {
    /// Returns the number of classes.
    pub(crate) fn len(&self) -> usize
        ensures { result ≡ length self.now.entries }
    {
        self.map.len()
    }

    /// Adds the class `id`, which the table must not contain yet.
    #[tactic(auto, using(crate::proofs::InsertLaws::insert_last))]
    pub(crate) fn push(&mut self, id: u64, place: ClassPlace) -> Result<(), AllocError>
        requires { Contains (ids_of self.old.entries) id → ⊥ }
        ensures { OnOk result (self.new.entries ≡ self.old.entries ++ (id, place) ∷ []) }
    {
        let number = self.map.len();
        self.map.insert(id, place)?;
        self.guesses.note(id, number);
        Ok(())
    }

    /// Tests whether a class `number` exists and has the identifier `id`.
    // Inlined, as `find` is.
    #[inline(always)]
    fn bears(&self, number: u32, id: u64) -> bool
        ensures below { result ≡ true → number < length self.now.entries }
        ensures id { result ≡ true → (e : TableEntry) → slice_get self.now.entries number ≡ Some e → e.0 ≡ id }
    {
        match self.map.get_index(number as usize) {
            Some((bearer, _)) => return *bearer == id,
            None => return false,
        }
    }

    /// Searches the map for the class `id`. Returns its number, or `None` if the table does not contain `id`.
    // Not inlined, so that a look-up whose guess is right needs no locals for the search.
    #[inline(never)]
    fn find_in_map(&self, id: u64) -> Option<u32>
        requires { length self.now.entries < 2 ^ 32 }
        ensures { result ≡ position (λ x. x == id) (ids_of self.now.entries) }
    {
        match self.map.get_index_of(&id) {
            Some(number) => return Some(number as u32),
            None => return None,
        }
    }

    /// Looks up the class `id`: tests the guessed class, and searches the map only if that is another one.
    // One function says where a class is and whether it was guessed, so that tests see a look-up that never guesses.
    // Inlined, as the `find` of the classes is.
    #[inline(always)]
    fn look_up(&self, id: u64) -> LookUp
        requires { length self.now.entries < 2 ^ 32 }
        ensures { result.number ≡ position (λ x. x == id) (ids_of self.now.entries) }
    {
        let guess = self.guesses.guess(id);
        if self.bears(guess, id) {
            return LookUp {
                number: Some(guess),
                is_guess: true,
            };
        }
        LookUp {
            number: self.find_in_map(id),
            is_guess: false,
        }
    }

    /// Returns the identifier and the entry of class `number`.
    fn get(&self, number: u32) -> (u64, ClassPlace)
        requires { number < length self.now.entries }
        ensures { (e : TableEntry) → slice_get self.now.entries number ≡ Some e → result ≡ e }
    {
        match self.map.get_index(number as usize) {
            Some((id, place)) => return (*id, *place),
            None => unreachable!(),
        }
    }
}

impl<'d, A: Allocator> Classes<'d, A> {
    /// Returns the number of the class that `id` names, if it names one.
    // Inlined, because it is called for each instance and each object array that is marked.
    #[inline(always)]
    pub(crate) fn find(&self, id: u64) -> Option<u32>
        requires { length self.now.table.entries < 2 ^ 32 }
        ensures { result ≡ position (λ x. x == id) (ids_of self.now.table.entries) }
    {
        self.table.look_up(id).number
    }

    /// Tests whether `find` needs no search of the map for `id`, because the guessed class bears `id`.
    pub(crate) fn is_guessed(&self, id: u64) -> bool
        requires { length self.now.table.entries < 2 ^ 32 }
    {
        self.table.look_up(id).is_guess
    }

    /// Returns the identifier of class `number`.
    pub(crate) fn id(&self, number: u32) -> u64
        requires { number < length self.now.table.entries }
        ensures { result ≡ slice_index (ids_of self.now.table.entries) number }
    {
        self.table.get(number).0
    }

    /// Returns the place of the class dump of class `number`, and the size in bytes of the values of all fields that
    /// the class declares.
    pub(crate) fn class_place(&self, number: u32) -> ClassPlace
        requires { number < length self.now.table.entries }
        ensures { (e : TableEntry) → slice_get self.now.table.entries number ≡ Some e → result ≡ e.1 }
    {
        self.table.get(number).1
    }
}
