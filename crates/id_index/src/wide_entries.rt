//! Entries of an object's whole identifier and the object's number, ordered by identifier and searched by halving.

ghost use Rattle.std.specs.Prelude.{length, position, ◌==◌, ◌≡◌};
ghost use Rattle.id_index.specs.Repeats.{IsFirstRepeat};
ghost use Rattle.id_index.specs.working.WideEntries.{AreOrdered, IsBetween, IsFirstFrom, IsLeastRepeat};
ghost use Rattle.id_index.specs.working.WideEntries.{id_of, key_of};

use crate::entry_guesses::EntryGuesses;
use crate::look_up::LookUp;
use std::alloc::Allocator;
use std::marker::Model;

/// The number of entries beside two guessed ends: a look-up reads them to see that the ends are right.
const BESIDE: usize = 2;

/// The most entries that a look-up reads if the guessed ends are right and at most 16 entries apart: the two beside the
/// ends, five that halve, and the one that is found.
pub(crate) const GUESSED: usize = BESIDE + 6;

/// An object's identifier and the object's number.
// Three words of 32 bits, 12 bytes: with the identifier in one word, an entry would take 16.
#[derive(Clone, Copy)]
pub(crate) struct WideEntry {
    /// The identifier divided by 2^32.
    high: u32,
    /// The remainder.
    low: u32,
    number: u32,
}

impl WideEntry {
    /// Creates the entry of object `number`, which has the identifier `id`.
    pub(crate) fn new(id: u64, number: u32) -> Self
        ensures id { id_of result ≡ id }
        ensures number { result.number ≡ number }
    {
        WideEntry {
            high: (id / (1 << 32)) as u32,
            low: (id % (1 << 32)) as u32,
            number,
        }
    }

    /// Returns the identifier.
    // Inlined, as `key` is: a search and a sort call them at each step.
    #[inline(always)]
    pub(crate) fn id(self) -> u64
        ensures { result ≡ id_of self }
    {
        u64::from(self.high) * (1 << 32) + u64::from(self.low)
    }

    /// Returns the number by which entries are sorted: the identifier, and after it the number.
    #[inline(always)]
    pub(crate) fn key(self) -> u128
        ensures { result ≡ key_of self }
    {
        u128::from(self.id()) * (1 << 32) + u128::from(self.number)
    }
}

/// Returns the guessed ends `begin` and `end` if the first entry whose identifier is not below `id` is at `begin` or
/// later and at `end` or earlier: the entries beside the ends show it. Otherwise returns the ends of all `entries`.
// Inlined, as the guess is.
#[inline(always)]
fn right_ends(entries: &[WideEntry], id: u64, begin: usize, end: usize) -> (usize, usize)
    requires { AreOrdered entries.now }
    ensures { IsBetween entries.now id result.0 result.1 }
{
    let all = (0, entries.len());
    if begin > end || end > entries.len() {
        return all;
    }
    if begin > 0 && entries[begin - 1].id() >= id {
        return all;
    }
    if end < entries.len() && entries[end].id() < id {
        return all;
    }
    (begin, end)
}

/// Returns the index of the first entry whose identifier is not below `id`, or the number of `entries` if all
/// identifiers are below `id`. It is the same whatever `guesses` has; with good guesses the search takes fewer steps.
/// Also returns how many entries it read.
fn first_from<A: Allocator>(
    entries: &[WideEntry],
    guesses: &EntryGuesses<A>,
    id: u64,
) -> (usize, usize)
    requires { AreOrdered entries.now }
    ensures { IsFirstFrom entries.now id result.0 }
{
    let (begin, end) = guesses.around(id).unwrap_or((0, entries.len()));
    let (mut low, mut high) = right_ends(entries, id, begin, end);
    let mut probes = BESIDE;
    while low < high {
        let middle = low + (high - low) / 2;
        probes = probes.saturating_add(1);
        if entries[middle].id() < id {
            low = middle + 1;
        } else {
            high = middle;
        }
    }
    (low, probes)
}

/// Returns the least number of an entry that has the identifier of the entry before it, or the number of `entries` if
/// there is no such entry.
pub(crate) fn least_repeat(entries: &[WideEntry]) -> usize
    ensures { IsLeastRepeat entries.now (length entries.now) (length entries.now) result }
{
    let mut least = entries.len();
    for at in 1..entries.len() {
        if entries[at].id() == entries[at - 1].id() {
            least = least.min(entries[at].number as usize);
        }
    }
    least
}

/// The objects by their identifiers.
#[derive(Drop)]
pub(crate) struct WideIndex<A: Allocator> {
    /// An entry for each object, ordered by identifier. Entries with the same identifier are ordered by number.
    pub(crate) entries: Vec<WideEntry, A>,
    pub(crate) guesses: EntryGuesses<A>,
    /// The number of the first object whose identifier an earlier one bears, or the number of objects if there is none.
    pub(crate) repeat: usize,
}

impl<A: Allocator> Model for WideIndex<A> {
    ghost use Rattle.std.specs.Prelude.{List, ℕ};
    ghost use Rattle.id_index.specs.Repeats.{IsFirstRepeat};
    ghost use Rattle.id_index.specs.working.WideEntries.{AreEntriesOf, AreOrdered, ids_of_entries};

    ghost Value = { List ℕ };

    ghost view = { λ i. ids_of_entries i.entries.items };

    ghost invariant = { λ i. record {
      ordered : AreOrdered i.entries.items;
      are : AreEntriesOf i.entries.items (ids_of_entries i.entries.items);
      repeated : IsFirstRepeat (ids_of_entries i.entries.items) i.repeat;
    } };
}

impl<A: Allocator> WideIndex<A> {
    /// Looks up the first object that bears `id`. The probes are entries.
    // Not inlined, so that a worker's loop stays small.
    #[inline(never)]
    pub(crate) fn look_up(&self, id: u64) -> LookUp
        ensures { result.number ≡ position (λ x. x == id) self.now }
    {
        let (at, halving) = first_from(&self.entries, &self.guesses, id);
        let probes = halving.saturating_add(1);
        if at < self.entries.len() && self.entries[at].id() == id {
            return LookUp {
                number: Some(self.entries[at].number),
                probes,
            };
        }
        LookUp {
            number: None,
            probes,
        }
    }

    /// Returns the number of the first object whose identifier an earlier one bears, or the number of objects if there
    /// is no such object.
    pub(crate) fn first_repeat(&self) -> usize
        ensures { IsFirstRepeat self.now result }
    {
        self.repeat
    }
}
