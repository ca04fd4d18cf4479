//! The list of labels.

ghost use Rattle.std.specs.Prelude.{IfErr, IfOk, OnOk, [], ◌++◌, ◌∷◌, ◌^◌, ◌≡◌, ◌≤◌};
ghost use Rattle.label_list.specs.Entries.{label_count, labels_to};
ghost use Rattle.label_list.specs.ListText.{SpellsList};
ghost use Rattle.label_list.specs.Refusal.{SaysOf};

use crate::entry::Entry;
use crate::refusal::ListRefusal;
use crate::scanner::Scanner;
use std::alloc::{AllocError, Allocator};
use std::marker::Model;

/// A list of labels: its entries, in the order of its text.
#[derive(Drop)]
pub struct LabelList<A: Allocator> {
    entries: Vec<Entry, A>,
    labels: u32,
}

impl<A: Allocator> Model for LabelList<A> {
    ghost use Rattle.std.specs.Prelude.{List, ◌^◌, ◌≡◌, ◌≤◌};
    ghost use Rattle.label_list.specs.Entries.{label_count};
    ghost use Rattle.label_list.specs.declared.entry.Entry.{Entry};

    ghost Value = { List Entry };

    ghost view = { λ list. list.entries.items };

    ghost invariant = { λ list. (list.labels ≡ label_count list.entries.items) × (list.labels ≤ 2 ^ 20) };
}

/// Returns one more than the label that `entry` names, or 0 if it names none.
fn labels_to(entry: Entry) -> u32
    requires { labels_to entry ≤ 2 ^ 20 }
    ensures { result ≡ labels_to entry }
{
    match entry {
        Entry::Label(label, _) => label + 1,
        _ => 0,
    }
}

impl<A: Allocator> LabelList<A> {
    /// Creates an empty list. Allocates nothing.
    fn new(alloc: A) -> Self
        ensures { result ≡ [] }
    {
        LabelList {
            entries: Vec::new(alloc),
            labels: 0,
        }
    }

    /// Appends `entry`.
    fn push(&mut self, entry: Entry) -> Result<(), AllocError>
        requires { labels_to entry ≤ 2 ^ 20 }
        ensures { OnOk result (self.new ≡ self.old ++ entry ∷ []) }
    {
        self.entries.push(entry)?;
        self.labels = self.labels.max(labels_to(entry));
        Ok(())
    }

    /// Reads the list that `text` spells. `Err(ListRefusal::BadLine(n))` if it spells none: line `n` is the first that
    /// is no entry. `Err(ListRefusal::OutOfMemory)` if an allocation fails.
    pub fn read(alloc: A, text: &[u8]) -> Result<Self, ListRefusal>
        ensures list { IfOk result (λ list. SpellsList text.now list) }
        ensures bad { IfErr result (λ refusal. SaysOf refusal text.now) }
    {
        let mut list = LabelList::new(alloc);
        let mut scanner = Scanner::new(text);
        while !scanner.is_empty() {
            let Some(entry) = scanner.line() else {
                return Err(ListRefusal::BadLine(list.entries.len() as u64 + 1));
            };
            if list.push(entry).is_err() {
                return Err(ListRefusal::OutOfMemory);
            }
        }
        Ok(list)
    }

    /// Returns the entries, in the order of the text.
    pub fn entries(&self) -> &[Entry]
        ensures { result.now ≡ self.now }
    {
        &self.entries
    }

    /// Returns the number of labels: one more than the highest label that an entry names, 0 if none names one. It is
    /// at most 1,048,576.
    pub fn labels(&self) -> u32
        ensures count { result ≡ label_count self.now }
        ensures few { result ≤ 2 ^ 20 }
    {
        self.labels
    }
}
