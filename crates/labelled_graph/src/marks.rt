//! Marks of places.

ghost use Rattle.std.specs.Prelude.{IfOk, IfSome, None, OnOk, ◌<◌, ◌≡◌, ℕ};
ghost use Rattle.label_sets.specs.Sets.{Extends};
ghost use Rattle.labelled_graph.specs.working.MarkMaps.{IsListOf, IsPut, IsSaid, mark_at, or_else};
ghost use Rattle.labelled_graph.specs.working.MarkWords.{IsSoundIfSome};

use crate::mark::{Mark, PlacedMark, Said, joined};
use label_sets::LabelSets;
use std::alloc::{AllocError, Allocator};
use std::collections::BTreeMap;

/// Marks of places. A place is the identifier number `index` of what has the key `key`.
#[derive(Drop)]
pub(crate) struct Marks<A: Allocator> {
    marks: BTreeMap<(u64, u32), Mark, A>,
}

impl<A: Allocator> Marks<A> {
    /// Creates an empty table. Allocates nothing.
    pub(crate) fn new(alloc: A) -> Self
        ensures { (key index : ℕ) → mark_at result.marks key index ≡ None }
    {
        Marks {
            marks: BTreeMap::new(alloc),
        }
    }

    /// Returns the mark of a place, or `None` if nothing is said of it.
    pub(crate) fn get(&self, key: u64, index: u32) -> Option<Mark>
        ensures { result ≡ mark_at self.now.marks key index }
    {
        self.marks.get(&(key, index)).copied()
    }

    /// Returns the marks of what has the key `key`, in the order of their indices. `Err` if an allocation fails.
    pub(crate) fn of_key(&self, alloc: A, key: u64) -> Result<Vec<PlacedMark, A>, AllocError>
        ensures { IfOk result (λ list. IsListOf self.now.marks key list.items) }
    {
        let mut list = Vec::new(alloc);
        for (place, mark) in self.marks.range((key, 0)..=(key, u32::MAX)) {
            list.push(PlacedMark {
                index: place.1,
                mark: *mark,
            })?;
        }
        Ok(list)
    }
}

impl<A: Allocator + Clone> Marks<A> {
    /// Gives a place the mark `mark`. `Err` if an allocation fails.
    fn put(&mut self, key: u64, index: u32, mark: Mark) -> Result<(), AllocError>
        ensures { OnOk result (IsPut self.old.marks self.new.marks key index mark) }
    {
        self.marks.insert((key, index), mark)?;
        Ok(())
    }

    /// Notes what is said of a place. `base` is the mark that the place has if nothing was said of it before. `Err` if
    /// an allocation fails.
    pub(crate) fn say(
        &mut self,
        store: &mut LabelSets<A>,
        said: Said,
        base: Option<Mark>,
    ) -> Result<(), AllocError>
        requires before { IsSoundIfSome store.old (or_else (mark_at self.old.marks said.key said.index) base) }
        requires label { IfSome said.label (λ l. l < store.old.labels) }
        ensures extends { Extends store.old store.new }
        ensures said { OnOk result (IsSaid store.old store.new self.old.marks self.new.marks base said) }
    {
        let before = self.get(said.key, said.index).or(base);
        let mark = joined(store, before, said.label)?;
        self.put(said.key, said.index, mark)
    }
}
