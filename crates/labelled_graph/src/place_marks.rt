//! The marks of the identifiers that an object holds.

ghost use Rattle.std.specs.Prelude.{IfOk, ℕ, ◌+◌, ◌<◌, ◌≡◌, ◌≤◌};
ghost use Rattle.labelled_graph.specs.working.MarkMaps.{IsFrom, found_at};
ghost use Rattle.labelled_graph.specs.working.Kept.{index_after, mark_of, own_mark};

use crate::mark::{Mark, PlacedMark};
use crate::marks::Marks;
use std::alloc::Allocator;

/// The marks of the identifiers that an object holds, from one of these on.
#[derive(Drop)]
pub(crate) struct PlaceMarks<'g, A: Allocator> {
    /// The number of the next identifier. It stays at 2^32: no identifier after it has a mark.
    pub(crate) index: u64,
    /// The marks of the object's class that were not passed, in the order of their indices.
    pub(crate) class: &'g [PlacedMark],
    /// The marks of single objects.
    pub(crate) own: &'g Marks<A>,
    /// The number of the object.
    pub(crate) object: u32,
    /// Whether the object has marks of its own.
    pub(crate) has_own: bool,
}

/// Returns the mark at `index` among `marks`, and the marks after `index`.
// Inlined, as all of a walk over identifiers is.
#[inline(always)]
fn split_at(marks: &[PlacedMark], index: u32) -> (Option<Mark>, &[PlacedMark])
    requires { IsFrom index marks.now }
    ensures found { result.0 ≡ found_at marks.now index }
    ensures rest { IsFrom (index + 1) result.1.now }
    ensures others { (i : ℕ) → index < i → found_at result.1.now i ≡ found_at marks.now i }
{
    let Some((first, rest)) = marks.split_first() else {
        return (None, marks);
    };
    if first.index == index {
        return (Some(first.mark), rest);
    }
    (None, marks)
}

impl<'g, A: Allocator> PlaceMarks<'g, A> {
    /// Returns the mark that the object itself has at `index`.
    fn own(&self, index: u32) -> Option<Mark>
        ensures { result ≡ own_mark self.now index }
    {
        if self.has_own {
            return self.own.get(u64::from(self.object), index);
        }
        None
    }

    /// Returns the mark of the next identifier, and goes on to the one after it.
    // Inlined, as all of a walk over identifiers is.
    #[inline(always)]
    pub(crate) fn next(&mut self) -> Mark
        requires { IsFrom self.old.index self.old.class.now }
        ensures mark { result ≡ mark_of self.old self.old.index }
        ensures ascends { IsFrom self.new.index self.new.class.now }
        ensures index { self.new.index ≡ index_after self.old.index }
        ensures others { (i : ℕ) → self.new.index ≤ i → mark_of self.new i ≡ mark_of self.old i }
    {
        let Ok(index) = u32::try_from(self.index) else {
            return Mark::NONE;
        };
        let (class, rest) = split_at(self.class, index);
        self.class = rest;
        self.index += 1;
        self.own(index).or(class).unwrap_or(Mark::NONE)
    }
}
