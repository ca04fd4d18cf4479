//! The part of a marking that no event changes.

ghost use Rattle.std.specs.Prelude.{◌≡◌, ◌↔◌, ◌≤◌, ℕ, IsTrue, Contains, [], length};
ghost use Rattle.mark_core.specs.World.{Setup};

use crate::numbers::Numbers;
use crate::which::Which;
use std::alloc::Allocator;
use std::marker::Model;

/// The part of a marking that is fixed when the marking opens.
#[derive(Drop)]
pub struct Setup<A: Allocator> {
    /// The number of objects, which are numbered from 0.
    pub objects: u32,
    /// The number of buffers, which are numbered from 0.
    pub buffers: u32,
    /// The most objects that a buffer takes.
    pub size: u32,
    /// The tag of both heads at the opening.
    pub first_tag: u64,
    /// The objects at which reachability begins.
    pub roots: Vec<u32, A>,
    /// All pairs of an object and a successor of it.
    pub pairs: Vec<(u32, u32), A>,
}

impl<A: Allocator> Model for Setup<A> {
    ghost use Rattle.mark_core.specs.World.{Setup};

    ghost Value = { Setup };

    ghost view = { λ s. record {
      objects = s.objects;
      buffers = s.buffers;
      size = s.size;
      first_tag = s.first_tag;
      roots = s.roots.items;
      pairs = s.pairs.items;
    } };
}

impl<A: Allocator> Setup<A> {
    /// Tests whether `object` is a root.
    pub fn is_root(&self, object: u32) -> bool
        ensures { IsTrue result ↔ Contains self.now.roots object }
    {
        self.roots.contains(&object)
    }

    /// Tests whether `successor` is a successor of `object`.
    pub fn has_pair(&self, object: u32, successor: u32) -> bool
        ensures { IsTrue result ↔ Contains self.now.pairs (object, successor) }
    {
        self.pairs.contains(&(object, successor))
    }

    /// Tests whether `successor` is a successor of one of `objects`.
    pub fn has_pair_from(&self, objects: &[u32], successor: u32) -> bool
        ensures { IsTrue result
            ↔ ((p : ℕ) × Contains objects.now p × Contains self.now.pairs (p, successor)) }
    {
        objects
            .iter()
            .any(|&object| self.has_pair(object, successor))
    }

    /// Tests whether each successor of `object` is in `seen`.
    pub fn has_successors_in(&self, object: u32, seen: &Numbers<A>) -> bool
        ensures { IsTrue result
            ↔ ((s : ℕ) → Contains self.now.pairs (object, s) → Contains seen.now s) }
    {
        for &(before, after) in &self.pairs {
            if before == object && !seen.contains(after) {
                return false;
            }
        }
        true
    }

    /// Tests whether a buffer with `items` may go on the stack `which`: the full stack takes up to `size` items, the
    /// empty stack none.
    pub fn takes(&self, which: Which, items: &Numbers<A>) -> bool
        ensures { IsTrue result
            ↔ ((length items.now ≤ self.now.size) × (which ≡ Which.Empty → items.now ≡ [])) }
    {
        match which {
            Which::Full => items.len() <= self.size as usize,
            Which::Empty => items.is_empty(),
        }
    }
}
