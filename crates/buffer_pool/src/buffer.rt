//! A buffer of object numbers, allocated at its full size.
ghost use Rattle.std.specs.Prelude.{◌≡◌, ◌↔◌, ◌+◌, ◌-◌, ◌/◌, ◌<◌, ◌≤◌, [], ◌∷◌, ◌++◌, vec_len, vec_capacity, take};
ghost use Rattle.std.specs.Prelude.{drop, IsTrue, IfOk, MatchOption};

use std::alloc::{AllocError, Allocator};

/// A buffer that takes at most `size` objects. It is allocated as a whole when it is made.
#[derive(Drop)]
pub struct Buffer<A: Allocator> {
    pub(crate) items: Vec<u32, A>,
    pub(crate) size: u32,
    ghost fits: { vec_len items ≤ size },
    ghost roomy: { size ≤ vec_capacity items },
    ghost some: { 0 < size },
}

impl<A: Allocator> Buffer<A> {
    pub(crate) fn new(alloc: A, size: u32) -> Result<Self, AllocError>
        requires { 0 < size }
        ensures { IfOk result (λ b. (b.items.items ≡ []) × (b.size ≡ size)) }
    {
        let items = Vec::with_capacity(alloc, size as usize)?;
        Ok(Buffer { items, size })
    }

    /// Returns how many objects the buffer has.
    pub(crate) fn len(&self) -> u32
        ensures { result ≡ vec_len self.now.items }
    {
        // `size` is read only so that its range is known here: there are at most `size` items, so their number fits in
        // a `u32`.
        let _most = self.size;
        self.items.len() as u32
    }

    pub(crate) fn is_full(&self) -> bool
        ensures full { IsTrue result ↔ (vec_len self.now.items ≡ self.now.size) }
        ensures some { 0 < self.now.size }
    {
        self.items.len() == self.size as usize
    }

    /// Appends `object` to a buffer that is not full.
    pub(crate) fn push(&mut self, object: u32)
        requires { vec_len self.old.items < self.old.size }
        ensures items { self.new.items.items ≡ self.old.items.items ++ object ∷ [] }
        ensures size { self.new.size ≡ self.old.size }
    {
        self.items.push_reserved(object);
    }

    /// Removes the last object and returns it. Returns `None` if the buffer is empty.
    pub(crate) fn pop(&mut self) -> Option<u32>
        ensures items { MatchOption result ((self.old.items.items ≡ []) × (self.new.items.items ≡ []))
            (λ o. self.old.items.items ≡ self.new.items.items ++ o ∷ []) }
        ensures size { self.new.size ≡ self.old.size }
    {
        self.items.pop()
    }

    /// Moves the upper half of the objects, rounded down, to `other`, in their order. `other` must be empty, and its
    /// size at least that of this buffer.
    pub(crate) fn split_upper_into(&mut self, other: &mut Buffer<A>)
        requires empty { other.old.items.items ≡ [] }
        requires room { self.old.size ≤ other.old.size }
        ensures lower { self.new.items.items
            ≡ take (vec_len self.old.items - vec_len self.old.items / 2) self.old.items.items }
        ensures upper { other.new.items.items
            ≡ drop (vec_len self.old.items - vec_len self.old.items / 2) self.old.items.items }
        ensures sizes { (self.new.size ≡ self.old.size) × (other.new.size ≡ other.old.size) }
    {
        let len = self.items.len();
        let lower = len - len / 2;
        for at in lower..len {
            other.push(self.items[at]);
        }
        self.items.truncate(lower);
    }
}
