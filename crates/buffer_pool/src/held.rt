//! A buffer that a worker holds.
ghost use Rattle.std.specs.Prelude.{◌≡◌, ◌+◌, ◌-◌, ◌/◌, ◌<◌, ◌≤◌, [], ◌∷◌, ◌++◌, length, take, drop, MatchOption, OnOk};
ghost use Rattle.std.specs.Prelude.{IfErr};

use crate::buffer::Buffer;
use std::alloc::Allocator;
use std::marker::Model;

/// A buffer that a worker took from a stack. Its items change in place, without allocation.
#[derive(Drop)]
pub struct Held<A: Allocator> {
    pub(crate) index: u32,
    pub(crate) buffer: Buffer<A>,
}

impl<A: Allocator> Model for Held<A> {
    ghost use Rattle.buffer_pool.specs.Calls.{HeldBuffer};

    ghost Value = { HeldBuffer };

    ghost view = { λ h. record { index = h.index; items = h.buffer.items.items; size = h.buffer.size } };
}

impl<A: Allocator> Held<A> {
    /// Returns the buffer's number in its pool, below the number of buffers. Only this number distinguishes two empty
    /// buffers.
    pub fn index(&self) -> u32
        ensures { result ≡ self.now.index }
    {
        self.index
    }

    /// Returns how many objects the buffer has.
    pub fn len(&self) -> u32
        ensures { result ≡ length self.now.items }
    {
        self.buffer.len()
    }

    /// Puts `object` into the buffer. Returns `Err(object)` if the buffer is full. A full buffer has objects (`some`),
    /// so an empty buffer refuses none.
    pub fn put(&mut self, object: u32) -> Result<(), u32>
        ensures ok { OnOk result ((length self.old.items < self.old.size)
            × (self.new ≡ record self.old { items = self.old.items ++ object ∷ [] })) }
        ensures full { IfErr result (λ back. (back ≡ object) × (length self.old.items ≡ self.old.size)
            × (self.new ≡ self.old)) }
        ensures some { 0 < self.old.size }
    {
        if self.buffer.is_full() {
            return Err(object);
        }
        self.buffer.push(object);
        Ok(())
    }

    /// Removes the buffer's last object and returns it. Returns `None` if the buffer is empty.
    pub fn take(&mut self) -> Option<u32>
        ensures { MatchOption result ((self.old.items ≡ []) × (self.new ≡ self.old))
            (λ o. (self.old.items ≡ self.new.items ++ o ∷ [])
            × (self.new ≡ record self.old { items = self.new.items })) }
    {
        self.buffer.pop()
    }

    /// Moves the upper half of the objects, rounded down, to `other`, in their order. `other` must be empty, and take
    /// at least as many objects as this buffer.
    pub fn split_upper_into(&mut self, other: &mut Held<A>)
        requires empty { other.old.items ≡ [] }
        requires room { self.old.size ≤ other.old.size }
        ensures lower { self.new
            ≡ record self.old { items = take (length self.old.items - length self.old.items / 2) self.old.items } }
        ensures upper { other.new
            ≡ record other.old { items = drop (length self.old.items - length self.old.items / 2) self.old.items } }
    {
        self.buffer.split_upper_into(&mut other.buffer);
    }
}
