//! The spill list of a pair: the objects for which it found no empty buffer.
//!
//! `Pair::get` returns the spilled objects again, the last first. `Pair::dispose` drops the list, which may have
//! objects only after a stop.
ghost use Rattle.std.specs.Prelude.{◌≡◌, ◌∷◌, ◌++◌, IfErr, IfNone, OnErr, OnOk, [], length, option_to_list, true};
ghost use Rattle.work_pair.specs.declared.stop.Stop.TheVariants.{OutOfMemory};

use crate::pair::Pair;
use crate::stop::Stop;
use std::alloc::{AllocError, Allocator};
use std::marker::Model;

/// The objects for which no empty buffer was found, the last put at the end.
#[derive(Drop)]
pub(super) struct SpillList<A: Allocator> {
    objects: Vec<u32, A>,
}

impl<A: Allocator> Model for SpillList<A> {
    ghost use Rattle.std.specs.Prelude.{List, ℕ};

    ghost Value = { List ℕ };

    ghost view = { λ l. l.objects.items };
}

impl<A: Allocator> SpillList<A> {
    /// Creates an empty list, which allocates nothing yet.
    pub(super) fn new(alloc: A) -> Self
        ensures { result ≡ [] }
    {
        SpillList {
            objects: Vec::new(alloc),
        }
    }

    /// Appends `object`. The list stays as it was if it cannot grow.
    pub(super) fn push(&mut self, object: u32) -> Result<(), AllocError>
        ensures pushed { OnOk result (self.new ≡ self.old ++ object ∷ []) }
        ensures same { OnErr result (self.new ≡ self.old) }
    {
        self.objects.push(object)?;
        Ok(())
    }

    /// Removes the last object and returns it. Returns `None` if the list is empty.
    // Inlined, because `Pair::get` calls it first, and the list is nearly always empty.
    #[inline]
    pub(super) fn pop(&mut self) -> Option<u32>
        ensures items { self.old ≡ self.new ++ option_to_list result }
        ensures none { IfNone result (length self.new ≡ 0) }
    {
        self.objects.pop()
    }

    /// Drops all objects.
    pub(super) fn clear(&mut self)
        ensures items { self.new ≡ [] }
    {
        self.objects.clear();
    }

    /// Returns how many objects the list has.
    pub(super) fn len(&self) -> usize
        ensures { result ≡ length self.now }
    {
        self.objects.len()
    }
}

impl<A: Allocator> Pair<A> {
    /// Puts `object` at the end of the spill list. Returns it if the list could not grow.
    // Not inlined, so that the growth of a list is not inlined into each caller of `put`.
    #[inline(never)]
    pub(super) fn spill_over(&mut self, object: u32) -> Result<(), (u32, Stop)>
        ensures spilled { OnOk result (self.new ≡ record self.old { spill = self.old.spill ++ object ∷ [] }) }
        ensures starved { IfErr result (λ e. (e ≡ (object, OutOfMemory)) × (self.new ≡ record self.old
            { starved = true })) }
    {
        match self.spill.push(object) {
            Ok(()) => Ok(()),
            Err(_) => {
                self.starved = true;
                Err((object, Stop::OutOfMemory))
            }
        }
    }

    /// Returns how many objects the spill list has.
    pub fn spilled(&self) -> usize
        ensures { result ≡ length self.now.spill }
    {
        self.spill.len()
    }
}
