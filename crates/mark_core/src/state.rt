//! The tables of a world, and the effect of each event on them.

ghost use Rattle.std.specs.Prelude.{◌≡◌, ◌↔◌, IsTrue, IsSome, IfSome, length};
ghost use Rattle.std.specs.Prelude.{slice_index_or};
ghost use Rattle.mark_core.specs.StepCall.{HasAccount, heads_of, with_head};
ghost use Rattle.mark_core.specs.World.{account_at};

mod act;
mod idle;
mod loads;
mod marks;
mod opening;
mod shares;
mod stacks;

use crate::account::Account;
use crate::numbers::Numbers;
use crate::setup::Setup;
use crate::which::Which;
use std::alloc::Allocator;
use std::marker::Model;
use tagged_index::HeadWord;

/// The setup and the tables of a world. This type has no invariant: [`World`](crate::World) has one, which includes the
/// law.
#[derive(Drop)]
pub struct State<A: Allocator> {
    setup: Setup<A>,
    full: HeadWord,
    empty: HeadWord,
    links: Vec<Option<u32>, A>,
    marks: Vec<u8, A>,
    slots: Vec<Option<Numbers<A>>, A>,
    idle: u64,
    accounts: Vec<Account<A>, A>,
}

impl<A: Allocator> Model for State<A> {
    ghost use Rattle.mark_core.specs.StepCall.{Listing};

    ghost Value = { Listing };

    ghost view = { λ s. record {
      setup = s.setup;
      full = s.full;
      empty = s.empty;
      links = s.links.items;
      marks = s.marks.items;
      slots = s.slots.items;
      idle = s.idle;
      accounts = s.accounts.items;
    } };
}

impl<A: Allocator> State<A> {
    /// Tests whether the account `worker` exists.
    pub fn is_there(&self, worker: u32) -> bool
        ensures { IsTrue result ↔ HasAccount self.now worker }
    {
        match self.accounts.get(worker as usize) {
            Some(account) => account.is_there(),
            None => false,
        }
    }

    /// Returns the head of the stack `which`.
    pub fn head(&self, which: Which) -> HeadWord
        ensures { result ≡ heads_of self.now which }
    {
        match which {
            Which::Full => self.full,
            Which::Empty => self.empty,
        }
    }

    /// Returns the link of `buffer`: the next buffer, if any. Returns `None` also if there is no such buffer.
    pub fn link(&self, buffer: u32) -> Option<u32>
        ensures { result ≡ slice_index_or self.now.links buffer None }
    {
        self.links.get(buffer as usize).copied().flatten()
    }

    /// Returns the account `worker`, or `None` if it does not exist.
    pub fn account(&self, worker: u32) -> Option<&Account<A>>
        ensures there { IsSome result ↔ HasAccount self.now worker }
        ensures same { IfSome result (λ a. a.now ≡ account_at self.now.accounts worker) }
    {
        match self.accounts.get(worker as usize) {
            Some(account) if account.is_there() => Some(account),
            _ => None,
        }
    }

    /// Returns the mark of each object: 0 for white, 1 for claimed, 2 for finished.
    pub fn marks(&self) -> &[u8]
        ensures { result.now ≡ self.now.marks }
    {
        self.marks.as_slice()
    }

    /// Sets the head of the stack `which`.
    fn set_head(&mut self, which: Which, head: HeadWord)
        ensures { self.new ≡ with_head self.old which head }
    {
        match which {
            Which::Full => self.full = head,
            Which::Empty => self.empty = head,
        }
    }
}
