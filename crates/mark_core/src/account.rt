//! What one worker has, and what it knows.

ghost use Rattle.std.specs.Prelude.{◌≡◌, ◌↔◌, ◌<◌, ◌≤◌, ◌+◌, ◌^◌, ℕ, IsTrue, OnOk, Contains};
ghost use Rattle.std.specs.Bool.{OnTrue};
ghost use Rattle.mark_core.specs.Account.{part, no_share, look_of, after_claim, after_finish};
ghost use Rattle.mark_core.specs.Account.{after_split, after_join, after_load, after_load_link};
ghost use Rattle.mark_core.specs.Account.{after_pop, after_push};
ghost use Rattle.mark_core.specs.Account.{after_idle_up, after_idle_down, after_load_idle};
ghost use Rattle.mark_core.specs.Events.{CanClaim, CanFinish, CanIdle, CanSplit, CanWake, IsBusy};
ghost use Rattle.mark_core.specs.declared.which.Which.TheVariants.{Full};
ghost use Rattle.mark_core.specs.Lists.{IsPart};
ghost use Rattle.mark_core.specs.World.{items_of};

use crate::look::Look;
use crate::numbers::Numbers;
use crate::out_of_memory::OutOfMemory;
use crate::setup::Setup;
use crate::which::Which;
use std::alloc::Allocator;
use std::marker::Model;
use tagged_index::HeadWord;

/// The account of a worker: its units, the buffers that it holds, the objects in its charge, those that it saw marked,
/// those that it finished, what it last loaded, its idle number, and notes of what it did. `specs/Account.antt`
/// explains each field.
#[derive(Drop)]
pub struct Account<A: Allocator> {
    share: u32,
    held: Numbers<A>,
    charge: Numbers<A>,
    seen: Numbers<A>,
    finished: Numbers<A>,
    full: Look,
    empty: Look,
    open_push: bool,
    idle: u32,
    last_idle: Option<u64>,
    found: bool,
    parted: bool,
    pushed: bool,
    joined: bool,
}

impl<A: Allocator> Model for Account<A> {
    ghost use Rattle.mark_core.specs.Account.{Account};

    ghost Value = { Account };

    ghost view = { λ a. record {
      share = a.share;
      held = a.held;
      charge = a.charge;
      seen = a.seen;
      finished = a.finished;
      full = a.full;
      empty = a.empty;
      open_push = a.open_push;
      idle = a.idle;
      last_idle = a.last_idle;
      found = a.found;
      parted = a.parted;
      pushed = a.pushed;
      joined = a.joined;
    } };
}

impl<A: Allocator + Copy> Account<A> {
    /// Creates an account with `share` units and nothing else.
    pub fn new(alloc: A, share: u32) -> Self
        ensures { result ≡ part share }
    {
        Account {
            share,
            held: Numbers::new(alloc),
            charge: Numbers::new(alloc),
            seen: Numbers::new(alloc),
            finished: Numbers::new(alloc),
            full: Look::blank(),
            empty: Look::blank(),
            open_push: false,
            idle: 0,
            last_idle: None,
            found: false,
            parted: false,
            pushed: false,
            joined: false,
        }
    }

    /// Creates what is left of an account that was joined to another: an account that has nothing, noted as joined.
    pub fn gone(alloc: A) -> Self
        ensures { result ≡ no_share }
    {
        let mut account = Account::new(alloc, 0);
        account.joined = true;
        account
    }
}

impl<A: Allocator> Account<A> {
    /// Tests whether the account exists, that is, has a unit. An account that was joined to another has no units.
    pub fn is_there(&self) -> bool
        ensures { IsTrue result ↔ (0 < self.now.share) }
    {
        self.share > 0
    }

    /// Returns the numbers of the buffers that the account holds.
    pub fn held(&self) -> &[u32]
        ensures { result.now ≡ self.now.held }
    {
        self.held.as_slice()
    }

    /// Returns the objects in the account's charge.
    pub fn charge(&self) -> &[u32]
        ensures { result.now ≡ self.now.charge }
    {
        self.charge.as_slice()
    }

    /// Returns what the account last loaded of the stack `which`.
    pub fn look(&self, which: Which) -> Look
        ensures { result ≡ look_of self.now which }
    {
        match which {
            Which::Full => self.full,
            Which::Empty => self.empty,
        }
    }

    /// Tests whether the account holds `buffer`.
    pub fn holds(&self, buffer: u32) -> bool
        ensures { IsTrue result ↔ Contains self.now.held buffer }
    {
        self.held.contains(buffer)
    }

    /// Tests whether the account is not idle.
    pub fn is_busy(&self) -> bool
        ensures { IsTrue result ↔ IsBusy self.now }
    {
        self.share != 1 || self.idle == 0
    }

    /// Tests whether `which` is the empty stack or the account is not idle: an idle account pushes nothing on full.
    pub fn may_push_on(&self, which: Which) -> bool
        ensures { IsTrue result ↔ (which ≡ Full → IsBusy self.now) }
    {
        match which {
            Which::Full => self.is_busy(),
            Which::Empty => true,
        }
    }

    /// Tests whether `object` is a root or a successor of an object in the account's charge.
    fn reaches(&self, setup: &Setup<A>, object: u32) -> bool
        ensures { IsTrue result ↔ CanClaim setup.now object self.now }
    {
        setup.is_root(object) || setup.has_pair_from(self.charge.as_slice(), object)
    }

    /// Tests whether the account may claim `object`: the account is not idle, and `object` is a root or a successor of
    /// an object in the account's charge.
    pub fn may_claim(&self, setup: &Setup<A>, object: u32) -> bool
        ensures { IsTrue result ↔ (CanClaim setup.now object self.now × IsBusy self.now) }
    {
        self.reaches(setup, object) && self.is_busy()
    }

    /// Tests whether the account may finish `object`: `object` is in the account's charge, and the account has seen
    /// that all successors of `object` are marked.
    pub fn may_finish(&self, setup: &Setup<A>, object: u32) -> bool
        ensures { IsTrue result ↔ CanFinish setup.now object self.now }
    {
        self.charge.contains(object) && setup.has_successors_in(object, &self.seen)
    }

    /// Tests whether the account may give `units` units away: at least one, and not all.
    pub fn may_split(&self, units: u32) -> bool
        ensures { IsTrue result ↔ CanSplit units self.now }
    {
        0 < units && units < self.share
    }

    /// Tests whether the account may go idle: it has one unit, is not idle, has nothing in its charge, and has found
    /// the full stack empty and not pushed there since.
    pub fn may_idle(&self) -> bool
        ensures { IsTrue result ↔ CanIdle self.now }
    {
        self.share == 1 && self.idle == 0 && self.charge.is_empty() && self.found
    }

    /// Tests whether the account may come back: it has one unit and is idle.
    pub fn may_wake(&self) -> bool
        ensures { IsTrue result ↔ CanWake self.now }
    {
        self.share == 1 && self.idle == 1
    }

    /// Notes that `object` is marked. Adds `object` to the charge if `found`, its mark before the claim, is 0 (white).
    pub fn claim(&mut self, object: u32, found: u8) -> Result<(), OutOfMemory>
        ensures { OnOk result (self.new ≡ after_claim object found self.old) }
    {
        self.seen.add(object)?;
        if found == 0 {
            self.charge.add(object)?;
        }
        Ok(())
    }

    /// Finishes `object`: moves it from the charge to the finished objects.
    pub fn finish(&mut self, object: u32) -> Result<(), OutOfMemory>
        ensures { OnOk result (self.new ≡ after_finish object self.old) }
    {
        self.finished.add(object)?;
        let _ = self.charge.take_one(object);
        Ok(())
    }

    /// Gives `units` units away.
    pub fn give(&mut self, units: u32)
        requires { units ≤ self.old.share }
        ensures { self.new ≡ after_split units self.old }
    {
        self.share -= units;
        self.parted = true;
    }

    /// Adds the units, buffers, objects and idle number of `other`. Takes over its open push, if any. Notes the join.
    pub fn join(&mut self, other: &Account<A>) -> Result<(), OutOfMemory>
        requires shares { self.old.share + other.now.share < 2 ^ 32 }
        requires idles { self.old.idle + other.now.idle < 2 ^ 32 }
        ensures { OnOk result (self.new ≡ after_join self.old other.now) }
    {
        self.held.append(other.held.as_slice())?;
        self.charge.append(other.charge.as_slice())?;
        self.seen.append(other.seen.as_slice())?;
        self.finished.append(other.finished.as_slice())?;
        self.share += other.share;
        self.open_push = self.open_push || other.open_push;
        self.idle += other.idle;
        self.joined = true;
        Ok(())
    }

    /// Notes that `head` was loaded from the stack `which`.
    pub fn load(&mut self, which: Which, head: HeadWord)
        ensures { self.new ≡ after_load which head self.old }
    {
        match which {
            Which::Full => {
                self.full = Look::of(head);
                self.open_push = self.open_push && head.index().is_some();
                self.found = self.found || head.index().is_none();
            }
            Which::Empty => self.empty = Look::of(head),
        }
    }

    /// Notes that `link` was loaded: the link of the buffer that the last loaded head of the stack `which` names.
    pub fn load_link(&mut self, which: Which, link: Option<u32>)
        ensures { self.new ≡ after_load_link which link self.old }
    {
        match which {
            Which::Full => self.full = self.full.with_link(link),
            Which::Empty => self.empty = self.empty.with_link(link),
        }
    }

    /// Adds `buffer` to the held buffers, and the items in `slot`, if any, to the charge.
    pub fn pop(&mut self, buffer: u32, slot: Option<Numbers<A>>) -> Result<(), OutOfMemory>
        ensures { OnOk result (self.new ≡ after_pop buffer (items_of slot) self.old) }
    {
        self.held.add(buffer)?;
        if let Some(items) = slot {
            self.charge.append(items.as_slice())?;
        }
        Ok(())
    }

    /// Gives up `buffer` and `items` for a push on the stack `which`. Returns whether `items` are part of the charge.
    /// If they are not, the account afterwards is not specified.
    pub fn push(&mut self, which: Which, buffer: u32, items: &[u32]) -> bool
        ensures part { IsTrue result ↔ IsPart items.now self.old.charge }
        ensures pushed { OnTrue result (self.new ≡ after_push which buffer items.now self.old) }
    {
        if !self.charge.take_all(items) {
            return false;
        }
        let _ = self.held.take_one(buffer);
        if which == Which::Full {
            self.open_push = true;
            self.found = false;
            self.pushed = self.pushed || self.parted;
        }
        true
    }

    /// Goes idle.
    pub fn idle_up(&mut self)
        requires { self.old.idle ≡ 0 }
        ensures { self.new ≡ after_idle_up self.old }
    {
        self.idle += 1;
    }

    /// Comes back from being idle.
    pub fn idle_down(&mut self)
        requires { self.old.idle ≡ 1 }
        ensures { self.new ≡ after_idle_down self.old }
    {
        self.idle -= 1;
    }

    /// Notes that the idle word was loaded as `word`.
    pub fn load_idle(&mut self, word: u64)
        ensures { self.new ≡ after_load_idle word self.old }
    {
        self.last_idle = Some(word);
    }
}
