//! Pops, pushes, and stores of links.

ghost use Rattle.std.specs.Prelude.{◌≡◌, ◌<◌, ◌≤◌, ◌↔◌, IfErr, IfOk, IsTrue, length, slice_index_or};
ghost use Rattle.std.specs.Bool.{OnTrue};
ghost use Rattle.std.specs.Option.{ForSome};
ghost use Rattle.mark_core.specs.Events.{StoreLink, Pop, Push};
ghost use Rattle.mark_core.specs.StepCall.{IsLawful, MayDo, IsReadyToPush, Tries, exchanged, heads_of};

use crate::numbers::Numbers;
use crate::out_of_memory::OutOfMemory;
use crate::state::State;
use crate::which::Which;
use std::alloc::Allocator;
use tagged_index::{LAST_INDEX, LAST_TAG};

impl<A: Allocator> State<A> {
    /// Lets the account `w` store `link` as the link of `buffer` if it may, and returns whether it did.
    pub fn store_link(&mut self, w: usize, buffer: u32, link: Option<u32>) -> bool
        requires there { w < length self.old.accounts }
        requires lawful { IsLawful self.old }
        ensures { Tries self.old w (StoreLink buffer link) result self.new }
    {
        if !self.accounts[w].holds(buffer) {
            return false;
        }
        self.links[buffer as usize] = link;
        true
    }

    /// Lets the account `w` pop: exchange the head of the stack `which` for the link that the account loaded, if it
    /// may. Returns whether it did.
    pub fn pop(&mut self, w: usize, which: Which) -> Result<bool, OutOfMemory>
        requires there { w < length self.old.accounts }
        requires lawful { IsLawful self.old }
        ensures done { IfOk result (λ done. Tries self.old w (Pop which) done self.new) }
        ensures refused { IfErr result (λ _. MayDo self.old w (Pop which)) }
    {
        let now = self.head(which);
        let account = &self.accounts[w];
        if !account.is_busy() {
            return Ok(false);
        }
        let look = account.look(which);
        if !look.shows(now) {
            return Ok(false);
        }
        let Some(buffer) = now.index() else {
            return Ok(false);
        };
        let Some(link) = look.link() else {
            return Ok(false);
        };
        // Tested before any allocation, so that only a possible pop can run out of memory.
        if now.tag() == LAST_TAG {
            return Ok(false);
        }
        let slot = self.slots[buffer as usize].take();
        self.accounts[w].pop(buffer, slot)?;
        Ok(self.exchange(which, link))
    }

    /// Lets the account `w` push: exchange the head of the stack `which` for `buffer` with `items`, if it may. Returns
    /// whether it did.
    pub fn push(&mut self, w: usize, which: Which, buffer: u32, items: Numbers<A>) -> bool
        requires there { w < length self.old.accounts }
        requires lawful { IsLawful self.old }
        ensures { Tries self.old w (Push which buffer items) result self.new }
    {
        if !self.may_push(w, which, buffer, &items) {
            return false;
        }
        if !self.accounts[w].push(which, buffer, items.as_slice()) {
            return false;
        }
        self.slots[buffer as usize] = Some(items);
        self.exchange(which, Some(buffer))
    }

    /// Exchanges the head of the stack `which` for `index` and the next tag. Returns `false` if there is no next tag.
    fn exchange(&mut self, which: Which, index: Option<u32>) -> bool
        requires { ForSome index (λ i. i ≤ LAST_INDEX) }
        ensures low { IsTrue result ↔ ((heads_of self.old which).tag < LAST_TAG) }
        ensures next { OnTrue result (self.new ≡ exchanged self.old which index) }
    {
        match self.head(which).next(index) {
            Some(next) => {
                self.set_head(which, next);
                true
            }
            None => false,
        }
    }

    /// Tests whether the account `w` may push `buffer` with `items` on the stack `which`. Does not test whether `items`
    /// are part of the account's charge, nor whether the head has the last tag.
    fn may_push(&self, w: usize, which: Which, buffer: u32, items: &Numbers<A>) -> bool
        requires { w < length self.now.accounts }
        ensures { IsTrue result ↔ IsReadyToPush self.now w which buffer items.now }
    {
        let now = self.head(which);
        let account = &self.accounts[w];
        if !account.look(which).shows(now) {
            return false;
        }
        if !account.holds(buffer) {
            return false;
        }
        if !self.setup.takes(which, items) {
            return false;
        }
        if !account.may_push_on(which) {
            return false;
        }
        self.links_to(buffer, now.index())
    }

    /// Tests whether the link of `buffer` is `next`.
    fn links_to(&self, buffer: u32, next: Option<u32>) -> bool
        ensures { IsTrue result ↔ (slice_index_or self.now.links buffer None ≡ next) }
    {
        self.link(buffer) == next
    }
}
