//! Split and join.

ghost use Rattle.std.specs.Prelude.{◌<◌, ◌↔◌, IfErr, IfOk, IsTrue, length};
ghost use Rattle.mark_core.specs.Events.{Split, Join};
ghost use Rattle.mark_core.specs.StepCall.{IsLawful, MayDo, Tries};

use crate::account::Account;
use crate::out_of_memory::OutOfMemory;
use crate::state::State;
use std::alloc::Allocator;
use std::mem;

/// The most accounts that can be made, including those joined later: each has a number of its own.
const MOST_ACCOUNTS: usize = 4_294_967_295;

impl<A: Allocator> State<A> {
    /// Tests whether there is a number for one more account.
    pub fn has_number(&self) -> bool
        ensures { IsTrue result ↔ (length self.now.accounts < 4294967295) }
    {
        self.accounts.len() < MOST_ACCOUNTS
    }
}

impl<A: Allocator + Copy> State<A> {
    /// Lets the account `w` give `units` units to a new account if it may, and returns whether it did.
    pub fn split(&mut self, alloc: A, w: usize, units: u32) -> Result<bool, OutOfMemory>
        requires { w < length self.old.accounts }
        ensures done { IfOk result (λ done. Tries self.old w (Split units) done self.new) }
        ensures refused { IfErr result (λ _. MayDo self.old w (Split units)) }
    {
        if !self.accounts[w].may_split(units) {
            return Ok(false);
        }
        self.accounts[w].give(units);
        self.accounts.push(Account::new(alloc, units))?;
        Ok(true)
    }

    /// Joins the account `other` to the account `w` if `other` exists and is not `w`, and returns whether it did.
    pub fn join(&mut self, alloc: A, w: usize, other: u32) -> Result<bool, OutOfMemory>
        requires there { w < length self.old.accounts }
        requires lawful { IsLawful self.old }
        ensures done { IfOk result (λ done. Tries self.old w (Join other) done self.new) }
        ensures refused { IfErr result (λ _. MayDo self.old w (Join other)) }
    {
        let place = other as usize;
        if place == w {
            return Ok(false);
        }
        if !self.is_there(other) {
            return Ok(false);
        }
        let other = mem::replace(&mut self.accounts[place], Account::gone(alloc));
        self.accounts[w].join(&other)?;
        Ok(true)
    }
}
