//! The idle word.

ghost use Rattle.std.specs.Prelude.{◌<◌, true, length};
ghost use Rattle.mark_core.specs.Events.{IdleUp, IdleDown, LoadIdle};
ghost use Rattle.mark_core.specs.StepCall.{Tries};

use crate::state::State;
use std::alloc::Allocator;

impl<A: Allocator> State<A> {
    /// Lets the account `w` go idle if it may, and returns whether it did.
    pub fn idle_up(&mut self, w: usize) -> bool
        requires { w < length self.old.accounts }
        ensures { Tries self.old w IdleUp result self.new }
    {
        if !self.accounts[w].may_idle() {
            return false;
        }
        self.accounts[w].idle_up();
        self.idle = self.idle.wrapping_add(1);
        true
    }

    /// Lets the account `w` come back if it may, and returns whether it did.
    pub fn idle_down(&mut self, w: usize) -> bool
        requires { w < length self.old.accounts }
        ensures { Tries self.old w IdleDown result self.new }
    {
        if !self.accounts[w].may_wake() {
            return false;
        }
        self.accounts[w].idle_down();
        self.idle = self.idle.wrapping_sub(1);
        true
    }

    /// Lets the account `w` load the idle word.
    pub fn load_idle(&mut self, w: usize)
        requires { w < length self.old.accounts }
        ensures { Tries self.old w LoadIdle true self.new }
    {
        let word = self.idle;
        self.accounts[w].load_idle(word);
    }
}
