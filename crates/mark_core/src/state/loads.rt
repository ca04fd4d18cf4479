//! Loads of heads and links, and exchanges that fail.

ghost use Rattle.std.specs.Prelude.{◌<◌, true, length};
ghost use Rattle.mark_core.specs.Events.{Load, LoadLink, Fail};
ghost use Rattle.mark_core.specs.StepCall.{Tries};

use crate::state::State;
use crate::which::Which;
use std::alloc::Allocator;

impl<A: Allocator> State<A> {
    /// Lets the account `w` load the head of the stack `which`.
    pub fn load(&mut self, w: usize, which: Which)
        requires { w < length self.old.accounts }
        ensures { Tries self.old w (Load which) true self.new }
    {
        let head = self.head(which);
        self.accounts[w].load(which, head);
    }

    /// Lets the account `w` load the link of the buffer that its last loaded head of the stack `which` names. Returns
    /// `false` if the account has loaded no head of the stack, or the head names no buffer.
    pub fn load_link(&mut self, w: usize, which: Which) -> bool
        requires { w < length self.old.accounts }
        ensures { Tries self.old w (LoadLink which) result self.new }
    {
        let Some(buffer) = self.accounts[w].look(which).buffer() else {
            return false;
        };
        let link = self.link(buffer);
        self.accounts[w].load_link(which, link);
        true
    }

    /// Tests whether an exchange of the head of the stack `which` by the account `w` may fail: the account last loaded
    /// another head than the current one. Changes nothing.
    pub fn fail(&mut self, w: usize, which: Which) -> bool
        requires { w < length self.old.accounts }
        ensures { Tries self.old w (Fail which) result self.new }
    {
        let now = self.head(which);
        self.accounts[w].look(which).shows_another(now)
    }
}
