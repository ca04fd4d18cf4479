//! Claim and finish.

ghost use Rattle.std.specs.Prelude.{◌≡◌, ◌<◌, IfErr, IfOk, length, max, slice_index, slice_set, vec_len};
ghost use Rattle.mark_core.specs.Events.{Claim, Finish};
ghost use Rattle.mark_core.specs.StepCall.{IsLawful, MayDo, Tries};

use crate::out_of_memory::OutOfMemory;
use crate::state::State;
use std::alloc::Allocator;

impl<A: Allocator> State<A> {
    /// Lets the account `w` claim `object` if it may, and returns whether it did.
    pub fn claim(&mut self, w: usize, object: u32) -> Result<bool, OutOfMemory>
        requires there { w < length self.old.accounts }
        requires lawful { IsLawful self.old }
        ensures done { IfOk result (λ done. Tries self.old w (Claim object) done self.new) }
        ensures refused { IfErr result (λ _. MayDo self.old w (Claim object)) }
    {
        if !self.accounts[w].may_claim(&self.setup, object) {
            return Ok(false);
        }
        let found = fetch_max(&mut self.marks, object as usize, 1);
        self.accounts[w].claim(object, found)?;
        Ok(true)
    }

    /// Lets the account `w` finish `object` if it may, and returns whether it did.
    pub fn finish(&mut self, w: usize, object: u32) -> Result<bool, OutOfMemory>
        requires there { w < length self.old.accounts }
        requires lawful { IsLawful self.old }
        ensures done { IfOk result (λ done. Tries self.old w (Finish object) done self.new) }
        ensures refused { IfErr result (λ _. MayDo self.old w (Finish object)) }
    {
        if !self.accounts[w].may_finish(&self.setup, object) {
            return Ok(false);
        }
        self.accounts[w].finish(object)?;
        self.marks[object as usize] = 2;
        Ok(true)
    }
}

/// Raises the mark of `object` to `mark` if it is lower, and returns the old mark.
fn fetch_max<A: Allocator>(marks: &mut Vec<u8, A>, object: usize, mark: u8) -> u8
    requires { object < vec_len marks.old }
    ensures found { result ≡ slice_index marks.old.items object }
    ensures raised { marks.new.items ≡ slice_set marks.old.items object (max result mark) }
{
    let found = marks[object];
    marks[object] = found.max(mark);
    found
}
