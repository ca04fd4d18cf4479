//! One step of one worker.

ghost use Rattle.std.specs.Prelude.{IfErr, IfOk};
ghost use Rattle.mark_core.specs.StepCall.{CanStep, IsLawful, Steps, event_of};

use crate::event::{Event, Kind};
use crate::numbers::Numbers;
use crate::out_of_memory::OutOfMemory;
use crate::state::State;
use std::alloc::Allocator;

impl<A: Allocator + Copy> State<A> {
    /// Makes `event` and returns `true`, or returns `false` if `event` is not possible, or is a split and no number is
    /// left for the new account.
    pub fn act(&mut self, alloc: A, event: Event<A>) -> Result<bool, OutOfMemory>
        requires { IsLawful self.old }
        ensures done { IfOk result (λ done. Steps self.old (event_of event) done self.new) }
        ensures refused { IfErr result (λ _. CanStep self.old (event_of event)) }
    {
        let Event { worker, kind } = event;
        if !self.is_there(worker) {
            return Ok(false);
        }
        let w = worker as usize;
        match kind {
            Kind::Claim(object) => self.claim(w, object),
            Kind::Finish(object) => self.finish(w, object),
            Kind::Split(units) => {
                if !self.has_number() {
                    return Ok(false);
                }
                self.split(alloc, w, units)
            }
            Kind::Join(other) => self.join(alloc, w, other),
            Kind::Load(which) => {
                self.load(w, which);
                Ok(true)
            }
            Kind::LoadLink(which) => Ok(self.load_link(w, which)),
            Kind::StoreLink(buffer, link) => Ok(self.store_link(w, buffer, link)),
            Kind::Pop(which) => self.pop(w, which),
            Kind::Push(which, buffer, items) => {
                Ok(self.push(w, which, buffer, Numbers::of(items)))
            }
            Kind::Fail(which) => Ok(self.fail(w, which)),
            Kind::IdleUp => Ok(self.idle_up(w)),
            Kind::IdleDown => Ok(self.idle_down(w)),
            Kind::LoadIdle => {
                self.load_idle(w);
                Ok(true)
            }
        }
    }
}
