//! A world, which keeps the law from event to event.

ghost use Rattle.std.specs.Prelude.{◌≡◌, ◌↔◌, ◌<◌, ◌≤◌, All, IfErr, IfOk, IsSome, IfSome, length};
ghost use Rattle.std.specs.Prelude.{vec_items};
ghost use Rattle.mark_core.specs.Runs.{opening};
ghost use Rattle.mark_core.specs.StepCall.{Answers, CanStep, HasAccount, IsLawful, event_of, marking_of};
ghost use Rattle.mark_core.specs.World.{account_at};

use crate::event::Event;
use crate::out_of_memory::OutOfMemory;
use crate::setup::Setup;
use crate::state::State;
use crate::which::Which;
use std::alloc::Allocator;
use std::marker::Model;
use tagged_index::{HeadWord, LAST_TAG};

/// The shared part of a marking, and the account of each worker.
///
/// A world keeps the law of ownership, colours and shares. Tests replay lists of events on worlds.
#[derive(Drop)]
pub struct World<A: Allocator> {
    state: State<A>,
}

impl<A: Allocator> Model for World<A> {
    ghost use Rattle.mark_core.specs.StepCall.{Listing, IsLawful};

    ghost Value = { Listing };

    ghost view = { λ w. w.state };

    ghost invariant = { λ w. IsLawful w.state };
}

impl<A: Allocator + Copy> World<A> {
    /// Creates the opening world of a heap. The heap has `objects` objects (at most 16,777,216), `roots`, and `pairs`
    /// of an object and a successor. The world has `buffers` buffers (4 to 65,534), each for up to `size` objects (2 to
    /// 4,096). All objects are white. All buffers are on the empty stack, with 0 on top and rising numbers below. Both
    /// heads have the tag `first_tag`, and account 0 has the whole share of 65,536 units.
    pub fn new(
        alloc: A,
        objects: u32,
        roots: Vec<u32, A>,
        pairs: Vec<(u32, u32), A>,
        buffers: u32,
        size: u32,
        first_tag: u64,
    ) -> Result<Self, OutOfMemory>
        requires objects { objects ≤ 16777216 }
        requires buffers { (4 ≤ buffers) × (buffers ≤ 65534) }
        requires size { (2 ≤ size) × (size ≤ 4096) }
        requires tag { first_tag ≤ LAST_TAG }
        requires rooted { All (λ o. o < objects) (vec_items roots) }
        requires paired { All (λ p. (p.0 < objects) × (p.1 < objects)) (vec_items pairs) }
        ensures setup { IfOk result (λ w. w.setup ≡ record {
          objects = objects;
          buffers = buffers;
          size = size;
          first_tag = first_tag;
          roots = vec_items roots;
          pairs = vec_items pairs;
        }) }
        ensures opening { IfOk result (λ w. marking_of w ≡ opening w.setup w.setup.first_tag) }
    {
        let setup = Setup {
            objects,
            buffers,
            size,
            first_tag,
            roots,
            pairs,
        };
        let state = State::opening(alloc, setup)?;
        Ok(World { state })
    }
}

impl<A: Allocator> World<A> {
    /// Returns the mark of each object: 0 for white, 1 for claimed, 2 for finished.
    pub fn marks(&self) -> &[u8]
        ensures same { result.now ≡ self.now.marks }
        ensures each { length result.now ≡ self.now.setup.objects }
        ensures lawful { IsLawful self.now }
    {
        self.state.marks()
    }

    /// Returns the objects in the charge of the account `worker`, or `None` if that account does not exist.
    pub fn charge(&self, worker: u32) -> Option<&[u32]>
        ensures there { IsSome result ↔ HasAccount self.now worker }
        ensures charge { IfSome result (λ c. c.now ≡ (account_at self.now.accounts worker).charge) }
    {
        let account = self.state.account(worker)?;
        Some(account.charge())
    }

    /// Returns the buffers that the account `worker` holds, or `None` if that account does not exist.
    pub fn held(&self, worker: u32) -> Option<&[u32]>
        ensures there { IsSome result ↔ HasAccount self.now worker }
        ensures held { IfSome result (λ h. h.now ≡ (account_at self.now.accounts worker).held) }
    {
        let account = self.state.account(worker)?;
        Some(account.held())
    }

    /// Returns the head of the stack `which`: the first buffer, if any, and the tag.
    pub fn head(&self, which: Which) -> HeadWord
        ensures { result ≡ (marking_of self.now).head which }
    {
        self.state.head(which)
    }

    /// Returns the link of buffer `i`: the next buffer, if any. Returns `None` also if there is no such buffer.
    pub fn link(&self, i: u32) -> Option<u32>
        ensures { result ≡ (marking_of self.now).link i }
    {
        self.state.link(i)
    }
}

/// Returns the world after `event`. Returns `None` exactly if the event is not possible, or is a split after
/// 4,294,967,295 accounts were made. Allocates only if the event is possible. Drops `world` if it returns `None` or an
/// allocation fails.
pub fn step<A: Allocator + Copy>(
    alloc: A,
    world: World<A>,
    event: Event<A>,
) -> Result<Option<World<A>>, OutOfMemory>
    ensures done { IfOk result (λ r. Answers r world (event_of event)) }
    ensures refused { IfErr result (λ _. CanStep world (event_of event)) }
{
    let mut state = world.state;
    if state.act(alloc, event)? {
        Ok(Some(World { state }))
    } else {
        Ok(None)
    }
}
