//! The tables at the opening.

ghost use Rattle.std.specs.Prelude.{◌≡◌, ◌<◌, ◌≤◌, ℕ, Some, None, [], IfOk, replicate, length};
ghost use Rattle.std.specs.Prelude.{slice_index_or};
ghost use Rattle.mark_core.specs.Runs.{first_link, opening};
ghost use Rattle.mark_core.specs.StepCall.{marking_of};

use crate::account::Account;
use crate::numbers::Numbers;
use crate::out_of_memory::OutOfMemory;
use crate::setup::Setup;
use crate::state::State;
use std::alloc::Allocator;
use tagged_index::{HeadWord, LAST_TAG};

/// All units together. The first account has them at the opening.
const WHOLE: u32 = 65_536;

impl<A: Allocator + Copy> State<A> {
    /// Creates the tables of an opening marking: all objects are white, all buffers are on the empty stack with 0 on
    /// top, and one account has the whole share.
    pub fn opening(alloc: A, setup: Setup<A>) -> Result<Self, OutOfMemory>
        requires { setup.first_tag ≤ LAST_TAG }
        ensures marking { IfOk result (λ s. marking_of s ≡ opening setup setup.first_tag) }
        ensures setup { IfOk result (λ s. s.setup ≡ setup) }
        ensures links { IfOk result (λ s. length s.links ≡ setup.buffers) }
        ensures slots { IfOk result (λ s. length s.slots ≡ setup.buffers) }
        ensures marks { IfOk result (λ s. length s.marks ≡ setup.objects) }
    {
        let first_tag = setup.first_tag;
        let links = links_of(alloc, setup.buffers)?;
        let slots = slots_of(alloc, setup.buffers)?;
        let marks = vec![in alloc; 0u8; setup.objects as usize]?;
        let mut accounts = Vec::new(alloc);
        accounts.push(Account::new(alloc, WHOLE))?;
        Ok(State {
            setup,
            full: HeadWord::none(first_tag),
            empty: HeadWord::of(0, first_tag),
            links,
            marks,
            slots,
            idle: 0,
            accounts,
        })
    }
}

/// Returns the links of `buffers` buffers at the opening.
fn links_of<A: Allocator>(alloc: A, buffers: u32) -> Result<Vec<Option<u32>, A>, OutOfMemory>
    ensures len { IfOk result (λ links. length links.items ≡ buffers) }
    ensures links { IfOk result (λ links. (i : ℕ) → slice_index_or links.items i None ≡ first_link buffers i) }
{
    let mut links = Vec::new(alloc);
    for buffer in 0..buffers {
        links.push(link_of(buffer, buffers))?;
    }
    Ok(links)
}

/// Returns the link of `buffer` at the opening: the next number, or `None` for the last of `buffers` buffers.
fn link_of(buffer: u32, buffers: u32) -> Option<u32>
    requires { buffer < buffers }
    ensures { result ≡ first_link buffers buffer }
{
    let next = buffer + 1;
    if next < buffers { Some(next) } else { None }
}

/// Returns the slots of `buffers` buffers at the opening: each buffer is stacked, and has no items.
fn slots_of<A: Allocator + Copy>(
    alloc: A,
    buffers: u32,
) -> Result<Vec<Option<Numbers<A>>, A>, OutOfMemory>
    ensures { IfOk result (λ slots. slots.items ≡ replicate buffers (Some [])) }
{
    let mut slots = Vec::new(alloc);
    for _ in 0..buffers {
        slots.push(Some(Numbers::new(alloc)))?;
    }
    Ok(slots)
}
