//! The slots of the pool's table, one for each buffer: their first values, and how they are emptied at the end. The
//! functions of `head_exchange.rt` take buffers out of slots and put them back. `specs/working/Slots.antt` says what
//! the slots have between two steps.
ghost use Rattle.std.specs.Prelude.{◌≡◌, ◌<◌, All, IfOk, length};
ghost use Rattle.std.specs.Slots.{IsFull, slots_filled, slots_len};
ghost use Rattle.buffer_pool.specs.Closing.{IsEmptied};
ghost use Rattle.buffer_pool.specs.working.Buffers.{buffer_reading};
ghost use Rattle.buffer_pool.specs.working.Opening.{IsFirstSlot};

use crate::buffer::Buffer;
use atomic_table::Closed;
use std::alloc::{AllocError, Allocator};

/// Creates `buffers` slots, each with a buffer that takes `size` objects and has none.
pub(super) fn first_slots<A: Allocator + Copy>(
    alloc: A,
    buffers: u32,
    size: u32,
) -> Result<Vec<Option<Buffer<A>>, A>, AllocError>
    requires { 0 < size }
    ensures { IfOk result (λ s. (length s.items ≡ buffers) × All (IsFirstSlot buffer_reading size) s.items) }
{
    let mut slots = Vec::with_capacity(alloc, buffers as usize)?;
    while slots.len() < buffers as usize {
        slots.push_reserved(Some(Buffer::new(alloc, size)?));
    }
    Ok(slots)
}

/// Drops the buffers in the slots of `closed`. Afterwards no slot has a buffer.
pub(super) fn empty_slots<A: Allocator>(closed: &mut Closed<Option<Buffer<A>>, A>)
    requires full { IsFull closed.old.slots }
    ensures words { closed.new.words ≡ closed.old.words }
    ensures empty { IsEmptied (slots_len closed.new.slots) (slots_filled closed.new.slots) }
{
    for slot in 0..closed.slot_count() {
        drop(closed.take(slot));
    }
}
