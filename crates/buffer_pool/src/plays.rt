//! The plays: what the contract of each step on the table says, as types that the steps name.
ghost use Rattle.buffer_pool.specs.working.Buffers.{buffer_reading};
ghost use Rattle.buffer_pool.specs.working.Plays.{claim_made, came_back, finish_made, head_seen, idle_seen};
ghost use Rattle.buffer_pool.specs.working.Plays.{link_seen, link_stored, top_taken, top_put, set_aside, caught_up};
ghost use Rattle.buffer_pool.specs.working.Plays.{went_idle};
ghost use Rattle.mark_core.specs.declared.which.Which.TheVariants.{Full, Empty};

use crate::buffer::Buffer;
use crate::seat_view::SeatView;
use atomic_table::Play;
use std::alloc::Allocator;

/// A load of a head.
pub struct SeeHead;

impl<A: Allocator> Play<Option<Buffer<A>>, SeatView> for SeeHead {
    ghost then = { head_seen };
}

/// A load of the link of the buffer that the last loaded full head names.
pub struct SeeFullLink;

impl<A: Allocator> Play<Option<Buffer<A>>, SeatView> for SeeFullLink {
    ghost then = { link_seen Full };
}

/// A load of the link of the buffer that the last loaded empty head names.
pub struct SeeEmptyLink;

impl<A: Allocator> Play<Option<Buffer<A>>, SeatView> for SeeEmptyLink {
    ghost then = { link_seen Empty };
}

/// A store of the link of a held buffer.
pub struct StoreLink;

impl<A: Allocator> Play<Option<Buffer<A>>, SeatView> for StoreLink {
    ghost then = { link_stored };
}

/// An exchange of a head for the link of the buffer on top.
pub struct TakeTop;

impl<A: Allocator> Play<Option<Buffer<A>>, SeatView> for TakeTop {
    ghost then = { top_taken buffer_reading };
}

/// An exchange of the full head for a held buffer.
pub struct PutTopFull;

impl<A: Allocator> Play<Option<Buffer<A>>, SeatView> for PutTopFull {
    ghost then = { top_put buffer_reading Full };
}

/// An exchange of the empty head for a held buffer.
pub struct PutTopEmpty;

impl<A: Allocator> Play<Option<Buffer<A>>, SeatView> for PutTopEmpty {
    ghost then = { top_put buffer_reading Empty };
}

/// A claim of an object.
pub struct Claim;

impl<A: Allocator> Play<Option<Buffer<A>>, SeatView> for Claim {
    ghost then = { claim_made };
}

/// A finish of an object.
pub struct Finish;

impl<A: Allocator> Play<Option<Buffer<A>>, SeatView> for Finish {
    ghost then = { finish_made };
}

/// A step by which a worker goes idle.
pub struct GoIdle;

impl<A: Allocator> Play<Option<Buffer<A>>, SeatView> for GoIdle {
    ghost then = { went_idle };
}

/// A step by which an idle worker comes back.
pub struct ComeBack;

impl<A: Allocator> Play<Option<Buffer<A>>, SeatView> for ComeBack {
    ghost then = { came_back };
}

/// A load of the idle word.
pub struct SeeIdle;

impl<A: Allocator> Play<Option<Buffer<A>>, SeatView> for SeeIdle {
    ghost then = { idle_seen };
}

/// A step that changes no word and notes how many units will be given away.
pub struct SetAside;

impl<A: Allocator> Play<Option<Buffer<A>>, SeatView> for SetAside {
    ghost then = { set_aside };
}

/// A load that returns the slot that is out, if any, to the table, and brings the log up to date.
pub struct CatchUp;

impl<A: Allocator> Play<Option<Buffer<A>>, SeatView> for CatchUp {
    ghost then = { caught_up };
}
