//! The rule of the pool's table, how a worker's view is split in two, and how two views are joined.
ghost use Rattle.buffer_pool.specs.working.Buffers.{buffer_reading};
ghost use Rattle.buffer_pool.specs.working.Setups.{first_view, setup_of, given_part, joined_view, kept_part};
ghost use Rattle.buffer_pool.specs.working.Setups.{no_share_view};
ghost use Rattle.buffer_pool.specs.working.Table.{Rule};

use crate::buffer::Buffer;
use crate::key::Key;
use crate::seat_view::SeatView;
use atomic_table::{Join, Seat, Shared, Split, TableRule};
use std::alloc::Allocator;

/// The rule of the table: between any two steps, the table stands for a marking to which a list of possible events
/// leads from the opening. So the law of a marking holds too.
pub struct MarkingRule;

impl<A: Allocator> TableRule<Option<Buffer<A>>, SeatView, Key> for MarkingRule {
    ghost holds = { λ key. Rule buffer_reading (setup_of key) };

    ghost first = { λ key. first_view (setup_of key) };
}

/// The split of a view: the units that were set aside go to a new worker.
pub struct GivePart;

impl Split<SeatView> for GivePart {
    ghost left = { kept_part };

    ghost right = { given_part };
}

/// The join of two views: one worker takes over what the other has.
pub struct TakeIn;

impl Join<SeatView> for TakeIn {
    ghost both = { joined_view };

    ghost spent = { no_share_view };
}

/// The table, as all workers see it.
pub(crate) type Words<A> = Shared<Option<Buffer<A>>, SeatView, Key, MarkingRule>;

/// The token with which a worker takes its steps.
pub(crate) type Token<A> = Seat<Option<Buffer<A>>, SeatView>;
