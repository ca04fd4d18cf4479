//! The ranges of a pool's numbers, and the errors of `Pool::new`.
ghost use Rattle.std.specs.Prelude.{◌≡◌, ◌↔◌, IsTrue};
ghost use Rattle.buffer_pool.specs.Ranges.{IsInside};

use std::alloc::AllocError;
use tagged_index::LAST_TAG;
use thiserror::Error;

/// The most objects that a pool can have marks for.
pub const MOST_OBJECTS: u32 = 16_777_216;

/// The fewest buffers of a pool.
pub const LEAST_BUFFERS: u32 = 4;

/// The most buffers of a pool.
pub const MOST_BUFFERS: u32 = 65_534;

/// The smallest size of a buffer, in objects.
pub const LEAST_SIZE: u32 = 2;

/// The largest size of a buffer, in objects.
pub const MOST_SIZE: u32 = 4096;

/// Why a pool was not made.
#[derive(Clone, Copy, Debug, PartialEq, Eq, Error)]
pub enum PoolFault {
    /// A number is out of its range.
    #[error("an option is out of its range")]
    BadOptions,
    /// An allocation failed.
    #[error("out of memory")]
    OutOfMemory,
}

impl From<AllocError> for PoolFault {
    ghost use Rattle.buffer_pool.specs.declared.pool.limits.PoolFault.TheVariants.{OutOfMemory};

    ghost from_gives = { λ _ e. e ≡ OutOfMemory };

    fn from(_e: AllocError) -> PoolFault {
        PoolFault::OutOfMemory
    }
}

/// Tests whether all four numbers are in their ranges.
pub(super) fn is_inside(objects: u32, buffers: u32, size: u32, first_tag: u64) -> bool
    ensures { IsTrue result ↔ IsInside objects buffers size first_tag }
{
    objects <= MOST_OBJECTS
        && (LEAST_BUFFERS..=MOST_BUFFERS).contains(&buffers)
        && (LEAST_SIZE..=MOST_SIZE).contains(&size)
        && first_tag <= LAST_TAG
}
