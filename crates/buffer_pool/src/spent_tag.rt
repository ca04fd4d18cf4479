//! The token of a spent tag.

use crate::worker::Worker;
use std::alloc::Allocator;

/// A token that a worker loaded a head with the last tag. Only [`Worker::spent_tag`] makes one. So a crate that uses
/// the pool cannot report a spent tag that no worker loaded, nor that of a pool with another first tag.
#[derive(Clone, Copy, Debug, PartialEq, Eq)]
pub struct SpentTag {
    /// The tag that the heads of the worker's pool had at first. Only contracts read this field.
    first_tag: u64,
}

impl<A: Allocator> Worker<A> {
    ghost use Rattle.std.specs.Prelude.{◌≡◌};
    ghost use Rattle.buffer_pool.specs.Calls.{HasLoadedLastTag, first_tag_of};

    /// Returns the token of a spent tag. The worker's last load of the full head, or that of the empty one, must have
    /// found the last tag: so it is after a pop that returned `Spent`, or a push that returned the buffer.
    pub fn spent_tag(&self) -> SpentTag
        requires { HasLoadedLastTag self.now.book }
        ensures { first_tag_of result ≡ self.now.pool.first_tag }
    {
        SpentTag {
            first_tag: self.first_tag,
        }
    }
}
