//! The two stacks.

/// One of the two stacks of buffers.
#[derive(Clone, Copy, Debug, PartialEq, Eq, Drop)]
pub enum Which {
    /// The stack for buffers with items, which are objects to be scanned. A buffer without items may be on it too.
    Full,
    /// The stack for buffers without items.
    Empty,
}
