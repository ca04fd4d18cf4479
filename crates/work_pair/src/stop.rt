//! The errors of a pair's calls.

use buffer_pool::SpentTag;
use thiserror::Error;

/// Why a call of a pair was stopped.
#[derive(Clone, Copy, Debug, PartialEq, Eq, Error)]
pub enum Stop {
    /// A stack's last tag was loaded when the stack's head was to be exchanged. The token shows that it was loaded. The
    /// pair has no use but to be disposed of.
    #[error("a stack's last tag was loaded")]
    TagSpent(SpentTag),
    /// There was no empty buffer, and no memory for one more object on the spill list. The pair stays usable, with the
    /// same objects.
    #[error("out of memory")]
    OutOfMemory,
}
