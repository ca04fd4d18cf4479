//! The hash of keys.

use std::hash::{BuildHasher, FoldHasher};

/// The hash of keys. Each hasher begins as `begun`.
#[derive(Clone, Copy, Drop)]
pub(crate) struct FixedHash {
    begun: FoldHasher,
}

impl FixedHash {
    /// Creates the hash.
    pub(crate) fn new() -> Self {
        FixedHash {
            begun: FoldHasher::default(),
        }
    }
}

impl BuildHasher for FixedHash {
    type Hasher = FoldHasher;

    ghost build_hasher = { λ hash. hash.begun };

    fn build_hasher(&self) -> FoldHasher {
        self.begun
    }
}
