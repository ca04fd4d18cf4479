//! The hash of the identifiers of classes.
//!
//! If the seed were fixed, a file could have class identifiers that all lead to one place of the table: each look-up
//! would pass half of the classes on average. So the seed is computed from all class identifiers of the dump: a change
//! of one identifier changes the hashes of all. For one dump, the hash is the same in each run.
//!
//! The hash function is known, so a file could still be made against it, with identifiers that collide under the seed
//! that they themselves yield. That costs only time, since no contract mentions the hash: a look-up passes at most all
//! classes, and a file has at most 1 GiB.

use std::hash::{BuildHasher, DefaultHasher, FoldHasher, Hasher};

/// The seed of the hash for the classes of a dump: a SipHash-1-3 hasher that reads their identifiers.
#[derive(Drop)]
pub(crate) struct HashSeed {
    hasher: DefaultHasher,
}

impl HashSeed {
    /// Creates the seed of no classes.
    pub(crate) fn new() -> Self {
        HashSeed {
            hasher: DefaultHasher::new(),
        }
    }

    /// Reads `id`, the identifier of one more class.
    pub(crate) fn read(&mut self, id: u64) {
        self.hasher.write_u64(id);
    }

    /// Returns the hash seeded with the identifiers that were read.
    pub(crate) fn finish(&self) -> ClassHash {
        let mut begun = FoldHasher::default();
        begun.write_u64(self.hasher.finish());
        ClassHash { begun }
    }
}

/// The hash of identifiers of classes. Each hasher begins with the seed's result already written to it.
#[derive(Clone, Copy, Drop)]
pub(crate) struct ClassHash {
    begun: FoldHasher,
}

impl BuildHasher for ClassHash {
    type Hasher = FoldHasher;

    ghost build_hasher = { λ hash. hash.begun };

    fn build_hasher(&self) -> FoldHasher {
        self.begun
    }
}
