//! What a scan reads of an object.

/// What is read of an object while its references are followed.
#[derive(Clone, Copy)]
pub struct ScannedObject {
    /// The number of its row.
    pub row: usize,
    /// The size in bytes, at most 2^30.
    pub bytes: u64,
    /// The number of its identifiers that are other than 0 and name no object, at most 2^33.
    pub unresolved: u64,
}
