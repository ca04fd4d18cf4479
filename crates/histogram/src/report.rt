//! The histogram as a value.

use std::alloc::Allocator;

/// The rows of a histogram in the order of the report, and its totals.
#[derive(Drop)]
pub struct Report<A: Allocator> {
    /// One line for each row that has a reachable object. Lines with more bytes come first; if the bytes are equal,
    /// lines with more objects; then lines with the lesser name; then lines with the lesser class.
    pub rows: Vec<Line<A>, A>,
    /// The number of reachable objects, and the sum of their bytes.
    pub reachable: (u64, u64),
    /// The number of unreachable objects, and the sum of their bytes.
    pub unreachable: (u64, u64),
    /// The number of identifiers other than 0, in the objects and in the roots, that name no object.
    pub unresolved: u64,
}

/// One row of a histogram.
#[derive(Drop)]
pub struct Line<A: Allocator> {
    /// The name as the report shows it.
    pub name: Vec<u8, A>,
    /// The identifier of the row's class, or 0 if the row is no class.
    pub class: u64,
    /// The number of reachable objects of the row.
    pub count: u64,
    /// The sum of the bytes of these objects.
    pub bytes: u64,
}
