//! The lines of a table.

/// A line: how many objects of one row, with bytes of one remainder by 16, have one set of labels.
#[derive(Clone, Copy, Drop)]
pub struct Line {
    /// The number under which the set is shown.
    pub set: u32,
    /// The number of the row.
    pub row: usize,
    /// The remainder of each object's bytes by 16.
    pub remainder: u32,
    /// The number of objects.
    pub count: u64,
    /// The sum of their bytes.
    pub bytes: u64,
}

/// A set of several labels as the union of two others.
#[derive(Clone, Copy, Drop)]
pub struct Joint {
    /// The number of the set.
    pub set: u32,
    /// The numbers of the two others, which are less.
    pub first: u32,
    pub second: u32,
}

/// What the objects of a line have in common.
#[derive(Clone, Copy, PartialEq, Eq, Hash)]
pub(crate) struct Key {
    /// The number under which the set is shown.
    pub(crate) set: u32,
    /// The number of the row.
    pub(crate) row: usize,
    /// The remainder of each object's bytes by 16.
    pub(crate) remainder: u32,
}
