//! The entries of a list.

/// Where identifiers are. Identifiers that an object holds, and roots, are numbered from 0.
#[derive(Clone, Copy, PartialEq, Eq, Debug)]
pub enum Place {
    /// In each object of the class with an identifier: the identifier with a number.
    Class(u64, u32),
    /// In the object with an identifier: the identifier with a number.
    Object(u64, u32),
    /// In the root with a number.
    Root(u32),
}

/// A line of a list.
#[derive(Clone, Copy, PartialEq, Eq, Debug)]
pub enum Entry {
    /// A label, by its number, and a place that has it.
    Label(u32, Place),
    /// A place that is not followed.
    Cut(Place),
    /// The identifier of an object that is a root, too.
    Root(u64),
}
