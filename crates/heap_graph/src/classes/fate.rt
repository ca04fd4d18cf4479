//! The fate of a class's chain of superclasses.

/// The layout of the instances of a class.
#[derive(Clone, Copy)]
pub(crate) struct Layout {
    /// The size in bytes of the values. A size above 2^32 is stored as 2^32: no instance is that large.
    pub(crate) size: u64,
    /// The first class that declares fields, from the class itself up, or `None` if none does. A walk over an
    /// instance's fields begins there, so that a long chain of classes without fields costs the walk nothing.
    pub(crate) first: Option<u32>,
    /// The first class above the class itself that declares fields, or `None` if none does.
    pub(crate) next: Option<u32>,
}

/// What is known of a class's chain of superclasses.
#[derive(Clone, Copy)]
pub(crate) enum Fate {
    /// Nothing yet.
    Unknown,
    /// It is being followed.
    OnPath,
    /// It ends at a class without a superclass.
    Whole(Layout),
    /// It ends at a superclass that is missing.
    Broken,
    /// It repeats, and never ends.
    Endless,
}
