//! What a look-up returns: the object's number, and how much it read.

ghost use Rattle.std.specs.Prelude.{None, ◌≡◌};

/// The result of a look-up.
#[derive(Clone, Copy)]
pub struct LookUp {
    /// The number of the first object that bears the identifier, or `None` if no object does.
    pub number: Option<u32>,
    /// The number of extents or entries that the look-up read, or a few more. No clause ties it to what is read: a
    /// look-up that read more than it counts, or neither tried nor counted its guess, would show only in its time.
    // A caller that drops it does not compute it: what is inlined into the caller only adds constants.
    pub probes: usize,
}

impl LookUp {
    /// Creates the result of a look-up that found no object and read nothing.
    // Inlined, as the look-up is.
    #[inline(always)]
    pub(crate) fn nothing() -> Self
        ensures number { result.number ≡ None }
        ensures probes { result.probes ≡ 0 }
    {
        LookUp {
            number: None,
            probes: 0,
        }
    }
}
