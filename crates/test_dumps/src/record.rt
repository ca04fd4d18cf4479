//! The records of a dump.

use crate::sub::Sub;

/// A record of a dump, with time 0.
#[derive(Clone, Copy)]
pub enum Record {
    /// A string: its identifier and its text.
    Text(u64, &'static [u8]),
    /// A loaded class: its identifier, and the identifier of the string that names it. The class serial is 1, the stack
    /// serial 0.
    Load(u64, u64),
    /// A heap dump.
    Heap(&'static [Sub]),
    /// A heap dump segment.
    Segment(&'static [Sub]),
    /// Any record: its tag and its body.
    Other(u8, &'static [u8]),
}
