//! The arguments that the words of a command line give.

/// The file and the options of a command line.
#[derive(Clone, Copy, Debug, PartialEq, Eq)]
pub struct Arguments<'a> {
    /// The name of the heap dump.
    pub file: &'a str,
    /// The number of threads that mark: 1 to 64.
    pub workers: u32,
    /// The number of objects in a buffer: 2 to 4096.
    pub buffer: u32,
    /// The number of buffers: 4 to 65534.
    pub buffers: u32,
    /// The first tag of the two stacks of buffers: 0 to 281474976710655.
    pub first_tag: u64,
    /// The text of the option for fields that are not followed, if the words have it. The text may be no valid list.
    pub skip: Option<&'a str>,
}
