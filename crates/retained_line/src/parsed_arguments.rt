//! The arguments that the words of a command line give.

/// The arguments of a command line.
#[derive(Clone, Copy, Debug, PartialEq, Eq)]
pub struct Arguments<'a> {
    /// The name of the heap dump.
    pub file: &'a str,
    /// The name of the text of labels.
    pub labels: &'a str,
}
