//! The exit statuses of the programs.

/// The output is written, or the help or the version was asked for.
pub const DONE: u8 = 0;

/// The options, a file or the run was refused, or an allocation failed.
pub const REFUSED: u8 = 1;

/// The command line is wrong, or not UTF-8.
pub const WRONG_WORDS: u8 = 2;
