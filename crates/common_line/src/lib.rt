//! What the command lines of all programs have in common.
//!
//! `dump_file` and `positional` build required arguments, `parse` reads words by a command, and `VERSION` is the text
//! of `--version`. `specs/Line.antt` defines what words give and do wrong at a line, by clap's own definitions;
//! `specs/Matched.antt` what the matches of a parse hold.
#![tactic(auto)]

mod parsing;
mod positionals;
mod version;

pub use clap::Error;
pub use parsing::parse;
pub use positionals::{dump_file, positional};
pub use version::VERSION;
