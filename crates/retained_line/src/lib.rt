//! The command line of `retained`: its definition, its help, and the arguments that its words give.
//!
//! `arguments` passes the words to clap. It returns the names of the dump and of the text of labels; or clap's error,
//! whose text is for the user.
//!
//! From `crates/retained_line_tests/src/words.rt`, which is proved and run:
//!
//!     let given = arguments(rt.alloc(), &["retained", "app.hprof", "app.labels"])?;
//!     let want = Arguments {
//!         file: "app.hprof",
//!         labels: "app.labels",
//!     };
//!     assert_eq!(rt; given, want);
//!
//! `specs/Line.antt` defines the command by clap's own definitions; `help.rt` has the texts of the help.
#![tactic(auto)]

mod help;
mod line;
mod parse;
mod parsed_arguments;

pub use clap::Error;
pub use parse::arguments;
pub use parsed_arguments::Arguments;
