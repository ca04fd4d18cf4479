//! The command line of `heapmark`: its definition, its help, and the arguments that its words give.
//!
//! `arguments` passes the words to clap. It returns the file and the options, each in its range, with defaults for
//! those that are not given; or clap's error, whose text is for the user. The list of `--skip` is not read.
//!
//! From `crates/command_line_tests/src/words.rt`, which is proved and run:
//!
//!     let given = arguments(rt.alloc(), &["heapmark", "app.hprof"])?;
//!     let want = Arguments {
//!         file: "app.hprof",
//!         workers: 4,
//!         buffer: 256,
//!         buffers: 1024,
//!         first_tag: 0,
//!         skip: None,
//!     };
//!     assert_eq!(rt; given, want);
//!
//! `specs/Line.antt` defines the command by clap's own definitions; `help.rt` has the texts of the help.
#![tactic(auto)]

mod help;
mod options;
mod parse;
mod parsed_arguments;

pub use clap::Error;
pub use parse::arguments;
pub use parsed_arguments::Arguments;
