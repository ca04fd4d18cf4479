//! What the programs have in common at their front: the words of the command line, the files that they name, the
//! refusals, and lines on standard error.
//!
//! - `CommandWords` are the words of a command line, and `Dumps` are files that have names: the system's, or those that
//!   a test keeps in memory. A contract can name the words and bytes of the latter. So what it says of known words and
//!   bytes shows that the right file is read.
//! - `Refusal` is why a run has no report: a code, and for a fault of a dump its offset.
//! - `print_refusal`, `print_line` and `print_about` print a line without an allocation, so that also the refusal of an
//!   allocation that failed is printed. `print_words_error` prints what clap says of the words, `refuse_bytes` that a
//!   word is no text.
#![tactic(auto)]

mod command_words;
mod dumps;
mod printing;
mod refusal;
mod shown;
mod status;
mod words;
mod words_error;

pub use command_words::CommandWords;
pub use dumps::Dumps;
pub use printing::{print_about, print_line, print_refusal, write_beginning};
pub use refusal::{Refusal, codes};
pub use shown::Shown;
pub use status::{DONE, REFUSED, WRONG_WORDS};
pub use words::words_of;
pub use words_error::{print_words_error, refuse_bytes};
