//! What is printed if the words of a command line name nothing to do.

ghost use Rattle.std.specs.Prelude.{◌≡◌, ◌≢◌, ◌⊎◌, ◌+◌, ◌-◌, ◌^◌, ◌<◌, ◌≤◌};
ghost use Rattle.std.specs.Io.KnownBytes.{Keeps};
ghost use Rattle.clap.specs.Words.{kind_of};
ghost use Rattle.front_end.specs.RefusalText.{refusal_line_by};
ghost use Rattle.front_end.specs.RunRefusals.{out_of_memory};
ghost use Rattle.histogram.specs.Counting.{AppendsBeginning, failures_of, inner_of};

use crate::printing::print_refusal;
use crate::refusal::Refusal;
use crate::status::{DONE, WRONG_WORDS};
use clap::Error;
use clap::error::ErrorKind;
use histogram::Counted;
use std::alloc::Global;
use std::io::Write;

/// The message about a word that is not text.
const NOT_TEXT: &str = "\
error: a word of the command line is not UTF-8 text

For more information, try '--help'.
";

/// Prints the text of `error`: the help or the version on `out`, or what is wrong with the words on `err`. If an
/// allocation failed, prints that refusal of `program` on `err` instead. Returns the exit status.
pub fn print_words_error<W: Write, E: Write>(
    alloc: Global,
    program: &str,
    error: &Error,
    out: &mut Counted<W>,
    err: &mut E,
) -> u8
    requires { failures_of out.old < 2 ^ 64 - 1 }
    ensures status { result ≤ 2 }
    ensures asked { result ≡ 0
        → (kind_of error.now ≡ ErrorKind.DisplayHelp) ⊎ (kind_of error.now ≡ ErrorKind.DisplayVersion) }
    ensures usage { result ≡ 2 → (kind_of error.now ≢ ErrorKind.DisplayHelp)
        × (kind_of error.now ≢ ErrorKind.DisplayVersion) × (kind_of error.now ≢ ErrorKind.OutOfMemory) }
    ensures wrong { kind_of error.now ≢ ErrorKind.DisplayHelp → kind_of error.now ≢ ErrorKind.DisplayVersion
        → kind_of error.now ≢ ErrorKind.OutOfMemory → result ≡ 2 }
    ensures silent { result ≡ 0 → Keeps (E.contents err.old) (E.contents err.new) }
    ensures untouched { result ≢ 0 → Keeps (W.contents (inner_of out.old)) (W.contents (inner_of out.new)) }
    ensures no_failure { result ≢ 0 → failures_of out.new ≡ failures_of out.old }
    ensures failures { failures_of out.new ≤ failures_of out.old + 1 }
    ensures told { result ≡ 1
        → AppendsBeginning (E.contents err.old) (E.contents err.new) (refusal_line_by program.now out_of_memory) }
{
    match error.kind() {
        ErrorKind::OutOfMemory => print_refusal(err, program, &Refusal::OUT_OF_MEMORY),
        ErrorKind::DisplayHelp | ErrorKind::DisplayVersion => {
            let Ok(text) = format!(in alloc; "{error}") else {
                return print_refusal(err, program, &Refusal::OUT_OF_MEMORY);
            };
            let _ = out.write_whole(text.as_bytes());
            DONE
        }
        _ => {
            let _ = write!(err, "{error}");
            WRONG_WORDS
        }
    }
}

/// Prints that a word of the command line is not text. Does not show the word, and returns the exit status.
pub fn refuse_bytes<E: Write>(err: &mut E) -> u8
    ensures { result ≡ 2 }
{
    let _ = err.write_all(NOT_TEXT.as_bytes());
    WRONG_WORDS
}
