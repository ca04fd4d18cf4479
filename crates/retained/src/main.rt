//! Prints which objects of a Java heap dump each label holds.
//!
//! `retention::run` does all that the guarantee is about: it reads the bytes and the text of the labels, and writes the
//! table, or returns why there is none. `program`, in `command.rt`, opens the two files that the words of the command
//! line name, passes them to `run`, prints a refusal, and returns the exit status. `process`, below, reads the words.
//! `main` passes the system to `process`, and nothing else.
//!
//! `process` takes the words as any `CommandWords`, and the files as any `Dumps`. So its clauses can say what it does
//! for known words and known bytes, and it can only read a file.
//!
//! `specs/OfFiles.antt` says what the program writes and prints, `specs/StatusOf.antt` what its exit status means.
#![tactic(auto)]

ghost use Rattle.std.specs.Prelude.{◌-◌, ◌<◌, ◌^◌};
ghost use Rattle.histogram.specs.Counting.{failures_of};
ghost use Rattle.retained.specs.working.Answered.{IsAnswered};

mod bad_line;
mod command;
mod no_table;

pub use command::program;

#[cfg(test)]
mod tests;

use front_end::{CommandWords, Dumps, Refusal, print_refusal, refuse_bytes, words_of};
use histogram::Counted;
use std::io::{ErrorKind, IsTerminal, Write};
use std::process::ExitCode;
use std::thread::Threads;

fn main(rt: HostRuntime) -> ExitCode {
    let (mut out, mut err) = (Counted::new(rt.stdout()), rt.stderr());
    let is_terminal = err.is_terminal();
    ExitCode::from(process(&rt, &rt, &mut out, &mut err, is_terminal))
}

/// Passes the words of the command line to the program, and returns the exit status.
fn process<T, L, W, E>(rt: &T, line: &L, out: &mut Counted<W>, err: &mut E, is_terminal: bool) -> u8
where
    T: Dumps + AllocGlobal + Threads + Sync,
    L: CommandWords,
    W: Write,
    E: Write,
    requires { failures_of out.old < 2 ^ 64 - 1 }
    ensures { IsAnswered (L.words line.now) (T.bytes_at rt.now) (T.is_unread rt.now) is_terminal result
        W.contents out.old out.new (E.contents err.old) (E.contents err.new) }
{
    let texts = match line.texts(rt.alloc()) {
        Ok(texts) => texts,
        Err(fault) if fault.kind() == ErrorKind::InvalidData => return refuse_bytes(err),
        Err(_) => return print_refusal(err, "retained", &Refusal::OUT_OF_MEMORY),
    };
    match words_of(&texts, rt.alloc()) {
        Ok(words) => program(rt, words.as_slice(), out, err, is_terminal),
        Err(_) => print_refusal(err, "retained", &Refusal::OUT_OF_MEMORY),
    }
}
