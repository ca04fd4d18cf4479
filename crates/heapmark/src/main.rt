//! Marks the reachable objects of a Java heap dump and prints a histogram by class.
//!
//! Start here:
//!
//! - `run`, in `pipeline.rt`, does all that the guarantee is about: it reads the bytes, builds the graph, marks it and
//!   writes the report, or returns why there is none.
//! - `program`, in `command.rt`, opens the file that the words name, passes it to `run` with the options of the words,
//!   prints a refusal, and returns the exit status.
//! - `process`, below, reads the words. At a terminal it also prints a second line after some refusals, and after a
//!   report which entries of `--skip` name no field of the dump.
//! - `main` passes the system to `process`, and nothing else.
//!
//! `process` takes the words as any `CommandWords`, and it and `program` take the files as any `Dumps`. So their
//! clauses can say what they do for known words and known bytes, and they can only read a file.
//!
//! The headline is defined in `specs/Headline.antt`, what it says of the program in `specs/OfFile.antt`, the refusals
//! in `front_end`. The README of the repository has them in words, and `docs/ARCHITECTURE.md` says where all else is.
#![tactic(auto)]

ghost use Rattle.std.specs.Prelude.{◌≡◌, ◌-◌, ◌^◌, ◌<◌, IfSome, false};
ghost use Rattle.std.specs.Io.KnownBytes.{Keeps};
ghost use Rattle.command_line.specs.Line.{AsksAboutProgram};
ghost use Rattle.heapmark.specs.OfFile.{PrintsReason, PrintsReasonFirst, WritesReportOfFile};
ghost use Rattle.heapmark.specs.StatusOf.{IsStatusOf};
ghost use Rattle.heapmark.specs.UnmetEntries.{PrintsOnlyUnmet};
ghost use Rattle.heapmark.specs.working.Answered.{IsAnswered};
ghost use Rattle.heapmark.specs.working.StatusOfSome.{IsStatusOfSome};
ghost use Rattle.histogram.specs.Counting.{failures_of, inner_of};

mod causes;
mod command;
mod hint;
mod laws;
mod marking_refusal;
mod no_report;
mod pipeline;
mod printing;
mod unmet_skips;

pub use causes::Causes;
pub use command::program;
pub use command_line::{Arguments, arguments};
pub use drain::{BadOptions, Gate, NoGate, Options};
pub use front_end::{CommandWords, Dumps, Refusal};
pub use heap_graph::{Skip, SkipRefusal};
pub use histogram::{Counted, one_report};
pub use laws::{accepted_or_fault, always_accepted_or_fault, one_first_fault};
pub use pipeline::run;

#[cfg(test)]
mod tests;

use command::program_at_terminal;
use front_end::{DONE, refuse_bytes, words_of};
use printing::print_refusal;
use std::io::{ErrorKind, IsTerminal, Write};
use std::process::ExitCode;
use std::sync::Wait;
use std::thread::Threads;
use unmet_skips::tell_unmet_skips;

fn main(rt: HostRuntime) -> ExitCode {
    let (mut out, mut err) = (Counted::new(rt.stdout()), rt.stderr());
    let is_terminal = err.is_terminal();
    ExitCode::from(process(&rt, &rt, &mut out, &mut err, is_terminal))
}

/// Calls `start`, and returns its exit status. After a report, if standard error is a terminal (`is_terminal`), also
/// prints which entries of `--skip` name no field of the dump.
#[tactic(auto, using(crate::proofs::UnmetLines::after_kept, crate::proofs::UnmetLines::none_kept))]
fn process<T, L, W, E>(rt: &T, line: &L, out: &mut Counted<W>, err: &mut E, is_terminal: bool) -> u8
where
    T: Causes + Dumps + AllocGlobal + Threads + Wait + Sync,
    L: CommandWords,
    W: Write,
    E: Write,
    requires { failures_of out.old < 2 ^ 64 - 1 }
    ensures status { IsStatusOfSome result W.contents out.old out.new }

    // If a contract can name the words, the status is theirs.
    ensures known { IfSome (L.words line.now) (λ words. IsStatusOf words result W.contents out.old out.new) }

    // If it can name the bytes of their file, too, the report of these bytes was written at 0. A fault that was printed
    // at 1 is their first one.
    ensures of_file { IfSome (L.words line.now) (λ words. result ≡ 0 → (AsksAboutProgram words → ⊥)
        → WritesReportOfFile (T.bytes_at rt.now) words
        (W.contents (inner_of out.old)) (W.contents (inner_of out.new))) }
    ensures told { result ≡ 1 → IfSome (L.words line.now) (λ words.
        PrintsReasonFirst (T.bytes_at rt.now) (T.is_unread rt.now) (T.causes rt.now) words
        (failures_of out.old) (failures_of out.new) (E.contents err.old) (E.contents err.new)) }
    ensures told_only { result ≡ 1 → is_terminal ≡ false → IfSome (L.words line.now) (λ words.
        PrintsReason (T.bytes_at rt.now) (T.is_unread rt.now) (T.causes rt.now) words
        (failures_of out.old) (failures_of out.new) (E.contents err.old) (E.contents err.new)) }

    // At 0, if standard error is no terminal, no refusal was printed. So `process` turns no other status of `start`
    // into 0.
    ensures silent { result ≡ 0 → is_terminal ≡ false → Keeps (E.contents err.old) (E.contents err.new) }

    // At 0, nothing was printed but lines that say of an entry that it names no field of the dump. The clause does not
    // say which entries: neither that they are of `--skip`, nor that no class declares them.
    ensures unmet { result ≡ 0 → PrintsOnlyUnmet (E.contents err.old) (E.contents err.new) }
{
    let status = start(rt, line, out, err, is_terminal);
    if status == DONE && is_terminal {
        look_again(rt, line, err);
    }
    status
}

/// Prints which entries of `--skip` name no field of the dump. Prints nothing if the command line cannot be read again.
#[tactic(auto, using(crate::proofs::UnmetLines::none))]
fn look_again<T, L, E>(rt: &T, line: &L, err: &mut E)
where
    T: Dumps + AllocGlobal + Threads + Sync,
    L: CommandWords,
    E: Write,
    ensures { PrintsOnlyUnmet (E.contents err.old) (E.contents err.new) }
{
    let Ok(texts) = line.texts(rt.alloc()) else {
        return;
    };
    if let Ok(words) = words_of(&texts, rt.alloc()) {
        tell_unmet_skips(rt, words.as_slice(), err);
    }
}

/// Passes the words of the command line to the program, and returns the exit status.
fn start<T, L, W, E>(rt: &T, line: &L, out: &mut Counted<W>, err: &mut E, is_terminal: bool) -> u8
where
    T: Causes + Dumps + AllocGlobal + Threads + Wait + Sync,
    L: CommandWords,
    W: Write,
    E: Write,
    requires { failures_of out.old < 2 ^ 64 - 1 }
    ensures { IsAnswered (L.words line.now) (T.bytes_at rt.now) (T.is_unread rt.now) (T.causes rt.now) is_terminal
        result W.contents out.old out.new (E.contents err.old) (E.contents err.new) }
{
    let texts = match line.texts(rt.alloc()) {
        Ok(texts) => texts,
        Err(fault) if fault.kind() == ErrorKind::InvalidData => return refuse_bytes(err),
        Err(_) => return print_refusal(err, &Refusal::OUT_OF_MEMORY),
    };
    match words_of(&texts, rt.alloc()) {
        Ok(words) if is_terminal => program_at_terminal(rt, words.as_slice(), out, err),
        Ok(words) => program(rt, words.as_slice(), out, err),
        Err(_) => print_refusal(err, &Refusal::OUT_OF_MEMORY),
    }
}
