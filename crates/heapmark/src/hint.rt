//! What people can do about a refusal.

mod beginning;
mod file_hint;
mod option_hint;
pub(crate) mod records;

ghost use Rattle.std.specs.Prelude.{◌≡◌, ◌↔◌, ◌*◌, IsSome, IsTrue};
ghost use Rattle.std.specs.Io.KnownBytes.{Keeps};
ghost use Rattle.heapmark.specs.SecondLine.{PrintsHint};
ghost use Rattle.heapmark.specs.working.Hint.{HasHint};
ghost use Rattle.heapmark.specs.working.NoReport.{HasTooFewBuffers};

use crate::printing::print_about;
use crate::printing::subject::Subject;
use beginning::Beginning;
use command_line::Arguments;
use file_hint::FileHint;
use front_end::codes::{BAD_OPTIONS, OUT_OF_MEMORY, TAG_SPENT, WORKER_REFUSED};
use front_end::{Dumps, Refusal, Shown};
use hprof_grammar::LIMIT;
use hprof_grammar::fault_codes::{BAD_HEADER, DUMP_ORDER, SUB_TRUNCATED, TOO_LARGE, TRUNCATED};
use option_hint::{OptionHint, least_buffers};
use records::record_end;
use std::io;
use std::io::Write;

/// What can be done about a refusal.
#[derive(Clone, Copy)]
pub(crate) enum Hint {
    /// What is wrong with the file.
    File(FileHint),
    /// What is wrong with an option.
    Option(OptionHint),
}

/// Prints in one line what can be done about `refusal`, or nothing if no hint is known. The line is about the file or
/// an option. `length` is the number of bytes that were read from the file, if that number is known.
#[tactic(auto, using(crate::proofs::Hints::no_hint, crate::proofs::Hints::of_option, crate::proofs::Hints::of_named))]
pub(crate) fn advise<T: Dumps + AllocGlobal, E: Write>(
    rt: &T,
    err: &mut E,
    arguments: &Arguments<'_>,
    refusal: &Refusal,
    length: Option<u64>,
)
    ensures none { (HasHint refusal.now.code → ⊥) → Keeps (E.contents err.old) (E.contents err.new) }
    ensures hint { PrintsHint arguments.now.file.now (E.contents err.old) (E.contents err.new) }
{
    match hint_of(rt, arguments, refusal, length) {
        Some(Hint::File(hint)) => print_about(err, Subject::File(Shown(arguments.file)), &hint),
        Some(Hint::Option(hint)) => print_about(err, hint.subject(), &hint),
        None => {}
    }
}

/// Returns what can be done about the `refusal` of a run with these `arguments`, if a hint is known.
fn hint_of<T: Dumps + AllocGlobal>(
    rt: &T,
    arguments: &Arguments<'_>,
    refusal: &Refusal,
    length: Option<u64>,
) -> Option<Hint>
    ensures codes { IsSome result → HasHint refusal.now.code }
    ensures buffers { refusal.now.code ≡ 21 → HasTooFewBuffers arguments.now
        → result ≡ Some (Hint.Option (OptionHint.Buffers arguments.now.buffers arguments.now.workers)) }
{
    let Arguments {
        file,
        workers,
        buffer: _,
        buffers,
        first_tag,
        skip: _,
    } = *arguments;
    match refusal.code {
        BAD_HEADER => Some(Hint::File(hint_of_beginning(rt, file))),
        TRUNCATED => Some(Hint::File(FileHint::EndsEarly)),
        SUB_TRUNCATED if is_in_last_record(rt, file, refusal.offset, length) => {
            Some(Hint::File(FileHint::EndsEarly))
        }
        DUMP_ORDER if is_at_end(refusal.offset, length) => Some(Hint::File(FileHint::EndsEarly)),
        TOO_LARGE => Some(Hint::File(hint_of_excess(refusal.offset))),
        OUT_OF_MEMORY => Some(Hint::File(hint_of_memory(rt, file, workers))),
        TAG_SPENT => Some(Hint::Option(OptionHint::FirstTag(first_tag))),
        WORKER_REFUSED => Some(Hint::Option(OptionHint::Threads(workers))),
        BAD_OPTIONS if u64::from(buffers) < least_buffers(workers) => {
            Some(Hint::Option(OptionHint::Buffers(buffers, workers)))
        }
        BAD_OPTIONS => Some(Hint::Option(OptionHint::Fields)),
        _ => None,
    }
}

/// Returns what can be done about the file `name`, which does not begin as a dump does. Returns `FileHint::NoDump` if
/// the file cannot be read again.
fn hint_of_beginning<T: Dumps>(rt: &T, name: &str) -> FileHint {
    match beginning_of(rt, name) {
        Ok(Beginning::Empty) => FileHint::Empty,
        Ok(Beginning::Part) => FileHint::EndsEarly,
        Ok(Beginning::Version(version)) => FileHint::OtherVersion(version),
        Ok(Beginning::Packed(packer)) => FileHint::Packed(packer),
        Ok(Beginning::Other) | Err(_) => FileHint::NoDump,
    }
}

/// Reads the first bytes of the file `name`, and classifies the file by them.
fn beginning_of<T: Dumps>(rt: &T, name: &str) -> io::Result<Beginning> {
    let mut reader = rt.reopen_dump(name)?;
    let mut bytes = [0; beginning::LENGTH];
    let length = reader.read(&mut bytes)?;
    Ok(Beginning::of(&bytes[..length]))
}

/// Returns what can be done about a file that is too large, refused at the offset `place`.
fn hint_of_excess(place: Option<u64>) -> FileHint {
    // A file with more bytes than a dump may have is refused at the offset `LIMIT`.
    if place == Some(u64::from(LIMIT)) {
        FileHint::TooManyBytes
    } else {
        FileHint::TooManyObjects
    }
}

/// Returns what can be done if a run on the file `name` with `workers` workers was out of memory.
fn hint_of_memory<T: Dumps>(rt: &T, name: &str, workers: u32) -> FileHint {
    if is_too_long(rt, name) {
        FileHint::TooManyBytes
    } else if workers == 1 {
        FileHint::Memory
    } else {
        FileHint::MemoryOfWorkers
    }
}

/// Tests whether the file `name` is known to have more bytes than a dump may have. No memory is enough for such a file.
fn is_too_long<T: Dumps>(rt: &T, name: &str) -> bool {
    match rt.dump_size(name) {
        Ok(size) => size > u64::from(LIMIT),
        Err(_) => false,
    }
}

/// Tests whether the offset `place` is known to be `length`, where the reading of the file ended.
fn is_at_end(place: Option<u64>, length: Option<u64>) -> bool
    ensures { IsTrue result ↔ (IsSome place × (place ≡ length)) }
{
    place.is_some() && place == length
}

/// Tests whether the offset `place` of the file `name` is known to lie in the record that ends at `length`, where the
/// reading of the file ended.
fn is_in_last_record<T: Dumps + AllocGlobal>(
    rt: &T,
    name: &str,
    place: Option<u64>,
    length: Option<u64>,
) -> bool {
    let (Some(place), Some(length)) = (place, length) else {
        return false;
    };
    match rt.reopen_dump(name) {
        Ok(reader) => record_end(rt.alloc(), reader.into_inner(), place) == Some(length),
        Err(_) => false,
    }
}
