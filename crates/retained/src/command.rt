//! What the program does for the words of its command line, and its exit status.

ghost use Rattle.std.specs.Prelude.{IfErr, IfOk, IfSome, OnOk, Some, codes, false, true};
ghost use Rattle.std.specs.Prelude.{◌+◌, ◌-◌, ◌<◌, ◌^◌, ◌↔◌, ◌≡◌, ◌≢◌, ◌≤◌, ◌⊎◌, ℕ, List};
ghost use Rattle.std.specs.Io.KnownBytes.{Keeps};
ghost use Rattle.histogram.specs.Counting.{failures_of, inner_of, is_flushed};
ghost use Rattle.retained.specs.OfFiles.{OfBoth, PrintsHint, PrintsRefusal, WritesPartOfSomeTable, WritesSomeTable};
ghost use Rattle.retained.specs.OfFiles.{PrintsRefusalFirst, WritesTableOf};
ghost use Rattle.retained.specs.OfFiles.{bytes_of_labels};
ghost use Rattle.retained.specs.working.Answered.{IsDoneFor};
ghost use Rattle.retained.specs.working.NoTable.{fault_of};
ghost use Rattle.retained_line.specs.Line.{texts_of};
ghost use Rattle.retention.specs.Outcome.{SaysOfInputs, bytes_of_run};

use crate::bad_line::BadLine;
use crate::no_table::{NoTable, refusal_of};
use front_end::{DONE, Dumps, Shown, print_about, print_refusal, print_words_error};
use histogram::Counted;
use retained_line::{Arguments, arguments};
use retention::{Fault, run};
use std::alloc::Global;
use std::io::Write;
use std::thread::Threads;

/// Does what `words` ask for. The first word is the program's own name. Prints a refusal, in one line, or what is wrong
/// with the words, on `err`. If `err` is a terminal (`is_terminal`), a second line follows some refusals: why a file
/// could not be opened, or which line of the labels is bad.
///
/// Returns the exit status: 1 after a refusal, such as that of a failed allocation; otherwise 2 if the words are wrong;
/// otherwise 0: the table is on `out`, or the help or the version was asked for. A failure of `err` does not change the
/// status, nor does a failure of `out` while the help or the version is printed.
pub fn program<T: Dumps + AllocGlobal + Threads + Sync, W: Write, E: Write>(
    rt: &T,
    words: &[&str],
    out: &mut Counted<W>,
    err: &mut E,
    is_terminal: bool,
) -> u8
    requires { failures_of out.old < 2 ^ 64 - 1 }
    ensures { IsDoneFor (texts_of words.now) (T.bytes_at rt.now) (T.is_unread rt.now) is_terminal result
        W.contents out.old out.new (E.contents err.old) (E.contents err.new) }
{
    match arguments(rt.alloc(), words) {
        Ok(arguments) => match write_table_of(rt, &arguments, out) {
            Ok(()) => DONE,
            Err(reason) => refuse(err, &arguments, &reason, is_terminal),
        },
        Err(error) => print_words_error(rt.alloc(), "retained", &error, out, err),
    }
}

/// Prints the refusal of `reason` in one line, and if `err` is a terminal what more can be said of it. Returns the exit
/// status.
fn refuse<E: Write>(
    err: &mut E,
    arguments: &Arguments<'_>,
    reason: &NoTable,
    is_terminal: bool,
) -> u8
    ensures status { result ≡ 1 }
    ensures first { PrintsRefusalFirst arguments.now.file.now arguments.now.labels.now (fault_of reason.now)
        (E.contents err.old) (E.contents err.new) }
    ensures alone { is_terminal ≡ false
        → PrintsRefusal (fault_of reason.now) (E.contents err.old) (E.contents err.new) }
{
    let status = print_refusal(err, "retained", &refusal_of(reason.fault()));
    if is_terminal {
        explain(err, arguments, reason);
    }
    status
}

/// Prints why a file could not be opened, or which line of the labels is bad; nothing if `reason` is another.
fn explain<E: Write>(err: &mut E, arguments: &Arguments<'_>, reason: &NoTable)
    ensures { PrintsHint (Some arguments.now.file.now) (Some arguments.now.labels.now)
        (E.contents err.old) (E.contents err.new) }
{
    match reason {
        NoTable::DumpNotOpened(error) => print_about(
            err,
            "retained",
            &Shown(arguments.file),
            error,
        ),
        NoTable::LabelsNotOpened(error) => print_about(
            err,
            "retained",
            &Shown(arguments.labels),
            error,
        ),
        NoTable::Stopped(Fault::BadLabels(line)) => {
            print_about(err, "retained", &Shown(arguments.labels), &BadLine(*line));
        }
        NoTable::Stopped(_) => {}
    }
}

/// Reads all bytes of the file `name`, which has the labels.
fn read_labels<T: Dumps + AllocGlobal>(rt: &T, name: &str) -> Result<Vec<u8>, NoTable>
    ensures bytes { IfOk result (λ text. IfSome (T.bytes_at rt.now name.now) (λ bytes.
        text.items ≡ bytes_of_labels bytes)) }
    ensures reason { IfErr result (λ reason.
        (fault_of reason ≡ Fault.ReadFault) ⊎ (fault_of reason ≡ Fault.OutOfMemory)) }
    ensures unread { IfErr result (λ reason. fault_of reason ≡ Fault.ReadFault → T.is_unread rt.now name.now) }
{
    let mut reader = match rt.open_dump(name) {
        Ok(reader) => reader,
        Err(error) => return Err(NoTable::LabelsNotOpened(error)),
    };
    match reader.read_to_limit(rt.alloc(), usize::MAX) {
        Ok(text) => Ok(text),
        Err(refusal) => {
            // Called for its clause: a reader that failed is one of a file that could not be read.
            let _position = rt.position(name, reader);
            Err(NoTable::Stopped(Fault::from(refusal)))
        }
    }
}

/// Writes the table of the files that `arguments` name.
fn write_table_of<T: Dumps + AllocGlobal + Threads + Sync, W: Write>(
    rt: &T,
    arguments: &Arguments<'_>,
    out: &mut Counted<W>,
) -> Result<(), NoTable>
    requires { failures_of out.old < 2 ^ 64 - 1 }
    ensures of_files { OnOk result (WritesTableOf (T.bytes_at rt.now arguments.now.file.now)
        (T.bytes_at rt.now arguments.now.labels.now)
        (W.contents (inner_of out.old)) (W.contents (inner_of out.new))) }
    ensures of_some { OnOk result (WritesSomeTable (W.contents (inner_of out.old)) (W.contents (inner_of out.new))) }
    ensures flushed { OnOk result (is_flushed out.new ≡ true) }
    ensures says { IfErr result (λ reason. OfBoth (T.bytes_at rt.now arguments.now.file.now)
        (T.bytes_at rt.now arguments.now.labels.now)
        (λ text list. SaysOfInputs (bytes_of_run text) (bytes_of_labels list) (fault_of reason))) }
    ensures says_of_some { IfErr result (λ reason.
        (text : List ℕ) × (list : List ℕ) × SaysOfInputs text list (fault_of reason)) }
    ensures unread { IfErr result (λ reason. fault_of reason ≡ Fault.ReadFault
        → T.is_unread rt.now arguments.now.file.now ⊎ T.is_unread rt.now arguments.now.labels.now) }
    ensures write_fault { IfErr result (λ reason.
        (fault_of reason ≡ Fault.WriteFault) ↔ (failures_of out.new ≡ failures_of out.old + 1)) }
    ensures no_write_fault { IfErr result (λ reason. fault_of reason ≢ Fault.WriteFault
        → failures_of out.new ≡ failures_of out.old) }
    ensures no_failure { OnOk result (failures_of out.new ≡ failures_of out.old) }
    ensures part { IfErr result (λ reason. fault_of reason ≡ Fault.WriteFault
        → WritesPartOfSomeTable (W.contents (inner_of out.old)) (W.contents (inner_of out.new))) }
    ensures untouched { IfErr result (λ reason. fault_of reason ≢ Fault.WriteFault
        → Keeps (W.contents (inner_of out.old)) (W.contents (inner_of out.new))) }
{
    let labels = match read_labels(rt, arguments.labels) {
        Ok(labels) => labels,
        Err(reason) => return Err(reason),
    };
    let mut reader = match rt.open_dump(arguments.file) {
        Ok(reader) => reader,
        Err(error) => return Err(NoTable::DumpNotOpened(error)),
    };
    match run(rt, rt.alloc(), labels.as_slice(), &mut reader, out) {
        Ok(()) => Ok(()),
        Err(fault) => {
            // Called for its clause, as in `read_labels`.
            let _position = rt.position(arguments.file, reader);
            Err(NoTable::Stopped(fault))
        }
    }
}
