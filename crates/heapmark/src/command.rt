//! What the program does for the words of its command line, and its exit status.

ghost use Rattle.std.specs.Prelude.{◌≡◌, ◌≢◌, ◌↔◌, ◌⊎◌, ◌*◌, ◌+◌, ◌-◌, ◌^◌, ◌<◌, ◌≤◌};
ghost use Rattle.std.specs.Prelude.{IfErr, IfOk, IfSome, IsOk, IsSome, OnErr, OnOk, true, ℕ, codes};
ghost use Rattle.std.specs.Io.KnownBytes.{Keeps};
ghost use Rattle.command_line.specs.Line.{AreGiven, AreInRange, AsksAboutProgram, GivesNumber, IsTaken, IsWrong};
ghost use Rattle.command_line.specs.Line.{text_given, texts_of};
ghost use Rattle.heapmark.specs.Causes.{HasCause};
ghost use Rattle.heapmark.specs.OfFile.{IsReason, PrintsReason, PrintsReasonFirst, WritesReportOfBytes};
ghost use Rattle.heapmark.specs.OfFile.{WritesReportOfFile};
ghost use Rattle.heapmark.specs.SecondLine.{PrintsHint};
ghost use Rattle.heapmark.specs.StatusOf.{IsStatusOf};
ghost use Rattle.heapmark.specs.SkippedFields.{HasBadList, IsSkipListOf, WritesBeginningFor, WritesReportFor};
ghost use Rattle.drain.specs.Options.{IsInRange};
ghost use Rattle.heapmark.specs.working.Hint.{HasHint};
ghost use Rattle.heapmark.specs.working.NoReport.{HasTooFewBuffers, bad_options, list_of, refusal_of, starved, wanted};
ghost use Rattle.histogram.specs.Counting.{failures_of, inner_of, is_flushed};

use crate::causes::Causes;
use crate::hint::advise;
use crate::no_report::{NoReport, Unreported};
use crate::pipeline::run;
use crate::printing::subject::Subject;
use crate::printing::{print_about, print_refusal};
use command_line::{Arguments, arguments};
use drain::{BadOptions, NoGate, Options};
use front_end::{DONE, Dumps, Refusal, Shown, print_words_error};
use heap_graph::{Skip, SkipRefusal};
use histogram::Counted;
use std::alloc::Global;
use std::io::Write;
use std::sync::Wait;
use std::thread::Threads;

/// Does what `words` ask for. The first word is the program's own name. Prints a refusal, in one line, or what is wrong
/// with the words, on `err`.
///
/// Returns the exit status: 1 after a refusal, such as that of a failed allocation; otherwise 2 if the words are wrong;
/// otherwise 0: the report of the file is on `out`, or the help or the version was asked for. A failure of `err` does
/// not change the status, nor does a failure of `out` while the help or the version is printed.
pub fn program<T: Causes + Dumps + AllocGlobal + Threads + Wait + Sync, W: Write, E: Write>(
    rt: &T,
    words: &[&str],
    out: &mut Counted<W>,
    err: &mut E,
) -> u8
    requires { failures_of out.old < 2 ^ 64 - 1 }
    ensures status { result ≤ 2 }

    // Only wrong words get 2. Wrong words that ask for neither help nor version get 2, or 1 if an allocation fails.
    ensures usage { result ≡ 2 → IsWrong (texts_of words.now) }
    ensures wrong { (IsTaken (texts_of words.now) → ⊥) → (AsksAboutProgram (texts_of words.now) → ⊥) → result ≢ 0 }
    ensures untouched { result ≡ 2 → Keeps (W.contents (inner_of out.old)) (W.contents (inner_of out.new)) }

    // At 0 the report of the file that the words name, without the fields of `--skip`, was written, unless help or
    // version was asked for. This holds for a file whose bytes a contract can name. For any other file, `reported` says
    // that it is a report of some dump.
    ensures of_file { result ≡ 0 → (AsksAboutProgram (texts_of words.now) → ⊥)
        → WritesReportOfFile (T.bytes_at rt.now) (texts_of words.now)
        (W.contents (inner_of out.old)) (W.contents (inner_of out.new)) }
    ensures reported { result ≡ 0 → (AsksAboutProgram (texts_of words.now) → ⊥)
        → WritesReportFor (text_given (codes "skip") (texts_of words.now))
        (W.contents (inner_of out.old)) (W.contents (inner_of out.new)) }
    ensures flushed { result ≡ 0 → (AsksAboutProgram (texts_of words.now) → ⊥) → is_flushed out.new ≡ true }
    ensures silent { result ≡ 0 → Keeps (E.contents err.old) (E.contents err.new) }

    // At 1 a refusal was printed in one line. If it reports a fault, this is the first fault of the file. Options are
    // refused only if they are bad, and the file only if it could not be opened or read.
    ensures told { result ≡ 1 → PrintsReason (T.bytes_at rt.now) (T.is_unread rt.now) (T.causes rt.now)
        (texts_of words.now) (failures_of out.old) (failures_of out.new)
        (E.contents err.old) (E.contents err.new) }

    // Too few buffers for the workers are refused, with nothing written.
    ensures too_few { (workers buffers : ℕ) → GivesNumber (codes "workers") (texts_of words.now) workers
        → GivesNumber (codes "buffers") (texts_of words.now) buffers → buffers < 2 * workers + 2
        → (AsksAboutProgram (texts_of words.now) → ⊥)
        → (result ≢ 0) × Keeps (W.contents (inner_of out.old)) (W.contents (inner_of out.new)) }

    // A text of `--skip` that is no list of fields is refused, too, with nothing written.
    ensures bad_list { HasBadList (text_given (codes "skip") (texts_of words.now))
        → (AsksAboutProgram (texts_of words.now) → ⊥)
        → (result ≢ 0) × Keeps (W.contents (inner_of out.old)) (W.contents (inner_of out.new)) }

    // At 1 nothing was written, except a beginning of a report if the writer failed.
    ensures unwritten { result ≡ 1 → failures_of out.new ≡ failures_of out.old
        → Keeps (W.contents (inner_of out.old)) (W.contents (inner_of out.new)) }
    ensures beginning { result ≡ 1 → failures_of out.new ≡ failures_of out.old + 1
        → WritesBeginningFor (text_given (codes "skip") (texts_of words.now))
        (W.contents (inner_of out.old)) (W.contents (inner_of out.new)) }
    ensures no_failure { result ≢ 1 → (AsksAboutProgram (texts_of words.now) → ⊥)
        → failures_of out.new ≡ failures_of out.old }
    ensures failures { failures_of out.new ≤ failures_of out.old + 1 }
{
    let (status, _) = answer_line(rt, words, out, err);
    status
}

/// Like [`program`], for an `err` that is a terminal: after some refusals it prints a second line, which says why the
/// file could not be opened, or what can be done. The status has the same meaning.
#[tactic(auto, using(crate::proofs::OfFile::only, crate::proofs::OfFile::then_hint))]
pub fn program_at_terminal<
    T: Causes + Dumps + AllocGlobal + Threads + Wait + Sync,
    W: Write,
    E: Write,
>(rt: &T, words: &[&str], out: &mut Counted<W>, err: &mut E) -> u8
    requires { failures_of out.old < 2 ^ 64 - 1 }
    ensures status { IsStatusOf (texts_of words.now) result W.contents out.old out.new }
    ensures of_file { result ≡ 0 → (AsksAboutProgram (texts_of words.now) → ⊥)
        → WritesReportOfFile (T.bytes_at rt.now) (texts_of words.now)
        (W.contents (inner_of out.old)) (W.contents (inner_of out.new)) }
    ensures told { result ≡ 1 → PrintsReasonFirst (T.bytes_at rt.now) (T.is_unread rt.now) (T.causes rt.now)
        (texts_of words.now) (failures_of out.old) (failures_of out.new)
        (E.contents err.old) (E.contents err.new) }
    ensures silent { result ≡ 0 → Keeps (E.contents err.old) (E.contents err.new) }
{
    let (status, unreported) = answer_line(rt, words, out, err);
    if let Some(unreported) = unreported {
        explain(rt, err, &unreported);
    }
    status
}

/// Does what `words` ask for, and prints a refusal in one line, or what is wrong with the words. Returns the exit
/// status. If the words name a file and there is no report of it, also returns why.
#[tactic(auto, using(crate::proofs::OfFile::of_words, crate::proofs::OfFile::told_of_words, crate::proofs::OfFile::told_starved))]
fn answer_line<'a, T: Causes + Dumps + AllocGlobal + Threads + Wait + Sync, W: Write, E: Write>(
    rt: &T,
    words: &'a [&'a str],
    out: &mut Counted<W>,
    err: &mut E,
) -> (u8, Option<Unreported<'a>>)
    requires { failures_of out.old < 2 ^ 64 - 1 }
    ensures status { IsStatusOf (texts_of words.entry.now) result.0 W.contents out.old out.new }
    ensures silent { result.0 ≡ 0 → Keeps (E.contents err.old) (E.contents err.new) }
    ensures refused { IsSome result.1 → result.0 ≡ 1 }
    ensures given { IfSome result.1 (λ unreported. AreGiven (texts_of words.entry.now) unreported.arguments) }
    ensures of_file { result.0 ≡ 0 → (AsksAboutProgram (texts_of words.entry.now) → ⊥)
        → WritesReportOfFile (T.bytes_at rt.now) (texts_of words.entry.now)
        (W.contents (inner_of out.old)) (W.contents (inner_of out.new)) }
    ensures told { result.0 ≡ 1 → PrintsReason (T.bytes_at rt.now) (T.is_unread rt.now) (T.causes rt.now)
        (texts_of words.entry.now) (failures_of out.old) (failures_of out.new)
        (E.contents err.old) (E.contents err.new) }
{
    match arguments(rt.alloc(), words) {
        Ok(arguments) => match report_file(rt, &arguments, out) {
            Ok(()) => (DONE, None),
            Err(reason) => {
                let status = print_refusal(err, &reason.refusal());
                (status, Some(Unreported { arguments, reason }))
            }
        },
        Err(error) => (
            print_words_error(rt.alloc(), "heapmark", &error, out, err),
            None,
        ),
    }
}

/// Prints why the file could not be opened (code 19), or what can be done about the refusal, if a hint is known.
fn explain<T: Dumps + AllocGlobal, E: Write>(rt: &T, err: &mut E, unreported: &Unreported<'_>)
    ensures none { (HasHint (refusal_of unreported.now.reason).code → ⊥)
        → (refusal_of unreported.now.reason).code ≢ 19 → Keeps (E.contents err.old) (E.contents err.new) }
    ensures hint { PrintsHint unreported.now.arguments.file.now (E.contents err.old) (E.contents err.new) }
{
    let Unreported { arguments, reason } = unreported;
    match reason {
        NoReport::Refused(refusal) => advise(rt, err, arguments, refusal, None),
        NoReport::Stopped(refusal, length) => advise(rt, err, arguments, refusal, *length),
        NoReport::NotOpened(reason) => {
            print_about(err, Subject::File(Shown(arguments.file)), reason);
        }
    }
}

/// Returns the options of `arguments` for the marking. `Err(BadOptions)` if they are not allowed (`IsInRange`).
fn options_of(arguments: &Arguments<'_>) -> Result<Options, BadOptions>
    ensures allowed { IsOk result ↔ IsInRange (wanted arguments.now) }
    ensures value { IfOk result (λ options. options ≡ wanted arguments.now) }
{
    let Arguments {
        file: _,
        workers,
        buffer,
        buffers,
        first_tag,
        skip: _,
    } = *arguments;
    Options::new(workers, buffer, buffers, first_tag)
}

/// Returns the fields that `arguments` list, or none if there is no list. The error is `BadOptions` if the text is no
/// list, and `OutOfMemory` if an allocation fails.
fn skip_of<'a>(alloc: Global, arguments: &Arguments<'a>) -> Result<Skip<'a, Global>, SkipRefusal>
    ensures list { IfOk result (IsSkipListOf (list_of arguments.now)) }
    ensures bad { result ≡ Err SkipRefusal.BadOptions → HasBadList (list_of arguments.now) }
{
    match arguments.skip {
        Some(text) => Skip::new(alloc, text),
        None => Ok(Skip::none(alloc)),
    }
}

/// Calls [`run`] on the file of `arguments`. Tests the options and the list of fields before it opens the file.
#[tactic(auto, using(crate::proofs::OfFile::bad_options_unread, crate::proofs::OfFile::skip_unread, crate::proofs::OfFile::not_opened_unread, crate::proofs::Causing::bad_options_cause, crate::proofs::Causing::skip_cause, crate::proofs::Causing::read_fault_cause))]
fn report_file<T: Causes + Dumps + AllocGlobal + Threads + Wait + Sync, W: Write>(
    rt: &T,
    arguments: &Arguments<'_>,
    out: &mut Counted<W>,
) -> Result<(), NoReport>
    requires failures { failures_of out.old < 2 ^ 64 - 1 }
    requires ranges { AreInRange arguments.now }
    ensures too_few { HasTooFewBuffers arguments.now → result ≡ Err bad_options }
    ensures bad_list { HasBadList (list_of arguments.now) → (result ≡ Err bad_options) ⊎ (result ≡ Err starved) }
    ensures enough { IfErr result (λ reason. (refusal_of reason).code ≡ 21
        → HasTooFewBuffers arguments.now ⊎ HasBadList (list_of arguments.now)) }
    ensures unread { IfErr result (λ reason. (refusal_of reason).code ≡ 19
        → T.is_unread rt.now arguments.now.file.now) }
    ensures cause { IfErr result (λ reason. HasCause (T.causes rt.now) arguments.now.first_tag (refusal_of reason)) }
    ensures not_run { HasTooFewBuffers arguments.now ⊎ HasBadList (list_of arguments.now)
        → failures_of out.new ≡ failures_of out.old }
    ensures of_file { OnOk result (IfSome (T.bytes_at rt.now arguments.now.file.now) (λ bytes.
        WritesReportOfBytes (list_of arguments.now) bytes
        (W.contents (inner_of out.old)) (W.contents (inner_of out.new)))) }
    ensures reported { OnOk result (WritesReportFor (list_of arguments.now)
        (W.contents (inner_of out.old)) (W.contents (inner_of out.new))) }
    ensures flushed { OnOk result (is_flushed out.new ≡ true) }
    ensures unwritten { OnErr result (failures_of out.new ≡ failures_of out.old
        → Keeps (W.contents (inner_of out.old)) (W.contents (inner_of out.new))) }
    ensures beginning { OnErr result (failures_of out.new ≡ failures_of out.old + 1
        → WritesBeginningFor (list_of arguments.now)
        (W.contents (inner_of out.old)) (W.contents (inner_of out.new))) }
    ensures no_failure { OnOk result (failures_of out.new ≡ failures_of out.old) }
    ensures failures { failures_of out.new ≤ failures_of out.old + 1 }
    ensures told { IfErr result (λ reason. IsReason (T.bytes_at rt.now arguments.now.file.now)
        (failures_of out.old) (failures_of out.new) (refusal_of reason)) }
{
    let Ok(options) = options_of(arguments) else {
        return Err(NoReport::Refused(Refusal::BAD_OPTIONS));
    };
    let skip = match skip_of(rt.alloc(), arguments) {
        Ok(skip) => skip,
        Err(refusal) => return Err(NoReport::Refused(Refusal::from(refusal))),
    };
    let mut reader = match rt.open_dump(arguments.file) {
        Ok(reader) => reader,
        Err(reason) => return Err(NoReport::NotOpened(reason)),
    };
    match run(rt, rt.alloc(), &mut reader, out, &options, &skip, &NoGate) {
        Ok(()) => Ok(()),
        Err(refusal) => {
            let length = rt.position(arguments.file, reader);
            Err(NoReport::Stopped(refusal, length))
        }
    }
}
