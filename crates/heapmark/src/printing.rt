//! The lines of heapmark on standard error.

pub(crate) mod subject;

ghost use Rattle.std.specs.Prelude.{◌≡◌};
ghost use Rattle.heapmark.specs.RefusalText.{refusal_line};
ghost use Rattle.heapmark.specs.SecondLine.{PrintsAbout};
ghost use Rattle.heapmark.specs.working.Subjects.{subject_text};
ghost use Rattle.histogram.specs.Counting.{AppendsBeginning};

use front_end::Refusal;
use std::fmt::Display;
use std::io::Write;
use subject::Subject;

/// Prints `refusal` in one line, and returns its exit status.
pub fn print_refusal<E: Write>(err: &mut E, refusal: &Refusal) -> u8
    ensures status { result ≡ 1 }
    ensures line { AppendsBeginning (E.contents err.old) (E.contents err.new) (refusal_line refusal.now) }
{
    front_end::print_refusal(err, "heapmark", refusal)
}

/// Prints a line about `subject` on `err`: `heapmark: `, `subject`, `: `, `text` and a newline. Prints nothing if
/// `text` has a newline, or if the line would be too long (`front_end::print_about`).
pub(crate) fn print_about<E: Write, D: Display>(err: &mut E, subject: Subject<'_>, text: &D)
    ensures { PrintsAbout (subject_text subject.entry) (E.contents err.old) (E.contents err.new) }
{
    front_end::print_about(err, "heapmark", &subject, text)
}
