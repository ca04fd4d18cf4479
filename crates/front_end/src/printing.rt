//! Lines on standard error, which are printed without an allocation.

ghost use Rattle.std.specs.Prelude.{◌≡◌, ◌≢◌, ◌↔◌, All, IfSome, IsTrue};
ghost use Rattle.front_end.specs.PrintedLine.{PrintsAboutBy};
ghost use Rattle.front_end.specs.RefusalText.{line_by, refusal_line_by};
ghost use Rattle.histogram.specs.Counting.{AppendsBeginning};

use crate::refusal::Refusal;
use crate::status::REFUSED;
use arrayvec::ArrayString;
use std::fmt::{self, Display, Write};
use std::io;

/// The most bytes of a line. The longest name of a file that the system opens has 4,096 bytes, and each of them is
/// printed as four if it is that of a control character.
const MOST: usize = 17_000;

/// Prints `program`, a colon and a blank, `text` and a newline on `err`, as far as `err` takes them. Prints nothing if
/// the line would have more than 17,000 bytes.
#[tactic(auto, using(crate::proofs::PrintedLine::nothing))]
pub fn print_line<E: io::Write, D: Display>(err: &mut E, program: &str, text: &D)
    ensures { IfSome (D.output text.now) (λ output.
        AppendsBeginning (E.contents err.old) (E.contents err.new) (line_by program.now output)) }
{
    // `write!` on `err` itself would say nothing of what `err` took before it failed.
    let mut line = ArrayString::<MOST>::new();
    if writeln!(line, "{program}: {text}").is_ok() {
        write_beginning(err, line.as_str().as_bytes());
    }
}

/// Prints `refusal` in one line of `program`, and returns its exit status.
pub fn print_refusal<E: io::Write>(err: &mut E, program: &str, refusal: &Refusal) -> u8
    ensures status { result ≡ 1 }
    ensures line { AppendsBeginning (E.contents err.old) (E.contents err.new)
        (refusal_line_by program.now refusal.now) }
{
    print_line(err, program, refusal);
    REFUSED
}

/// The text of a line about `subject`.
#[derive(Clone, Copy)]
struct About<'a, S: Display> {
    subject: &'a S,
    text: &'a str,
}

impl<S: Display> Display for About<'_, S> {
    ghost use Rattle.std.specs.Prelude.{◌++◌, codes, option_map};

    ghost output = { λ about. option_map (λ subject. subject ++ codes ": " ++ about.text.now)
        (S.output about.subject.now) };

    fn fmt<W: fmt::Write>(&self, f: &mut fmt::Formatter<W>) -> fmt::Result {
        let subject = self.subject;
        let text = self.text;
        write!(f, "{subject}: {text}")
    }
}

/// Prints a line of `program` about `subject` on `err`: `program`, `: `, `subject`, `: `, `text` and a newline. Prints
/// nothing if `text` has a newline, or if the line would have more than 17,000 bytes.
#[tactic(auto, using(crate::proofs::PrintedLine::about, crate::proofs::PrintedLine::nothing_about))]
pub fn print_about<E: io::Write, S: Display, D: Display>(
    err: &mut E,
    program: &str,
    subject: &S,
    text: &D,
)
    ensures { IfSome (S.output subject.now) (λ shown.
        PrintsAboutBy program.now shown (E.contents err.old) (E.contents err.new)) }
{
    let mut line = ArrayString::<MOST>::new();
    if write!(line, "{text}").is_err() {
        return;
    }
    let text = line.as_str();
    if is_one_line(text.as_bytes()) {
        print_line(err, program, &About { subject, text });
    }
}

/// Tests whether `bytes` have no newline.
fn is_one_line(bytes: &[u8]) -> bool
    ensures { IsTrue result ↔ All (λ byte. byte ≢ 10) bytes.now }
{
    bytes.iter().all(|byte| *byte != b'\n')
}

/// Writes `bytes` on `err` until it fails or takes nothing.
#[tactic(auto, using(crate::proofs::PrintedLine::kept, crate::proofs::PrintedLine::begun))]
pub fn write_beginning<E: io::Write>(err: &mut E, bytes: &[u8])
    ensures { AppendsBeginning (E.contents err.old) (E.contents err.new) bytes.now }
{
    let mut at = 0;
    while at < bytes.len() {
        match err.write(&bytes[at..]) {
            Ok(0) => return,
            Ok(count) => at += count,
            Err(_) => return,
        }
    }
}
