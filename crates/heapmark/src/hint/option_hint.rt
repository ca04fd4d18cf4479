//! What people can do about an option of the command line.

ghost use Rattle.std.specs.Prelude.{◌≡◌, ◌+◌, ◌*◌};
ghost use Rattle.heapmark.specs.SecondLine.{IsOption};
ghost use Rattle.heapmark.specs.working.Subjects.{subject_text};

use crate::printing::subject::Subject;
use std::fmt;

/// What is wrong with an option, and what can be done about it.
#[derive(Clone, Copy)]
pub(crate) enum OptionHint {
    /// This first tag leaves too few tags.
    FirstTag(u64),
    /// With this number of workers, a thread could not be started.
    Threads(u32),
    /// There are too few buffers (the first number) for the workers (the second number).
    Buffers(u32, u32),
    /// The text of `--skip` is no list of 1 to 64 entries.
    Fields,
}

impl OptionHint {
    /// Returns the option.
    #[tactic(auto, using(crate::proofs::Hints::is_first_tag, crate::proofs::Hints::is_workers, crate::proofs::Hints::is_buffers))]
    pub(super) fn subject(self) -> Subject<'static>
        ensures { IsOption (subject_text result) }
    {
        match self {
            OptionHint::FirstTag(tag) => Subject::FirstTag(tag),
            OptionHint::Threads(workers) => Subject::Workers(workers),
            OptionHint::Buffers(buffers, _) => Subject::Buffers(buffers),
            OptionHint::Fields => Subject::Skip,
        }
    }
}

impl fmt::Display for OptionHint {
    fn fmt<W: fmt::Write>(&self, f: &mut fmt::Formatter<W>) -> fmt::Result {
        match *self {
            OptionHint::FirstTag(_) => {
                f.write_str("too few tags are left after it: leave the option out")
            }
            OptionHint::Threads(workers) => f.write_str(advice_on_threads(workers)),
            OptionHint::Buffers(_, workers) => {
                let least = least_buffers(workers);
                write!(f, "too few for {workers} workers: give {least} at least")
            }
            OptionHint::Fields => f.write_str(
                "give 1 to 64 entries with commas between, as java/lang/ref/Reference.referent",
            ),
        }
    }
}

/// Returns the least number of buffers for `workers` workers: two for each, and two more.
pub(super) fn least_buffers(workers: u32) -> u64
    ensures { result ≡ 2 * workers + 2 }
{
    2 * u64::from(workers) + 2
}

/// Returns what can be done if, with `workers` workers, a thread could not be started.
fn advice_on_threads(workers: u32) -> &'static str {
    if workers == 1 {
        "the system starts no thread: see ulimit -u and ulimit -v"
    } else {
        "the system starts no more threads: try fewer, or see ulimit -u and ulimit -v"
    }
}
