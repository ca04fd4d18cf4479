//! What a line after a refusal is about.

ghost use Rattle.std.specs.Prelude.{◌++◌, Some, codes};
ghost use Rattle.heapmark.specs.working.Subjects.{subject_text};

use front_end::Shown;
use std::fmt;

/// What a line after a refusal is about.
#[derive(Clone, Copy)]
pub(crate) enum Subject<'a> {
    /// The file with this name.
    File(Shown<'a>),
    /// The option `--first-tag` and its number.
    FirstTag(u64),
    /// The option `--workers` and its number.
    Workers(u32),
    /// The option `--buffers` and its number.
    Buffers(u32),
    /// The option `--skip`.
    Skip,
}

impl fmt::Display for Subject<'_> {
    ghost output = { λ subject. Some (subject_text subject) };

    fn fmt<W: fmt::Write>(&self, f: &mut fmt::Formatter<W>) -> fmt::Result {
        match *self {
            Subject::File(file) => write!(f, "{file}"),
            Subject::FirstTag(tag) => write!(f, "--first-tag {tag}"),
            Subject::Workers(workers) => write!(f, "--workers {workers}"),
            Subject::Buffers(buffers) => write!(f, "--buffers {buffers}"),
            Subject::Skip => f.write_str("--skip"),
        }
    }
}
