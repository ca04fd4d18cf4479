//! Why the program has no report of a file.

ghost use Rattle.std.specs.Prelude.{◌≡◌};
ghost use Rattle.heapmark.specs.working.NoReport.{refusal_of};

use command_line::Arguments;
use front_end::Refusal;
use std::io;

/// Why there is no report of a file.
#[derive(Drop)]
pub(crate) enum NoReport {
    /// The options or the list of `--skip` were refused, or an allocation failed, before the file was opened.
    Refused(Refusal),
    /// The run was refused. The number is that of the bytes read from the file, or `None` if the system reports no
    /// position, as for a pipe.
    Stopped(Refusal, Option<u64>),
    /// The file could not be opened. The error says why.
    NotOpened(io::Error),
}

impl NoReport {
    /// Returns the refusal that is printed.
    pub(crate) fn refusal(&self) -> Refusal
        ensures { result ≡ refusal_of self.now }
    {
        match self {
            NoReport::Refused(refusal) => *refusal,
            NoReport::Stopped(refusal, _) => *refusal,
            NoReport::NotOpened(_) => Refusal::READ_FAULT,
        }
    }
}

/// A command line for whose file there is no report.
#[derive(Drop)]
pub(crate) struct Unreported<'a> {
    /// The arguments of the command line.
    pub(crate) arguments: Arguments<'a>,
    /// Why there is no report.
    pub(crate) reason: NoReport,
}
