//! From words to the matches of a command.
ghost use Rattle.std.specs.Prelude.{◌≡◌, IfErr, IfOk, true};
ghost use Rattle.clap.specs.Words.{FailsBy, app_of, kind_of, takes};
ghost use Rattle.common_line.specs.Line.{faults_of, texts_of};
ghost use Rattle.common_line.specs.Matched.{IsMatched, IsPlainLine};

use clap::error::ErrorKind;
use clap::{ArgMatches, Command, Error};

/// Reads `words` by `command`. The first word is the program's own name.
///
/// The error is a fault of the words, a request for the help or the version, or out of memory, as its kind says. Its
/// text is for the user.
pub fn parse<'a>(command: Command<'a>, words: &'a [&'a str]) -> Result<ArgMatches<'a>, Error>
    requires { IsPlainLine (app_of command) }
    ensures matched { IfOk result (IsMatched (app_of command.entry) (texts_of words.entry.now)) }
    ensures taken { IfErr result (λ e. takes (app_of command.entry) (texts_of words.entry.now) ≡ true
        → kind_of e ≡ ErrorKind.OutOfMemory) }

    // The result is `Ok` only if nothing is wrong with the words. The kind of an error is out of memory, or one of
    // `faults_of`.
    ensures faults { FailsBy (faults_of (app_of command.entry) (texts_of words.entry.now)) result }
{
    command.try_get_matches_from(words)
}
