//! From the words of a command line to the names of the dump and of the text of labels.
ghost use Rattle.std.specs.Prelude.{◌≡◌, IfErr, IfOk, Some, codes, true};
ghost use Rattle.clap.specs.Words.{FailsBy, first_value, found_of, kind_of, takes};
ghost use Rattle.retained_line.specs.Line.{AreGiven, faults_of, retained_line, texts_of};
ghost use Rattle.retained_line.specs.working.Matches.{HasBoth};

use crate::line::command;
use crate::parsed_arguments::Arguments;
use clap::error::ErrorKind;
use clap::{ArgMatches, Error};
use common_line::parse;
use std::alloc::Global;

/// Returns the arguments that `words` give. The first word is the program's own name.
///
/// The error is a fault of the words, a request for the help or the version, or out of memory, as its kind says. Its
/// text is for the user.
pub fn arguments<'a>(alloc: Global, words: &'a [&'a str]) -> Result<Arguments<'a>, Error>
    ensures given { IfOk result (AreGiven (texts_of words.entry.now)) }
    ensures taken { IfErr result (λ e.
        takes retained_line (texts_of words.entry.now) ≡ true → kind_of e ≡ ErrorKind.OutOfMemory) }

    // The result is `Ok` only if nothing is wrong with the words. The kind of an error is out of memory, or one of
    // `faults_of`.
    ensures faults { FailsBy (faults_of (texts_of words.entry.now)) result }
{
    let command = match command(alloc) {
        Ok(command) => command,
        Err(refused) => return Err(Error::from(refused)),
    };
    match parse(command, words) {
        Ok(matches) => Ok(values(&matches)),
        Err(error) => Err(error),
    }
}

/// Returns the values of `matches`, the result of a parse that succeeded.
fn values<'a>(matches: &ArgMatches<'a>) -> Arguments<'a>
    requires { HasBoth (found_of matches.now) }
    ensures file { first_value (found_of matches.now) (codes "file") ≡ Some result.file.now }
    ensures labels { first_value (found_of matches.now) (codes "labels") ≡ Some result.labels.now }
{
    let (Some(file), Some(labels)) = (matches.get_str("file"), matches.get_str("labels")) else {
        unreachable!();
    };
    Arguments { file, labels }
}
