//! From the words of a command line to the file and the options.
ghost use Rattle.std.specs.Prelude.{◌≡◌, ◌≤◌, IfErr, IfOk, codes, option_map, true, ℕ};
ghost use Rattle.clap.specs.Words.{FailsBy, first_value, found_of, kind_of, takes};
ghost use Rattle.command_line.specs.Line.{AreGiven, AreInRange, faults_of, heapmark_line, texts_of};
ghost use Rattle.command_line.specs.working.Matches.{HasAll, ReadsNumber};
ghost use Rattle.common_line.specs.Matched.{HasNumber};

use crate::options::command;
use crate::parsed_arguments::Arguments;
use clap::error::ErrorKind;
use clap::{ArgMatches, Error};
use common_line::parse;
use std::alloc::Global;

/// Returns the arguments that `words` give. The first word is the program's own name.
///
/// The error is a fault of the words, a request for the help or the version, or out of memory, as its kind says. Its
/// text is for the user.
pub fn arguments<'a>(alloc: Global, words: &'a [&'a str]) -> Result<Arguments<'a>, Error>
    ensures given { IfOk result (AreGiven (texts_of words.entry.now)) }
    ensures ranges { IfOk result AreInRange }
    ensures taken { IfErr result (λ e.
        takes heapmark_line (texts_of words.entry.now) ≡ true → kind_of e ≡ ErrorKind.OutOfMemory) }

    // The result is `Ok` only if nothing is wrong with the words. The kind of an error is out of memory, or one of
    // `faults_of`.
    ensures faults { FailsBy (faults_of (texts_of words.entry.now)) result }
{
    let command = match command(alloc) {
        Ok(command) => command,
        Err(refused) => return Err(Error::from(refused)),
    };
    match parse(command, words) {
        Ok(matches) => Ok(values(&matches)),
        Err(error) => Err(error),
    }
}

/// Returns the values of `matches`, the result of a parse that succeeded.
fn values<'a>(matches: &ArgMatches<'a>) -> Arguments<'a>
    requires { HasAll (found_of matches.now) }
    ensures file { first_value (found_of matches.now) (codes "file") ≡ Some result.file.now }
    ensures workers { ReadsNumber (found_of matches.now) (codes "workers") result.workers }
    ensures buffer { ReadsNumber (found_of matches.now) (codes "buffer") result.buffer }
    ensures buffers { ReadsNumber (found_of matches.now) (codes "buffers") result.buffers }
    ensures first_tag { ReadsNumber (found_of matches.now) (codes "first-tag") result.first_tag }
    ensures skip { option_map (λ text. text.now) result.skip ≡ first_value (found_of matches.now) (codes "skip") }
    ensures ranges { AreInRange result }
{
    let Some(file) = matches.get_str("file") else {
        unreachable!();
    };
    Arguments {
        file,
        workers: number(matches, "workers") as u32,
        buffer: number(matches, "buffer") as u32,
        buffers: number(matches, "buffers") as u32,
        first_tag: number(matches, "first-tag"),
        skip: matches.get_str("skip"),
    }
}

/// Returns the number that `matches` hold for the option `name`.
fn number(matches: &ArgMatches<'_>, name: &str) -> u64
    requires { (least : ℕ) × (most : ℕ) × HasNumber (found_of matches.now) name.now least most }
    ensures value { ReadsNumber (found_of matches.now) name.now result }
    ensures range { (least most : ℕ) → HasNumber (found_of matches.now) name.now least most
        → (least ≤ result) × (result ≤ most) }
{
    let Some(number) = matches.get_one::<u64>(name) else {
        unreachable!();
    };
    number
}
