//! The command as clap builds it: the file and the options, with their ranges and defaults.
ghost use Rattle.std.specs.Prelude.{◌≡◌, IfOk, codes, false};
ghost use Rattle.clap.specs.Words.{app_of, rule_of};
ghost use Rattle.command_line.specs.Line.{heapmark_line, number_rule, option_rule, skip_rule};

use crate::help;
use clap::builder::ValueParser;
use clap::{Arg, ArgAction, Command, value_parser};
use common_line::{VERSION, dump_file};
use std::alloc::{AllocError, Global};

/// Builds the command `heapmark FILE --workers N --buffer N --buffers N --first-tag N --skip LIST`, with `--help` and
/// `--version`. `Err(AllocError)` if an allocation fails.
pub(crate) fn command<'a>(alloc: Global) -> Result<Command<'a>, AllocError>
    ensures { IfOk result (λ c. app_of c ≡ heapmark_line) }
{
    let command = Command::new(alloc, "heapmark")
        .about(help::ABOUT)
        .version(VERSION)
        .after_help(help::AFTER);
    let command = command.arg(dump_file(alloc))?;
    let command = command.arg(workers(alloc))?;
    let command = command.arg(buffer(alloc))?;
    let command = command.arg(buffers(alloc))?;
    let command = command.arg(first_tag(alloc))?;
    let command = command.arg(skip(alloc))?;
    Ok(command)
}

/// Builds the option for the number of threads that mark.
fn workers<'a>(alloc: Global) -> Arg<'a>
    ensures rule { rule_of result ≡ number_rule (codes "workers") 1 64 (codes "4") }
    ensures local { result.global ≡ false }
{
    let values = value_parser!(u64).range(1..=64);
    option(alloc, "workers", values, "4").help(help::WORKERS)
}

/// Builds the option for the number of objects in a buffer.
fn buffer<'a>(alloc: Global) -> Arg<'a>
    ensures rule { rule_of result ≡ number_rule (codes "buffer") 2 4096 (codes "256") }
    ensures local { result.global ≡ false }
{
    let values = value_parser!(u64).range(2..=4096);
    option(alloc, "buffer", values, "256").help(help::BUFFER)
}

/// Builds the option for the number of buffers.
fn buffers<'a>(alloc: Global) -> Arg<'a>
    ensures rule { rule_of result ≡ number_rule (codes "buffers") 4 65534 (codes "1024") }
    ensures local { result.global ≡ false }
{
    let values = value_parser!(u64).range(4..=65_534);
    option(alloc, "buffers", values, "1024").help(help::BUFFERS)
}

/// Builds the option for the first tag of the two stacks of buffers.
fn first_tag<'a>(alloc: Global) -> Arg<'a>
    ensures rule { rule_of result ≡ number_rule (codes "first-tag") 0 281474976710655 (codes "0") }
    ensures local { result.global ≡ false }
{
    let values = value_parser!(u64).range(0..=281_474_976_710_655);
    option(alloc, "first-tag", values, "0").help(help::FIRST_TAG)
}

/// Builds the option for the fields that are not followed.
fn skip<'a>(alloc: Global) -> Arg<'a>
    ensures rule { rule_of result ≡ skip_rule }
    ensures local { result.global ≡ false }
{
    Arg::new(alloc, "skip")
        .long("skip")
        .action(ArgAction::Set)
        .value_name("LIST")
        .help(help::SKIP)
}

/// Builds the option `name` with the values `values` and a `default`. All callers pass values of type `u64`, which clap
/// reads as decimal numerals. So the text of an option spells its number.
fn option<'a>(alloc: Global, name: &'a str, values: ValueParser<'a>, default: &'a str) -> Arg<'a>
    ensures rule { rule_of result ≡ option_rule name.entry.now values.entry default.entry.now }
    ensures local { result.global ≡ false }
{
    Arg::new(alloc, name)
        .long(name)
        .action(ArgAction::Set)
        .value_name("N")
        .value_parser(values)
        .default_value(default)
}
