//! Required arguments, which their places among the words name.
ghost use Rattle.std.specs.Prelude.{◌≡◌, false};
ghost use Rattle.clap.specs.Words.{rule_of};
ghost use Rattle.common_line.specs.Line.{file_rule, positional_rule};

use clap::{Arg, ArgAction};
use std::alloc::Global;

/// The help of the heap dump. Its lines are broken by hand, for 80 columns: the ported clap breaks no line.
const FILE: &str = "\
A heap dump of at most 1 GiB and 16,777,216 objects (HPROF binary,
JAVA PROFILE 1.0.2), as `jcmd PID GC.heap_dump FILE` writes it";

/// Builds the argument for the heap dump, FILE.
pub fn dump_file<'a>(alloc: Global) -> Arg<'a>
    ensures rule { rule_of result ≡ file_rule }
    ensures local { result.global ≡ false }
{
    positional(alloc, "file", "FILE", FILE)
}

/// Builds the required argument `name`, which the help calls `value` and describes by `help`.
pub fn positional<'a>(alloc: Global, name: &'a str, value: &'a str, help: &'a str) -> Arg<'a>
    ensures rule { rule_of result ≡ positional_rule name.entry.now }
    ensures local { result.global ≡ false }
{
    Arg::new(alloc, name)
        .required(true)
        .action(ArgAction::Set)
        .value_name(value)
        .help(help)
}
