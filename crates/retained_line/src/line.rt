//! The command as clap builds it, with its two arguments.
ghost use Rattle.std.specs.Prelude.{◌≡◌, IfOk, false};
ghost use Rattle.clap.specs.Words.{app_of, rule_of};
ghost use Rattle.retained_line.specs.Line.{labels_rule, retained_line};

use crate::help;
use clap::{Arg, Command};
use common_line::{VERSION, dump_file, positional};
use std::alloc::{AllocError, Global};

/// Builds the command `retained FILE LABELS`, with `--help` and `--version`. `Err(AllocError)` if an allocation fails.
pub(crate) fn command<'a>(alloc: Global) -> Result<Command<'a>, AllocError>
    ensures { IfOk result (λ c. app_of c ≡ retained_line) }
{
    let command = Command::new(alloc, "retained")
        .about(help::ABOUT)
        .version(VERSION)
        .after_help(help::AFTER);
    let command = command.arg(dump_file(alloc))?;
    let command = command.arg(labels(alloc))?;
    Ok(command)
}

/// Builds the argument for the text of labels.
fn labels<'a>(alloc: Global) -> Arg<'a>
    ensures rule { rule_of result ≡ labels_rule }
    ensures local { result.global ≡ false }
{
    positional(alloc, "labels", "LABELS", help::LABELS)
}
