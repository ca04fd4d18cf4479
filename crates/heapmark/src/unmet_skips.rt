//! The lines about entries of `--skip` that name no field of the dump.
//!
//! Such an entry changes neither the report nor the status. So the line about it is printed after the report, and only
//! if standard error is a terminal. For these lines the file is read a second time. The clauses say that no other text
//! is printed, but not which entries the lines are about.

ghost use Rattle.std.specs.Prelude.{◌≡◌, IfOk, string_bytes};
ghost use Rattle.heapmark.specs.UnmetEntries.{PrintsOnlyUnmet, unmet_line};
ghost use Rattle.histogram.specs.Counting.{AppendsBeginning};

use crate::pipeline::read_bytes;
use command_line::{Arguments, arguments};
use front_end::{Dumps, Shown, write_beginning};
use heap_graph::Skip;
use hprof_grammar::{Team, read};
use std::alloc::{AllocError, Global};
use std::io::Write;
use std::thread::Threads;

/// What follows the entry in its line.
const ENDING: &str = ": no class of the dump declares this field of its instances \
    (static fields are always followed)\n";

/// Prints a line for each entry of the list in `words` whose field no class of the dump declares. Prints nothing if
/// `words` have no list, or if the list, the file or the dump cannot be read.
#[tactic(auto, using(crate::proofs::UnmetLines::none))]
pub(crate) fn tell_unmet_skips<T: Dumps + AllocGlobal + Threads + Sync, E: Write>(
    rt: &T,
    words: &[&str],
    err: &mut E,
)
    ensures { PrintsOnlyUnmet (E.contents err.old) (E.contents err.new) }
{
    let Ok(arguments) = arguments(rt.alloc(), words) else {
        return;
    };
    let Some(list) = arguments.skip else {
        return;
    };
    if let Some(met) = met_in_file(rt, &arguments, list) {
        tell_unmet(rt.alloc(), err, list, &met);
    }
}

/// Returns for each entry of `list` whether a class of the dump declares its field, or `None` if that cannot be known.
fn met_in_file<T: Dumps + AllocGlobal + Threads + Sync>(
    rt: &T,
    arguments: &Arguments<'_>,
    list: &str,
) -> Option<Vec<bool>> {
    let skip = Skip::new(rt.alloc(), list).ok()?;
    let bytes = bytes_again(rt, arguments.file)?;
    let team = Team::at_most(rt, arguments.workers);
    let dump = read(&team, rt.alloc(), bytes.as_slice()).ok()?;
    skip.met(rt.alloc(), bytes.as_slice(), &dump).ok()
}

/// Reads the bytes of `file` again. Returns `None` if they cannot be read twice, or if a read or an allocation fails.
fn bytes_again<T: Dumps + AllocGlobal>(rt: &T, file: &str) -> Option<Vec<u8>> {
    let mut reader = rt.reopen_dump(file).ok()?;
    read_bytes(rt.alloc(), &mut reader).ok()
}

/// Prints a line for each entry of `list` for which `met`, in the order of the entries, is `false`, except a line for
/// which an allocation fails. Commas separate the entries, and no entry contains a comma.
#[tactic(auto, using(crate::proofs::UnmetLines::none, crate::proofs::UnmetLines::one_more))]
fn tell_unmet<E: Write>(alloc: Global, err: &mut E, list: &str, met: &[bool])
    ensures { PrintsOnlyUnmet (E.contents err.old) (E.contents err.new) }
{
    for (entry, is_met) in list.split(',').zip(met) {
        if !*is_met {
            tell_entry(alloc, err, entry);
        }
    }
}

/// Prints the line about `entry`, or nothing if an allocation fails.
#[tactic(auto, using(crate::proofs::UnmetLines::no_line))]
fn tell_entry<E: Write>(alloc: Global, err: &mut E, entry: &str)
    ensures { AppendsBeginning (E.contents err.old) (E.contents err.new) (unmet_line entry.now) }
{
    if let Ok(line) = line_about(alloc, entry) {
        write_beginning(err, line.as_bytes());
    }
}

/// Returns the line about `entry`. `Err(AllocError)` if an allocation fails.
// A call of `format!` with all of it would have a harder proof.
fn line_about(alloc: Global, entry: &str) -> Result<String, AllocError>
    ensures { IfOk result (λ line. string_bytes line ≡ unmet_line entry.now) }
{
    let mut line = String::new(alloc);
    line.push_str("heapmark: --skip ")?;
    write!(line, "{}", Shown(entry))?;
    line.push_str(ENDING)?;
    Ok(line)
}
