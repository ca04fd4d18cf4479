//! The text of a table.

ghost use Rattle.std.specs.Prelude.{All, IfOk, OnOk, ◌++◌, ◌<◌, ◌≡◌};
ghost use Rattle.heap_graph.specs.RowNumbers.{row_count};
ghost use Rattle.held_table.specs.TableText.{joint_line, numbers, shown_set, table_line, table_text};

use crate::line::{Joint, Line};
use crate::table::Table;
use heap_graph::{Graph, RowKey};
use histogram::row_name;
use std::alloc::{AllocError, Allocator};
use std::io::Write;

/// Returns the whole text of `table`, a table of `graph`: a line for each joint, then its lines.
pub(crate) fn text_of<A: Allocator + Copy, B: Allocator, C: Allocator>(
    alloc: A,
    graph: &Graph<'_, B>,
    table: &Table<C>,
) -> Result<Vec<u8, A>, AllocError>
    requires { All (λ l. l.row < row_count graph.now) table.now.lines.items }
    ensures { IfOk result (λ text.
        text.items ≡ table_text graph.now table.now.joints.items table.now.lines.items) }
{
    let mut text = Vec::new(alloc);
    for joint in &table.joints {
        append_joint(&mut text, *joint)?;
    }
    for line in &table.lines {
        append_line(alloc, &mut text, graph, *line)?;
    }
    Ok(text)
}

/// Appends what the set of `joint` consists of: `set 12 = 3 + 7` and a newline.
fn append_joint<A: Allocator>(out: &mut Vec<u8, A>, joint: Joint) -> Result<(), AllocError>
    ensures { OnOk result (out.new.items ≡ out.old.items ++ joint_line joint) }
{
    out.extend_from_slice(b"set ")?;
    append_set(out, joint.set)?;
    out.extend_from_slice(b" = ")?;
    append_set(out, joint.first)?;
    out.extend_from_slice(b" + ")?;
    append_set(out, joint.second)?;
    out.push(b'\n')?;
    Ok(())
}

/// Appends one line: the count right-aligned in 10 places, the bytes right-aligned in 14 places, the remainder
/// right-aligned in 2 places, the set, the name of the row, with two spaces between them, and a newline.
fn append_line<A: Allocator + Copy, B: Allocator, C: Allocator>(
    alloc: A,
    out: &mut Vec<u8, C>,
    graph: &Graph<'_, B>,
    line: Line,
) -> Result<(), AllocError>
    requires { line.row < row_count graph.now }
    ensures { OnOk result (out.new.items ≡ out.old.items ++ table_line graph.now line) }
{
    append_numbers(out, line.count, line.bytes, line.remainder)?;
    append_set(out, line.set)?;
    out.extend_from_slice(b"  ")?;
    // Called for its clause `within`: the numbers of rows have a bound.
    let _rows = graph.row_count();
    let name = row_name(alloc, graph, RowKey::numbered(line.row))?;
    out.extend_from_slice(name.as_slice())?;
    out.push(b'\n')?;
    Ok(())
}

/// Appends `count` right-aligned in 10 places, `bytes` right-aligned in 14 places, and `remainder` right-aligned in 2
/// places, with two spaces after each.
fn append_numbers<A: Allocator>(
    out: &mut Vec<u8, A>,
    count: u64,
    bytes: u64,
    remainder: u32,
) -> Result<(), AllocError>
    ensures { OnOk result (out.new.items ≡ out.old.items ++ numbers count bytes remainder) }
{
    write!(out, "{count:>10}  {bytes:>14}  {remainder:>2}  ").map_err(|_| AllocError)?;
    Ok(())
}

/// Appends `set` as it is shown: a hyphen for the empty set, otherwise the number less 1.
fn append_set<A: Allocator>(out: &mut Vec<u8, A>, set: u32) -> Result<(), AllocError>
    ensures { OnOk result (out.new.items ≡ out.old.items ++ shown_set set) }
{
    if set == 0 {
        out.push(b'-')?;
        return Ok(());
    }
    let shown = set - 1;
    write!(out, "{shown}").map_err(|_| AllocError)?;
    Ok(())
}
