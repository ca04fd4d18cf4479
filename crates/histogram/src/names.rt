//! The names in a report.

ghost use Rattle.std.specs.Prelude.{◌≡◌, ◌<◌, ◌++◌, IfOk, OnOk};
ghost use Rattle.heap_graph.specs.ObjectGraph.{class_at, class_count};
ghost use Rattle.heap_graph.specs.Whole.{IsRowIn};
ghost use Rattle.histogram.specs.ShownNames.{is_plain, row_id, shown_byte, shown_class};
ghost use Rattle.histogram.specs.ShownNames.{shown_primitive, shown_row, shown_text, unnamed};

use heap_graph::{Graph, RowKey};
use std::alloc::{AllocError, Allocator};
use std::io::Write;

/// Returns the name of `row`, as the report shows it. `AllocError` if an allocation fails.
pub fn row_name<A: Allocator, B: Allocator>(
    alloc: B,
    graph: &Graph<'_, A>,
    row: RowKey,
) -> Result<Vec<u8, B>, AllocError>
    requires { IsRowIn graph.now row }
    ensures { IfOk result (λ name. name.items ≡ shown_row graph.now row) }
{
    match row {
        RowKey::Class(class) => class_name(alloc, graph, class),
        RowKey::Primitive(code) => Vec::from_slice(alloc, primitive_name(code)),
        RowKey::ClassObject => Vec::from_slice(alloc, b"<class>"),
    }
}

/// Returns the identifier of the class of `row`, or 0 if the row is no class.
pub(crate) fn row_class<A: Allocator>(graph: &Graph<'_, A>, row: RowKey) -> u64
    requires { IsRowIn graph.now row }
    ensures { result ≡ row_id graph.now row }
{
    match row {
        RowKey::Class(class) => graph.class_id(class),
        RowKey::Primitive(_) => 0,
        RowKey::ClassObject => 0,
    }
}

/// Returns the name of `class`, as the report shows it, or what is shown in place of the name if the dump has none.
fn class_name<A: Allocator, B: Allocator>(
    alloc: B,
    graph: &Graph<'_, A>,
    class: u32,
) -> Result<Vec<u8, B>, AllocError>
    requires { class < class_count graph.now }
    ensures { IfOk result (λ name.
        name.items ≡ shown_class (class_at graph.now class).id (class_at graph.now class).text) }
{
    let mut name = Vec::new(alloc);
    match graph.class_text(class) {
        Some(text) => append_shown(&mut name, text)?,
        None => append_unnamed(&mut name, graph.class_id(class))?,
    }
    Ok(name)
}

/// Appends `text`, the bytes of a name, as the report shows a name.
fn append_shown<A: Allocator>(out: &mut Vec<u8, A>, text: &[u8]) -> Result<(), AllocError>
    ensures { OnOk result (out.new.items ≡ out.old.items ++ shown_text text.now) }
{
    for byte in text {
        append_shown_byte(out, *byte)?;
    }
    Ok(())
}

/// Appends `byte` as it is if it is plain, else `\x` and two lower-case hex digits.
fn append_shown_byte<A: Allocator>(out: &mut Vec<u8, A>, byte: u8) -> Result<(), AllocError>
    ensures { OnOk result (out.new.items ≡ out.old.items ++ shown_byte byte) }
{
    if is_plain_byte(byte) {
        out.push(byte)?;
        return Ok(());
    }
    write!(out, "\\x{byte:02x}").map_err(|_| AllocError)?;
    Ok(())
}

/// Tests whether `byte` is from 0x21 to 0x7E and no backslash.
fn is_plain_byte(byte: u8) -> bool
    ensures { result ≡ is_plain byte }
{
    0x21 <= byte && byte <= 0x7E && byte != b'\\'
}

/// Appends what is shown for a class without a name: `?0x` and the identifier `class` in lower-case hex digits.
/// `Err(AllocError)` if an allocation fails.
pub fn append_unnamed<A: Allocator>(out: &mut Vec<u8, A>, class: u64) -> Result<(), AllocError>
    ensures { OnOk result (out.new.items ≡ out.old.items ++ unnamed class) }
{
    write!(out, "?0x{class:x}").map_err(|_| AllocError)
}

/// Returns the name of the row of the primitive arrays of type `code`.
fn primitive_name(code: u8) -> &'static [u8]
    ensures { result.now ≡ shown_primitive code }
{
    match code {
        4 => b"boolean[]",
        5 => b"char[]",
        6 => b"float[]",
        7 => b"double[]",
        8 => b"byte[]",
        9 => b"short[]",
        10 => b"int[]",
        _ => b"long[]",
    }
}
