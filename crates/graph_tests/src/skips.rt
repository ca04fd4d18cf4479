//! Texts that are lists of fields, and texts that are not.

use heap_graph::{Skip, SkipEntry, SkipRefusal};
use limited_heap::{LimitedHeap, requests_of};
use std::alloc::{AllocError, Allocator, Global};
use std::test::Fail;

/// The texts of a class and of a field.
type Names = (&'static str, &'static str);

/// Texts, and the entries of each.
static LISTS: [(&str, &[Names]); 8] = [
    ("T.other", &[("T", "other")]),
    (
        "java/lang/ref/Reference.referent,T.referent",
        &[("java/lang/ref/Reference", "referent"), ("T", "referent")],
    ),
    ("a.b.c", &[("a.b", "c")]),
    ("T..f", &[("T.", "f")]),
    ("..f", &[(".", "f")]),
    ("a.b,a.b,a.b", &[("a", "b"), ("a", "b"), ("a", "b")]),
    (" a . b , c.d", &[(" a ", " b "), (" c", "d")]),
    (
        "\u{e9}.\u{4e2d}\u{1f600}",
        &[("\u{e9}", "\u{4e2d}\u{1f600}")],
    ),
];

/// Texts that are not lists.
static OTHERS: [&str; 13] = [
    "referent",
    "T.",
    ".f",
    "T.f,,U.g",
    "",
    "a.b,",
    ",a.b",
    ",",
    ".",
    "a.b,c",
    "c,a.b",
    "T.f.",
    "a.b,c.d,.f",
];

/// Tests whether `entry` is `field` of `class`.
fn is_entry(entry: &SkipEntry<'_>, class: &[u8], field: &[u8]) -> bool {
    entry.class() == class && entry.field() == field
}

/// Tests whether `entries` are the entries `names`.
fn are_entries(entries: &[SkipEntry<'_>], names: &[Names]) -> bool {
    for (entry, (class, field)) in entries.iter().zip(names) {
        if !is_entry(entry, class.as_bytes(), field.as_bytes()) {
            return false;
        }
    }
    entries.len() == names.len()
}

/// Tests whether `text` is read as a list of the entries `names`. `Err` says how it is refused.
fn read_as(alloc: Global, text: &str, names: &[Names]) -> Result<bool, SkipRefusal> {
    let skip = Skip::new(alloc, text)?;
    Ok(are_entries(skip.entries(), names))
}

#[test]
fn lists_of_fields(rt: HostRuntime) -> Result<(), Fail> {
    for (text, names) in &LISTS {
        assert_eq!(rt; read_as(rt.alloc(), text, names), Ok(true), "{text}");
    }
    for text in &OTHERS {
        let refusal = read_as(rt.alloc(), text, &[]);
        assert_eq!(rt; refusal, Err(SkipRefusal::BadOptions), "{text}");
    }
    Ok(())
}

/// Returns the text of a list of `entries` entries with different names.
fn list_of(alloc: Global, entries: u32) -> Result<String, AllocError> {
    let mut text = format!(in alloc; "Class.field")?;
    for number in 1..entries {
        write!(text, ",Class{number}.field{number}")?;
    }
    Ok(text)
}

/// Tests whether the last entry of `skip` is `field` of `class`.
fn ends_with<A: Allocator>(skip: &Skip<'_, A>, class: &[u8], field: &[u8]) -> bool {
    match skip.entries().last() {
        Some(last) => is_entry(last, class, field),
        None => false,
    }
}

/// Reads a list of `entries` entries. Returns the number of entries read, and whether the last one is `field63` of
/// `Class63`.
fn read_of(alloc: Global, entries: u32) -> Result<(usize, bool), SkipRefusal> {
    let Ok(text) = list_of(alloc, entries) else {
        return Err(SkipRefusal::OutOfMemory);
    };
    let skip = Skip::new(alloc, &text)?;
    Ok((
        skip.entries().len(),
        ends_with(&skip, b"Class63", b"field63"),
    ))
}

#[test]
fn at_most_64_entries(rt: HostRuntime) {
    assert_eq!(rt; read_of(rt.alloc(), 64), Ok((64, true)));
    assert_eq!(rt; read_of(rt.alloc(), 65), Err(SkipRefusal::BadOptions));
}

/// Tests whether reading `text` on `heap` gives `entries` entries, or is refused as out of memory after `heap` refused
/// an allocation.
fn is_list_of(heap: &LimitedHeap<Global>, text: &str, entries: usize) -> bool {
    match Skip::new(heap, text) {
        Ok(skip) => skip.entries().len() == entries,
        Err(refusal) => refusal == SkipRefusal::OutOfMemory && heap.refusals() > 0,
    }
}

/// Fails in turn each allocation that it takes to read `text`, a list of `entries` entries. Returns the number of
/// allocations, or `None` if a result is wrong.
fn requests_to_read(alloc: Global, text: &str, entries: usize) -> Option<u64> {
    requests_of(alloc, |heap| is_list_of(heap, text, entries))
}

/// Like [`requests_to_read`], for a list of 64 entries.
fn requests_to_read_most(alloc: Global) -> Result<Option<u64>, AllocError> {
    let text = list_of(alloc, 64)?;
    Ok(requests_to_read(alloc, &text, 64))
}

#[test]
fn memory_refused_in_turn(rt: HostRuntime) -> Result<(), Fail> {
    let alloc = rt.alloc();
    // A list has room for 4 entries at first, and each further allocation doubles the room.
    let requests = (
        requests_to_read(alloc, "T.f,U.g", 2),
        requests_to_read_most(alloc)?,
    );
    assert_eq!(rt; requests, (Some(1), Some(5)));
    Ok(())
}

/// Tests whether the empty list has no entries.
fn none_is_empty<A: Allocator>(alloc: A) -> bool {
    Skip::none(alloc).entries().is_empty()
}

#[test]
fn no_field_takes_no_memory(rt: HostRuntime) {
    let heap = LimitedHeap::new(rt.alloc(), 0);
    assert_eq!(rt; (none_is_empty(&heap), heap.refusals()), (true, 0));
}
