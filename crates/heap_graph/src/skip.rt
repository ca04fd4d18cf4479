//! The list of fields that are not followed.

ghost use Rattle.std.specs.Prelude.{IfOk, List, [], false, true, ◌<◌, ◌≡◌, ◌≤◌};
ghost use Rattle.heap_graph.specs.SkipText.{SpellsSkips, most_entries};
ghost use Rattle.heap_graph.specs.Skips.{SkipEntry};

mod class_skips;
mod entry;
mod met;
mod refusal;

pub(crate) use class_skips::ClassSkips;
pub use entry::SkipEntry;
use entry::{entry_of, first_piece};
pub use refusal::SkipRefusal;
use std::alloc::Allocator;
use std::marker::Model;

/// The largest number of entries in a list.
const MOST_ENTRIES: usize = 64;

/// A list of fields that are not followed. An entry has the name of the class that declares the field, and the field's
/// own name.
#[derive(Drop)]
pub struct Skip<'t, A: Allocator> {
    entries: Vec<SkipEntry<'t>, A>,
}

impl<'t, A: Allocator> Model for Skip<'t, A> {
    ghost use Rattle.std.specs.Prelude.{List};
    ghost use Rattle.heap_graph.specs.Skips.{SkipEntry};

    ghost Value = { List SkipEntry };

    ghost view = { λ skip. skip.entries.items };
}

/// Tests whether a list of `entries` entries has room for another one.
fn has_room(entries: usize) -> bool
    ensures room { result ≡ true → entries < most_entries }
    ensures full { result ≡ false → most_entries ≤ entries }
{
    entries < MOST_ENTRIES
}

impl<'t, A: Allocator> Skip<'t, A> {
    /// Creates an empty list: all fields are followed. Allocates nothing.
    pub fn none(alloc: A) -> Self
        ensures { result ≡ [] }
    {
        Skip {
            entries: Vec::new(alloc),
        }
    }

    /// Reads the list of fields from `text`: 1 to 64 entries `Class.field`, separated by commas. The last dot of an
    /// entry separates the class from the field, and neither is empty. `Err(SkipRefusal::BadOptions)` if `text` is no
    /// list of this form, `Err(SkipRefusal::OutOfMemory)` if an allocation fails.
    pub fn new(alloc: A, text: &'t str) -> Result<Self, SkipRefusal>
        ensures list { IfOk result (λ skip. SpellsSkips text.now skip) }
        ensures bad { result ≡ Err SkipRefusal.BadOptions → (list : List SkipEntry) → SpellsSkips text.now list → ⊥ }
    {
        let mut entries = Vec::new(alloc);
        let mut rest = text;
        while has_room(entries.len()) {
            let (piece, more) = first_piece(rest);
            let Some(entry) = entry_of(piece) else {
                return Err(SkipRefusal::BadOptions);
            };
            if entries.push(entry).is_err() {
                return Err(SkipRefusal::OutOfMemory);
            }
            let Some(behind) = more else {
                return Ok(Skip { entries });
            };
            rest = behind;
        }
        Err(SkipRefusal::BadOptions)
    }

    /// Returns the entries, in the order of the text.
    pub fn entries(&self) -> &[SkipEntry<'t>]
        ensures { result.now ≡ self.now }
    {
        &self.entries
    }
}
