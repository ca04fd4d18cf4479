//! An entry of the list of fields that are not followed, and how it is read from the text.

ghost use Rattle.std.specs.Prelude.{Contains, IfNone, IfSome, MatchOption, ◌++◌, ◌∷◌, ◌≡◌};
ghost use Rattle.heap_graph.specs.SkipText.{IsEntry, comma, entry_text};
ghost use Rattle.heap_graph.specs.Skips.{SkipEntry};

use std::marker::Model;

/// A field that is not followed.
#[derive(Drop)]
pub struct SkipEntry<'t> {
    class: &'t [u8],
    field: &'t [u8],
}

impl<'t> Model for SkipEntry<'t> {
    ghost use Rattle.heap_graph.specs.Skips.{SkipEntry};

    ghost Value = { SkipEntry };

    ghost view = { λ entry. record { class = entry.class.now; field = entry.field.now } };
}

impl<'t> SkipEntry<'t> {
    /// Returns the text that names the class that declares the field.
    pub fn class(&self) -> &'t [u8]
        ensures { result.now ≡ self.now.class }
    {
        self.class
    }

    /// Returns the field's own name.
    pub fn field(&self) -> &'t [u8]
        ensures { result.now ≡ self.now.field }
    {
        self.field
    }
}

/// Returns the part of `text` before its first comma, and the part after this comma. Returns `text` and `None` if
/// `text` has no comma.
pub(super) fn first_piece(text: &str) -> (&str, Option<&str>)
    ensures no_comma { Contains result.0.now comma → ⊥ }
    ensures whole { MatchOption result.1 (text.now ≡ result.0.now)
        (λ more. text.now ≡ result.0.now ++ comma ∷ more.now) }
{
    match text.split_once(',') {
        Some((piece, more)) => (piece, Some(more)),
        None => (text, None),
    }
}

/// Reads the entry that `piece` spells. `piece` must have no comma. The last dot separates the class from the field.
/// Returns `None` if there is no dot, or if the class or the field is empty.
pub(super) fn entry_of(piece: &str) -> Option<SkipEntry<'_>>
    requires { Contains piece.now comma → ⊥ }
    ensures entry { IfSome result (λ e. IsEntry e × (entry_text e ≡ piece.now)) }
    ensures none { IfNone result ((e : SkipEntry) → IsEntry e → entry_text e ≡ piece.now → ⊥) }
{
    let (class, field) = piece.rsplit_once('.')?;
    if class.is_empty() || field.is_empty() {
        return None;
    }
    Some(SkipEntry {
        class: class.as_bytes(),
        field: field.as_bytes(),
    })
}
