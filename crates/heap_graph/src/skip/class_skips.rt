//! The fields of one class that are not followed.

ghost use Rattle.std.specs.Prelude.{Bool, List, not, option_copied, ◌&&◌, ◌==◌, ◌≡◌};
ghost use Rattle.hprof_grammar.specs.MemberFields.{member_of};
ghost use Rattle.hprof_grammar.specs.Record.{Record};
ghost use Rattle.hprof_grammar.specs.SubRecord.{Member};
ghost use Rattle.std.specs.List.{list_any};
ghost use Rattle.heap_graph.specs.Fields.{object_type};
ghost use Rattle.heap_graph.specs.Skips as skips;
ghost use Rattle.heap_graph.specs.working.ClassSkips.{names_class};
ghost use Rattle.heap_graph.specs.working.PlacedNames.{AreNamesByIdOf};

use crate::names::NamesById;
use crate::skip::SkipEntry;
use hprof_grammar::{MemberField, OBJECT_TYPE};
use std::alloc::Allocator;

/// A test of which fields of one class are on the list. `entries` is the whole list if an entry names the class,
/// otherwise it is empty. `class` is the text that names the class, or `None` if the dump has none, or if the whole
/// list has no entries.
#[derive(Drop)]
pub(crate) struct ClassSkips<'s, 'a, A: Allocator> {
    names: &'s NamesById<'s, 'a, A>,
    entries: &'s [SkipEntry<'s>],
    class: Option<&'a [u8]>,
}

/// Tests whether `text` is `name`. A missing text equals no name.
pub(super) fn is_text(text: Option<&[u8]>, name: &[u8]) -> bool
    ensures { result ≡ skips.is_text (option_copied text.entry) name.now }
{
    match text {
        Some(text) => text == name,
        None => false,
    }
}

/// Tests whether one of `entries` names the class whose text is `class`.
fn any_names(entries: &[SkipEntry<'_>], class: Option<&[u8]>) -> bool
    ensures { result ≡ list_any (names_class (option_copied class.entry)) entries.now }
{
    for entry in entries {
        if is_text(class, entry.class()) {
            return true;
        }
    }
    false
}

impl<'s, 'a, A: Allocator> ClassSkips<'s, 'a, A> {
    ghost use Rattle.heap_graph.specs.working.ClassSkips.{IsSkipTest, is_skipped_in, names_field};

    /// Creates the test for the fields of `class`, from the list `entries`. If no entry names the class, the test has
    /// no entries, so that no name of a field is compared.
    pub(crate) fn of(
        names: &'s NamesById<'s, 'a, A>,
        entries: &'s [SkipEntry<'s>],
        class: u64,
    ) -> Self
        requires { (records : List Record) × AreNamesByIdOf names.now records }
        ensures { (records : List Record) → AreNamesByIdOf names.now records
            → IsSkipTest result (is_skipped_in records entries.now class) }
    {
        let text = if entries.is_empty() {
            None
        } else {
            names.class_text(class)
        };
        let entries = if any_names(entries, text) {
            entries
        } else {
            &[]
        };
        ClassSkips {
            names,
            entries,
            class: text,
        }
    }

    /// Tests whether `entry` names the class and a certain field. `name` is the identifier of the string that is the
    /// field's name.
    fn is_named(&self, entry: &SkipEntry<'_>, name: u64) -> bool
        requires { (records : List Record) × AreNamesByIdOf self.now.names.now records }
        ensures { (records : List Record) → AreNamesByIdOf self.now.names.now records
            → result ≡ names_field records (option_copied self.now.class) name entry.now }
    {
        is_text(self.class, entry.class()) && is_text(self.names.string_named(name), entry.field())
    }

    /// Tests whether a certain field of the class is on the list. `name` is the identifier of the string that is the
    /// field's name.
    fn has(&self, name: u64) -> bool
        requires { (test : Member → Bool) × IsSkipTest self.now test }
        ensures { (test : Member → Bool) (m : Member) → IsSkipTest self.now test → m.name ≡ name → result ≡ test m }
    {
        for entry in self.entries {
            if self.is_named(entry, name) {
                return true;
            }
        }
        false
    }

    /// Tests whether the value of `field`, which the class declares, is followed: `field` is of type 2, and not on the
    /// list.
    pub(crate) fn follows(&self, field: MemberField) -> bool
        requires { (test : Member → Bool) × IsSkipTest self.now test }
        ensures { (test : Member → Bool) → IsSkipTest self.now test
            → result ≡ (not (test (member_of field)) && (field.type_code == object_type)) }
    {
        field.type_code == OBJECT_TYPE && !self.has(field.name)
    }
}
