//! The bytes of objects, read at their places.

ghost use Rattle.std.specs.Prelude.{length, sum_by, ◌<◌, ◌^◌, ◌≡◌};
ghost use Rattle.hprof_grammar.specs.TagsAndTypes as tables;
ghost use Rattle.hprof_grammar.specs.Standing.{Stands};
ghost use Rattle.hprof_grammar.specs.SubRecord.{Class, ObjectArray, PrimitiveArray};
ghost use Rattle.hprof_grammar.specs.SubRecord.SubRecord.{class_dump, object_array_dump, primitive_array_dump};
ghost use Rattle.heap_graph.specs.Rows.{bytes_of};

use hprof_grammar::{OBJECT_TYPE, Values, View};

/// Returns the size in bytes of `values` together.
// Not inlined, so that a visit does not contain the walk over a class's statics.
#[inline(never)]
fn bytes_together(view: &View<'_>, values: Values<'_>) -> u64
    requires { length values < 2 ^ 16 }
    ensures { result ≡ sum_by (λ v. tables.size_of view.now.id_size v.type) values.entry }
{
    let mut bytes = 0;
    for value in values {
        bytes += u64::from(view.size_of(value.type_code));
    }
    bytes
}

/// Returns the bytes of the class dump at `at`: those of its statics.
// Inlined, like everything that makes up a visit, so that a visit is built in place.
#[inline(always)]
pub(crate) fn class_bytes(view: &View<'_>, at: u32) -> u64
    requires { (c : Class) × Stands view.now at (class_dump c) }
    ensures { (c : Class) → Stands view.now at (class_dump c) → result ≡ bytes_of view.now.id_size (class_dump c) }
{
    bytes_together(view, view.statics(at))
}

/// Returns the bytes of the object array at `at`.
// Inlined, like everything that makes up a visit.
#[inline(always)]
pub(crate) fn array_bytes(view: &View<'_>, at: u32) -> u64
    requires { (a : ObjectArray) × Stands view.now at (object_array_dump a) }
    ensures { (a : ObjectArray) → Stands view.now at (object_array_dump a)
        → result ≡ bytes_of view.now.id_size (object_array_dump a) }
{
    let size = u64::from(view.size_of(OBJECT_TYPE));
    view.array_elements(at).len() as u64 * size
}

/// Returns the bytes of the primitive array at `at`, whose elements have the type code `code`.
// Inlined, like everything that makes up a visit.
#[inline(always)]
pub(crate) fn primitive_bytes(view: &View<'_>, at: u32, code: u8) -> u64
    requires { (a : PrimitiveArray) × Stands view.now at (primitive_array_dump a) × (code ≡ a.type) }
    ensures { (a : PrimitiveArray) → Stands view.now at (primitive_array_dump a) → code ≡ a.type
        → result ≡ bytes_of view.now.id_size (primitive_array_dump a) }
{
    let size = u64::from(view.size_of(code));
    u64::from(view.element_count(at)) * size
}
