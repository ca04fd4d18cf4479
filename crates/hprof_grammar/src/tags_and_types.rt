//! The tables of the format: the meaning of its tags and type codes, the sizes of values, the lengths of records.

ghost use Rattle.std.specs.Prelude.{◌≡◌};
ghost use Rattle.hprof_grammar.specs.Kinds as kind_tables;
ghost use Rattle.hprof_grammar.specs.Record as records;
ghost use Rattle.hprof_grammar.specs.TagsAndTypes as tables;

use crate::kinds::{Kind, ObjectKind, RootKind, TypePlace};
use crate::tags;

/// The type code of an identifier.
pub const OBJECT_TYPE: u8 = 2;

/// Tests whether identifiers may have `size` bytes: 4 or 8.
#[tactic(auto, unfolding(crate::specs::TagsAndTypes::is_id_size))]
pub fn is_id_size(size: u32) -> bool
    ensures { result ≡ tables.is_id_size size }
{
    size == 4 || size == 8
}

/// Tests whether the type code `code` is allowed at `place`.
#[tactic(auto, unfolding(crate::specs::TagsAndTypes::is_type_at))]
pub fn is_type_at(place: TypePlace, code: u8) -> bool
    ensures { result ≡ tables.is_type_at place code }
{
    match place {
        TypePlace::InConstant | TypePlace::InStatic | TypePlace::InMember => {
            code == OBJECT_TYPE || (4 <= code && code <= 11)
        }
        TypePlace::InArray => 4 <= code && code <= 11,
    }
}

/// Returns the size in bytes of a value with the type code `code`, or 0 if `code` is no type. An identifier has
/// `id_size` bytes.
#[tactic(auto, unfolding(crate::specs::TagsAndTypes::size_of))]
pub fn size_of(id_size: u8, code: u8) -> u8
    ensures { result ≡ tables.size_of id_size code }
{
    match code {
        OBJECT_TYPE => id_size,
        4 | 8 => 1,
        5 | 9 => 2,
        6 | 10 => 4,
        7 | 11 => 8,
        _ => 0,
    }
}

/// Returns the kind of a root with `tag`. Returns `None` if no root has that tag.
#[tactic(auto, unfolding(crate::specs::Kinds::root_kind))]
fn root_kind(tag: u8) -> Option<RootKind>
    ensures { result ≡ kind_tables.root_kind tag }
{
    match tag {
        tags::ROOT_UNKNOWN => Some(RootKind::Unknown),
        tags::ROOT_JNI_GLOBAL => Some(RootKind::JniGlobal),
        tags::ROOT_JNI_LOCAL => Some(RootKind::JniLocal),
        tags::ROOT_JAVA_FRAME => Some(RootKind::JavaFrame),
        tags::ROOT_NATIVE_STACK => Some(RootKind::NativeStack),
        tags::ROOT_STICKY_CLASS => Some(RootKind::StickyClass),
        tags::ROOT_THREAD_BLOCK => Some(RootKind::ThreadBlock),
        tags::ROOT_MONITOR_USED => Some(RootKind::MonitorUsed),
        tags::ROOT_THREAD_OBJECT => Some(RootKind::ThreadObject),
        _ => None,
    }
}

/// Returns the kind of a sub-record with `tag`. Returns `None` if no sub-record has that tag.
#[tactic(auto, unfolding(crate::specs::Kinds::kind_of))]
pub fn kind_of(tag: u8) -> Option<Kind>
    ensures { result ≡ kind_tables.kind_of tag }
{
    match tag {
        tags::CLASS_DUMP => Some(Kind::Object(ObjectKind::Class)),
        tags::INSTANCE_DUMP => Some(Kind::Object(ObjectKind::Instance)),
        tags::OBJECT_ARRAY_DUMP => Some(Kind::Object(ObjectKind::ObjectArray)),
        tags::PRIMITIVE_ARRAY_DUMP => Some(Kind::Object(ObjectKind::PrimitiveArray)),
        _ => root_kind(tag).map(Kind::Root),
    }
}

/// Tests whether the body of a record with `tag` may have `length` bytes.
#[tactic(auto, unfolding(crate::specs::Record::is_length_of))]
pub fn is_length_of(id_size: u8, tag: u8, length: usize) -> bool
    ensures { result ≡ records.is_length_of id_size tag length }
{
    let size = usize::from(id_size);
    match tag {
        tags::STRING_IN_UTF8 => size <= length,
        tags::LOAD_CLASS => length == 8 + 2 * size,
        tags::HEAP_DUMP_END => length == 0,
        _ => true,
    }
}
