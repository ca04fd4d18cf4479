//! Reads the sub-records of a heap record, field by field. Reads the values of counts, sizes and type codes, which say
//! how much follows, and advances past all other values.

ghost use Rattle.std.specs.Prelude.{◌≡◌, ◌≤◌, IfOk, Some, slice_get, ℕ};
ghost use Rattle.std.specs.Option.{option_and_then};
ghost use Rattle.hprof_grammar.specs.Kinds as kind_tables;
ghost use Rattle.hprof_grammar.specs.TagsAndTypes as tables;
ghost use Rattle.hprof_grammar.specs.working.Reading.{Passes, class_dump_at, constant_at, counted_at, instance_at};
ghost use Rattle.hprof_grammar.specs.working.Reading.{list_at};
ghost use Rattle.hprof_grammar.specs.working.Reading.{member_at, number_at, object_array_at, then_at};
ghost use Rattle.hprof_grammar.specs.working.Reading.{primitive_array_at, raw_at, root_at, static_at, sub_record_at};
ghost use Rattle.hprof_grammar.specs.working.Reading.{type_at};

use crate::flaw::Flaw;
use crate::kinds::{Kind, ObjectKind, RootKind, TypePlace};
use crate::reader::Reader;
use crate::tags_and_types::{kind_of, size_of};

/// Reads a type code that is allowed at `place`, and advances past a value of that type.
fn typed_value(reader: &mut Reader<'_>, id_size: u8, place: TypePlace) -> Result<(), Flaw>
    ensures { Passes result reader.new.rest.now
        (then_at (type_at place) (λ t. raw_at (tables.size_of id_size t)) reader.old.rest.now) }
{
    let code = reader.type_code(place)?;
    reader.raw(u64::from(size_of(id_size, code)))?;
    Ok(())
}

/// Reads an entry of a constant pool: its index, its type code and its value.
fn constant(reader: &mut Reader<'_>, id_size: u8) -> Result<(), Flaw>
    ensures { Passes result reader.new.rest.now (constant_at id_size reader.old.rest.now) }
{
    reader.advance(2)?;
    typed_value(reader, id_size, TypePlace::InConstant)
}

/// Reads a static field: the identifier of its name, its type code and its value.
fn static_field(reader: &mut Reader<'_>, id_size: u8) -> Result<(), Flaw>
    requires low { 1 ≤ id_size }
    requires high { id_size ≤ 8 }
    ensures { Passes result reader.new.rest.now (static_at id_size reader.old.rest.now) }
{
    reader.advance(id_size)?;
    typed_value(reader, id_size, TypePlace::InStatic)
}

/// Reads a member, an instance field that a class declares: the identifier of its name and its type code.
fn member(reader: &mut Reader<'_>, id_size: u8) -> Result<(), Flaw>
    requires low { 1 ≤ id_size }
    requires high { id_size ≤ 8 }
    ensures { Passes result reader.new.rest.now (member_at id_size reader.old.rest.now) }
{
    reader.advance(id_size)?;
    reader.type_code(TypePlace::InMember)?;
    Ok(())
}

/// Reads a count of two bytes and that many entries of a constant pool.
#[tactic(auto, using(crate::proofs::Counts::turns))]
fn constants(reader: &mut Reader<'_>, id_size: u8) -> Result<(), Flaw>
    ensures { Passes result reader.new.rest.now
        (counted_at 2 (constant_at id_size) reader.old.rest.now) }
{
    let count = reader.u16()?;
    for _i in 0..count {
        constant(reader, id_size)?;
    }
    Ok(())
}

/// Reads a count of two bytes and that many static fields.
#[tactic(auto, using(crate::proofs::Counts::turns))]
fn statics(reader: &mut Reader<'_>, id_size: u8) -> Result<(), Flaw>
    requires low { 1 ≤ id_size }
    requires high { id_size ≤ 8 }
    ensures { Passes result reader.new.rest.now
        (counted_at 2 (static_at id_size) reader.old.rest.now) }
{
    let count = reader.u16()?;
    for _i in 0..count {
        static_field(reader, id_size)?;
    }
    Ok(())
}

/// Reads a count of two bytes and that many members.
#[tactic(auto, using(crate::proofs::Counts::turns))]
fn members(reader: &mut Reader<'_>, id_size: u8) -> Result<(), Flaw>
    requires low { 1 ≤ id_size }
    requires high { id_size ≤ 8 }
    ensures { Passes result reader.new.rest.now
        (counted_at 2 (member_at id_size) reader.old.rest.now) }
{
    let count = reader.u16()?;
    for _i in 0..count {
        member(reader, id_size)?;
    }
    Ok(())
}

/// Reads the fields of a CLASS DUMP after its tag.
#[tactic(auto, unfolding(crate::specs::working::Reading::class_dump_at))]
fn class(reader: &mut Reader<'_>, id_size: u8) -> Result<(), Flaw>
    requires low { 1 ≤ id_size }
    requires high { id_size ≤ 8 }
    ensures { Passes result reader.new.rest.now (class_dump_at id_size reader.old.rest.now) }
{
    reader.advance(id_size)?; // the object
    reader.advance(4)?; // the stack trace
    reader.advance(id_size)?; // the superclass
    reader.advance(id_size)?; // the class loader
    reader.advance(id_size)?; // the signers
    reader.advance(id_size)?; // the protection domain
    reader.advance(id_size)?; // reserved
    reader.advance(id_size)?; // reserved
    reader.advance(4)?; // the instance size
    constants(reader, id_size)?;
    statics(reader, id_size)?;
    members(reader, id_size)
}

/// Reads the fields of an INSTANCE DUMP after its tag.
#[tactic(auto, unfolding(crate::specs::working::Reading::instance_at))]
fn instance(reader: &mut Reader<'_>, id_size: u8) -> Result<(), Flaw>
    requires low { 1 ≤ id_size }
    requires high { id_size ≤ 8 }
    ensures { Passes result reader.new.rest.now (instance_at id_size reader.old.rest.now) }
{
    reader.advance(id_size)?; // the object
    reader.advance(4)?; // the stack trace
    reader.advance(id_size)?; // the class
    let size = reader.u32()?;
    reader.raw(u64::from(size))?;
    Ok(())
}

/// Reads the fields of an OBJECT ARRAY DUMP after its tag.
#[tactic(auto, unfolding(crate::specs::working::Reading::object_array_at))]
fn object_array(reader: &mut Reader<'_>, id_size: u8) -> Result<(), Flaw>
    requires low { 1 ≤ id_size }
    requires high { id_size ≤ 8 }
    ensures { Passes result reader.new.rest.now (object_array_at id_size reader.old.rest.now) }
{
    reader.advance(id_size)?; // the object
    reader.advance(4)?; // the stack trace
    let count = reader.u32()?;
    reader.advance(id_size)?; // the class
    reader.advance_all(count, id_size)
}

/// Reads the fields of a PRIMITIVE ARRAY DUMP after its tag.
#[tactic(auto, unfolding(crate::specs::working::Reading::primitive_array_at))]
fn primitive_array(reader: &mut Reader<'_>, id_size: u8) -> Result<(), Flaw>
    requires low { 1 ≤ id_size }
    requires high { id_size ≤ 8 }
    ensures { Passes result reader.new.rest.now (primitive_array_at id_size reader.old.rest.now) }
{
    reader.advance(id_size)?; // the object
    reader.advance(4)?; // the stack trace
    let count = reader.u32()?;
    let code = reader.type_code(TypePlace::InArray)?;
    reader.raw(u64::from(count) * u64::from(size_of(id_size, code)))?;
    Ok(())
}

/// Reads the fields of a root after its tag: the object, and then the further fields of a root of `kind`.
fn root(reader: &mut Reader<'_>, id_size: u8, kind: RootKind) -> Result<(), Flaw>
    requires low { 1 ≤ id_size }
    requires high { id_size ≤ 8 }
    ensures { Passes result reader.new.rest.now (root_at id_size kind reader.old.rest.now) }
{
    reader.advance(id_size)?; // the object
    match kind {
        RootKind::Unknown | RootKind::StickyClass | RootKind::MonitorUsed => {}
        RootKind::JniGlobal => {
            reader.advance(id_size)?; // the reference
        }
        RootKind::NativeStack | RootKind::ThreadBlock => {
            reader.advance(4)?; // the thread
        }
        RootKind::JniLocal | RootKind::JavaFrame | RootKind::ThreadObject => {
            reader.advance(4)?; // the thread
            reader.advance(4)?; // the frame, or the stack trace
        }
    }
    Ok(())
}

/// Reads a whole sub-record and returns its kind.
// Inlined into the loop of `note_subs`: as a call it made the parse take a third longer.
#[inline(always)]
#[tactic(auto, unfolding(crate::specs::working::Reading::sub_record_at))]
pub fn sub_record(reader: &mut Reader<'_>, id_size: u8) -> Result<Kind, Flaw>
    requires low { 1 ≤ id_size }
    requires high { id_size ≤ 8 }
    ensures passes { Passes result reader.new.rest.now (sub_record_at id_size reader.old.rest.now) }
    ensures kind { IfOk result (λ kind.
        option_and_then kind_tables.kind_of (slice_get reader.old.rest.now 0) ≡ Some kind) }
{
    let [tag, behind @ ..] = reader.rest else {
        return Err(Flaw::Short);
    };
    let Some(kind) = kind_of(*tag) else {
        return Err(Flaw::UnknownTag);
    };
    reader.rest = behind;
    match kind {
        Kind::Root(kind) => root(reader, id_size, kind)?,
        Kind::Object(ObjectKind::Class) => class(reader, id_size)?,
        Kind::Object(ObjectKind::Instance) => instance(reader, id_size)?,
        Kind::Object(ObjectKind::ObjectArray) => object_array(reader, id_size)?,
        Kind::Object(ObjectKind::PrimitiveArray) => primitive_array(reader, id_size)?,
    }
    Ok(kind)
}
