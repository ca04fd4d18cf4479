//! Which entries of a list name a field of the dump.

ghost use Rattle.std.specs.Prelude.{IfOk, List, map, ◌≡◌};
ghost use Rattle.std.specs.List.{list_any};
ghost use Rattle.hprof_grammar.specs.Places.{IsDumpOf};
ghost use Rattle.hprof_grammar.specs.Record.{Record};
ghost use Rattle.hprof_grammar.specs.Standing.{StandInTurn, Stands};
ghost use Rattle.hprof_grammar.specs.SubRecord.{Class, SubRecord};
ghost use Rattle.hprof_grammar.specs.SubRecord.SubRecord.{class_dump};
ghost use Rattle.heap_graph.specs.Heap.{class_dumps, heap_of, objects};
ghost use Rattle.heap_graph.specs.MetEntries.{is_called};
ghost use Rattle.heap_graph.specs.MetEntries as met_entries;
ghost use Rattle.heap_graph.specs.working.DescribedClasses.{declares_described, described};
ghost use Rattle.heap_graph.specs.working.PlacedNames.{AreNamesByIdOf, AreNamesOf};

use crate::names::{Names, NamesById};
use crate::skip::class_skips::is_text;
use crate::skip::{Skip, SkipEntry};
use hprof_grammar::{Dump, Members, ObjectKind, View, dump_is_placed};
use std::alloc::{AllocError, Allocator};
use std::marker::Model;

/// A class: the text that names it, if the dump has one, and the fields that it declares.
#[derive(Drop)]
struct DescribedClass<'a> {
    text: Option<&'a [u8]>,
    members: Members<'a>,
}

impl<'a> Model for DescribedClass<'a> {
    ghost use Rattle.std.specs.Prelude.{option_copied};
    ghost use Rattle.heap_graph.specs.working.DescribedClasses as described;

    ghost Value = { described.DescribedClass };

    ghost view = { λ c. record { text = option_copied c.text; members = c.members } };
}

impl<'a> DescribedClass<'a> {
    /// Reads the class whose dump is at `at`.
    fn at<A: Allocator>(view: &View<'a>, names: &NamesById<'_, 'a, A>, at: u32) -> Self
        requires names { (records : List Record) × AreNamesByIdOf names.now records }
        requires class { (c : Class) × Stands view.now at (class_dump c) }
        ensures { (records : List Record) (c : Class) → AreNamesByIdOf names.now records
            → Stands view.now at (class_dump c) → result ≡ described records c }
    {
        DescribedClass {
            text: names.class_text(view.object_id(at)),
            members: view.members(at),
        }
    }

    /// Tests whether the class declares a field whose name is `name`. The result is never `Err`: a clone of the fields
    /// allocates nothing.
    fn has_field<A: Allocator>(
        &self,
        names: &NamesById<'_, '_, A>,
        name: &[u8],
    ) -> Result<bool, AllocError>
        requires { (records : List Record) × AreNamesByIdOf names.now records }
        ensures { IfOk result (λ has. (records : List Record) → AreNamesByIdOf names.now records
            → has ≡ list_any (is_called records name.now) self.now.members) }
    {
        for member in self.members.clone()? {
            if is_text(names.string_named(member.name), name) {
                return Ok(true);
            }
        }
        Ok(false)
    }

    /// Tests whether `entry` names the class and a field that the class declares.
    fn declares<A: Allocator>(
        &self,
        names: &NamesById<'_, '_, A>,
        entry: &SkipEntry<'_>,
    ) -> Result<bool, AllocError>
        requires { (records : List Record) × AreNamesByIdOf names.now records }
        ensures { IfOk result (λ declares. (records : List Record) → AreNamesByIdOf names.now records
            → declares ≡ declares_described records entry.now self.now) }
    {
        if is_text(self.text, entry.class()) {
            return self.has_field(names, entry.field());
        }
        Ok(false)
    }
}

/// Returns the classes whose class dumps are among the objects at `places`.
fn described_classes<'a, A: Allocator, B: Allocator>(
    alloc: B,
    view: &View<'a>,
    names: &NamesById<'_, 'a, A>,
    places: &[u32],
) -> Result<Vec<DescribedClass<'a>, B>, AllocError>
    requires names { (records : List Record) × AreNamesByIdOf names.now records }
    requires stand { (heap : List SubRecord) × StandInTurn (Stands view.now) places.now (objects heap) }
    ensures { IfOk result (λ v. (records : List Record) → AreNamesByIdOf names.now records
        → StandInTurn (Stands view.now) places.now (objects (heap_of records))
        → v.items ≡ map (described records) (class_dumps (heap_of records))) }
{
    let mut classes = Vec::new(alloc);
    for at in places {
        match view.kind(*at) {
            ObjectKind::Class => classes.push(DescribedClass::at(view, names, *at))?,
            _ => {}
        }
    }
    Ok(classes)
}

/// Tests whether `entry` names one of `classes` and a field that this class declares.
fn is_met<A: Allocator>(
    names: &NamesById<'_, '_, A>,
    classes: &[DescribedClass<'_>],
    entry: &SkipEntry<'_>,
) -> Result<bool, AllocError>
    requires { (records : List Record) × AreNamesByIdOf names.now records }
    ensures { IfOk result (λ met. (records : List Record) → AreNamesByIdOf names.now records
        → met ≡ list_any (declares_described records entry.now) classes.now) }
{
    for class in classes {
        if class.declares(names, entry)? {
            return Ok(true);
        }
    }
    Ok(false)
}

/// Returns for each of `entries` whether it names one of `classes` and a field that this class declares. `classes` are
/// those of the dump.
fn met_by<A: Allocator, B: Allocator>(
    alloc: B,
    entries: &[SkipEntry<'_>],
    by_id: &NamesById<'_, '_, A>,
    classes: &[DescribedClass<'_>],
) -> Result<Vec<bool, B>, AllocError>
    requires { (records : List Record) × AreNamesByIdOf by_id.now records }
    ensures { IfOk result (λ met. (records : List Record) → AreNamesByIdOf by_id.now records
        → classes.now ≡ map (described records) (class_dumps (heap_of records))
        → met.items ≡ map (met_entries.is_met records) entries.now) }
{
    let mut met = Vec::new(alloc);
    for entry in entries {
        met.push(is_met(by_id, classes, entry)?)?;
    }
    Ok(met)
}

/// Returns for each of `entries` whether it names a class among the objects at `places` and a field that this class
/// declares.
fn met_among<B: Allocator + Copy>(
    alloc: B,
    entries: &[SkipEntry<'_>],
    names: &Names<'_, '_>,
    places: &[u32],
) -> Result<Vec<bool, B>, AllocError>
    requires { (records : List Record) × AreNamesOf names.now records
        × StandInTurn (Stands names.now.view) places.now (objects (heap_of records)) }
    ensures { IfOk result (λ met. (records : List Record) → AreNamesOf names.now records
        → StandInTurn (Stands names.now.view) places.now (objects (heap_of records))
        → met.items ≡ map (met_entries.is_met records) entries.now) }
{
    let by_id = NamesById::new(alloc, names)?;
    let classes = described_classes(alloc, &names.view, &by_id, places)?;
    met_by(alloc, entries, &by_id, &classes)
}

impl<'t, A: Allocator> Skip<'t, A> {
    /// Returns for each entry, in the order of the list, whether it names a field of `dump`, which was read from
    /// `bytes`. An entry names a field if a class of `dump` has the entry's class name and declares a field with the
    /// entry's field name, of whatever type. The class needs a class dump. Static fields do not count. `AllocError` if
    /// an allocation fails.
    pub fn met<B: Allocator + Copy, C: Allocator>(
        &self,
        alloc: B,
        bytes: &[u8],
        dump: &Dump<C>,
    ) -> Result<Vec<bool, B>, AllocError>
        requires { IsDumpOf bytes.now dump.now }
        ensures { IfOk result (λ met. (is : IsDumpOf bytes.now dump.now)
            → met.items ≡ map (met_entries.is_met is.records) self.now) }
    {
        dump_is_placed();
        let names = Names {
            view: View::new(bytes, dump.id_size()),
            strings: dump.strings(),
            loaded: dump.loaded(),
        };
        met_among(alloc, self.entries(), &names, dump.objects())
    }
}
