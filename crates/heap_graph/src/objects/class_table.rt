//! Builds the table of the classes among the objects of a dump.

ghost use Rattle.std.specs.Prelude.{IfOk, List, OnOk, length, ◌+◌, ◌<◌, ◌≡◌, ◌≤◌};
ghost use Rattle.hprof_grammar.specs.Standing.{StandInTurn, Stands};
ghost use Rattle.hprof_grammar.specs.SubRecord.{SubRecord};
ghost use Rattle.heap_graph.specs.Heap.{objects};
ghost use Rattle.heap_graph.specs.working.ClassNumbers.{AreClassNumbers, AreIndexed, IsClassNumber};
ghost use Rattle.heap_graph.specs.working.ClassTable.{AreClassesAmong, AreClassesOf};
ghost use Rattle.heap_graph.specs.working.PlacedObjects.{AreObjects};

use crate::classes::{ClassHash, Classes, HashSeed};
use crate::objects::indexing::Indexed;
use hprof_grammar::View;
use id_index::IdIndex;
use std::alloc::{AllocError, Allocator};

/// Returns the hash for the classes that the objects with the numbers `class_dumps` describe. All objects are at
/// `places`.
fn hash_of(view: &View<'_>, places: &[u32], class_dumps: &[u32]) -> ClassHash
    requires { (heap : List SubRecord) × StandInTurn (Stands view.now) places.now (objects heap)
        × AreClassNumbers (objects heap) (length places.now) class_dumps.now }
{
    let mut seed = HashSeed::new();
    for number in class_dumps {
        seed.read(view.object_id(places[*number as usize]));
    }
    seed.finish()
}

/// Adds to `classes` the class that object `number`, a class dump, describes. Adds nothing if the identifier of the
/// class is 0, or if an earlier object has the same identifier.
fn add_class<A: Allocator, B: Allocator>(
    classes: &mut Classes<'_, A>,
    places: &[u32],
    index: &IdIndex<B>,
    number: usize,
) -> Result<(), AllocError>
    requires below { number < length places.now }
    requires heap { (heap : List SubRecord) × AreObjects classes.old.view places.now index.now heap
        × IsClassNumber (objects heap) number
        × AreClassesAmong classes.old.view heap number classes.old.table.entries }
    ensures view { OnOk result (classes.new.view ≡ classes.old.view) }
    ensures among { OnOk result ((heap : List SubRecord) → AreObjects classes.old.view places.now index.now heap
        → IsClassNumber (objects heap) number
        → AreClassesAmong classes.old.view heap number classes.old.table.entries
        → AreClassesAmong classes.old.view heap (number + 1) classes.new.table.entries) }
{
    let place = places[number];
    let id = classes.view.object_id(place);
    if id == 0 {
        return Ok(());
    }
    if index.is_repeated(id, number) {
        return Ok(());
    }
    classes.add(id, place)
}

/// Builds the table of the classes among the objects of `indexed`.
pub(crate) fn class_table<'d, A: Allocator + Copy, B: Allocator>(
    alloc: A,
    view: View<'d>,
    places: &[u32],
    indexed: &Indexed<B>,
) -> Result<Classes<'d, A>, AllocError>
    requires low { 1 ≤ view.id_size }
    requires heap { (heap : List SubRecord) × AreIndexed view places.now heap indexed.now }
    ensures view { IfOk result (λ classes. classes.view ≡ view.entry) }
    ensures classes { IfOk result (λ classes. (heap : List SubRecord)
        → AreIndexed view.entry places.now heap indexed.now → AreClassesOf classes heap) }
    ensures few { IfOk result (λ classes. length classes.table.entries ≤ length places.now) }
{
    let hash = hash_of(&view, places, &indexed.class_dumps);
    let mut classes = Classes::new(alloc, view, hash, indexed.class_dumps.len())?;
    for number in &indexed.class_dumps {
        add_class(&mut classes, places, &indexed.index, *number as usize)?;
    }
    Ok(classes)
}
