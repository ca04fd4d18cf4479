//! The classes and the roots of a graph.

ghost use Rattle.std.specs.Prelude.{IfOk, List, filter};
ghost use Rattle.hprof_grammar.specs.Dump.{is_root};
ghost use Rattle.hprof_grammar.specs.Record.{Record};
ghost use Rattle.hprof_grammar.specs.Standing.{StandInTurn, Stands};
ghost use Rattle.hprof_grammar.specs.SubRecord.{SubRecord};
ghost use Rattle.heap_graph.specs.Heap.{heap_of};
ghost use Rattle.heap_graph.specs.working.ClassFates.{HaveFatesOf};
ghost use Rattle.heap_graph.specs.working.GraphParts.{AreNamedOf, ArePartsOf, AreRootsOf, MayHaveParts};
ghost use Rattle.heap_graph.specs.working.ObjectIds.{AreLinkedOf};
ghost use Rattle.heap_graph.specs.working.PlacedNames.{AreNamesByIdOf, AreNamesOf};

use crate::names::{Names, NamesById};
use crate::objects::class_entries::ClassEntry;
use crate::objects::{Objects, read_ids};
use crate::plan::Plan;
use crate::resolving::resolve;
use crate::skip::SkipEntry;
use std::alloc::{AllocError, Allocator};

/// The classes with the texts that name them, and their plans.
#[derive(Drop)]
pub(crate) struct PlannedClasses<'a, A: Allocator> {
    pub(crate) plan: Plan<A>,
    pub(crate) classes: Vec<ClassEntry<'a>, A>,
}

/// The objects that roots name, and the number of root identifiers that are not 0 and name no object.
#[derive(Drop)]
pub(crate) struct ResolvedRoots<A: Allocator> {
    pub(crate) roots: Vec<u32, A>,
    pub(crate) unresolved: u64,
}

/// The classes and the roots of a graph.
#[derive(Drop)]
pub(crate) struct Parts<'a, A: Allocator> {
    pub(crate) named: PlannedClasses<'a, A>,
    pub(crate) rooted: ResolvedRoots<A>,
}

/// Looks up in `by_id` the texts that name the classes of `objects`, and plans the classes. The fields that `skip`
/// lists are not followed.
fn look_up_names<'a, A: Allocator + Copy>(
    alloc: A,
    objects: &Objects<'a, A>,
    by_id: &NamesById<'_, 'a, A>,
    skip: &[SkipEntry<'_>],
) -> Result<PlannedClasses<'a, A>, AllocError>
    requires fates { (heap : List SubRecord) × HaveFatesOf objects.now heap }
    requires names { (records : List Record) × AreNamesByIdOf by_id.now records }
    ensures { IfOk result (λ n. (records : List Record) → AreLinkedOf objects.now (heap_of records)
        → HaveFatesOf objects.now (heap_of records) → AreNamesByIdOf by_id.now records
        → AreNamedOf records skip.now objects.now n.plan n.classes.items) }
{
    let plan = objects.plan(alloc, by_id, skip)?;
    let classes = objects.classes(alloc, by_id)?;
    Ok(PlannedClasses { plan, classes })
}

/// Like [`look_up_names`], but first indexes `names` by identifiers. This index is dropped at the end.
fn name_classes<'a, A: Allocator + Copy>(
    alloc: A,
    objects: &Objects<'a, A>,
    names: &Names<'a, '_>,
    skip: &[SkipEntry<'_>],
) -> Result<PlannedClasses<'a, A>, AllocError>
    requires fates { (heap : List SubRecord) × HaveFatesOf objects.now heap }
    requires names { (records : List Record) × AreNamesOf names.now records }
    ensures { IfOk result (λ n. (records : List Record) → AreLinkedOf objects.now (heap_of records)
        → HaveFatesOf objects.now (heap_of records) → AreNamesOf names.now records
        → AreNamedOf records skip.now objects.now n.plan n.classes.items) }
{
    let by_id = NamesById::new(alloc, names)?;
    look_up_names(alloc, objects, &by_id, skip)
}

/// Finds the objects that the roots at `places` name, and counts the root identifiers that are not 0 and name no
/// object.
fn find_roots<A: Allocator + Copy>(
    alloc: A,
    objects: &Objects<'_, A>,
    places: &[u32],
) -> Result<ResolvedRoots<A>, AllocError>
    requires { (roots : List SubRecord) × StandInTurn (Stands objects.now.view) places.now roots }
    ensures { IfOk result (λ r. (heap : List SubRecord) → AreLinkedOf objects.now heap
        → StandInTurn (Stands objects.now.view) places.now (filter is_root heap)
        → AreRootsOf heap r.roots.items r.unresolved) }
{
    let ids = read_ids(alloc, &objects.view, places)?;
    let mut roots = Vec::new(alloc);
    let unresolved = resolve(&objects.index, &ids, &mut roots)?;
    Ok(ResolvedRoots { roots, unresolved })
}

/// Reads the classes and the roots of the graph of `objects`. `names` has the texts that name classes, and the roots
/// are at `root_places`. The fields that `skip` lists are not followed.
pub(crate) fn read_parts<'a, A: Allocator + Copy>(
    alloc: A,
    objects: &Objects<'a, A>,
    names: &Names<'a, '_>,
    root_places: &[u32],
    skip: &[SkipEntry<'_>],
) -> Result<Parts<'a, A>, AllocError>
    requires { (records : List Record) × MayHaveParts records objects.now names.now root_places.now }
    ensures { IfOk result (λ p. (records : List Record)
        → MayHaveParts records objects.now names.now root_places.now
        → ArePartsOf records skip.now objects.now p) }
{
    let named = name_classes(alloc, objects, names, skip)?;
    let rooted = find_roots(alloc, objects, root_places)?;
    Ok(Parts { named, rooted })
}
