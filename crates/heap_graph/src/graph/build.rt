//! Builds a graph from a dump.

ghost use Rattle.std.specs.Prelude.{IfOk, List, OnOk, [], length, ◌<◌, ◌^◌, ◌≡◌, ◌≤◌, ℕ};
ghost use Rattle.hprof_grammar.specs.Places.{IsDumpOf, Places};
ghost use Rattle.hprof_grammar.specs.SubRecord.{SubRecord};
ghost use Rattle.heap_graph.specs.Heap.{heap_of};
ghost use Rattle.heap_graph.specs.LinkFault.{HasLinkFault};
ghost use Rattle.heap_graph.specs.ObjectGraph.{IsGraphOfText};
ghost use Rattle.heap_graph.specs.Refusal.{IfLinkFault};
ghost use Rattle.heap_graph.specs.working.ClassNumbers.{AreIndexed};
ghost use Rattle.heap_graph.specs.working.GraphParts.{ArePartsOf, MayHaveParts};
ghost use Rattle.heap_graph.specs.working.PlacedObjects.{ArePlacesOf, IsReadFrom};
ghost use Rattle.heap_graph.specs.working.ReadObjects.{IsReadOf};
ghost use Rattle.heap_graph.specs.working.ClassFates.{HaveFates, HaveFatesOf};

use crate::classes::{Classes, Fate};
use crate::graph::Graph;
use crate::graph::classes_and_roots::{Parts, read_parts};
use crate::names::Names;
use crate::objects::Objects;
use crate::objects::class_table::class_table;
use crate::objects::indexing::{Indexed, index_of};
use crate::refusal::LinkRefusal;
use crate::skip::{Skip, SkipEntry};
use hprof_grammar::{Dump, Team, View, dump_is_placed, stands_within};
use std::alloc::{AllocError, Allocator};
use std::snapshot::Snapshot;
use std::thread::Threads;

/// The classes of a dump, and the fates of their chains of superclasses.
#[derive(Drop)]
struct Settled<'d, A: Allocator> {
    classes: Classes<'d, A>,
    fates: Vec<Fate, A>,
}

/// Builds the table of the classes among the objects of `indexed`, and settles their chains of superclasses.
fn settled_classes<'d, A: Allocator + Copy>(
    alloc: A,
    view: View<'d>,
    places: &[u32],
    indexed: &Indexed<A>,
) -> Result<Settled<'d, A>, AllocError>
    requires low { 1 ≤ view.id_size }
    requires few { length places.now < 2 ^ 32 }
    requires heap { (heap : List SubRecord) × AreIndexed view places.now heap indexed.now }
    ensures { IfOk result (λ settled. (heap : List SubRecord) → AreIndexed view.entry places.now heap indexed.now
        → HaveFates view.entry heap settled.classes.table.entries settled.fates.items) }
{
    let classes = class_table(alloc, view, places, indexed)?;
    let fates = classes.settle_all(alloc)?;
    Ok(Settled { classes, fates })
}

/// Indexes the objects at `places` by their identifiers, and reads the classes among them.
fn read_objects<'a, T: Threads + Sync, A: Allocator + Copy + Send + Sync>(
    team: &Team<'_, T>,
    alloc: A,
    bytes: &'a [u8],
    id_size: u8,
    places: Vec<u32, A>,
) -> Result<Objects<'a, A>, AllocError>
    requires { (dump : Places) × ArePlacesOf bytes.now id_size places.items dump }
    ensures objects { IfOk result (λ o. (dump : Places) → ArePlacesOf bytes.now id_size places.items dump
        → IsReadFrom o bytes.now dump) }
    ensures fates { IfOk result (λ o. (dump : Places) (are : ArePlacesOf bytes.now id_size places.items dump)
        → HaveFatesOf o (heap_of are.is.records)) }
{
    dump_is_placed();
    let view = View::new(bytes, id_size);
    let indexed = index_of(team, alloc, &view, &places)?;
    let settled = settled_classes(alloc, View::new(bytes, id_size), &places, &indexed)?;
    Ok(Objects {
        view,
        places,
        index: indexed.index,
        classes: settled.classes,
        fates: settled.fates,
    })
}

/// Reads the objects of `dump`. The places of the objects move out of `dump`, so that they are kept only once.
fn take_objects<'a, T: Threads + Sync, A: Allocator + Copy + Send + Sync>(
    team: &Team<'_, T>,
    alloc: A,
    bytes: &'a [u8],
    dump: &mut Dump<A>,
) -> Result<Objects<'a, A>, AllocError>
    requires { IsDumpOf bytes.now dump.old }
    ensures objects { IfOk result (λ o. IsReadFrom o bytes.now dump.old) }
    ensures fates { IfOk result (λ o. (is : IsDumpOf bytes.now dump.old) → HaveFatesOf o (heap_of is.records)) }
    ensures rest { OnOk result (dump.new ≡ record dump.old { objects = [] }) }
{
    let places = dump.take_objects(alloc);
    read_objects(team, alloc, bytes, dump.id_size(), places)
}

impl<'a, A: Allocator + Copy> Graph<'a, A> {
    /// Puts together the graph of the linked `objects`, with the classes and roots in `parts`.
    fn of(objects: Objects<'a, A>, parts: Parts<'a, A>, skip: &'a [SkipEntry<'a>]) -> Graph<'a, A>
        requires { (text : List ℕ) × (dump : Places) × (is : IsDumpOf text dump) × IsReadOf text dump is objects
            × ArePartsOf is.records skip.now objects parts }
        ensures { IsGraphOfText objects.entry.view.bytes skip.now result }
    {
        stands_within();
        let Parts { named, rooted } = parts;
        Graph {
            objects,
            plan: named.plan,
            roots: rooted.roots,
            classes: named.classes,
            unresolved: rooted.unresolved,
            skip: Snapshot::of(&skip),
        }
    }

    /// Builds the graph of linked objects: reads its classes and its roots.
    fn assemble(
        alloc: A,
        objects: Objects<'a, A>,
        names: &Names<'a, '_>,
        root_places: &[u32],
        skip: &'a [SkipEntry<'a>],
    ) -> Result<Graph<'a, A>, AllocError>
        requires { (text : List ℕ) × (dump : Places) × (is : IsDumpOf text dump)
            × IsReadOf text dump is objects × MayHaveParts is.records objects names.now root_places.now }
        ensures { IfOk result (λ g. IsGraphOfText objects.entry.view.bytes skip.now g) }
    {
        let parts = read_parts(alloc, &objects, names, root_places, skip)?;
        Ok(Graph::of(objects, parts, skip))
    }
}

impl<'a, A: Allocator + Copy + Send + Sync> Graph<'a, A> {
    /// Moves the places of the objects out of `dump`, reads the objects, and tests the rules of their links.
    /// `Err(LinkRefusal::Fault)` has the first fault of the links; the only other error is `LinkRefusal::OutOfMemory`.
    fn linked_objects<T: Threads + Sync>(
        team: &Team<'_, T>,
        alloc: A,
        bytes: &'a [u8],
        dump: &mut Dump<A>,
    ) -> Result<Objects<'a, A>, LinkRefusal>
        requires { IsDumpOf bytes.now dump.old }
        ensures objects { IfOk result (λ o. (is : IsDumpOf bytes.now dump.old) → IsReadOf bytes.now dump.old is o) }
        ensures fault { IfLinkFault result (λ f. HasLinkFault bytes.now f.code f.offset) }
        ensures rest { OnOk result (dump.new ≡ record dump.old { objects = [] }) }
    {
        let objects = match take_objects(team, alloc, bytes, dump) {
            Ok(objects) => objects,
            Err(_) => return Err(LinkRefusal::OutOfMemory),
        };
        match objects.check(team, alloc) {
            Ok(()) => return Ok(objects),
            Err(fault) => return Err(LinkRefusal::Fault(fault)),
        }
    }

    /// Builds the graph of `dump`, which was read from `bytes`. The fields that `skip` lists are not followed; pass
    /// `Skip::none` to follow all. `Err(LinkRefusal::Fault)` has the first fault of the links; the only other error is
    /// `LinkRefusal::OutOfMemory`. If there are many objects (`Team::splits`), the threads of `team` share the work of
    /// gathering identifiers and testing links.
    pub fn build<T: Threads + Sync, B: Allocator>(
        team: &Team<'_, T>,
        alloc: A,
        bytes: &'a [u8],
        dump: Dump<A>,
        skip: &'a Skip<'_, B>,
    ) -> Result<Graph<'a, A>, LinkRefusal>
        requires { IsDumpOf bytes.now dump }
        ensures graph { IfOk result (λ g. IsGraphOfText bytes.now skip.now g) }
        ensures fault { IfLinkFault result (λ f. HasLinkFault bytes.now f.code f.offset) }
    {
        dump_is_placed();
        let mut dump = dump;
        let objects = Graph::linked_objects(team, alloc, bytes, &mut dump)?;
        let names = Names {
            view: View::new(bytes, dump.id_size()),
            strings: dump.strings(),
            loaded: dump.loaded(),
        };
        match Graph::assemble(alloc, objects, &names, dump.roots(), skip.entries()) {
            Ok(graph) => return Ok(graph),
            Err(_) => return Err(LinkRefusal::OutOfMemory),
        }
    }
}
