//! The graph of the objects of a dump.

mod build;
mod classes_and_roots;
mod names_of_roots;

ghost use Rattle.std.specs.Prelude.{All, IfSome, ◌+◌, ◌<◌, ◌^◌, ◌≡◌, ◌≤◌, map, option_copied};
ghost use Rattle.hprof_grammar.specs.Dump.{limit};
ghost use Rattle.heap_graph.specs.ObjectGraph.{bytes_at, class_at, class_count, object_count, references_of, row_at};
ghost use Rattle.heap_graph.specs.RowNumbers.{row_count};
ghost use Rattle.heap_graph.specs.Whole.{IsRowIn, IsWhole, id_list_of, unresolved_at, unresolved_roots};
ghost use Rattle.heap_graph.specs.Walks.{ids_in, unresolved_left, references_in, step_in, target_in};
ghost use Rattle.heap_graph.specs.working.GraphOf.{GraphOf, GraphOf-prop};

pub use self::names_of_roots::root_names;
use crate::objects::Objects;
use crate::objects::class_entries::ClassEntry;
use crate::plan::Plan;
use crate::resolving::target;
use crate::row::{FIXED_ROWS, RowKey};
use crate::skip::SkipEntry;
use crate::successors::Successors;
use crate::visit::Visit;
use std::alloc::Allocator;
use std::marker::Model;
use std::snapshot::Snapshot;

/// The objects of a linked dump, numbered from 0 in the order of their sub-records. A graph keeps the place of each
/// object in the bytes, and an index that finds the number of an object by the object's identifier.
#[derive(Drop)]
pub struct Graph<'a, A: Allocator> {
    objects: Objects<'a, A>,
    plan: Plan<A>,
    roots: Vec<u32, A>,
    classes: Vec<ClassEntry<'a>, A>,
    /// The number of root identifiers that are not 0 and name no object.
    unresolved: u64,
    /// The fields that are not followed, as clauses see them.
    skip: Snapshot<&'a [SkipEntry<'a>]>,
    /// The `ObjectGraph` of the bytes and of the list `skip`. There is at most one.
    ghost graph: { GraphOf objects.view.bytes skip.value.now } by { GraphOf-prop objects.view.bytes skip.value.now },
}

impl<'a, A: Allocator> Model for Graph<'a, A> {
    ghost use Rattle.heap_graph.specs.ObjectGraph.{ObjectGraph};
    ghost use Rattle.heap_graph.specs.working.Refinement.{StandFor};

    ghost Value = { ObjectGraph };

    ghost view = { λ g. g.graph.0 };

    ghost invariant = { λ g. StandFor g.objects g.plan g.roots.items g.classes.items g.unresolved g.skip.value.now
        g.graph.0 };
}

impl<'a, A: Allocator> Graph<'a, A> {
    /// Returns the number of objects.
    pub fn len(&self) -> u32
        ensures value { result ≡ object_count self.now }
        ensures whole { IsWhole self.now }
    {
        self.objects.places.len() as u32
    }

    /// Returns the objects that root sub-records name, in order, with repeats.
    pub fn roots(&self) -> &[u32]
        ensures value { result.now ≡ self.now.roots }
        ensures within { All (λ o. o < object_count self.now) result.now }
    {
        &self.roots
    }

    /// Returns an iterator over the objects that `object` refers to, in order, with repeats. The iterator finds these
    /// objects one at a time.
    pub fn successors(&self, object: u32) -> Successors<'_, A>
        requires { object < object_count self.now }
        ensures value { references_in result ≡ references_of self.now object }
        ensures ids { ids_in result ≡ id_list_of self.now object }
        ensures steps { result ≡ map (step_in self.now.ids) (id_list_of self.now object) }
        ensures within { All (λ o. o < object_count self.now) (references_of self.now object) }
    {
        Successors::of(self.visit(object))
    }

    /// Returns the row and the bytes of `object`, with an iterator over the objects that `object` refers to, in order,
    /// with repeats. The iterator finds these objects one at a time. On the way it counts the identifiers that are not
    /// 0 and name no object. Marking and reports read objects only by this call; the calls for a single property of an
    /// object are built on it.
    // Inlined into the loop of a worker, where the parts of the visit stay in registers.
    #[inline(always)]
    pub fn visit(&self, object: u32) -> Visit<'_, A>
        requires { object < object_count self.now }
        ensures row { result.row ≡ row_at self.now object }
        ensures row_within { IsRowIn self.now result.row }
        ensures bytes { result.bytes ≡ bytes_at self.now object }
        ensures few_bytes { result.bytes ≤ limit }
        ensures steps { result.left ≡ map (step_in self.now.ids) (id_list_of self.now object) }
        ensures value { references_in result.left ≡ references_of self.now object }
        ensures within { All (λ o. o < object_count self.now) (references_of self.now object) }
        ensures unresolved { result.unresolved + unresolved_left result.left ≡ unresolved_at self.now object }
    {
        let (row, bytes, class, ids) = self.objects.visit_of(&self.plan, object as usize);
        Visit::new(&self.objects.index, class, ids, row, bytes)
    }

    /// Returns the object that `id` names: the first that bears it. Returns `None` if `id` is 0 or no object bears it.
    pub fn find(&self, id: u64) -> Option<u32>
        ensures value { result ≡ target_in self.now.ids id }
        ensures within { IfSome result (λ o. o < object_count self.now) }
    {
        target(&self.objects.index, id)
    }

    /// Returns the row of `object` in the histogram.
    pub fn row_of(&self, object: u32) -> RowKey
        requires { object < object_count self.now }
        ensures value { result ≡ row_at self.now object }
        ensures within { IsRowIn self.now result }
    {
        self.visit(object).row()
    }

    /// Returns the bytes of `object`.
    pub fn bytes_of(&self, object: u32) -> u64
        requires { object < object_count self.now }
        ensures value { result ≡ bytes_at self.now object }
        ensures within { result ≤ limit }
    {
        self.visit(object).bytes()
    }

    /// Returns the number of identifiers of `object` that are not 0 and name no object.
    pub fn unresolved_of(&self, object: u32) -> u64
        requires { object < object_count self.now }
        ensures value { result ≡ unresolved_at self.now object }
        ensures within { result ≤ 2 ^ 33 }
    {
        // Called for its clause `whole`, which bounds the number of unresolved identifiers of an object.
        let _objects = self.len();
        let mut visit = self.visit(object);
        while visit.next().is_some() {}
        visit.unresolved()
    }

    /// Returns the number of root identifiers that are not 0 and name no object.
    pub fn unresolved(&self) -> u64
        ensures value { result ≡ unresolved_roots self.now }
        ensures within { result ≤ limit }
    {
        self.unresolved
    }

    /// Returns the number of classes. Classes are numbered from 0 in the order of their class dumps.
    pub fn classes(&self) -> u32
        ensures value { result ≡ class_count self.now }
        ensures within { result ≤ object_count self.now }
    {
        self.classes.len() as u32
    }

    /// Returns the number of rows that a histogram of the graph may have: the nine of every graph, and one for each
    /// class.
    pub fn row_count(&self) -> usize
        ensures value { result ≡ row_count self.now }
        ensures within { result < 9 + 2 ^ 32 }
    {
        FIXED_ROWS + self.classes() as usize
    }

    /// Returns the identifier of `class`.
    pub fn class_id(&self, class: u32) -> u64
        requires { class < class_count self.now }
        ensures { result ≡ (class_at self.now class).id }
    {
        self.classes[class as usize].id
    }

    /// Tests whether class `class` is found by a guess from its identifier, without a search of the map of classes. For
    /// tests: only time rests on guesses.
    pub fn is_class_guessed(&self, class: u32) -> bool
        requires { class < class_count self.now }
    {
        self.objects.classes.is_guessed(self.class_id(class))
    }

    /// Returns the text that names `class`, or `None` if the dump has none.
    pub fn class_text(&self, class: u32) -> Option<&[u8]>
        requires { class < class_count self.now }
        ensures { option_copied result ≡ (class_at self.now class).text }
    {
        self.classes[class as usize].text
    }
}
