//! All that a list of labels says of a graph.

ghost use Rattle.std.specs.Prelude.{IfOk, OnOk, ◌≡◌};
ghost use Rattle.label_sets.specs.Sets.{Extends};
ghost use Rattle.labelled_graph.specs.working.Reads.{AreLabelsBelow};
ghost use Rattle.labelled_graph.specs.working.Tabled.{AreTables, HasNone};

use crate::class_marks::ClassMarks;
use crate::object_marks::ObjectMarks;
use crate::reading::{class_marks, object_marks, root_marks};
use crate::roots::labelled_roots;
use heap_graph::Graph;
use label_flow::Reference;
use label_list::Entry;
use label_sets::LabelSets;
use std::alloc::{AllocError, Allocator};

/// What a list says of a graph: the marks of identifiers, and the roots.
#[derive(Drop)]
pub(crate) struct Tables<A: Allocator> {
    pub(crate) classes: ClassMarks<A>,
    pub(crate) objects: ObjectMarks<A>,
    pub(crate) roots: Vec<Reference, A>,
}

impl<A: Allocator + Copy> Tables<A> {
    /// Reads what `entries` say of `graph`, whose root sub-records have the identifiers `root_names`. Puts the sets of
    /// labels into `store`. `Err` if an allocation fails.
    pub(crate) fn of(
        alloc: A,
        graph: &Graph<'_, A>,
        root_names: &[u64],
        entries: &[Entry],
        store: &mut LabelSets<A>,
    ) -> Result<Self, AllocError>
        requires names { root_names.now ≡ graph.now.root_names }
        requires labels { AreLabelsBelow entries.now store.old.labels }
        requires none { HasNone store.old }
        ensures extends { OnOk result (Extends store.old store.new) }
        ensures tables { IfOk result (λ t. AreTables store.new graph.now entries.now t.classes t.objects.marks.marks
            t.objects.has.items t.roots.items) }
    {
        let _objects = graph.len();
        let _begun = store.len();
        let marks = class_marks(alloc, entries, store)?;
        let _with_classes = store.len();
        let objects = object_marks(alloc, graph, &marks, entries, store)?;
        let _with_objects = store.len();
        let root_marks = root_marks(alloc, entries, store)?;
        let classes = ClassMarks::of(alloc, graph, &marks)?;
        let roots = labelled_roots(alloc, graph, root_names, &root_marks, entries)?;
        Ok(Tables {
            classes,
            objects,
            roots,
        })
    }
}
