//! Reads the entries of a list into tables of marks.

ghost use Rattle.std.specs.Prelude.{Contains, IfOk, OnOk, Some, [], length, slice_index_or, false, ◌<◌, ◌≡◌, true, ℕ};
ghost use Rattle.heap_graph.specs.ObjectGraph.{object_count, row_at};
ghost use Rattle.label_sets.specs.Sets.{Extends};
ghost use Rattle.labelled_graph.specs.working.ClassLists.{class_mark_at};
ghost use Rattle.labelled_graph.specs.working.Reads.{AreLabelsBelow, AreObjectMarks, class_of_object};
ghost use Rattle.labelled_graph.specs.working.Saying.{AreMarks, class_place, no_place, root_place};

use crate::entries::{said_of_class, said_of_object, said_of_root};
use crate::mark::Mark;
use crate::marks::Marks;
use crate::object_marks::ObjectMarks;
use heap_graph::{Graph, RowKey};
use label_list::Entry;
use label_sets::LabelSets;
use std::alloc::{AllocError, Allocator};

/// Returns what `entries` say of the identifiers that all objects of a class hold. `Err` if an allocation fails.
pub(crate) fn class_marks<A: Allocator + Copy>(
    alloc: A,
    entries: &[Entry],
    store: &mut LabelSets<A>,
) -> Result<Marks<A>, AllocError>
    requires { AreLabelsBelow entries.now store.old.labels }
    ensures extends { Extends store.old store.new }
    ensures marks { IfOk result (λ m. AreMarks store.new [] no_place entries.now class_place m.marks) }
{
    let mut marks = Marks::new(alloc);
    for entry in entries {
        let _sets = store.len();
        if let Some(said) = said_of_class(*entry) {
            marks.say(store, said, None)?;
        }
    }
    Ok(marks)
}

/// Returns what `entries` say of the roots. `Err` if an allocation fails.
pub(crate) fn root_marks<A: Allocator + Copy>(
    alloc: A,
    entries: &[Entry],
    store: &mut LabelSets<A>,
) -> Result<Marks<A>, AllocError>
    requires { AreLabelsBelow entries.now store.old.labels }
    ensures extends { Extends store.old store.new }
    ensures marks { IfOk result (λ m. AreMarks store.new [] no_place entries.now root_place m.marks) }
{
    let mut marks = Marks::new(alloc);
    for entry in entries {
        let _sets = store.len();
        if let Some(said) = said_of_root(*entry) {
            marks.say(store, said, None)?;
        }
    }
    Ok(marks)
}

/// Returns the mark that all objects of the class of `object` have at `index`.
fn class_mark<A: Allocator>(
    graph: &Graph<'_, A>,
    classes: &Marks<A>,
    object: u32,
    index: u32,
) -> Option<Mark>
    requires { object < object_count graph.now }
    ensures { result ≡ class_mark_at graph.now classes.now.marks (row_at graph.now object) index }
{
    match graph.row_of(object) {
        RowKey::Class(class) => classes.get(graph.class_id(class), index),
        _ => None,
    }
}

/// Returns what `entries` say of the identifiers that single objects hold, and what `classes` says of the same
/// identifiers. `Err` if an allocation fails.
pub(crate) fn object_marks<A: Allocator + Copy>(
    alloc: A,
    graph: &Graph<'_, A>,
    classes: &Marks<A>,
    entries: &[Entry],
    store: &mut LabelSets<A>,
) -> Result<ObjectMarks<A>, AllocError>
    requires labels { AreLabelsBelow entries.now store.old.labels }
    requires classes { AreMarks store.old [] no_place entries.now class_place classes.now.marks }
    ensures extends { Extends store.old store.new }
    ensures marks { IfOk result (λ m. AreObjectMarks store.new graph.now entries.now m.marks.marks m.has.items) }
{
    let _begun = store.len();
    let mut marks = Marks::new(alloc);
    let mut has = vec![in alloc; false; graph.len() as usize]?;
    for entry in entries {
        let _sets = store.len();
        if let Some(said) = said_of_object(graph, *entry) {
            let object = said.key as u32;
            let base = class_mark(graph, classes, object, said.index);
            marks.say(store, said, base)?;
            has[object as usize] = true;
        }
    }
    Ok(ObjectMarks { marks, has })
}
