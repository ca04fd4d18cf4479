//! The roots.

ghost use Rattle.std.specs.Prelude.{IfOk, map, ◌++◌, ◌≡◌, ℕ};
ghost use Rattle.heap_graph.specs.Walks.{target_in};
ghost use Rattle.labelled_graph.specs.working.Kept.{added_root, added_roots, kept, root_mark};

use crate::mark::Mark;
use crate::marks::Marks;
use crate::references::reference;
use heap_graph::Graph;
use label_flow::Reference;
use label_list::Entry;
use label_sets::LabelSet;
use std::alloc::{AllocError, Allocator};

/// Returns the mark of root number `index`.
fn mark_of_root<A: Allocator>(marks: &Marks<A>, index: usize) -> Mark
    ensures { result ≡ root_mark marks.now.marks index }
{
    match u32::try_from(index) {
        Ok(index) => marks.get(0, index).unwrap_or(Mark::NONE),
        Err(_) => Mark::NONE,
    }
}

/// Returns the roots with the identifiers `root_names`, with what `marks` says of them. `Err` if an allocation fails.
fn marked_roots<A: Allocator + Copy>(
    alloc: A,
    graph: &Graph<'_, A>,
    root_names: &[u64],
    marks: &Marks<A>,
) -> Result<Vec<Reference, A>, AllocError>
    ensures { IfOk result (λ roots. roots.items
        ≡ kept (root_mark marks.now.marks) 0 (map (target_in graph.now.ids) root_names.now)) }
{
    let mut roots = Vec::new(alloc);
    for index in 0..root_names.len() {
        let named = graph.find(root_names[index]);
        if let Some(root) = reference(named, mark_of_root(marks, index)) {
            roots.push(root)?;
        }
    }
    Ok(roots)
}

/// Returns the root that `entry` adds. It has no label.
fn root_of<A: Allocator>(graph: &Graph<'_, A>, entry: Entry) -> Option<Reference>
    ensures { result ≡ added_root graph.now.ids entry }
{
    let Entry::Root(id) = entry else {
        return None;
    };
    let object = graph.find(id)?;
    Some(Reference {
        object,
        labels: LabelSet::NONE,
    })
}

/// Returns the roots with the identifiers `root_names`, with what `marks` says of them, and the roots that `entries`
/// adds. `Err` if an allocation fails.
pub(crate) fn labelled_roots<A: Allocator + Copy>(
    alloc: A,
    graph: &Graph<'_, A>,
    root_names: &[u64],
    marks: &Marks<A>,
    entries: &[Entry],
) -> Result<Vec<Reference, A>, AllocError>
    ensures { IfOk result (λ roots. roots.items
        ≡ kept (root_mark marks.now.marks) 0 (map (target_in graph.now.ids) root_names.now)
        ++ added_roots graph.now.ids entries.now) }
{
    let mut roots = marked_roots(alloc, graph, root_names, marks)?;
    for entry in entries {
        if let Some(root) = root_of(graph, *entry) {
            roots.push(root)?;
        }
    }
    Ok(roots)
}
