//! The labels that hold each object of a dump.

ghost use Rattle.std.specs.Prelude.{IfOk, Some, length, ◌^◌, ◌≡◌, ◌≤◌, ℕ};
ghost use Rattle.heap_graph.specs.ObjectGraph.{object_count};
ghost use Rattle.label_flow.specs.Flow.{set_of};
ghost use Rattle.label_list.specs.Entries.{label_count};
ghost use Rattle.label_sets.specs.Sets.{IsWhole, labels_of};
ghost use Rattle.labelled_graph.specs.Holding.{AreHeld};

use crate::dump::LabelledDump;
use crate::tables::Tables;
use heap_graph::Graph;
use label_flow::{Flow, flow_of};
use label_list::{Entry, LabelList, each_label_is_counted};
use label_sets::LabelSets;
use std::alloc::{AllocError, Allocator};

/// Finds for each object of `graph` the labels without which it would not be reachable. `root_names` are the
/// identifiers of the dump's root sub-records, in order. An object that is not reachable has no set. `Err` if an
/// allocation fails.
pub fn held<A: Allocator + Copy, B: Allocator>(
    alloc: A,
    graph: &Graph<'_, A>,
    root_names: &[u64],
    list: &LabelList<B>,
) -> Result<Flow<A>, AllocError>
    requires names { root_names.now ≡ graph.now.root_names }
    ensures held { IfOk result (λ f. AreHeld graph.now list.now (set_of f) (labels_of f.store)) }
    ensures one_each { IfOk result (λ f. length f.sets ≡ object_count graph.now) }
    ensures whole { IfOk result (λ f. (o s : ℕ) → set_of f o ≡ Some s → IsWhole f.store s) }
    ensures labels { IfOk result (λ f. f.store.labels ≡ label_count list.now) }
{
    held_by(alloc, graph, root_names, list.entries(), list.labels())
}

/// Like [`held`], for the `entries` of a list that has `labels` labels.
fn held_by<A: Allocator + Copy>(
    alloc: A,
    graph: &Graph<'_, A>,
    root_names: &[u64],
    entries: &[Entry],
    labels: u32,
) -> Result<Flow<A>, AllocError>
    requires names { root_names.now ≡ graph.now.root_names }
    requires labels { labels ≡ label_count entries.now }
    requires few { labels ≤ 2 ^ 20 }
    ensures held { IfOk result (λ f. AreHeld graph.now entries.now (set_of f) (labels_of f.store)) }
    ensures one_each { IfOk result (λ f. length f.sets ≡ object_count graph.now) }
    ensures whole { IfOk result (λ f. (o s : ℕ) → set_of f o ≡ Some s → IsWhole f.store s) }
    ensures labels { IfOk result (λ f. f.store.labels ≡ label_count entries.now) }
{
    each_label_is_counted();
    let _objects = graph.len();
    let mut store = LabelSets::new(alloc, labels)?;
    let tables = Tables::of(alloc, graph, root_names, entries, &mut store)?;
    let dump = LabelledDump {
        graph,
        tables: &tables,
    };
    flow_of(alloc, &dump, store)
}
