//! The graph of a dump.

use heap_graph::{Graph, Skip};
use hprof_grammar::{Team, read};
use std::alloc::Global;
use std::thread::Threads;

/// Reads the dump `bytes` and builds its graph, with a team of four. Returns `None` if the dump is not accepted.
// The callers end with `drop`, which is proved once. Without it each of them is checked together with all parts of a
// graph.
pub fn graph_of<'a, T: Threads + Sync>(
    rt: &T,
    alloc: Global,
    bytes: &'a [u8],
    skip: &'a Skip<'_, Global>,
) -> Option<Graph<'a, Global>> {
    let team = Team::new(rt, 4);
    let places = read(&team, alloc, bytes).ok()?;
    Graph::build(&team, alloc, bytes, places, skip).ok()
}
