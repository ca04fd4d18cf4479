//! The objects of a heap dump: their references, roots, rows and bytes, and the rules that link them.
//!
//! `Graph::build` takes the bytes of a dump and the result of `hprof_grammar::read` on them. It returns the graph of
//! the dump's objects, or the first fault of their links. The graph keeps places and an index of identifiers, and no
//! references: it reads the references of an object from the bytes at each visit, in order and with repeats. It does
//! not follow the fields that a `Skip` lists.
//!
//! From `crates/graph_tests/src/graphs.rt`, which is proved and run with the tests (`team` is a `Team`, `heap` an
//! allocator):
//!
//!     match read(team, heap, bytes) {
//!         Ok(dump) => Graph::build(team, heap, bytes, dump, skip),
//!         Err(_) => Err(LinkRefusal::OutOfMemory),
//!     }
//!
//! README.md beside this folder has a list of the calls. The definitions begin in `specs/ObjectGraph.antt`.
//! `docs/FORMAT.md` says what is accepted and what is refused.
#![tactic(auto)]

mod classes;
mod graph;
mod laws;
mod named;
mod names;
mod object_ids;
mod objects;
mod plan;
mod refusal;
mod resolving;
mod row;
mod skip;
mod successors;
mod targets;
mod visit;

pub use graph::{Graph, root_names};
pub use laws::{always_linked_or_fault, an_empty_list_skips_nothing, one_graph, one_skip_list};
pub use named::Named;
pub use refusal::{LinkFault, LinkRefusal, LinkRule};
pub use row::RowKey;
pub use skip::{Skip, SkipEntry, SkipRefusal};
pub use successors::Successors;
pub use targets::{ElementTargets, FieldTargets, IdSource, NoTargets, Targets};
pub use visit::{ByKind, Visit};
