//! The graph of a dump, with the labels that a list gives to its references and roots.
//!
//! A list says which identifiers of objects and which roots have which labels, which of them are not followed, and
//! which objects are roots, too. `held` reads the list into tables, and finds by a pass over the graph for each object
//! the labels without which it would not be reachable.
//!
//! A *place* is an identifier that an object holds, or a root; a *mark* is what is said of a place. `entries` says
//! which place an entry speaks of, and `reading` makes tables of `marks` from a list: those of classes (`class_marks`),
//! of single objects (`object_marks`) and of `roots`, together `tables`. A walk over an object's `references` looks up
//! the marks of its identifiers on the way (`place_marks`). `dump` is the graph of these references.
#![tactic(auto)]

mod class_marks;
mod dump;
mod entries;
mod holding;
mod mark;
mod marks;
mod object_marks;
mod place_marks;
mod reading;
mod references;
mod roots;
mod tables;

pub use holding::held;
