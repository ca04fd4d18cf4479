//! The text that says which references have which labels.
//!
//! A line is an entry: a label of a place, a place that is cut, or an object that is a root, too. A place is an
//! identifier that an object holds, or that of a root. `docs/LABELS.md` has the lines.
//!
//! `LabelList::read` returns the list that a text spells, or says which line is the first that is no entry. The
//! definitions begin in `specs/ListText.antt`. README.md beside this folder has a list of the calls.
#![tactic(auto)]

mod entry;
mod laws;
mod list;
mod refusal;
mod scanner;

pub use entry::{Entry, Place};
pub use laws::{
    each_label_is_counted, labels_are_few, no_list_with_a_bad_line, one_bad_line, one_label_list,
};
pub use list::LabelList;
pub use refusal::ListRefusal;
