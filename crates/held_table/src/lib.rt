//! A table of the objects of a graph by what holds them: for each set of labels, each row of the histogram and each
//! remainder of an object's bytes by 16, the number of objects and their bytes.
//!
//! `Table::of` counts the objects by the sets that `label_flow` found, and `write_table` writes the table as a text. A
//! set of several labels is shown by a number, and the text begins with what each such number stands for: a line
//! `set 12 = 3 + 7` for the union of two sets that are defined before or are labels.
//!
//! `specs/Table.antt` says what a table is, `specs/TableText.antt` its text.
#![tactic(auto)]

mod hash;
mod joints;
mod line;
mod lines;
mod plains;
mod table;
mod tally;
mod text;
mod writing;

pub use histogram::{OutOfMemory, WriteRefusal};
pub use line::{Joint, Line};
pub use table::Table;
pub use writing::write_table;
