//! Records and sub-records of an HPROF heap dump (JAVA PROFILE 1.0.2), as places in its bytes.
//!
//! `read` returns the one dump that the bytes spell, or their first fault by code and offset, or out of memory. The
//! dump holds only places: 4 bytes for each string, loaded class, root and object. A `View` reads the fields of the
//! record or sub-record at a place.
//!
//! From `crates/grammar_tests/src/worked_file.rt`, which is proved and run:
//!
//!     let dump = read(&Team::new(&rt, 1), rt.alloc(), &FILE)?;
//!     assert_eq!(rt; dump.id_size(), 4);
//!     assert_eq!(rt; dump.strings(), [31].as_slice());
//!     assert_eq!(rt; dump.loaded(), [45].as_slice());
//!     assert_eq!(rt; dump.objects(), [79, 127, 148].as_slice());
//!     assert_eq!(rt; dump.roots(), [169].as_slice());
//!
//! README.md beside this folder has a proved caller and the order in which to read the definitions; `docs/FORMAT.md`
//! says what is accepted and what is refused.

#![tactic(auto)]

mod cuts;
mod dump;
pub mod fault_codes;
mod flaw;
mod frame;
mod kinds;
mod laws;
mod parse;
mod parts;
mod placed;
mod reader;
mod record_list;
mod snapshot_order;
mod sub_record_list;
mod sub_records;
mod tags;
mod tags_and_types;
mod team;
mod view;

pub use dump::Dump;
pub use flaw::{FormatFault, ReadRefusal};
pub use kinds::{ObjectKind, RootKind};
pub use laws::{always_dump_or_fault, dump_or_fault, one_dump, one_fault, one_list_of_records};
pub use parse::{LIMIT, read};
pub use placed::{dump_is_placed, stands_within};
pub use tags_and_types::OBJECT_TYPE;
pub use team::Team;
pub use view::View;
pub use view::identifiers::number_at;
pub use view::ids::Ids;
pub use view::members::{MemberField, Members};
pub use view::values::{TypedValue, Values};
