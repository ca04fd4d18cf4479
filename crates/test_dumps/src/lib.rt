//! Dumps for tests: tables of records, and their bytes.
//!
//! A test writes down the records that matter, and `Bytes` encodes them with identifiers of 4 or 8 bytes. `TWO_OBJECTS`
//! is the worked dump of the documents: a class with one field, two instances that refer to each other, and a root.
//! `Order` has identifiers for many objects, in some order or in none. Only `Bytes::raw` has a contract here. The tests
//! rely on the contracts of the crates that read the bytes.
#![tactic(auto)]

mod encoding;
mod order;
mod record;
mod sub;
mod worked;

pub use encoding::Bytes;
pub use order::Order;
pub use record::Record;
pub use sub::{ClassParts, Sub};
pub use worked::{NOTHING, TWO_OBJECTS};
