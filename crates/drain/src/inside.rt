//! The parts of [`mark`](crate::mark), for the crate of its tests: no other caller needs them.

pub use crate::hooks::{StartHook, StartsAll};
pub use crate::job::Job;
pub use crate::leader::{lead, mark_where};
pub use crate::measured::Measured;
pub use crate::scanned_object::ScannedObject;
pub use crate::sum::Sum;
pub use crate::tally::{TalliedWorker, Tally};
pub use crate::walk::{Reads, Walk};
pub use crate::walked_graph::WalkedGraph;
pub use crate::worker_threads::{Duty, StartedWorker, join_all};
