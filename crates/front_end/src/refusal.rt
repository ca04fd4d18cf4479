//! Why a run has no report.

pub mod codes;
mod from_parts;

use thiserror::Error;

/// Why a run has no report.
#[derive(Clone, Copy, Debug, PartialEq, Eq, Error)]
pub struct Refusal {
    /// The code: 1 to 21, but not 17, which is withdrawn. The codes 1 to 14 are faults of the bytes.
    pub code: u8,
    /// The offset of the fault in the bytes, if the code is 1 to 14.
    pub offset: Option<u64>,
}
