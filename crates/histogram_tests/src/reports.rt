//! The worked reports, as values and as texts.

use histogram::{Counted, Line, Report, write_report};
use std::alloc::{AllocError, Allocator, Global};

/// The report of no object.
pub const NO_OBJECT: &str = "         0               0  (reachable)
         0               0  (unreachable)
         0               0  (unresolved)
";

/// The report of the two instances.
pub const TWO_OBJECTS: &str = "         2               8  A
         1               0  <class>
         3               8  (reachable)
         0               0  (unreachable)
         0               0  (unresolved)
";

/// Returns the histogram of no object.
pub fn no_object(alloc: Global) -> Report<Global> {
    Report {
        rows: Vec::new(alloc),
        reachable: (0, 0),
        unreachable: (0, 0),
        unresolved: 0,
    }
}

/// Returns the histogram of the two instances.
pub fn two_objects(alloc: Global) -> Result<Report<Global>, AllocError> {
    let instances = Line {
        name: Vec::from_slice(alloc, b"A")?,
        class: 0x100,
        count: 2,
        bytes: 8,
    };
    let classes = Line {
        name: Vec::from_slice(alloc, b"<class>")?,
        class: 0,
        count: 1,
        bytes: 0,
    };
    let rows = vec![in alloc; instances, classes]?;
    Ok(Report {
        rows,
        reachable: (3, 8),
        unreachable: (0, 0),
        unresolved: 0,
    })
}

/// Tests whether `report` is written as `text`, and no call failed. Returns `false` also if an allocation fails.
pub fn writes<A: Allocator>(alloc: Global, report: &Report<A>, text: &str) -> bool {
    let mut writer = Counted::new(Vec::new(alloc));
    let is_whole = write_report(alloc, report, &mut writer).is_ok() && writer.failures() == 0;
    is_whole && writer.into_inner().as_slice() == text.as_bytes()
}
