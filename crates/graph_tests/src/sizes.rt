//! The sizes of the values that are moved for each object.

use heap_graph::Visit;
use std::alloc::Global;
use std::mem::size_of;
use std::process::Abort;
use std::test::Fail;

/// A value of up to 128 bytes is copied inline when it is moved, without a call.
#[test]
fn a_visit_has_at_most_128_bytes(rt: HostRuntime) -> Result<(), Fail> {
    assert!(rt; size_of::<Visit<'_, Global>>() <= 128);
    Ok(())
}
