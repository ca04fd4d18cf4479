//! The texts of the errors.

use histogram::{ReaderRefusal, WriteFault, WriteRefusal};
use std::alloc::Global;

/// Tests whether the refusals of a reader have their texts.
fn reader_refusals_are_shown(alloc: Global) -> bool {
    let (read, memory) = (ReaderRefusal::ReadFault, ReaderRefusal::OutOfMemory);
    match format!(in alloc; "{read}, {memory}") {
        Ok(shown) => shown.as_str() == "a read failed, out of memory",
        Err(_) => false,
    }
}

/// Tests whether the refusals of a writer have their texts.
fn write_refusals_are_shown(alloc: Global) -> bool {
    let (write, memory, alone) = (
        WriteRefusal::WriteFault,
        WriteRefusal::OutOfMemory,
        WriteFault,
    );
    match format!(in alloc; "{write}, {memory}, {alone}") {
        Ok(shown) => shown.as_str() == "a write failed, out of memory, a write failed",
        Err(_) => false,
    }
}

#[test]
fn each_error_has_its_text(rt: HostRuntime) {
    assert!(rt; reader_refusals_are_shown(rt.alloc()));
    assert!(rt; write_refusals_are_shown(rt.alloc()));
}
