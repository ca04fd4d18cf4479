//! Runs with two workers on the dump of two objects with one byte changed, for each byte and each other value.
//!
//! Each test changes sixteen places, so that it ends far within its minute, even on a busy machine.

use super::answers::ANSWERS;
use super::files_of;
use crate::{Causes, Options};
use std::process::Abort;
use std::sync::Wait;
use std::thread::Threads;

/// The number of places of the dump that a test changes, one at a time.
const PLACES: usize = 16;

/// Returns options with two workers and eight buffers of two objects each, two buffers more than the least. With the
/// least, a worker may find too few buffers for a pair. It then ends without ever having been idle, and the other
/// worker waits for it in all of its turns, some 0.4 s.
fn two_workers() -> Options {
    let Ok(options) = Options::new(2, 2, 8, 0) else {
        unreachable!();
    };
    options
}

/// Checks the rows of the `PLACES` places from `from` on.
fn check_from<T: Abort + AllocGlobal + Causes + Threads + Wait + Sync>(rt: &T, from: usize) {
    for row in &ANSWERS {
        if from <= row.0 && row.0 - from < PLACES {
            let files = files_of(rt, rt.alloc(), &two_workers(), row);
            assert!(rt; files.is_some(), "byte {}, {} to {}", row.0, row.1, row.2);
        }
    }
}

#[test]
fn each_byte_from_0(rt: HostRuntime) {
    check_from(&rt, 0);
}

#[test]
fn each_byte_from_16(rt: HostRuntime) {
    check_from(&rt, 16);
}

#[test]
fn each_byte_from_32(rt: HostRuntime) {
    check_from(&rt, 32);
}

#[test]
fn each_byte_from_48(rt: HostRuntime) {
    check_from(&rt, 48);
}

#[test]
fn each_byte_from_64(rt: HostRuntime) {
    check_from(&rt, 64);
}

#[test]
fn each_byte_from_80(rt: HostRuntime) {
    check_from(&rt, 80);
}

#[test]
fn each_byte_from_96(rt: HostRuntime) {
    check_from(&rt, 96);
}

#[test]
fn each_byte_from_112(rt: HostRuntime) {
    check_from(&rt, 112);
}

#[test]
fn each_byte_from_128(rt: HostRuntime) {
    check_from(&rt, 128);
}

#[test]
fn each_byte_from_144(rt: HostRuntime) {
    check_from(&rt, 144);
}

#[test]
fn each_byte_from_160(rt: HostRuntime) {
    check_from(&rt, 160);
}
