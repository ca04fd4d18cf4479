//! A reader that returns one byte a call changes no result.

use super::rows::Reading::ByteByByte;
use super::rows::{faults_are_found, reports_are_written};

#[test]
fn one_byte_a_call_changes_no_report(rt: HostRuntime) {
    reports_are_written(&rt, rt.alloc(), ByteByByte);
}

#[test]
fn one_byte_a_call_changes_no_refusal(rt: HostRuntime) {
    faults_are_found(&rt, rt.alloc(), ByteByByte);
}
