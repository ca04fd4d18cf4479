//! The texts of faults and refusals.

use hprof_grammar::{FormatFault, ReadRefusal};
use std::alloc::{AllocError, Global};
use std::test::Fail;

/// The fault of too many bytes.
const TOO_LARGE: FormatFault = FormatFault {
    code: 14,
    offset: 1_073_741_824,
};

/// Refusals and their texts.
const SHOWN: [(ReadRefusal, &str); 2] = [
    (
        ReadRefusal::Fault(TOO_LARGE),
        "the bytes are no heap dump: fault 14 at 1073741824",
    ),
    (ReadRefusal::OutOfMemory, "out of memory"),
];

/// Tests whether `fault` has the text `text`.
fn fault_is_shown(alloc: Global, fault: FormatFault, text: &str) -> Result<bool, AllocError> {
    let shown = format!(in alloc; "{fault}")?;
    Ok(shown.as_str() == text)
}

/// Tests whether `refusal` has the text `text`.
fn refusal_is_shown(alloc: Global, refusal: ReadRefusal, text: &str) -> Result<bool, AllocError> {
    let shown = format!(in alloc; "{refusal}")?;
    Ok(shown.as_str() == text)
}

#[test]
fn texts_of_refusals(rt: HostRuntime) -> Result<(), Fail> {
    assert!(rt; fault_is_shown(rt.alloc(), TOO_LARGE, "fault 14 at 1073741824")?);
    for (refusal, text) in SHOWN {
        assert!(rt; refusal_is_shown(rt.alloc(), refusal, text)?, "{text}");
    }
    Ok(())
}
