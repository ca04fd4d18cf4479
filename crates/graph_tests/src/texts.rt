//! The texts of the refusals.

use heap_graph::{LinkFault, LinkRefusal, SkipRefusal};
use std::alloc::{AllocError, Global};
use std::fmt;
use std::test::Fail;

/// Tests whether the text of `refusal` is `text`.
fn is_shown<T: fmt::Display>(alloc: Global, refusal: &T, text: &str) -> Result<bool, AllocError> {
    let shown = format!(in alloc; "{refusal}")?;
    Ok(shown.as_str() == text)
}

/// A fault of the links, and its text.
const FAULT: (LinkFault, &str) = (
    LinkFault {
        code: 13,
        offset: 4_294_967_296,
    },
    "fault 13 at 4294967296",
);

/// Why no graph was built, with the texts.
const LINKS: [(LinkRefusal, &str); 2] = [
    (
        LinkRefusal::Fault(LinkFault { code: 9, offset: 0 }),
        "the objects of the heap dump are not linked: fault 9 at 0",
    ),
    (LinkRefusal::OutOfMemory, "out of memory"),
];

/// Why no list of fields was made, with the texts.
const SKIPS: [(SkipRefusal, &str); 2] = [
    (
        SkipRefusal::BadOptions,
        "the list of skipped fields is malformed",
    ),
    (SkipRefusal::OutOfMemory, "out of memory"),
];

#[test]
fn refusals_are_shown_by_their_texts(rt: HostRuntime) -> Result<(), Fail> {
    let alloc = rt.alloc();
    let (fault, text) = FAULT;
    assert_eq!(rt; is_shown(alloc, &fault, text), Ok(true), "{text}");
    for (refusal, text) in &LINKS {
        assert_eq!(rt; is_shown(alloc, refusal, text), Ok(true), "{text}");
    }
    for (refusal, text) in &SKIPS {
        assert_eq!(rt; is_shown(alloc, refusal, text), Ok(true), "{text}");
    }
    Ok(())
}
