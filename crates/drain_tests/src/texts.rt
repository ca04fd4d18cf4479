//! The texts that are printed if a graph is not marked.

use crate::faults::make_tokens;
use drain::{BadOptions, RunFault};
use std::test::Fail;

#[test]
fn faults_are_printed_in_words(rt: HostRuntime) -> Result<(), Fail> {
    let tokens = make_tokens(&rt, rt.alloc())?;
    for (fault, want) in [
        (RunFault::OutOfMemory, "out of memory"),
        (
            RunFault::TagSpent(tokens.spent_tag),
            "a stack's last tag was loaded",
        ),
        (
            RunFault::WorkerRefused(tokens.refused_thread),
            "a worker could not be started",
        ),
    ] {
        let text = format!(in rt.alloc(); "{fault}")?;
        assert_eq!(rt; text.as_str(), want);
    }
    let text = format!(in rt.alloc(); "{}", BadOptions)?;
    assert_eq!(rt; text.as_str(), "an option is out of its range");
    Ok(())
}
