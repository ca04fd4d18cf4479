//! The messages of the errors.

use buffer_pool::PoolFault;
use mark_core::OutOfMemory;
use std::alloc::{AllocError, Global};
use std::fmt::Display;
use std::process::Abort;
use std::test::Fail;

/// Tests that `error` is printed as `words`.
pub(crate) fn check_words<R: Abort, E: Display>(
    rt: &R,
    alloc: Global,
    error: &E,
    words: &str,
) -> Result<(), AllocError> {
    let told = format!(in alloc; "{error}")?;
    assert_eq!(rt; told.as_str(), words);
    Ok(())
}

#[test]
fn each_error_has_its_message(rt: HostRuntime) -> Result<(), Fail> {
    let outside = "an option is out of its range";
    check_words(&rt, rt.alloc(), &PoolFault::BadOptions, outside)?;
    check_words(&rt, rt.alloc(), &PoolFault::OutOfMemory, "out of memory")?;
    Ok(check_words(&rt, rt.alloc(), &OutOfMemory, "out of memory")?)
}
