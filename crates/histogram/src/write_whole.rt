//! Writing all of a slice.

ghost use Rattle.std.specs.Prelude.{◌≡◌, ◌+◌, ◌-◌, ◌^◌, ◌<◌, if◌then◌else◌, is_err, true, OnErr, OnOk};
ghost use Rattle.std.specs.Io.KnownBytes.{Appends};
ghost use Rattle.histogram.specs.Counting.{AppendsBeginning, failures_of, inner_of, is_flushed};

use crate::counted::Counted;
use std::io::Write;
use thiserror::Error;

/// A write or a flush failed.
#[derive(Clone, Copy, PartialEq, Eq, Debug, Error)]
#[error("a write failed")]
pub struct WriteFault;

impl<W: Write> Counted<W> {
    /// Writes all of `bytes` and flushes. `Err(WriteFault)` if a write or the flush fails; it is not tried again.
    pub fn write_whole(&mut self, bytes: &[u8]) -> Result<(), WriteFault>
        requires { failures_of self.old < 2 ^ 64 - 1 }
        ensures written { OnOk result
            (Appends (W.contents (inner_of self.old)) (W.contents (inner_of self.new)) bytes.now) }
        ensures beginning { OnErr result
            (AppendsBeginning (W.contents (inner_of self.old)) (W.contents (inner_of self.new)) bytes.now) }
        ensures counts { failures_of self.new
            ≡ (if is_err result then failures_of self.old + 1 else failures_of self.old) }
        ensures flushed { OnOk result (is_flushed self.new ≡ true) }
    {
        let mut at = 0;
        while at < bytes.len() {
            match self.write(&bytes[at..]) {
                Ok(0) => return Err(WriteFault),
                Ok(count) => at += count,
                Err(_) => return Err(WriteFault),
            }
        }
        match self.flush() {
            Ok(()) => Ok(()),
            Err(_) => Err(WriteFault),
        }
    }
}
