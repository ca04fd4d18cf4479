//! What people can do about a file.

use super::beginning::{Packer, Version};
use std::fmt;

/// What is wrong with a file, and what can be done about it.
#[derive(Clone, Copy)]
pub(crate) enum FileHint {
    /// It has no bytes.
    Empty,
    /// It ends before its dump is complete.
    EndsEarly,
    /// It was compressed by this program.
    Packed(Packer),
    /// It is a dump of this other version of the format.
    OtherVersion(Version),
    /// It is no dump of the format.
    NoDump,
    /// It has more bytes than a dump may have.
    TooManyBytes,
    /// It has more objects than a dump may have.
    TooManyObjects,
    /// With one worker, it takes more memory than there is.
    Memory,
    /// With several workers, it takes more memory than there is.
    MemoryOfWorkers,
}

impl fmt::Display for FileHint {
    fn fmt<W: fmt::Write>(&self, f: &mut fmt::Formatter<W>) -> fmt::Result {
        let text = match *self {
            FileHint::Empty => "empty: still being written, or on a full disk",
            FileHint::EndsEarly => "ends too early: still being written, or cut",
            FileHint::Packed(packer) => {
                let unpacker = packer.unpacker();
                return write!(f, "compressed: {unpacker} it first");
            }
            FileHint::OtherVersion(version) => {
                return write!(
                    f,
                    "HPROF of version {version}; only 1.0.2 is read, as `jcmd PID GC.heap_dump FILE` writes it"
                );
            }
            FileHint::NoDump => {
                "no HPROF binary dump of version 1.0.2, as `jcmd PID GC.heap_dump FILE` writes it"
            }
            FileHint::TooManyBytes => {
                "more than 1,073,741,824 bytes: dump a smaller heap, or live objects only (without -all)"
            }
            FileHint::TooManyObjects => {
                "more than 16,777,216 objects: dump a smaller heap, or live objects only (without -all)"
            }
            FileHint::Memory => {
                "takes its own size in memory and more for each object: free some memory"
            }
            FileHint::MemoryOfWorkers => {
                "takes its own size in memory and more for each object: free some memory, \
                or try --workers 1, which takes the least"
            }
        };
        f.write_str(text)
    }
}
