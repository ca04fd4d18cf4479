//! The worked reports as they are written, and writers that fail.

use crate::reports::{NO_OBJECT, TWO_OBJECTS, no_object, two_objects, writes};
use histogram::{Counted, WriteRefusal, write_report};
use std::alloc::Global;
use std::io;
use std::io::Write;

/// A writer that takes up to ten bytes a write. Writes and flushes are counted together: call number `trouble_at` fails
/// with `fault`. If `fault` is `None`, that call takes nothing if it is a write, and succeeds if it is a flush.
#[derive(Drop)]
struct Trickle {
    taken: Vec<u8>,
    calls: u32,
    trouble_at: u32,
    fault: Option<io::ErrorKind>,
}

impl Trickle {
    fn new(alloc: Global, trouble_at: u32, fault: Option<io::ErrorKind>) -> Trickle {
        Trickle {
            taken: Vec::new(alloc),
            calls: 0,
            trouble_at,
            fault,
        }
    }
}

impl Write for Trickle {
    fn write(&mut self, buf: &[u8]) -> io::Result<usize> {
        self.calls = self.calls.saturating_add(1);
        if self.calls != self.trouble_at {
            let count = buf.len().min(10);
            self.taken.extend_from_slice(&buf[..count])?;
            return Ok(count);
        }
        match self.fault {
            Some(kind) => Err(io::Error::from(kind)),
            None => Ok(0),
        }
    }

    fn flush(&mut self) -> io::Result<()> {
        self.calls = self.calls.saturating_add(1);
        match self.fault {
            Some(kind) if self.calls == self.trouble_at => Err(io::Error::from(kind)),
            _ => Ok(()),
        }
    }
}

/// Tests whether the report of two objects is written as its text.
fn writes_two_objects(alloc: Global) -> bool {
    match two_objects(alloc) {
        Ok(report) => writes(alloc, &report, TWO_OBJECTS),
        Err(_) => false,
    }
}

#[test]
fn writes_the_worked_reports(rt: HostRuntime) {
    assert!(rt; writes(rt.alloc(), &no_object(rt.alloc()), NO_OBJECT));
    assert!(rt; writes_two_objects(rt.alloc()));
}

/// Writes the report of no object to a [`Trickle`]. Tests whether the report is refused, one failure is counted, and
/// the writer is not called after call `trouble_at` and has taken just the first `length` bytes.
fn leaves_beginning(
    alloc: Global,
    trouble_at: u32,
    fault: Option<io::ErrorKind>,
    length: usize,
) -> bool {
    let mut writer = Counted::new(Trickle::new(alloc, trouble_at, fault));
    let outcome = write_report(alloc, &no_object(alloc), &mut writer);
    let is_told = outcome == Err(WriteRefusal::WriteFault) && writer.failures() == 1;
    let trickle = writer.into_inner();
    is_told
        && trickle.calls == trouble_at
        && trickle.taken.len() == length
        && NO_OBJECT.as_bytes().starts_with(trickle.taken.as_slice())
}

#[test]
fn a_write_fault_leaves_a_beginning(rt: HostRuntime) {
    // 123 bytes take thirteen writes; then comes the flush, which takes nothing.
    let troubles = [
        (None, 13u32),
        (Some(io::ErrorKind::Interrupted), 14),
        (Some(io::ErrorKind::WouldBlock), 14),
    ];
    for (fault, calls) in troubles {
        for before in 0..calls {
            let length = (10 * before as usize).min(123);
            assert!(rt;
                leaves_beginning(rt.alloc(), before + 1, fault, length),
                "after {before} calls"
            );
        }
    }
}
