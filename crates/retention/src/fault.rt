//! Why a run has no table.

ghost use Rattle.std.specs.Prelude.{◌≡◌};

use heap_graph::LinkRefusal;
use histogram::{ReaderRefusal, WriteRefusal};
use hprof_grammar::ReadRefusal;
use label_list::ListRefusal;

/// Why a run has no table.
#[derive(Clone, Copy, Debug, PartialEq, Eq)]
pub enum Fault {
    /// The first fault of the dump: its code, 1 to 14, and its offset in bytes.
    Dump(u8, u64),
    /// The number, from 1 on, of the first line of the labels that is no entry.
    BadLabels(u64),
    /// An allocation failed.
    OutOfMemory,
    /// The reader failed.
    ReadFault,
    /// The writer failed. A beginning of the table was written: nothing, some or all.
    WriteFault,
}

impl From<ListRefusal> for Fault {
    ghost use Rattle.retention.specs.Faults.{list_fault};

    ghost from_gives = { λ refusal f. f ≡ list_fault refusal };

    fn from(refusal: ListRefusal) -> Fault {
        match refusal {
            ListRefusal::BadLine(line) => Fault::BadLabels(line),
            ListRefusal::OutOfMemory => Fault::OutOfMemory,
        }
    }
}

impl From<ReaderRefusal> for Fault {
    ghost use Rattle.retention.specs.Faults.{reader_fault};

    ghost from_gives = { λ refusal f. f ≡ reader_fault refusal };

    fn from(refusal: ReaderRefusal) -> Fault {
        match refusal {
            ReaderRefusal::ReadFault => Fault::ReadFault,
            ReaderRefusal::OutOfMemory => Fault::OutOfMemory,
        }
    }
}

impl From<ReadRefusal> for Fault {
    ghost use Rattle.retention.specs.Faults.{form_fault};

    ghost from_gives = { λ refusal f. f ≡ form_fault refusal };

    fn from(refusal: ReadRefusal) -> Fault {
        match refusal {
            ReadRefusal::Fault(fault) => Fault::Dump(fault.code, fault.offset),
            ReadRefusal::OutOfMemory => Fault::OutOfMemory,
        }
    }
}

impl From<LinkRefusal> for Fault {
    ghost use Rattle.retention.specs.Faults.{link_fault};

    ghost from_gives = { λ refusal f. f ≡ link_fault refusal };

    fn from(refusal: LinkRefusal) -> Fault {
        match refusal {
            LinkRefusal::Fault(fault) => Fault::Dump(fault.code, fault.offset),
            LinkRefusal::OutOfMemory => Fault::OutOfMemory,
        }
    }
}

impl From<WriteRefusal> for Fault {
    ghost use Rattle.retention.specs.Faults.{write_fault};

    ghost from_gives = { λ refusal f. f ≡ write_fault refusal };

    fn from(refusal: WriteRefusal) -> Fault {
        match refusal {
            WriteRefusal::WriteFault => Fault::WriteFault,
            WriteRefusal::OutOfMemory => Fault::OutOfMemory,
        }
    }
}
