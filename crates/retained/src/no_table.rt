//! Why the program has no table.

ghost use Rattle.std.specs.Prelude.{◌≡◌};
ghost use Rattle.retained.specs.OfFiles as specs;
ghost use Rattle.retained.specs.working.NoTable.{fault_of};

use front_end::Refusal;
use retention::Fault;
use std::io;

/// Why there is no table.
#[derive(Drop)]
pub(crate) enum NoTable {
    /// The file of the dump could not be opened. The error says why.
    DumpNotOpened(io::Error),
    /// The file of the labels could not be opened. The error says why.
    LabelsNotOpened(io::Error),
    /// The labels could not be read, or the run ended with this fault.
    Stopped(Fault),
}

impl NoTable {
    /// Returns the fault whose refusal is printed.
    pub(crate) fn fault(&self) -> Fault
        ensures { result ≡ fault_of self.now }
    {
        match self {
            NoTable::DumpNotOpened(_) | NoTable::LabelsNotOpened(_) => Fault::ReadFault,
            NoTable::Stopped(fault) => *fault,
        }
    }
}

/// Returns the refusal that is printed for `fault`.
pub(crate) fn refusal_of(fault: Fault) -> Refusal
    ensures { result ≡ specs.refusal_of fault }
{
    match fault {
        Fault::Dump(code, offset) => Refusal {
            code,
            offset: Some(offset),
        },
        Fault::BadLabels(_) => Refusal::BAD_OPTIONS,
        Fault::OutOfMemory => Refusal::OUT_OF_MEMORY,
        Fault::ReadFault => Refusal::READ_FAULT,
        Fault::WriteFault => Refusal::WRITE_FAULT,
    }
}
