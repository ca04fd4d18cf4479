//! Converts the refusal of each part of a run into that of the run.

ghost use Rattle.std.specs.Prelude.{◌≡◌};
ghost use Rattle.front_end.specs.RefusalCodes.{form_refusal, link_refusal, reader_refusal, skip_refusal, write_refusal};
ghost use Rattle.front_end.specs.RunRefusals.{out_of_memory};

use super::Refusal;
use heap_graph::{LinkRefusal, SkipRefusal};
use histogram::{OutOfMemory, ReaderRefusal, WriteRefusal};
use hprof_grammar::ReadRefusal;

impl From<ReaderRefusal> for Refusal {
    ghost from_gives = { λ refusal r. r ≡ reader_refusal refusal };

    fn from(refusal: ReaderRefusal) -> Refusal {
        match refusal {
            ReaderRefusal::ReadFault => Refusal::READ_FAULT,
            ReaderRefusal::OutOfMemory => Refusal::OUT_OF_MEMORY,
        }
    }
}

impl From<ReadRefusal> for Refusal {
    ghost from_gives = { λ refusal r. r ≡ form_refusal refusal };

    fn from(refusal: ReadRefusal) -> Refusal {
        match refusal {
            ReadRefusal::Fault(fault) => Refusal {
                code: fault.code,
                offset: Some(fault.offset),
            },
            ReadRefusal::OutOfMemory => Refusal::OUT_OF_MEMORY,
        }
    }
}

impl From<LinkRefusal> for Refusal {
    ghost from_gives = { λ refusal r. r ≡ link_refusal refusal };

    fn from(refusal: LinkRefusal) -> Refusal {
        match refusal {
            LinkRefusal::Fault(fault) => Refusal {
                code: fault.code,
                offset: Some(fault.offset),
            },
            LinkRefusal::OutOfMemory => Refusal::OUT_OF_MEMORY,
        }
    }
}

impl From<SkipRefusal> for Refusal {
    ghost from_gives = { λ refusal r. r ≡ skip_refusal refusal };

    fn from(refusal: SkipRefusal) -> Refusal {
        match refusal {
            SkipRefusal::BadOptions => Refusal::BAD_OPTIONS,
            SkipRefusal::OutOfMemory => Refusal::OUT_OF_MEMORY,
        }
    }
}

impl From<WriteRefusal> for Refusal {
    ghost from_gives = { λ refusal r. r ≡ write_refusal refusal };

    fn from(refusal: WriteRefusal) -> Refusal {
        match refusal {
            WriteRefusal::WriteFault => Refusal::WRITE_FAULT,
            WriteRefusal::OutOfMemory => Refusal::OUT_OF_MEMORY,
        }
    }
}

impl From<OutOfMemory> for Refusal {
    ghost from_gives = { λ _ r. r ≡ out_of_memory };

    fn from(_fault: OutOfMemory) -> Refusal {
        Refusal::OUT_OF_MEMORY
    }
}
