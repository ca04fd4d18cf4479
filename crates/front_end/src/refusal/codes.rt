//! The refusals that are not faults of the bytes, the name of each code, and the text of a refusal.

use super::Refusal;
use std::fmt;

/// An allocation failed.
pub const OUT_OF_MEMORY: u8 = 15;

/// A stack of buffers had its last tag, and an exchange needed one more.
pub const TAG_SPENT: u8 = 16;

/// A worker's thread could not be started.
pub const WORKER_REFUSED: u8 = 18;

/// The reader failed, or the file could not be opened.
pub const READ_FAULT: u8 = 19;

/// The writer failed.
pub const WRITE_FAULT: u8 = 20;

/// An option is refused: in heapmark, too few buffers for the workers, or a text of `--skip` that is no list of
/// fields; in retained, a text that is no list of labels.
pub const BAD_OPTIONS: u8 = 21;

impl Refusal {
    ghost use Rattle.std.specs.Prelude.{◌≡◌};
    ghost use Rattle.front_end.specs.RefusalText.{code_name};

    /// An allocation failed.
    pub const OUT_OF_MEMORY: Refusal = Refusal {
        code: OUT_OF_MEMORY,
        offset: None,
    };

    /// A stack of buffers had its last tag, and an exchange needed one more.
    pub const TAG_SPENT: Refusal = Refusal {
        code: TAG_SPENT,
        offset: None,
    };

    /// A worker's thread could not be started.
    pub const WORKER_REFUSED: Refusal = Refusal {
        code: WORKER_REFUSED,
        offset: None,
    };

    /// The reader failed, or the file could not be opened.
    pub const READ_FAULT: Refusal = Refusal {
        code: READ_FAULT,
        offset: None,
    };

    /// The writer failed.
    pub const WRITE_FAULT: Refusal = Refusal {
        code: WRITE_FAULT,
        offset: None,
    };

    /// An option is refused.
    pub const BAD_OPTIONS: Refusal = Refusal {
        code: BAD_OPTIONS,
        offset: None,
    };

    /// Returns the name of the code.
    pub fn name(&self) -> &'static str
        ensures { result.now ≡ code_name self.now.code }
    {
        match self.code {
            1 => "BadHeader",
            2 => "BadIdSize",
            3 => "Truncated",
            4 => "BadLength",
            5 => "BadSubTag",
            6 => "SubTruncated",
            7 => "BadType",
            8 => "DumpOrder",
            9 => "ZeroObject",
            10 => "DuplicateObject",
            11 => "UnknownClass",
            12 => "SuperChain",
            13 => "InstanceSize",
            14 => "TooLarge",
            OUT_OF_MEMORY => "OutOfMemory",
            TAG_SPENT => "TagSpent",
            17 => "NoBuffer",
            WORKER_REFUSED => "WorkerRefused",
            READ_FAULT => "ReadFault",
            WRITE_FAULT => "WriteFault",
            BAD_OPTIONS => "BadOptions",
            _ => "NoRefusal",
        }
    }
}

impl fmt::Display for Refusal {
    ghost use Rattle.std.specs.Prelude.{Some};
    ghost use Rattle.front_end.specs.RefusalText.{refusal_text};

    ghost output = { λ refusal. Some (refusal_text refusal) };

    fn fmt<W: fmt::Write>(&self, f: &mut fmt::Formatter<W>) -> fmt::Result {
        let code = self.code;
        let name = self.name();
        match self.offset {
            Some(offset) => write!(f, "refused {code} {name} at {offset}"),
            None => write!(f, "refused {code} {name}"),
        }
    }
}
