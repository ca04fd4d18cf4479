//! The rules that the objects of a dump must follow, the fault of a broken rule, and why no graph was built.

ghost use Rattle.std.specs.Prelude.{◌≡◌};
ghost use Rattle.heap_graph.specs.LinkFault.{code_of};

use std::fmt;
use thiserror::Error;

/// The rules that each object is tested by, in this order.
#[derive(Clone, Copy, Debug, PartialEq, Eq)]
pub enum LinkRule {
    /// An object's identifier is not 0.
    ZeroObject,
    /// No earlier object has the object's identifier.
    DuplicateObject,
    /// The class of an instance or an object array exists.
    UnknownClass,
    /// The superclass of a class exists, unless its identifier is 0, and following superclasses ends.
    SuperChain,
    /// The values of an instance have the size of the layout of its class.
    InstanceSize,
    /// There are at most 16,777,216 objects.
    TooLarge,
}

impl LinkRule {
    /// Returns the code of the fault of an object that breaks the rule.
    pub(crate) fn code(self) -> u8
        ensures { result ≡ code_of self }
    {
        match self {
            LinkRule::ZeroObject => 9,
            LinkRule::DuplicateObject => 10,
            LinkRule::UnknownClass => 11,
            LinkRule::SuperChain => 12,
            LinkRule::InstanceSize => 13,
            LinkRule::TooLarge => 14,
        }
    }
}

/// The first fault in the links of a dump.
#[derive(Clone, Copy, Debug, PartialEq, Eq, Error)]
pub struct LinkFault {
    /// The code of the broken rule, 9 to 14.
    pub code: u8,
    /// The place of the object's sub-record in the bytes of the dump.
    pub offset: u64,
}

impl fmt::Display for LinkFault {
    ghost use Rattle.std.specs.Prelude.{Some};
    ghost use Rattle.heap_graph.specs.Refusal.{link_fault_text};

    ghost output = { λ fault. Some (link_fault_text fault) };

    fn fmt<W: fmt::Write>(&self, f: &mut fmt::Formatter<W>) -> fmt::Result {
        let code = self.code;
        let offset = self.offset;
        write!(f, "fault {code} at {offset}")
    }
}

/// Why no graph was built.
#[derive(Clone, Copy, Debug, PartialEq, Eq, Error)]
pub enum LinkRefusal {
    /// The objects of the dump are not linked.
    Fault(LinkFault),
    /// An allocation failed.
    OutOfMemory,
}

impl fmt::Display for LinkRefusal {
    ghost use Rattle.std.specs.Prelude.{Some};
    ghost use Rattle.heap_graph.specs.Refusal.{link_refusal_text};

    ghost output = { λ refusal. Some (link_refusal_text refusal) };

    fn fmt<W: fmt::Write>(&self, f: &mut fmt::Formatter<W>) -> fmt::Result {
        match self {
            LinkRefusal::Fault(fault) => {
                write!(f, "the objects of the heap dump are not linked: {fault}")
            }
            LinkRefusal::OutOfMemory => write!(f, "out of memory"),
        }
    }
}
