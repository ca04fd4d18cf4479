//! Reads the fields of class dumps.

ghost use Rattle.std.specs.Prelude.{[], map, slice_index, ◌*◌, ◌+◌, ◌<◌, ◌∷◌, ◌≡◌};
ghost use Rattle.hprof_grammar.specs.SubRecord.{Class};
ghost use Rattle.hprof_grammar.specs.SubRecord.SubRecord.{class_dump};
ghost use Rattle.hprof_grammar.specs.Standing.{Stands};
ghost use Rattle.hprof_grammar.specs.Series.{of_constant, of_static};
ghost use Rattle.hprof_grammar.specs.working.ClassParts.{IsPartOf, ids_behind_stack};
ghost use Rattle.hprof_grammar.specs.working.ClassParts.{fields_from_constants, fields_from_statics};

use crate::view::identifiers::number_at;
use crate::view::ids::Ids;
use crate::view::members::Members;
use crate::view::values::{Values, after_values};
use crate::view::{BEHIND_STACK_TRACE, View, bytes_from, u32_at};

/// The offset of the first identifier after the stack trace of a class dump. This and the next two offsets are numbers
/// of bytes from the tag, without the identifiers before the field.
const FIRST_ID: usize = BEHIND_STACK_TRACE;

const INSTANCE_SIZE: usize = FIRST_ID;

const CONSTANTS: usize = INSTANCE_SIZE + 4;

/// The number of identifiers before the instance size in a class dump: the object, and six after the stack trace.
const IDS: usize = 7;

/// The size in bytes of a constant's index.
const INDEX_SIZE: u8 = 2;

/// The position of the superclass among the six identifiers after the stack trace, counted from 0. The positions of the
/// other five follow.
const SUPERCLASS: usize = 0;

const LOADER: usize = 1;

const SIGNERS: usize = 2;

const PROTECTION_DOMAIN: usize = 3;

const RESERVED: usize = 4;

const RESERVED_TOO: usize = 5;

/// The number of identifiers after the stack trace that refer to objects. The two reserved ones come after these four.
const LEADING_IDS: u32 = 4;

impl<'a> View<'a> {
    /// Returns the identifier of a class's superclass, 0 for none.
    pub fn superclass(&self, at: u32) -> u64
        requires { (c : Class) × Stands self.now at (class_dump c) }
        ensures { (c : Class) → Stands self.now at (class_dump c) → result ≡ c.super }
    {
        self.class_id(at, SUPERCLASS)
    }

    /// Returns the identifier of a class's loader.
    pub fn loader(&self, at: u32) -> u64
        requires { (c : Class) × Stands self.now at (class_dump c) }
        ensures { (c : Class) → Stands self.now at (class_dump c) → result ≡ c.loader }
    {
        self.class_id(at, LOADER)
    }

    /// Returns the identifier of a class's signers.
    pub fn signers(&self, at: u32) -> u64
        requires { (c : Class) × Stands self.now at (class_dump c) }
        ensures { (c : Class) → Stands self.now at (class_dump c) → result ≡ c.signers }
    {
        self.class_id(at, SIGNERS)
    }

    /// Returns the identifier of a class's protection domain.
    pub fn protection_domain(&self, at: u32) -> u64
        requires { (c : Class) × Stands self.now at (class_dump c) }
        ensures { (c : Class) → Stands self.now at (class_dump c) → result ≡ c.domain }
    {
        self.class_id(at, PROTECTION_DOMAIN)
    }

    /// Returns the first of the two reserved identifiers of a class dump. Only tests read it.
    pub fn reserved(&self, at: u32) -> u64
        requires { (c : Class) × Stands self.now at (class_dump c) }
        ensures { (c : Class) → Stands self.now at (class_dump c) → result ≡ c.reserved }
    {
        self.class_id(at, RESERVED)
    }

    /// Returns the second of the two reserved identifiers of a class dump. Only tests read it.
    pub fn reserved_too(&self, at: u32) -> u64
        requires { (c : Class) × Stands self.now at (class_dump c) }
        ensures { (c : Class) → Stands self.now at (class_dump c) → result ≡ c.reserved_too }
    {
        self.class_id(at, RESERVED_TOO)
    }

    /// Returns the first four identifiers after the stack trace of a class dump, which refer to objects: superclass,
    /// loader, signers, protection domain.
    pub fn leading_ids(&self, at: u32) -> Ids<'a>
        requires { (c : Class) × Stands self.now at (class_dump c) }
        ensures { (c : Class) → Stands self.now at (class_dump c)
            → result ≡ c.super ∷ c.loader ∷ c.signers ∷ c.domain ∷ [] }
    {
        let size = self.id_size as usize;
        let first = at as usize + FIRST_ID + size;
        Ids::new(self.bytes, first, self.id_size, LEADING_IDS)
    }

    /// Returns the instance size that a class dump states, in bytes. Only tests read it.
    pub fn instance_size(&self, at: u32) -> u32
        requires { (c : Class) × Stands self.now at (class_dump c) }
        ensures { (c : Class) → Stands self.now at (class_dump c) → result ≡ c.instance_size }
    {
        let size = self.id_size as usize;
        u32_at(self.bytes, at as usize + INSTANCE_SIZE + IDS * size)
    }

    /// Returns a class's constants: their indexes, types and values.
    pub fn constants(&self, at: u32) -> Values<'a>
        requires { (c : Class) × Stands self.now at (class_dump c) }
        ensures { (c : Class) → Stands self.now at (class_dump c) → result ≡ map of_constant c.constants }
    {
        Values::new(self.constants_from(at), self.id_size, INDEX_SIZE)
    }

    /// Returns a class's static fields: their names, types and values. Each call walks the constants before them.
    pub fn statics(&self, at: u32) -> Values<'a>
        requires { (c : Class) × Stands self.now at (class_dump c) }
        ensures { (c : Class) → Stands self.now at (class_dump c) → result ≡ map of_static c.statics }
    {
        Values::new(self.statics_from(at), self.id_size, self.id_size)
    }

    /// Returns the instance fields that a class declares, without those of its superclasses. Each call walks the
    /// constants and the static fields before them.
    pub fn members(&self, at: u32) -> Members<'a>
        requires { (c : Class) × Stands self.now at (class_dump c) }
        ensures { (c : Class) → Stands self.now at (class_dump c) → result ≡ c.members }
    {
        let members = after_values(self.statics_from(at), self.id_size, self.id_size);
        Members::new(members, self.id_size)
    }

    /// Returns the identifier at the position `nth`, counted from 0, of the six after a class's stack trace.
    fn class_id(&self, at: u32, nth: usize) -> u64
        requires stands { (c : Class) × Stands self.now at (class_dump c) }
        requires nth { nth < 6 }
        ensures { (c : Class) → Stands self.now at (class_dump c) → result ≡ slice_index (ids_behind_stack c) nth }
    {
        let size = self.id_size as usize;
        number_at(self.bytes, at as usize + FIRST_ID + size + nth * size, size)
    }

    /// Returns all bytes from the count of a class's constants on.
    fn constants_from(&self, at: u32) -> &'a [u8]
        requires { (c : Class) × Stands self.now at (class_dump c) }
        ensures { (c : Class) → Stands self.now at (class_dump c)
            → IsPartOf self.now.id_size c (fields_from_constants self.now.id_size c) result.now }
    {
        let size = self.id_size as usize;
        bytes_from(self.bytes, at as usize + CONSTANTS + IDS * size)
    }

    /// Returns all bytes from the count of a class's static fields on.
    fn statics_from(&self, at: u32) -> &'a [u8]
        requires { (c : Class) × Stands self.now at (class_dump c) }
        ensures { (c : Class) → Stands self.now at (class_dump c)
            → IsPartOf self.now.id_size c (fields_from_statics self.now.id_size c) result.now }
    {
        after_values(self.constants_from(at), self.id_size, INDEX_SIZE)
    }
}
