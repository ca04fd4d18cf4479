//! Reads the fields of instance dumps.

ghost use Rattle.std.specs.Prelude.{◌≡◌};
ghost use Rattle.hprof_grammar.specs.SubRecord.{Instance};
ghost use Rattle.hprof_grammar.specs.SubRecord.SubRecord.{instance_dump};
ghost use Rattle.hprof_grammar.specs.Standing.{Stands};

use crate::view::identifiers::number_at;
use crate::view::{BEHIND_STACK_TRACE, View, bytes_at, u32_at};

/// The offset of the class in an instance dump. This and the offsets below are numbers of bytes from the tag, without
/// the identifiers before the field.
const CLASS: usize = BEHIND_STACK_TRACE;

const COUNT: usize = CLASS;

const VALUES: usize = COUNT + 4;

impl<'a> View<'a> {
    /// Returns the identifier of an instance's class.
    pub fn instance_class(&self, at: u32) -> u64
        requires { (i : Instance) × Stands self.now at (instance_dump i) }
        ensures { (i : Instance) → Stands self.now at (instance_dump i) → result ≡ i.class }
    {
        let size = self.id_size as usize;
        number_at(self.bytes, at as usize + CLASS + size, size)
    }

    /// Returns the bytes of the values of an instance's fields: those of its class, then those of its superclass, and
    /// so on.
    pub fn instance_values(&self, at: u32) -> &'a [u8]
        requires { (i : Instance) × Stands self.now at (instance_dump i) }
        ensures { (i : Instance) → Stands self.now at (instance_dump i) → result.now ≡ i.values }
    {
        let size = self.id_size as usize;
        let count = u32_at(self.bytes, at as usize + COUNT + 2 * size) as usize;
        bytes_at(self.bytes, at as usize + VALUES + 2 * size, count)
    }
}
