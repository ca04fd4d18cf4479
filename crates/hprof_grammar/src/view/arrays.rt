//! Reads the fields of array dumps.

ghost use Rattle.std.specs.Prelude.{◌+◌, ◌≡◌};
ghost use Rattle.hprof_grammar.specs.SubRecord.{ObjectArray, PrimitiveArray};
ghost use Rattle.hprof_grammar.specs.SubRecord.SubRecord.{object_array_dump, primitive_array_dump};
ghost use Rattle.hprof_grammar.specs.Standing.{Stands};

use crate::view::identifiers::number_at;
use crate::view::ids::Ids;
use crate::view::{BEHIND_STACK_TRACE, View, bytes_at, u32_at};

/// The offset of the number of elements in an array dump. This and the offsets below are numbers of bytes from the tag,
/// without the identifiers before the field.
const COUNT: usize = BEHIND_STACK_TRACE;

/// The offset of the identifier of an object array's class.
const CLASS: usize = COUNT + 4;

const ELEMENTS: usize = CLASS;

/// The offset of the type code of a primitive array's elements.
const TYPE: usize = COUNT + 4;

const PACKED_ELEMENTS: usize = TYPE + 1;

impl<'a> View<'a> {
    /// Returns the identifier of an object array's class.
    pub fn array_class(&self, at: u32) -> u64
        requires { (a : ObjectArray) × Stands self.now at (object_array_dump a) }
        ensures { (a : ObjectArray) → Stands self.now at (object_array_dump a) → result ≡ a.class }
    {
        let size = self.id_size as usize;
        number_at(self.bytes, at as usize + CLASS + size, size)
    }

    /// Returns the identifiers that an object array holds, in order.
    pub fn array_elements(&self, at: u32) -> Ids<'a>
        requires { (a : ObjectArray) × Stands self.now at (object_array_dump a) }
        ensures { (a : ObjectArray) → Stands self.now at (object_array_dump a) → result ≡ a.elements }
    {
        let size = self.id_size as usize;
        let count = u32_at(self.bytes, at as usize + COUNT + size);
        let elements = at as usize + ELEMENTS + 2 * size;
        Ids::new(self.bytes, elements, self.id_size, count)
    }

    /// Returns the type code of a primitive array's elements, 4 to 11.
    pub fn element_type(&self, at: u32) -> u8
        requires { (a : PrimitiveArray) × Stands self.now at (primitive_array_dump a) }
        ensures { (a : PrimitiveArray) → Stands self.now at (primitive_array_dump a) → result ≡ a.type }
    {
        let size = self.id_size as usize;
        self.bytes[at as usize + TYPE + size]
    }

    /// Returns the number of a primitive array's elements.
    pub fn element_count(&self, at: u32) -> u32
        requires { (a : PrimitiveArray) × Stands self.now at (primitive_array_dump a) }
        ensures { (a : PrimitiveArray) → Stands self.now at (primitive_array_dump a) → result ≡ a.count }
    {
        let size = self.id_size as usize;
        u32_at(self.bytes, at as usize + COUNT + size)
    }

    /// Returns the bytes of a primitive array's elements, one element after another, each of the size of its type.
    pub fn packed_elements(&self, at: u32) -> &'a [u8]
        requires { (a : PrimitiveArray) × Stands self.now at (primitive_array_dump a) }
        ensures { (a : PrimitiveArray) → Stands self.now at (primitive_array_dump a) → result.now ≡ a.values }
    {
        let count = self.element_count(at) as usize;
        let size = self.size_of(self.element_type(at)) as usize;
        bytes_at(
            self.bytes,
            at as usize + PACKED_ELEMENTS + self.id_size as usize,
            count * size,
        )
    }
}
