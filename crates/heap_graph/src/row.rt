//! The rows of the histogram.

ghost use Rattle.std.specs.Prelude.{◌≡◌, ◌<◌, ◌+◌, ◌^◌};
ghost use Rattle.heap_graph.specs.RowNumbers as numbers;

/// The number of rows besides those of classes: one for each of the eight primitive types, and one for the class
/// objects.
pub(crate) const FIXED_ROWS: usize = 9;

/// The row of the histogram that an object belongs to.
#[derive(Clone, Copy, Debug, PartialEq, Eq)]
pub enum RowKey {
    /// The row of the instances and object arrays of a class, by the number of the class among the class dumps. In a
    /// linked heap this number identifies the class as its identifier does, and needs no look-up.
    Class(u32),
    /// The row of the primitive arrays of a type, by its code, 4 to 11.
    Primitive(u8),
    /// The row of the objects that are classes.
    ClassObject,
}

impl RowKey {
    /// Returns the number of the row: the types 4 to 11 come first, then the class objects, then the classes by their
    /// numbers.
    // Inlined, because it is called for each object that is marked.
    #[inline(always)]
    pub fn number(self) -> usize
        ensures { result ≡ numbers.row_number self }
    {
        match self {
            RowKey::Primitive(code) => usize::from(code).saturating_sub(4),
            RowKey::ClassObject => FIXED_ROWS - 1,
            RowKey::Class(class) => FIXED_ROWS + class as usize,
        }
    }

    /// Returns the row with the number `number`.
    pub fn numbered(number: usize) -> RowKey
        requires { number < 9 + 2 ^ 32 }
        ensures { result ≡ numbers.numbered_row number }
    {
        if number < FIXED_ROWS - 1 {
            RowKey::Primitive(4 + number as u8)
        } else if number == FIXED_ROWS - 1 {
            RowKey::ClassObject
        } else {
            RowKey::Class((number - FIXED_ROWS) as u32)
        }
    }
}
