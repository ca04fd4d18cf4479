//! Dumps that several crates use in tests.

use crate::record::Record;
use crate::sub::Sub;

/// A dump without objects: one empty heap dump.
pub const NOTHING: &[Record] = &[Record::Heap(&[])];

/// A class with one field, and two instances of it that refer to each other. The first instance is a root. With
/// identifiers of 4 bytes the dump has 174 bytes.
pub const TWO_OBJECTS: &[Record] = &[
    Record::Text(1, b"A"),
    Record::Load(0x100, 1),
    Record::Heap(&[
        Sub::Class(0x100, 0, &[2]),
        Sub::Instance(0x201, 0x100, &[0, 0, 2, 2]),
        Sub::Instance(0x202, 0x100, &[0, 0, 2, 1]),
        Sub::Root(0x201),
    ]),
];
