//! The sub-records of a heap dump.

/// A sub-record of a heap dump. All serials are 0, except in `Raw`.
#[derive(Clone, Copy)]
pub enum Sub {
    /// A class, its superclass, and the types of its fields. The identifier of each field's name is 2.
    Class(u64, u64, &'static [u8]),
    /// A class, its superclass, and the name and the type of each of its fields.
    Named(u64, u64, &'static [(u64, u8)]),
    /// A class without superclass and instance fields, and the type and the value of its one static field. The
    /// identifier of the field's name is 2.
    Static(u64, u8, &'static [u8]),
    /// A class with a superclass, constants, and static and instance fields.
    Whole(ClassParts),
    /// An instance, its class, and the bytes of its field values.
    Instance(u64, u64, &'static [u8]),
    /// An object array, its class, and its elements.
    Objects(u64, u64, &'static [u64]),
    /// A primitive array, the type of its elements, their number, and their bytes.
    Values(u64, u8, u32, &'static [u8]),
    /// A root of unknown kind.
    Root(u64),
    /// Any bytes.
    Raw(&'static [u8]),
}

/// The parts of a class dump. The identifier of each field's name is 2, and the instance size is 0.
#[derive(Clone, Copy)]
pub struct ClassParts {
    /// The identifier of the class itself.
    pub id: u64,
    /// The superclass, the loader, the signers, the protection domain, and the two reserved identifiers.
    pub others: [u64; 6],
    /// The index, the type and the value of each constant.
    pub constants: &'static [(u16, u8, &'static [u8])],
    /// The type and the value of each static field.
    pub statics: &'static [(u8, &'static [u8])],
    /// The types of the fields that the class declares.
    pub fields: &'static [u8],
}

impl ClassParts {
    /// Creates the class `id` with `superclass` and `fields`, and nothing else.
    pub(crate) fn plain(id: u64, superclass: u64, fields: &'static [u8]) -> ClassParts {
        ClassParts {
            id,
            others: [superclass, 0, 0, 0, 0, 0],
            constants: &[],
            statics: &[],
            fields,
        }
    }
}
