//! The codes of the faults of a dump, by name.

/// The text of the header is wrong or cut short.
pub const BAD_HEADER: u8 = 1;

/// The size of identifiers is neither 4 nor 8.
pub const BAD_ID_SIZE: u8 = 2;

/// The header or a record runs past the end.
pub const TRUNCATED: u8 = 3;

/// The length of a record is not allowed for its tag.
pub const BAD_LENGTH: u8 = 4;

/// The tag of a sub-record is in no table.
pub const BAD_SUB_TAG: u8 = 5;

/// A sub-record runs past the end of its heap record.
pub const SUB_TRUNCATED: u8 = 6;

/// A type code is not allowed at its place.
pub const BAD_TYPE: u8 = 7;

/// The records of the snapshot are in a wrong order, or one is missing or too many.
pub const DUMP_ORDER: u8 = 8;

/// The dump is too long.
pub const TOO_LARGE: u8 = 14;
