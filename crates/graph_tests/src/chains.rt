//! Dumps in which superclasses or the sizes of instances are wrong.

use crate::faults::Faulty;
use test_dumps::Sub::{Class, Instance, Objects, Values};

/// Superclasses that are missing, or that never end.
pub static CHAINS: [Faulty; 17] = [
    ("a missing superclass", &[Class(0x100, 0x999, &[])], 12, 40),
    (
        "a chain to a missing class: the class that names it",
        &[
            Class(0x120, 0x110, &[]),
            Class(0x110, 0x100, &[]),
            Class(0x100, 0x999, &[]),
        ],
        12,
        126,
    ),
    (
        "a class below one whose superclass is missing",
        &[Class(0x100, 0x999, &[]), Class(0x110, 0x100, &[])],
        12,
        40,
    ),
    (
        "a class that is its own superclass",
        &[Class(0x100, 0x100, &[])],
        12,
        40,
    ),
    (
        "superclasses in a circle",
        &[Class(0x100, 0x110, &[]), Class(0x110, 0x100, &[])],
        12,
        40,
    ),
    (
        "superclasses in a circle behind a class without one",
        &[
            Class(0x90, 0, &[]),
            Class(0x100, 0x110, &[]),
            Class(0x110, 0x100, &[]),
        ],
        12,
        83,
    ),
    (
        "a chain into a circle",
        &[
            Class(0x130, 0x120, &[]),
            Class(0x120, 0x100, &[]),
            Class(0x100, 0x110, &[]),
            Class(0x110, 0x100, &[]),
        ],
        12,
        40,
    ),
    (
        "a superclass ID that names an instance, and a class behind it",
        &[
            Class(0x90, 0, &[]),
            Instance(0x110, 0x90, &[]),
            Class(0x100, 0x110, &[]),
            Class(0x110, 0, &[]),
        ],
        12,
        100,
    ),
    (
        "a superclass ID that names an array",
        &[Values(0x110, 8, 0, &[]), Class(0x100, 0x110, &[])],
        12,
        54,
    ),
    (
        "a class that comes again inside a chain: the first one ends it",
        &[
            Class(0x120, 0x110, &[]),
            Class(0x110, 0, &[]),
            Class(0x110, 0x120, &[]),
        ],
        10,
        126,
    ),
    (
        "a class that comes again inside a chain: the first one has a missing superclass",
        &[
            Class(0x120, 0x110, &[]),
            Class(0x110, 0x999, &[]),
            Class(0x110, 0, &[]),
        ],
        12,
        83,
    ),
    (
        "a class that comes again inside a chain: the first one closes a circle",
        &[
            Class(0x120, 0x110, &[]),
            Class(0x110, 0x120, &[]),
            Class(0x110, 0, &[]),
        ],
        12,
        40,
    ),
    (
        "an instance before a class whose superclass is missing",
        &[Instance(0x201, 0x100, &[]), Class(0x100, 0x999, &[])],
        12,
        57,
    ),
    (
        "an instance of one byte too many before a chain to a missing class",
        &[
            Instance(0x201, 0x110, &[0]),
            Class(0x110, 0x100, &[]),
            Class(0x100, 0x999, &[]),
        ],
        12,
        101,
    ),
    (
        "an instance of one byte too few before a chain to a missing class",
        &[
            Instance(0x201, 0x110, &[0; 4]),
            Class(0x110, 0x100, &[8]),
            Class(0x100, 0x999, &[2]),
        ],
        12,
        109,
    ),
    (
        "an instance of one byte too many before its class, which is its own superclass",
        &[Instance(0x201, 0x100, &[0]), Class(0x100, 0x100, &[])],
        12,
        58,
    ),
    (
        "an array of a class that is its own superclass",
        &[Objects(0x201, 0x100, &[]), Class(0x100, 0x100, &[])],
        12,
        57,
    ),
];

/// Instances that do not have their layout's size.
pub static SIZES: [Faulty; 8] = [
    (
        "one byte too few",
        &[Class(0x100, 0, &[2]), Instance(0x201, 0x100, &[0, 0, 2])],
        13,
        88,
    ),
    (
        "one byte too many",
        &[Class(0x100, 0, &[2]), Instance(0x201, 0x100, &[0; 5])],
        13,
        88,
    ),
    (
        "no byte before a class with a field, which comes again without it",
        &[
            Instance(0x201, 0x100, &[]),
            Class(0x100, 0, &[2]),
            Class(0x100, 0, &[]),
        ],
        13,
        40,
    ),
    (
        "a byte before its class, which has no field, and neither has its superclass",
        &[
            Instance(0x201, 0x110, &[0]),
            Class(0x110, 0x100, &[]),
            Class(0x100, 0, &[]),
        ],
        13,
        40,
    ),
    (
        "its own fields alone",
        &[
            Class(0x110, 0x100, &[8]),
            Class(0x100, 0, &[2]),
            Instance(0x201, 0x110, &[0]),
        ],
        13,
        136,
    ),
    (
        "the fields of its superclass alone",
        &[
            Class(0x110, 0x100, &[8]),
            Class(0x100, 0, &[2]),
            Instance(0x201, 0x110, &[0; 4]),
        ],
        13,
        136,
    ),
    (
        "not the field of the fifth class of its chain",
        &[
            Class(0x150, 0x140, &[8]),
            Class(0x140, 0x130, &[8]),
            Class(0x130, 0x120, &[8]),
            Class(0x120, 0x110, &[8]),
            Class(0x110, 0, &[8]),
            Instance(0x201, 0x150, &[0; 4]),
        ],
        13,
        280,
    ),
    (
        "29 bytes for a field of each primitive type",
        &[
            Class(0x100, 0, &[4, 5, 6, 7, 8, 9, 10, 11]),
            Instance(0x201, 0x100, &[0; 30]),
            Instance(0x202, 0x100, &[0; 29]),
        ],
        13,
        170,
    ),
];
