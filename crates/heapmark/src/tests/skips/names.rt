//! A field is skipped by two names: that of the class that declares it, and its own. If there are several records for a
//! class or a string, the first counts.

use super::Skipped;
use crate::tests::dumps::Record;
use crate::tests::dumps::Record::{Heap, Load, Text};
use crate::tests::dumps::Sub::{Class, Instance, Named, Root, Static, Values};
use crate::tests::rows::Line;

/// A class with one field, and an instance of it whose field names an array.
const HEAP: Record = Heap(&[
    Class(0x110, 0, &[2]),
    Instance(0x201, 0x110, &[0, 0, 2, 2]),
    Values(0x202, 10, 1, &[0; 4]),
    Root(0x201),
]);

/// `HEAP`, whose class is named twice, first `T`, and whose field is named twice, first `referent`.
const NAMED_TWICE: &[Record] = &[
    Text(2, b"referent"),
    Text(2, b"other"),
    Text(3, b"T"),
    Text(4, b"U"),
    Load(0x110, 3),
    Load(0x110, 4),
    HEAP,
];

const FOLLOWED: &[Line] = &[
    (1, 4, "T"),
    (1, 4, "int[]"),
    (1, 0, "<class>"),
    (3, 8, "(reachable)"),
    (0, 0, "(unreachable)"),
    (0, 0, "(unresolved)"),
];

const SKIPPED: &[Line] = &[
    (1, 4, "T"),
    (1, 0, "<class>"),
    (2, 4, "(reachable)"),
    (1, 4, "(unreachable)"),
    (0, 0, "(unresolved)"),
];

/// The lines of the report if the class has no name: nothing is skipped.
const OF_NO_NAME: &[Line] = &[
    (1, 4, "?0x110"),
    (1, 4, "int[]"),
    (1, 0, "<class>"),
    (3, 8, "(reachable)"),
    (0, 0, "(unreachable)"),
    (0, 0, "(unresolved)"),
];

/// A class `T` without fields of its own, whose superclass `S` has the field `referent`, and an instance of `T`.
const INHERITED: &[Record] = &[
    Text(1, b"S"),
    Text(2, b"referent"),
    Text(3, b"T"),
    Load(0x100, 1),
    Load(0x110, 3),
    Heap(&[
        Class(0x100, 0, &[2]),
        Class(0x110, 0x100, &[]),
        Instance(0x201, 0x110, &[0, 0, 2, 2]),
        Values(0x202, 10, 1, &[0; 4]),
        Root(0x201),
    ]),
];

/// A class `a` with a field `b.c`, and a class `a.b` with a field `c`. Each has an instance whose field names an array.
const DOTS: &[Record] = &[
    Text(1, b"a"),
    Text(3, b"a.b"),
    Text(5, b"b.c"),
    Text(6, b"c"),
    Load(0x100, 1),
    Load(0x110, 3),
    Heap(&[
        Named(0x100, 0, &[(5, 2)]),
        Named(0x110, 0, &[(6, 2)]),
        Instance(0x201, 0x100, &[0, 0, 2, 3]),
        Instance(0x202, 0x110, &[0, 0, 2, 4]),
        Values(0x203, 8, 1, &[0]),
        Values(0x204, 10, 1, &[0; 4]),
        Root(0x201),
        Root(0x202),
    ]),
];

pub static NAMES: [Skipped; 11] = [
    (
        "the first names of a class and of a field",
        NAMED_TWICE,
        Some("T.referent"),
        SKIPPED,
    ),
    (
        "a class's second name",
        NAMED_TWICE,
        Some("U.referent"),
        FOLLOWED,
    ),
    (
        "a field's second name",
        NAMED_TWICE,
        Some("T.other"),
        FOLLOWED,
    ),
    (
        "the last of many entries",
        NAMED_TWICE,
        Some("T.T,referent.T,T.referen,T.referents,t.referent,T.referent"),
        SKIPPED,
    ),
    (
        "a field whose string is not there",
        &[Text(3, b"T"), Load(0x110, 3), HEAP],
        Some("T.referent"),
        FOLLOWED,
    ),
    (
        "a class that is not loaded",
        &[Text(2, b"referent"), Text(3, b"T"), HEAP],
        Some("T.referent"),
        OF_NO_NAME,
    ),
    (
        "a class whose string is not there",
        &[Text(2, b"referent"), Load(0x110, 3), HEAP],
        Some("T.referent"),
        OF_NO_NAME,
    ),
    (
        "a field that the superclass declares, by the class",
        INHERITED,
        Some("T.referent"),
        &[
            (1, 4, "T"),
            (1, 4, "int[]"),
            (2, 0, "<class>"),
            (4, 8, "(reachable)"),
            (0, 0, "(unreachable)"),
            (0, 0, "(unresolved)"),
        ],
    ),
    (
        "a field that the superclass declares, by the superclass",
        INHERITED,
        Some("S.referent"),
        &[
            (1, 4, "T"),
            (2, 0, "<class>"),
            (3, 4, "(reachable)"),
            (1, 4, "(unreachable)"),
            (0, 0, "(unresolved)"),
        ],
    ),
    (
        "a static field",
        &[
            Text(2, b"referent"),
            Text(3, b"T"),
            Load(0x110, 3),
            Heap(&[
                Static(0x110, 2, &[0, 0, 2, 2]),
                Values(0x202, 10, 1, &[0; 4]),
                Root(0x110),
            ]),
        ],
        Some("T.referent"),
        &[
            (1, 4, "<class>"),
            (1, 4, "int[]"),
            (2, 8, "(reachable)"),
            (0, 0, "(unreachable)"),
            (0, 0, "(unresolved)"),
        ],
    ),
    (
        "the last dot parts class from field",
        DOTS,
        Some("a.b.c"),
        &[
            (1, 4, "a"),
            (1, 4, "a.b"),
            (1, 1, "byte[]"),
            (2, 0, "<class>"),
            (5, 9, "(reachable)"),
            (1, 4, "(unreachable)"),
            (0, 0, "(unresolved)"),
        ],
    ),
];
