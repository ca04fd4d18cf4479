//! The graphs of dumps of which some fields are not followed.

use crate::walks::REFERENCES;
use crate::worked::{A_CLASS, Worked};
use heap_graph::RowKey;
use test_dumps::Record::{Heap, Load, Text};
use test_dumps::Sub::{Instance, Named, Root, Whole};
use test_dumps::{ClassParts, Record};

/// The parts of the graph of `REFERENCES` that are the same for each list.
const REFERENCE: Worked = Worked {
    name: "",
    id_size: 4,
    records: REFERENCES,
    roots: &[2],
    objects: &[],
    classes: &[
        (0x100, Some(b"java/lang/ref/Reference")),
        (0x110, Some(b"T")),
    ],
    unresolved: 0,
};

/// Two classes whose fields could be confused if the two names were one text: class `a` with a field `b.c`, and class
/// `a.b` with a field `c`.
const DOTS: &[Record] = &[
    Text(1, b"a"),
    Text(2, b"b.c"),
    Text(3, b"a.b"),
    Text(4, b"c"),
    Load(0x100, 1),
    Load(0x110, 3),
    Heap(&[
        Named(0x100, 0, &[(2, 2)]),
        Named(0x110, 0, &[(4, 2)]),
        Instance(0x201, 0x100, &[0, 0, 2, 2]),
        Instance(0x202, 0x110, &[0, 0, 2, 1]),
        Root(0x201),
    ]),
];

/// Class `T` is loaded again as `U`. It has a field `f`, for whose name there is a second string, and a field whose
/// string is missing. The second class is not loaded, and the string of the third class is missing.
const LACKING: &[Record] = &[
    Text(1, b"T"),
    Text(2, b"f"),
    Text(2, b"g"),
    Text(3, b"U"),
    Load(0x100, 1),
    Load(0x100, 3),
    Load(0x120, 9),
    Heap(&[
        Named(0x100, 0, &[(2, 2), (8, 2)]),
        Named(0x110, 0, &[(2, 2)]),
        Named(0x120, 0, &[(2, 2), (8, 2)]),
        Instance(0x201, 0x100, &[0, 0, 2, 2, 0, 0, 2, 3]),
        Instance(0x202, 0x110, &[0, 0, 2, 3]),
        Instance(0x203, 0x120, &[0, 0, 2, 1, 0, 0, 2, 2]),
    ]),
];

/// The parts of the graph of `LACKING` that are the same for each list.
const NAMES_LACKING: Worked = Worked {
    name: "",
    id_size: 4,
    records: LACKING,
    roots: &[],
    objects: &[],
    classes: &[(0x100, Some(b"T")), (0x110, None), (0x120, None)],
    unresolved: 0,
};

/// Lists of the fields of `REFERENCES`, each with the graph if the fields of the list are not followed.
pub static REFERENTS: [(&str, Worked); 4] = [
    (
        "T.other",
        Worked {
            name: "a field that no class has",
            objects: &[
                (&[], A_CLASS, 0, 0),
                (&[0], A_CLASS, 0, 0),
                (&[1, 3, 4], RowKey::Class(1), 8, 0),
                (&[1], RowKey::Class(1), 8, 0),
                (&[1], RowKey::Class(1), 8, 1),
            ],
            unresolved: 1,
            ..REFERENCE
        },
    ),
    (
        "java/lang/ref/Reference.referent",
        Worked {
            name: "a field of the superclass, in instances of the subclass",
            objects: &[
                (&[], A_CLASS, 0, 0),
                (&[0], A_CLASS, 0, 0),
                (&[1, 3], RowKey::Class(1), 8, 0),
                (&[1], RowKey::Class(1), 8, 0),
                (&[1], RowKey::Class(1), 8, 0),
            ],
            unresolved: 0,
            ..REFERENCE
        },
    ),
    (
        "T.referent",
        Worked {
            name: "the field of that name that the class declares itself",
            objects: &[
                (&[], A_CLASS, 0, 0),
                (&[0], A_CLASS, 0, 0),
                (&[1, 4], RowKey::Class(1), 8, 0),
                (&[1], RowKey::Class(1), 8, 0),
                (&[1], RowKey::Class(1), 8, 1),
            ],
            unresolved: 1,
            ..REFERENCE
        },
    ),
    (
        "java/lang/ref/Reference.referent,T.referent",
        Worked {
            name: "both fields of that name",
            objects: &[
                (&[], A_CLASS, 0, 0),
                (&[0], A_CLASS, 0, 0),
                (&[1], RowKey::Class(1), 8, 0),
                (&[1], RowKey::Class(1), 8, 0),
                (&[1], RowKey::Class(1), 8, 0),
            ],
            unresolved: 0,
            ..REFERENCE
        },
    ),
];

/// Lists of fields, each with a dump and with its graph if the fields of the list are not followed.
pub static SKIPPED: [(&str, Worked); 5] = [
    (
        "a.b.c",
        Worked {
            name: "the last dot parts class from field",
            id_size: 4,
            records: DOTS,
            roots: &[2],
            objects: &[
                (&[], A_CLASS, 0, 0),
                (&[], A_CLASS, 0, 0),
                (&[0, 3], RowKey::Class(0), 4, 0),
                (&[1], RowKey::Class(1), 4, 0),
            ],
            classes: &[(0x100, Some(b"a")), (0x110, Some(b"a.b"))],
            unresolved: 0,
        },
    ),
    (
        "T.f",
        Worked {
            name: "of two strings and of two loaded classes the first counts",
            objects: &[
                (&[], A_CLASS, 0, 0),
                (&[], A_CLASS, 0, 0),
                (&[], A_CLASS, 0, 0),
                (&[0, 5], RowKey::Class(0), 8, 0),
                (&[1, 5], RowKey::Class(1), 4, 0),
                (&[2, 3, 4], RowKey::Class(2), 8, 0),
            ],
            ..NAMES_LACKING
        },
    ),
    (
        "T.g,U.f,U.g",
        Worked {
            name: "and none behind it",
            objects: &[
                (&[], A_CLASS, 0, 0),
                (&[], A_CLASS, 0, 0),
                (&[], A_CLASS, 0, 0),
                (&[0, 4, 5], RowKey::Class(0), 8, 0),
                (&[1, 5], RowKey::Class(1), 4, 0),
                (&[2, 3, 4], RowKey::Class(2), 8, 0),
            ],
            ..NAMES_LACKING
        },
    ),
    (
        "T.referent",
        Worked {
            name: "a static field of that name is followed",
            id_size: 4,
            records: &[
                Text(1, b"T"),
                Text(2, b"referent"),
                Load(0x110, 1),
                Heap(&[
                    Whole(ClassParts {
                        id: 0x110,
                        others: [0; 6],
                        constants: &[],
                        statics: &[(2, &[0, 0, 2, 1])],
                        fields: &[2],
                    }),
                    Instance(0x201, 0x110, &[0, 0, 2, 1]),
                ]),
            ],
            roots: &[],
            objects: &[(&[1], A_CLASS, 4, 0), (&[0], RowKey::Class(0), 4, 0)],
            classes: &[(0x110, Some(b"T"))],
            unresolved: 0,
        },
    ),
    (
        "T.b,T.d,T.e",
        Worked {
            name: "fields among others, of which one is no reference",
            id_size: 4,
            records: &[
                Text(1, b"T"),
                Text(3, b"a"),
                Text(4, b"b"),
                Text(5, b"c"),
                Text(6, b"d"),
                Text(7, b"e"),
                Load(0x100, 1),
                Heap(&[
                    Named(0x100, 0, &[(3, 8), (4, 2), (5, 2), (6, 5), (7, 2), (3, 2)]),
                    Instance(
                        0x201,
                        0x100,
                        &[7, 0, 0, 2, 1, 0, 0, 2, 2, 0, 1, 0, 0, 9, 9, 0, 0, 9, 8],
                    ),
                    Instance(0x202, 0x100, &[0; 19]),
                ]),
            ],
            roots: &[],
            objects: &[
                (&[], A_CLASS, 0, 0),
                (&[0, 2], RowKey::Class(0), 19, 1),
                (&[0], RowKey::Class(0), 19, 0),
            ],
            classes: &[(0x100, Some(b"T"))],
            unresolved: 1,
        },
    ),
];
