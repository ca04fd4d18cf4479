//! Dumps with their expected graphs.

use heap_graph::RowKey;
use test_dumps::Record::{Heap, Load, Text};
use test_dumps::Sub::{Class, Instance, Objects, Root, Static, Values, Whole};
use test_dumps::{ClassParts, Record, TWO_OBJECTS};

/// The objects that an object refers to, its row, its bytes, and the number of identifiers other than 0 that it holds
/// and that name no object.
pub type Object<'a> = (&'a [u32], RowKey, u64, u64);

/// The identifier and the text of a class.
pub type ClassRow = (u64, Option<&'static [u8]>);

/// A dump and its graph.
pub struct Worked {
    pub name: &'static str,
    pub id_size: u32,
    pub records: &'static [Record],
    pub roots: &'static [u32],
    pub objects: &'static [Object<'static>],
    pub classes: &'static [ClassRow],
    /// The number of identifiers other than 0, in all objects and in roots, that name no object.
    pub unresolved: u64,
}

/// The row of an object that is a class.
pub const A_CLASS: RowKey = RowKey::ClassObject;

/// A class before its superclass, and an instance of each.
pub const SUBCLASS_FIRST: &[Record] = &[
    Text(1, b"A"),
    Text(3, b"B"),
    Load(0x100, 1),
    Load(0x110, 3),
    Heap(&[
        Class(0x110, 0x100, &[10]),
        Class(0x100, 0, &[2]),
        Instance(0x301, 0x110, &[0, 0, 0, 5, 0, 0, 2, 2]),
        Instance(0x202, 0x100, &[0, 0, 0, 0]),
        Root(0x301),
    ]),
];

/// An array of null, itself and a missing identifier, with identifiers of 8 bytes, and an empty array.
pub const SELF_AND_MISSING: &[Record] = &[
    Text(1, b"[Ljava/lang/Object;"),
    Load(0x100, 1),
    Heap(&[
        Class(0x100, 0, &[]),
        Objects(0x201, 0x100, &[0, 0x201, 0x999]),
        Values(0x202, 11, 0, &[]),
        Root(0x201),
        Root(0x202),
    ]),
];

/// An array, an instance and a class that hold missing identifiers.
pub const MISSING_FIRST: &[Record] = &[Heap(&[
    Objects(0x201, 0x100, &[0x999, 0x202, 0x999, 0x201]),
    Instance(0x202, 0x100, &[0, 0, 9, 0x99, 0, 0, 2, 1]),
    Class(0x100, 0, &[2, 2]),
    Static(0x110, 2, &[0, 0, 9, 0x99]),
    Root(0x999),
    Root(0x202),
])];

/// A class that refers to an object by each of its parts.
pub const WHOLE_CLASS: &[Record] = &[Heap(&[
    Whole(ClassParts {
        id: 0x100,
        others: [0x110, 0x201, 0x202, 0x203, 0x204, 0x205],
        constants: &[
            (1, 2, &[0, 0, 2, 6]),
            (2, 10, &[0, 0, 2, 4]),
            (1, 2, &[0; 4]),
        ],
        statics: &[(2, &[0, 0, 2, 7]), (5, &[0, 0x41]), (2, &[0, 0, 2, 2])],
        fields: &[],
    }),
    Class(0x110, 0, &[]),
    Values(0x201, 8, 1, &[0]),
    Values(0x202, 4, 2, &[0; 2]),
    Values(0x203, 5, 1, &[0; 2]),
    Values(0x204, 6, 1, &[0; 4]),
    Values(0x205, 7, 1, &[0; 8]),
    Values(0x206, 9, 1, &[0; 2]),
    Values(0x207, 10, 1, &[0; 4]),
    Root(0x100),
])];

/// Classes with loaders, signers and protection domains, with identifiers of 8 bytes.
pub const LOADERS: &[Record] = &[Heap(&[
    Whole(ClassParts {
        id: 0x100,
        others: [0, 0x991, 0x992, 0x993, 0x994, 0x995],
        constants: &[],
        statics: &[],
        fields: &[],
    }),
    Whole(ClassParts {
        id: 0x110,
        others: [0x100, 0x110, 0, 0x100, 0, 0],
        constants: &[],
        statics: &[(2, &[0, 0, 0, 0, 0, 0, 9, 0x99])],
        fields: &[2],
    }),
    Instance(0x201, 0x110, &[0, 0, 0, 0, 0, 0, 1, 0x10]),
])];

// Three tables, not one: a function that names a static is checked together with all of it, and one table took several
// times as long as the three.

/// Few objects, or none, and roots.
pub static ROOTED: [Worked; 3] = [
    Worked {
        name: "two instances that refer to each other",
        id_size: 4,
        records: TWO_OBJECTS,
        roots: &[1],
        objects: &[
            (&[], A_CLASS, 0, 0),
            (&[0, 2], RowKey::Class(0), 4, 0),
            (&[0, 1], RowKey::Class(0), 4, 0),
        ],
        classes: &[(0x100, Some(b"A"))],
        unresolved: 0,
    },
    Worked {
        name: "no object",
        id_size: 8,
        records: &[Heap(&[])],
        roots: &[],
        objects: &[],
        classes: &[],
        unresolved: 0,
    },
    Worked {
        // The identifiers of its objects agree in their lowest three bits.
        name: "roots that are null, that name nothing, and that come again",
        id_size: 4,
        records: &[Heap(&[
            Class(0x100, 0, &[]),
            Instance(0x208, 0x100, &[]),
            Root(0),
            Root(0x999),
            Root(0x208),
            Root(0x100),
            Root(0x208),
        ])],
        roots: &[1, 0, 1],
        objects: &[(&[], A_CLASS, 0, 0), (&[0], RowKey::Class(0), 0, 0)],
        classes: &[(0x100, None)],
        unresolved: 1,
    },
];

/// Classes: their order, their superclasses, and the texts that name them.
pub static CLASSES: [Worked; 4] = [
    Worked {
        name: "a class before its superclass: its own fields come first",
        id_size: 4,
        records: SUBCLASS_FIRST,
        roots: &[2],
        objects: &[
            (&[1], A_CLASS, 0, 0),
            (&[], A_CLASS, 0, 0),
            (&[0, 3], RowKey::Class(0), 8, 0),
            (&[1], RowKey::Class(1), 4, 0),
        ],
        classes: &[(0x110, Some(b"B")), (0x100, Some(b"A"))],
        unresolved: 0,
    },
    Worked {
        name: "three classes, each above the one before it",
        id_size: 4,
        records: &[Heap(&[
            Class(0x120, 0x110, &[9]),
            Class(0x110, 0x100, &[2]),
            Class(0x100, 0, &[8, 2]),
            Instance(0x201, 0x120, &[0, 7, 0, 0, 2, 2, 5, 0, 0, 2, 3]),
            Instance(0x202, 0x100, &[0, 0, 0, 0, 0]),
            Instance(0x203, 0x100, &[1, 0, 0, 2, 1]),
            Root(0x201),
        ])],
        roots: &[3],
        objects: &[
            (&[1], A_CLASS, 0, 0),
            (&[2], A_CLASS, 0, 0),
            (&[], A_CLASS, 0, 0),
            (&[0, 4, 5], RowKey::Class(0), 11, 0),
            (&[2], RowKey::Class(2), 5, 0),
            (&[2, 3], RowKey::Class(2), 5, 0),
        ],
        classes: &[(0x120, None), (0x110, None), (0x100, None)],
        unresolved: 0,
    },
    Worked {
        name: "classes without fields between two that have some, and a chain of five",
        id_size: 4,
        records: &[Heap(&[
            Class(0x150, 0x140, &[]),
            Class(0x140, 0x130, &[2]),
            Class(0x130, 0x120, &[]),
            Class(0x120, 0x110, &[]),
            Class(0x110, 0, &[8, 2]),
            Instance(0x201, 0x150, &[0, 0, 2, 1, 9, 0, 0, 1, 0x10]),
            Instance(0x202, 0x130, &[9, 0, 0, 2, 1]),
        ])],
        roots: &[],
        objects: &[
            (&[1], A_CLASS, 0, 0),
            (&[2], A_CLASS, 0, 0),
            (&[3], A_CLASS, 0, 0),
            (&[4], A_CLASS, 0, 0),
            (&[], A_CLASS, 0, 0),
            (&[0, 5, 4], RowKey::Class(0), 9, 0),
            (&[2, 5], RowKey::Class(2), 5, 0),
        ],
        classes: &[
            (0x150, None),
            (0x140, None),
            (0x130, None),
            (0x120, None),
            (0x110, None),
        ],
        unresolved: 0,
    },
    Worked {
        name: "two classes whose identifiers fall, an instance before its class, and a text that comes again",
        id_size: 4,
        records: &[
            Text(1, b"A"),
            Load(0x200, 1),
            Text(1, b"Z"),
            Text(3, b"Q"),
            Load(0x200, 3),
            Load(0x100, 7),
            Heap(&[
                Instance(0x301, 0x100, &[]),
                Class(0x200, 0, &[]),
                Class(0x100, 0, &[]),
                Instance(0x302, 0x200, &[]),
                Root(0x302),
                Root(0x301),
            ]),
        ],
        roots: &[3, 0],
        objects: &[
            (&[2], RowKey::Class(1), 0, 0),
            (&[], A_CLASS, 0, 0),
            (&[], A_CLASS, 0, 0),
            (&[1], RowKey::Class(0), 0, 0),
        ],
        classes: &[(0x200, Some(b"A")), (0x100, None)],
        unresolved: 0,
    },
];

/// References of each kind, some of them to missing objects.
pub static REFERRING: [Worked; 4] = [
    Worked {
        name: "identifiers of 8 bytes: null, itself, and one that is missing",
        id_size: 8,
        records: SELF_AND_MISSING,
        roots: &[1, 2],
        objects: &[
            (&[], A_CLASS, 0, 0),
            (&[0, 1], RowKey::Class(0), 24, 1),
            (&[], RowKey::Primitive(11), 0, 0),
        ],
        classes: &[(0x100, Some(b"[Ljava/lang/Object;"))],
        unresolved: 1,
    },
    Worked {
        name: "a missing identifier before a good one, in an array, in an instance, and in static fields",
        id_size: 4,
        records: MISSING_FIRST,
        roots: &[1],
        objects: &[
            (&[2, 1, 0], RowKey::Class(0), 16, 2),
            (&[2, 0], RowKey::Class(0), 8, 1),
            (&[], A_CLASS, 0, 0),
            (&[], A_CLASS, 4, 1),
        ],
        classes: &[(0x100, None), (0x110, None)],
        unresolved: 5,
    },
    Worked {
        name: "all that a class refers to, and not the two reserved identifiers",
        id_size: 4,
        records: WHOLE_CLASS,
        roots: &[0],
        objects: &[
            (&[1, 2, 3, 4, 7, 8, 3], A_CLASS, 10, 0),
            (&[], A_CLASS, 0, 0),
            (&[], RowKey::Primitive(8), 1, 0),
            (&[], RowKey::Primitive(4), 2, 0),
            (&[], RowKey::Primitive(5), 2, 0),
            (&[], RowKey::Primitive(6), 4, 0),
            (&[], RowKey::Primitive(7), 8, 0),
            (&[], RowKey::Primitive(9), 2, 0),
            (&[], RowKey::Primitive(10), 4, 0),
        ],
        classes: &[(0x100, None), (0x110, None)],
        unresolved: 0,
    },
    Worked {
        name: "loader, signers and protection domain that are missing, and a loader that is the class itself",
        id_size: 8,
        records: LOADERS,
        roots: &[],
        objects: &[
            (&[], A_CLASS, 0, 3),
            (&[0, 1, 0], A_CLASS, 8, 1),
            (&[1, 1], RowKey::Class(1), 8, 0),
        ],
        classes: &[(0x100, None), (0x110, None)],
        unresolved: 4,
    },
];
