//! Dumps of objects, roots, names and records that are skipped, and their reports.

use super::Reported;
use crate::tests::dumps::Record::{Heap, Load, Other, Segment, Text};
use crate::tests::dumps::Sub::{Class, Instance, Objects, Raw, Root, Static, Values};

/// Objects and roots.
pub static OBJECTS: [Reported; 5] = [
    (
        "two more that no root reaches",
        4,
        &[
            Text(1, b"A"),
            Load(0x100, 1),
            Heap(&[
                Class(0x100, 0, &[2]),
                Instance(0x201, 0x100, &[0, 0, 2, 2]),
                Instance(0x202, 0x100, &[0, 0, 2, 1]),
                Instance(0x203, 0x100, &[0, 0, 2, 4]),
                Instance(0x204, 0x100, &[0, 0, 2, 3]),
                Root(0x201),
            ]),
        ],
        &[
            (2, 8, "A"),
            (1, 0, "<class>"),
            (3, 8, "(reachable)"),
            (2, 8, "(unreachable)"),
            (0, 0, "(unresolved)"),
        ],
    ),
    (
        "roots that are null, that name nothing, and that come again",
        4,
        &[
            Text(1, b"A"),
            Load(0x100, 1),
            Heap(&[
                Class(0x100, 0, &[2]),
                Instance(0x201, 0x100, &[0, 0, 2, 2]),
                Instance(0x202, 0x100, &[0, 0, 2, 1]),
                Root(0x201),
                Root(0),
                Root(0x999),
                Root(0x201),
                Root(0x201),
            ]),
        ],
        &[
            (2, 8, "A"),
            (1, 0, "<class>"),
            (3, 8, "(reachable)"),
            (0, 0, "(unreachable)"),
            (1, 0, "(unresolved)"),
        ],
    ),
    (
        "identifiers that name nothing, in objects that are reachable and not, and in a root",
        4,
        &[
            Text(1, b"A"),
            Load(0x100, 1),
            Heap(&[
                Class(0x100, 0, &[2]),
                Instance(0x201, 0x100, &[0, 0, 9, 9]),
                Instance(0x202, 0x100, &[0, 0, 9, 8]),
                Objects(0x203, 0x100, &[0x998, 0, 0x201, 0x997]),
                Root(0x201),
                Root(0x996),
                Root(0),
            ]),
        ],
        &[
            (1, 4, "A"),
            (1, 0, "<class>"),
            (2, 4, "(reachable)"),
            (2, 20, "(unreachable)"),
            (5, 0, "(unresolved)"),
        ],
    ),
    (
        "a row for each primitive type, and arrays of no element and of three",
        4,
        &[Heap(&[
            Values(0x301, 4, 1, &[1]),
            Values(0x302, 5, 1, &[1, 2]),
            Values(0x303, 6, 1, &[1, 2, 3, 4]),
            Values(0x304, 7, 1, &[1, 2, 3, 4, 5, 6, 7, 8]),
            Values(0x305, 8, 1, &[1]),
            Values(0x306, 9, 1, &[1, 2]),
            Values(0x307, 10, 1, &[1, 2, 3, 4]),
            Values(0x308, 11, 1, &[1, 2, 3, 4, 5, 6, 7, 8]),
            Values(0x309, 11, 0, &[]),
            Values(0x30a, 10, 3, &[0; 12]),
            Root(0x301),
            Root(0x302),
            Root(0x303),
            Root(0x304),
            Root(0x305),
            Root(0x306),
            Root(0x307),
            Root(0x308),
        ])],
        &[
            (1, 8, "double[]"),
            (1, 8, "long[]"),
            (1, 4, "float[]"),
            (1, 4, "int[]"),
            (1, 2, "char[]"),
            (1, 2, "short[]"),
            (1, 1, "boolean[]"),
            (1, 1, "byte[]"),
            (8, 30, "(reachable)"),
            (2, 12, "(unreachable)"),
            (0, 0, "(unresolved)"),
        ],
    ),
    (
        "identifiers of 8 bytes, and both kinds of array",
        8,
        &[
            Text(1, b"[Ljava/lang/Object;"),
            Load(0x100, 1),
            Heap(&[
                Class(0x100, 0, &[]),
                Objects(0x201, 0x100, &[0, 0x201, 0x999]),
                Values(0x202, 11, 0, &[]),
                Root(0x201),
                Root(0x202),
            ]),
        ],
        &[
            (1, 24, "[Ljava/lang/Object;"),
            (1, 0, "<class>"),
            (1, 0, "long[]"),
            (3, 24, "(reachable)"),
            (0, 0, "(unreachable)"),
            (1, 0, "(unresolved)"),
        ],
    ),
];

/// Names, and records beside the snapshot.
pub static NAMES: [Reported; 5] = [
    (
        "names in their order, and bytes that are shown as numbers",
        4,
        &[
            Text(1, b"A"),
            Text(3, b"A \xc3"),
            Load(0x100, 1),
            Load(0x110, 1),
            Load(0x120, 3),
            Heap(&[
                Class(0x100, 0, &[]),
                Class(0x110, 0, &[]),
                Class(0x120, 0, &[]),
                Instance(0x201, 0x100, &[]),
                Instance(0x202, 0x110, &[]),
                Instance(0x203, 0x120, &[]),
                Root(0x201),
                Root(0x202),
                Root(0x203),
            ]),
        ],
        &[
            (3, 0, "<class>"),
            (1, 0, "A"),
            (1, 0, "A"),
            (1, 0, "A\\x20\\xc3"),
            (6, 0, "(reachable)"),
            (0, 0, "(unreachable)"),
            (0, 0, "(unresolved)"),
        ],
    ),
    (
        "segments with an end",
        4,
        &[Segment(&[]), Segment(&[]), Other(0x2C, &[])],
        &[
            (0, 0, "(reachable)"),
            (0, 0, "(unreachable)"),
            (0, 0, "(unresolved)"),
        ],
    ),
    (
        "a static field, a class without a name, and a thread's root",
        4,
        &[Heap(&[
            Static(0xab0, 10, &[0, 0, 0, 7]),
            Instance(0x201, 0xab0, &[]),
            Raw(&[0x08, 0, 0, 2, 1, 0, 0, 0, 0, 0, 0, 0, 0]),
        ])],
        &[
            (1, 4, "<class>"),
            (1, 0, "?0xab0"),
            (2, 4, "(reachable)"),
            (0, 0, "(unreachable)"),
            (0, 0, "(unresolved)"),
        ],
    ),
    (
        "names that come again count by their first",
        4,
        &[
            Text(1, b"A"),
            Load(0x100, 1),
            Text(1, b"Z"),
            Text(3, b"Q"),
            Load(0x100, 3),
            Heap(&[
                Class(0x100, 0, &[2]),
                Instance(0x201, 0x100, &[0, 0, 2, 2]),
                Instance(0x202, 0x100, &[0, 0, 2, 1]),
                Root(0x201),
            ]),
        ],
        &[
            (2, 8, "A"),
            (1, 0, "<class>"),
            (3, 8, "(reachable)"),
            (0, 0, "(unreachable)"),
            (0, 0, "(unresolved)"),
        ],
    ),
    (
        "a record that is skipped",
        4,
        &[Other(0x7E, &[0xff, 0xff, 0xff]), Heap(&[])],
        &[
            (0, 0, "(reachable)"),
            (0, 0, "(unreachable)"),
            (0, 0, "(unresolved)"),
        ],
    ),
];
