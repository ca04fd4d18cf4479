//! Dumps that show what a class refers to and which fields superclasses add, and the reports of these dumps.

use super::Reported;
use crate::tests::dumps::Record::{Heap, Load, Text};
use crate::tests::dumps::Sub::{Class, Instance, Raw, Root, Values};

pub static CLASSES: [Reported; 3] = [
    (
        "what a class refers to: loader, protection domain, a constant, a static field, and not what is reserved",
        4,
        &[Heap(&[
            Raw(&[
                0x20, 0, 0, 1, 0, 0, 0, 0, 0, 0, 0, 0, 0, 0, 0, 2, 1, 0, 0, 0, 0, 0, 0, 2, 2, 0, 0,
                2, 3, 0, 0, 0, 0, 0, 0, 0, 0, 0, 1, 0, 1, 2, 0, 0, 2, 4, 0, 2, 0, 0, 0, 2, 2, 0, 0,
                2, 5, 0, 0, 0, 2, 5, 0, 0x41, 0, 0,
            ]),
            Values(0x201, 8, 1, &[0]),
            Values(0x202, 8, 1, &[0]),
            Values(0x203, 8, 1, &[0]),
            Values(0x204, 8, 1, &[0]),
            Values(0x205, 8, 1, &[0]),
            Root(0x100),
        ])],
        &[
            (1, 6, "<class>"),
            (4, 4, "byte[]"),
            (5, 10, "(reachable)"),
            (1, 1, "(unreachable)"),
            (0, 0, "(unresolved)"),
        ],
    ),
    (
        "a class before its superclass",
        4,
        &[
            Text(1, b"A"),
            Text(3, b"B"),
            Load(0x100, 1),
            Load(0x110, 3),
            Heap(&[
                Class(0x110, 0x100, &[10]),
                Class(0x100, 0, &[2]),
                Instance(0x301, 0x110, &[0, 0, 0, 5, 0, 0, 2, 2]),
                Instance(0x202, 0x100, &[0, 0, 0, 0]),
                Root(0x301),
            ]),
        ],
        &[
            (1, 8, "B"),
            (1, 4, "A"),
            (2, 0, "<class>"),
            (4, 12, "(reachable)"),
            (0, 0, "(unreachable)"),
            (0, 0, "(unresolved)"),
        ],
    ),
    (
        "three classes, each above the one before it",
        4,
        &[Heap(&[
            Class(0x120, 0x110, &[9]),
            Class(0x110, 0x100, &[2]),
            Class(0x100, 0, &[8, 2]),
            Instance(0x201, 0x120, &[0, 7, 0, 0, 2, 2, 5, 0, 0, 2, 3]),
            Instance(0x202, 0x100, &[0, 0, 0, 0, 0]),
            Instance(0x203, 0x100, &[1, 0, 0, 2, 1]),
            Root(0x201),
        ])],
        &[
            (1, 11, "?0x120"),
            (2, 10, "?0x100"),
            (3, 0, "<class>"),
            (6, 21, "(reachable)"),
            (0, 0, "(unreachable)"),
            (0, 0, "(unresolved)"),
        ],
    ),
];
