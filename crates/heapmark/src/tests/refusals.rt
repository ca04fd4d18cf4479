//! The line that a refusal prints.

use crate::Refusal;
use crate::printing::print_refusal;
use std::alloc::Global;

/// The code and the name of each refusal, also of 17, which is withdrawn.
static NAMES: [(u8, &str); 21] = [
    (1, "BadHeader"),
    (2, "BadIdSize"),
    (3, "Truncated"),
    (4, "BadLength"),
    (5, "BadSubTag"),
    (6, "SubTruncated"),
    (7, "BadType"),
    (8, "DumpOrder"),
    (9, "ZeroObject"),
    (10, "DuplicateObject"),
    (11, "UnknownClass"),
    (12, "SuperChain"),
    (13, "InstanceSize"),
    (14, "TooLarge"),
    (15, "OutOfMemory"),
    (16, "TagSpent"),
    (17, "NoBuffer"),
    (18, "WorkerRefused"),
    (19, "ReadFault"),
    (20, "WriteFault"),
    (21, "BadOptions"),
];

#[test]
fn each_code_has_its_name(rt: HostRuntime) {
    for (code, name) in NAMES {
        assert_eq!(rt; Refusal { code, offset: None }.name(), name);
    }
}

/// Returns the status of `refusal`, and whether just `want` is printed for it.
fn told(alloc: Global, refusal: &Refusal, want: &str) -> (u8, bool) {
    let mut err = Vec::new(alloc);
    let status = print_refusal(&mut err, refusal);
    (status, err.as_slice() == want.as_bytes())
}

/// Tests whether a refusal of `code`, without a place, is printed with its code and `name`, and has status 1.
fn is_printed(alloc: Global, code: u8, name: &str) -> bool {
    let refusal = Refusal { code, offset: None };
    match format!(in alloc; "heapmark: refused {code} {name}\n") {
        Ok(want) => told(alloc, &refusal, want.as_str()) == (1, true),
        Err(_) => false,
    }
}

#[test]
fn each_code_is_printed(rt: HostRuntime) {
    for (code, name) in NAMES {
        assert!(rt; is_printed(rt.alloc(), code, name), "{name}");
    }
}

#[test]
fn refusals_are_printed_by_code_name_and_place(rt: HostRuntime) {
    let too_large = Refusal {
        code: 14,
        offset: Some(1_073_741_824),
    };
    let cases = [
        (too_large, "heapmark: refused 14 TooLarge at 1073741824\n"),
        (Refusal::OUT_OF_MEMORY, "heapmark: refused 15 OutOfMemory\n"),
    ];
    for (refusal, want) in cases {
        assert_eq!(rt; told(rt.alloc(), &refusal, want), (1, true), "{want}");
    }
}
