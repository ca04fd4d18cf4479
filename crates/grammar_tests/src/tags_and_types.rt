//! Tests each tag, each type code at each place that has one, and orders of the snapshot's records.

use crate::worked_file::fault;
use hprof_grammar::{Team, read};
use std::alloc::{AllocError, Global};
use std::test::Fail;
use std::thread::Threads;

/// The tag of each kind of sub-record, and its length with identifiers of 4 bytes and without constants, fields, values
/// or elements.
const SUB_RECORDS: [(u8, usize); 13] = [
    (0xff, 5),
    (0x01, 9),
    (0x02, 13),
    (0x03, 13),
    (0x04, 9),
    (0x05, 5),
    (0x06, 9),
    (0x07, 5),
    (0x08, 13),
    (0x20, 43),
    (0x21, 17),
    (0x22, 17),
    (0x23, 14),
];

/// The code of each type, and the size of its values with identifiers of 4 bytes.
const TYPES: [(u8, usize); 9] = [
    (2, 4),
    (4, 1),
    (5, 2),
    (6, 4),
    (7, 8),
    (8, 1),
    (9, 2),
    (10, 4),
    (11, 8),
];

/// Tags of records with empty bodies, and the code and the offset of the fault of a file with these records, or `None`
/// if that file is a dump.
const ORDERS: [(&[u8], Option<(u8, u64)>); 14] = [
    (&[], Some((8, 31))),
    (&[0x0c], None),
    (&[0x0c, 0x0c], Some((8, 40))),
    (&[0x0c, 0x1c], Some((8, 40))),
    (&[0x0c, 0x2c], Some((8, 40))),
    (&[0x2c], Some((8, 31))),
    (&[0x1c], Some((8, 40))),
    (&[0x1c, 0x0c], Some((8, 40))),
    (&[0x1c, 0x1c], Some((8, 49))),
    (&[0x1c, 0x2c], None),
    (&[0x1c, 0x1c, 0x2c], None),
    (&[0x1c, 0x2c, 0x1c], Some((8, 49))),
    (&[0x1c, 0x2c, 0x2c], Some((8, 49))),
    (&[0x1c, 0x2c, 0x0c], Some((8, 49))),
];

/// Returns the size that `table` has for `code`, or `None` if `code` is not in `table`.
fn entry(table: &[(u8, usize)], code: u8) -> Option<usize> {
    for (known, size) in table {
        if *known == code {
            return Some(*size);
        }
    }
    None
}

/// Returns the header of a dump with identifiers of 4 bytes.
fn header(alloc: Global) -> Result<Vec<u8>, AllocError> {
    let mut file = b"JAVA PROFILE 1.0.2\0".to_vec(alloc)?;
    file.extend_from_slice(&[0, 0, 0, 4, 0, 0, 0, 0, 0, 0, 0, 0])?;
    Ok(file)
}

/// Appends a record with `tag` and `body`, which must have fewer than 256 bytes.
fn push_record(file: &mut Vec<u8>, tag: u8, body: &[u8]) -> Result<(), AllocError> {
    file.extend_from_slice(&[tag, 0, 0, 0, 0, 0, 0, 0, (body.len() % 256) as u8])?;
    file.extend_from_slice(body)
}

/// Returns the fault of a file whose only record is a heap dump with the body `body`, or `None` if the file has none.
fn heap_fault<T: Threads + Sync>(
    rt: &T,
    alloc: Global,
    body: &[u8],
) -> Result<Option<(u8, u64)>, AllocError> {
    let mut file = header(alloc)?;
    push_record(&mut file, 0x0c, body)?;
    Ok(fault(read(&Team::new(rt, 1), alloc, &file)))
}

/// Returns `first` and `zeros` zero bytes after it.
fn padded(alloc: Global, first: &[u8], zeros: usize) -> Result<Vec<u8>, AllocError> {
    let mut bytes = first.to_vec(alloc)?;
    for _i in 0..zeros {
        bytes.push(0)?;
    }
    Ok(bytes)
}

/// Returns the fault of a file with an empty record for each of `tags`, or `None` if the file has none.
fn order_fault<T: Threads + Sync>(
    rt: &T,
    alloc: Global,
    tags: &[u8],
) -> Result<Option<(u8, u64)>, AllocError> {
    let mut file = header(alloc)?;
    for tag in tags {
        push_record(&mut file, *tag, &[])?;
    }
    Ok(fault(read(&Team::new(rt, 1), alloc, &file)))
}

#[test]
fn orders_of_the_snapshot(rt: HostRuntime) -> Result<(), Fail> {
    for (tags, expected) in &ORDERS {
        assert_eq!(rt; order_fault(&rt, rt.alloc(), tags)?, *expected, "{tags:?}");
    }
    Ok(())
}

/// Returns the fault, if any, of a file with two records: one with `tag` whose body is three zeros, and an empty heap
/// dump.
fn record_fault<T: Threads + Sync>(
    rt: &T,
    alloc: Global,
    tag: u8,
) -> Result<Option<(u8, u64)>, AllocError> {
    let mut file = header(alloc)?;
    push_record(&mut file, tag, &[0, 0, 0])?;
    push_record(&mut file, 0x0c, &[])?;
    Ok(fault(read(&Team::new(rt, 1), alloc, &file)))
}

#[test]
fn tags_of_records(rt: HostRuntime) -> Result<(), Fail> {
    for tag in 0..=255u8 {
        let expected = match tag {
            0x01 | 0x02 | 0x2c => Some((4, 31)),
            0x0c | 0x1c => Some((5, 40)),
            _ => None,
        };
        assert_eq!(rt; record_fault(&rt, rt.alloc(), tag)?, expected, "{tag}");
    }
    Ok(())
}

/// Returns the fault, if any, of a file with one sub-record: `tag`, and `zeros` zeros after it.
fn sub_fault<T: Threads + Sync>(
    rt: &T,
    alloc: Global,
    tag: u8,
    zeros: usize,
) -> Result<Option<(u8, u64)>, AllocError> {
    let body = padded(alloc, &[tag], zeros)?;
    heap_fault(rt, alloc, &body)
}

/// Returns the fault, if any, of a file with one sub-record: `tag`, `zeros` zeros after it, and `last`.
fn ended_fault<T: Threads + Sync>(
    rt: &T,
    alloc: Global,
    tag: u8,
    zeros: usize,
    last: u8,
) -> Result<Option<(u8, u64)>, AllocError> {
    let mut body = padded(alloc, &[tag], zeros)?;
    body.push(last)?;
    heap_fault(rt, alloc, &body)
}

#[test]
fn tags_of_sub_records(rt: HostRuntime) -> Result<(), Fail> {
    for tag in 0..=255u8 {
        let Some(size) = entry(&SUB_RECORDS, tag) else {
            assert_eq!(rt;
                sub_fault(&rt, rt.alloc(), tag, 60)?,
                Some((5, 40)),
                "{tag}"
            );
            continue;
        };
        assert!(rt; size > 1);
        let last = if tag == 0x23 { 8 } else { 0 };
        assert_eq!(rt;
            ended_fault(&rt, rt.alloc(), tag, size - 2, last)?,
            None,
            "{tag}"
        );
        assert_eq!(rt;
            sub_fault(&rt, rt.alloc(), tag, size - 2)?,
            Some((6, 40)),
            "{tag}"
        );
    }
    Ok(())
}

/// A sub-record with one type code: the part that has the code, the tag, the number of zeros after the tag, the bytes
/// between these zeros and the code, whether a value follows the code, and the number of zeros at the end.
type CodePlace = (&'static str, u8, usize, &'static [u8], bool, usize);

const CODE_PLACES: [CodePlace; 4] = [
    ("constant", 0x20, 36, &[0, 1, 0, 1], true, 4),
    ("static field", 0x20, 38, &[0, 1, 0, 0, 0, 1], true, 2),
    ("instance field", 0x20, 40, &[0, 1, 0, 0, 0, 1], false, 0),
    ("array", 0x23, 8, &[0, 0, 0, 1], true, 0),
];

/// Returns the fault, if any, of a file with one sub-record that has `code` at `place`, and a value of `size` bytes
/// after `code` if `place` has a value.
fn code_fault<T: Threads + Sync>(
    rt: &T,
    alloc: Global,
    place: &CodePlace,
    code: u8,
    size: usize,
) -> Result<Option<(u8, u64)>, AllocError> {
    let (_, tag, zeros, front, has_value, behind) = *place;
    let mut body = padded(alloc, &[tag], zeros)?;
    body.extend_from_slice(front)?;
    body.push(code)?;
    let value = if has_value { size } else { 0 };
    let body = padded(alloc, &body, value.saturating_add(behind))?;
    heap_fault(rt, alloc, &body)
}

#[test]
fn type_codes(rt: HostRuntime) -> Result<(), Fail> {
    for code in 0..=255u8 {
        let known = entry(&TYPES, code);
        for place in &CODE_PLACES {
            let (of, tag, _, _, _, _) = *place;
            let is_allowed = known.is_some() && (tag == 0x20 || code != 2);
            let expected = if is_allowed { None } else { Some((7, 40)) };
            let found = code_fault(&rt, rt.alloc(), place, code, known.unwrap_or(8))?;
            assert_eq!(rt; found, expected, "{of} {code}");
        }
    }
    Ok(())
}
