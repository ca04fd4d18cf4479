//! Dumps with so many objects that the rules of the links are tested in parts. If several parts have faults, the first
//! in the order of the file is reported, even if there is no memory for the results of the parts.

use crate::graphs::{count_objects, dump_of};
use heap_graph::{LinkFault, LinkRefusal, Skip};
use hprof_grammar::Team;
use limited_heap::LimitedHeap;
use std::alloc::{AllocError, Allocator, Global};
use std::test::Fail;
use std::thread::Threads;
use test_dumps::Bytes;
use test_dumps::Sub::{Class, Instance};

/// The number of instances after their class. For a team of four, the parts end with the instances 16,499, 33,000,
/// 49,501 and 65,999.
const INSTANCES: u32 = 66_000;

/// The identifier of the class.
const CLASS: u32 = 0x100;

/// A change of an instance's identifier or of its class: the number of the instance, and the new value.
#[derive(Clone, Copy)]
enum Change {
    Id(u32, u32),
    Class(u32, u32),
}

/// Returns the identifier of `instance`.
fn id_of(instance: u32) -> u32 {
    0x1000u32.saturating_add(instance)
}

/// The place of the first instance: after the header, the head of the record, and the class.
const FIRST: u64 = 83;

/// The size in bytes of an instance: its tag, its identifier, a serial, its class, and the length of its values.
const LENGTH: u64 = 17;

/// Returns the place of `instance`.
fn place_of(instance: u32) -> u64 {
    FIRST + LENGTH * u64::from(instance)
}

impl Change {
    /// Returns the place of the field and its new value.
    fn new_field(self) -> (u64, u32) {
        match self {
            Change::Id(instance, id) => (FIRST + 1 + LENGTH * u64::from(instance), id),
            Change::Class(instance, class) => (FIRST + 9 + LENGTH * u64::from(instance), class),
        }
    }

    /// Returns the place of the field and its original value.
    fn old_field(self) -> (u64, u32) {
        let (place, _) = self.new_field();
        match self {
            Change::Id(instance, _) => (place, id_of(instance)),
            Change::Class(_, _) => (place, CLASS),
        }
    }
}

/// Writes the four bytes of `value` at `place`. Returns `None` if `bytes` ends before the last of them.
fn put(bytes: &mut [u8], (place, value): (u64, u32)) -> Option<()> {
    let field = bytes.get_mut(place as usize..)?.get_mut(..4)?;
    field.copy_from_slice(&value.to_be_bytes());
    Some(())
}

/// Returns a class without fields, and its instances.
fn instances(alloc: Global) -> Result<Bytes, AllocError> {
    let mut heap = Bytes::new(alloc, 4);
    heap.sub(Class(u64::from(CLASS), 0, &[]))?;
    for instance in 0..INSTANCES {
        heap.sub(Instance(u64::from(id_of(instance)), u64::from(CLASS), &[]))?;
    }
    Ok(heap)
}

/// Returns a dump of the class and its instances.
fn dump(alloc: Global) -> Result<Bytes, AllocError> {
    let heap = instances(alloc)?;
    dump_of(alloc, 4, &heap.bytes)
}

/// The number of objects of a graph, or the code and the place of the fault. `None` if out of memory.
type Answer = Option<Result<u32, (u8, u64)>>;

/// Returns the answer that is the result `built`.
fn answer_of(built: Result<u32, LinkRefusal>) -> Answer {
    match built {
        Ok(objects) => Some(Ok(objects)),
        Err(LinkRefusal::Fault(LinkFault { code, offset })) => Some(Err((code, offset))),
        Err(LinkRefusal::OutOfMemory) => None,
    }
}

/// Returns the result of a team of `threads` threads on `heap`.
fn answer<T: Threads + Sync, A: Allocator + Copy + Send + Sync>(
    rt: &T,
    alloc: Global,
    heap: A,
    bytes: &[u8],
    threads: u32,
) -> Answer {
    let team = Team::new(rt, threads);
    answer_of(count_objects(&team, heap, bytes, &Skip::none(alloc)))
}

/// Makes `changes` in the dump `bytes`, and returns the results of a team of one thread and of a team of four. Then
/// undoes the changes. Returns `None` if the dump has no such field.
fn answers<T: Threads + Sync>(
    rt: &T,
    alloc: Global,
    bytes: &mut [u8],
    changes: &[Change],
) -> Option<(Answer, Answer)> {
    for change in changes {
        put(bytes, change.new_field())?;
    }
    let alone = answer(rt, alloc, alloc, bytes, 1);
    let in_parts = answer(rt, alloc, alloc, bytes, 4);
    for change in changes {
        put(bytes, change.old_field())?;
    }
    Some((alone, in_parts))
}

/// Changes and their result: the number of objects, or the code of the fault and the instance that has it.
type Case = (&'static [Change], Result<u32, (u8, u32)>);

static CASES: [Case; 9] = [
    (&[], Ok(66_001)),
    // The last object of the first part has the first fault, and each other part has one.
    (
        &[
            Change::Class(16_499, 0x999),
            Change::Id(16_500, 0),
            Change::Id(33_001, 0),
            Change::Id(49_502, 0),
        ],
        Err((11, 16_499)),
    ),
    // The first object of the second part has the first fault.
    (
        &[
            Change::Id(16_500, 0),
            Change::Class(33_000, 0x999),
            Change::Class(49_502, 0x999),
        ],
        Err((9, 16_500)),
    ),
    // The last object of the third part has the first fault.
    (
        &[Change::Class(49_501, 0x999), Change::Id(65_999, 0)],
        Err((11, 49_501)),
    ),
    // The last object of all has the only fault.
    (&[Change::Id(65_999, 0)], Err((9, 65_999))),
    // An object has the identifier of an object in the first part. There are faults after it, in its part and in the
    // next ones.
    (
        &[
            Change::Id(30_000, 0x1000),
            Change::Id(30_001, 0),
            Change::Id(40_000, 0),
            Change::Id(60_000, 0),
        ],
        Err((10, 30_000)),
    ),
    // An object has the identifier of an object in the part before, and there is another fault in that part.
    (&[Change::Id(2, 0), Change::Id(30_000, 0x1000)], Err((9, 2))),
    // An identifier is repeated within the last part. There is a fault in the part before.
    (
        &[Change::Class(40_000, 0x999), Change::Id(60_001, 0xfa60)],
        Err((11, 40_000)),
    ),
    // The last object of all has the identifier of the class.
    (&[Change::Id(65_999, CLASS)], Err((10, 65_999))),
];

#[test]
fn first_faults_of_parts(rt: HostRuntime) -> Result<(), Fail> {
    let mut file = dump(rt.alloc())?;
    for (changes, wanted) in &CASES {
        let wanted = Some(wanted.map_err(|(code, instance)| (code, place_of(instance))));
        let answers = answers(&rt, rt.alloc(), file.bytes.as_mut_slice(), changes);
        assert_eq!(rt; answers, Some((wanted, wanted)), "{wanted:?}");
    }
    Ok(())
}

/// A class that is missing in the third part, and an identifier that is 0 in the last.
const THIRD_AND_LAST: [Change; 2] = [Change::Class(40_000, 0x999), Change::Id(60_000, 0)];

/// Returns the dump with `THIRD_AND_LAST`.
fn faulty_dump(alloc: Global) -> Result<Option<Bytes>, AllocError> {
    let mut file = dump(alloc)?;
    for change in THIRD_AND_LAST {
        if put(file.bytes.as_mut_slice(), change.new_field()).is_none() {
            return Ok(None);
        }
    }
    Ok(Some(file))
}

/// Returns the number of allocations that a team of four makes for the dump `bytes`.
fn requests_of<T: Threads + Sync>(rt: &T, alloc: Global, bytes: &[u8]) -> u64 {
    let heap = LimitedHeap::new(alloc, u64::MAX);
    let _answer = answer(rt, alloc, &heap, bytes, 4);
    u64::MAX - heap.requests_left()
}

/// Returns the result of a team of four if only the first `granted` allocations succeed, and the number of those that
/// failed.
fn answer_with<T: Threads + Sync>(
    rt: &T,
    alloc: Global,
    bytes: &[u8],
    granted: u64,
) -> (Answer, u64) {
    let heap = LimitedHeap::new(alloc, granted);
    let answer = answer(rt, alloc, &heap, bytes, 4);
    (answer, heap.refusals())
}

/// Returns, for each number *n* in `last`, the result for the faulty dump if its last *n* allocations fail, and the
/// number of allocations that failed.
fn answer_without<T: Threads + Sync>(
    rt: &T,
    alloc: Global,
    last: &[u64],
) -> Result<Vec<(Answer, u64)>, AllocError> {
    let mut answers = Vec::new(alloc);
    if let Some(file) = faulty_dump(alloc)? {
        let requests = requests_of(rt, alloc, file.bytes.as_slice());
        for last in last {
            let granted = requests.saturating_sub(*last);
            answers.push(answer_with(rt, alloc, file.bytes.as_slice(), granted))?;
        }
    }
    Ok(answers)
}

#[test]
fn answers_without_memory(rt: HostRuntime) -> Result<(), Fail> {
    let fault = Some(Err((11, place_of(40_000))));
    let answers = answer_without(&rt, rt.alloc(), &[0, 1, 4, 5, 6])?;
    let wanted = [(fault, 0), (fault, 1), (fault, 4), (None, 1), (None, 1)];
    assert_eq!(rt; answers.as_slice(), wanted.as_slice());
    Ok(())
}
