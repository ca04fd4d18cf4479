//! Dumps that several tests run on, and their reports.

use std::alloc::{AllocError, Global};
pub use test_dumps::{Bytes, NOTHING, Record, Sub, TWO_OBJECTS};

/// The report of a dump without objects.
pub const NOTHING_REPORT: &str = "         0               0  (reachable)
         0               0  (unreachable)
         0               0  (unresolved)
";

/// The report of the dump of two objects.
pub const TWO_OBJECTS_REPORT: &str = "         2               8  A
         1               0  <class>
         3               8  (reachable)
         0               0  (unreachable)
         0               0  (unresolved)
";

/// Returns the dump of two objects, 174 bytes: a class `A`, two instances that refer to each other, and a root.
pub fn two_objects(alloc: Global) -> Result<Bytes, AllocError> {
    Bytes::dump(alloc, 4, TWO_OBJECTS)
}

/// Returns a dump of the records `names`, followed by a heap dump record with the body `heap`.
fn with_heap(alloc: Global, names: &[Record], heap: &Bytes) -> Result<Bytes, AllocError> {
    let mut dump = Bytes::dump(alloc, 4, names)?;
    dump.record(0x0C, heap.bytes.as_slice())?;
    Ok(dump)
}

/// Returns a dump of a class `A` without fields and `count` instances of it, at most 64, each a root. Their identifiers
/// begin at 0x201.
pub fn roots_alone(alloc: Global, count: u64) -> Result<Bytes, AllocError> {
    let mut heap = Bytes::new(alloc, 4);
    heap.sub(Sub::Class(0x100, 0, &[]))?;
    for place in 0..count.min(64) {
        heap.sub(Sub::Instance(0x201 + place, 0x100, &[]))?;
        heap.sub(Sub::Root(0x201 + place))?;
    }
    with_heap(alloc, &TWO_OBJECTS[..2], &heap)
}

/// The report of seven instances that are roots.
pub const SEVEN_ROOTS_REPORT: &str = "         7               0  A
         1               0  <class>
         8               0  (reachable)
         0               0  (unreachable)
         0               0  (unresolved)
";

/// The report of eight instances that are roots.
pub const EIGHT_ROOTS_REPORT: &str = "         8               0  A
         1               0  <class>
         9               0  (reachable)
         0               0  (unreachable)
         0               0  (unresolved)
";

/// The report of nine instances that are roots.
pub const NINE_ROOTS_REPORT: &str = "         9               0  A
         1               0  <class>
        10               0  (reachable)
         0               0  (unreachable)
         0               0  (unresolved)
";

/// The records that name the classes of [`wide_array`].
const NAMES_OF_WIDE: &[Record] = &[
    Record::Text(1, b"L"),
    Record::Text(3, b"[LL;"),
    Record::Load(0x100, 1),
    Record::Load(0x110, 3),
];

/// Puts into `heap` two classes, an array of the instances `elements`, the instances, and a root, which is the array.
fn put_wide(heap: &mut Bytes, elements: &[u64]) -> Result<(), AllocError> {
    heap.subs(&[Sub::Class(0x100, 0, &[]), Sub::Class(0x110, 0, &[])])?;
    heap.objects(0x200, 0x110, elements)?;
    for id in elements {
        heap.sub(Sub::Instance(*id, 0x100, &[]))?;
    }
    heap.sub(Sub::Root(0x200))
}

/// Returns a dump of an array of 64 instances. The array is the root.
pub fn wide_array(alloc: Global) -> Result<Bytes, AllocError> {
    let elements: Vec<u64> = (0x301..0x341u64).collect(alloc)?;
    let mut heap = Bytes::new(alloc, 4);
    put_wide(&mut heap, elements.as_slice())?;
    with_heap(alloc, NAMES_OF_WIDE, &heap)
}

/// Returns the dump of [`wide_array`] with three more roots, which are instances of the array. It has the same report.
pub fn wide_array_of_roots(alloc: Global) -> Result<Bytes, AllocError> {
    let elements: Vec<u64> = (0x301..0x341u64).collect(alloc)?;
    let mut heap = Bytes::new(alloc, 4);
    put_wide(&mut heap, elements.as_slice())?;
    heap.subs(&[Sub::Root(0x301), Sub::Root(0x302), Sub::Root(0x303)])?;
    with_heap(alloc, NAMES_OF_WIDE, &heap)
}

/// The report of [`wide_array`].
pub const WIDE_ARRAY_REPORT: &str = "         1             256  [LL;
        64               0  L
         2               0  <class>
        67             256  (reachable)
         0               0  (unreachable)
         0               0  (unresolved)
";

/// Puts into `heap` the class and the two objects, an array of `elements`, and two roots: the first object and the
/// array.
fn put_long(heap: &mut Bytes, elements: &[u64]) -> Result<(), AllocError> {
    heap.subs(&[
        Sub::Class(0x100, 0, &[2]),
        Sub::Instance(0x201, 0x100, &[0, 0, 2, 2]),
        Sub::Instance(0x202, 0x100, &[0, 0, 2, 1]),
    ])?;
    heap.objects(0x203, 0x100, elements)?;
    heap.subs(&[Sub::Root(0x201), Sub::Root(0x203)])
}

/// Returns the dump of two objects with an array added, which is a root too. Each of the array's 100,000 elements is
/// the second instance.
pub fn long_array(alloc: Global) -> Result<Bytes, AllocError> {
    let elements = vec![in alloc; 0x202u64; 100_000]?;
    let mut heap = Bytes::new(alloc, 4);
    put_long(&mut heap, elements.as_slice())?;
    with_heap(alloc, &TWO_OBJECTS[..2], &heap)
}

/// The report of [`long_array`].
pub const LONG_ARRAY_REPORT: &str = "         3          400008  A
         1               0  <class>
         4          400008  (reachable)
         0               0  (unreachable)
         0               0  (unresolved)
";

/// The dump that a row of a table names.
#[derive(Clone, Copy)]
pub enum Sample {
    Nothing,
    TwoObjects,
    /// The dump of [`roots_alone`] with this number of instances.
    Roots(u64),
    WideArray,
    LongArray,
    /// A dump with identifiers of this size and these records.
    Records(u32, &'static [Record]),
}

impl Sample {
    /// Returns the bytes of the dump.
    pub fn dump(self, alloc: Global) -> Result<Bytes, AllocError> {
        match self {
            Sample::Nothing => Bytes::dump(alloc, 4, NOTHING),
            Sample::TwoObjects => two_objects(alloc),
            Sample::Roots(count) => roots_alone(alloc, count),
            Sample::WideArray => wide_array(alloc),
            Sample::LongArray => long_array(alloc),
            Sample::Records(id_size, records) => Bytes::dump(alloc, id_size, records),
        }
    }
}
