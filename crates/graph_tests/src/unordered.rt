//! Which index a dump gets, by the number of allocations that its graph takes: objects in order are indexed by extents,
//! objects in no order by narrow entries if they are close together, and otherwise by their whole identifiers. The
//! dumps have arrays without elements. Dumps with the same number of objects take the same number of allocations but
//! for the index.

use crate::graphs::{count_objects, dump_of};
use heap_graph::Skip;
use hprof_grammar::Team;
use limited_heap::LimitedHeap;
use std::alloc::{AllocError, Global};
use std::test::Fail;
use std::thread::Threads;
use test_dumps::Sub::Values;
use test_dumps::{Bytes, Order};

/// The type code of bytes.
const BYTE: u8 = 8;

/// Returns `count` objects in `order`.
fn objects(alloc: Global, order: Order, count: u32) -> Result<Bytes, AllocError> {
    let mut heap = Bytes::new(alloc, 8);
    for number in 0..count {
        let id = order.id_of(u64::from(number), u64::from(count), 0x7f00_0000, 8);
        heap.sub(Values(id, BYTE, 0, &[]))?;
    }
    Ok(heap)
}

/// Returns a dump of `count` objects in `order`.
pub fn dump(alloc: Global, order: Order, count: u32) -> Result<Bytes, AllocError> {
    let heap = objects(alloc, order, count)?;
    dump_of(alloc, 8, &heap.bytes)
}

/// Returns the number of allocations that a team of `threads` threads makes to read a dump of `count` objects in
/// `order` and to build its graph, whether or not a graph is made.
fn requests<T: Threads + Sync>(
    rt: &T,
    alloc: Global,
    threads: u32,
    order: Order,
    count: u32,
) -> Result<u64, AllocError> {
    let file = dump(alloc, order, count)?;
    let skip = Skip::none(alloc);
    let heap = LimitedHeap::new(alloc, u64::MAX);
    let team = Team::sharing_from(rt, threads, 1);
    let _built = count_objects(&team, &heap, file.bytes.as_slice(), &skip).is_ok();
    Ok(u64::MAX - heap.requests_left())
}

/// Returns how many allocations more a dump of `count` objects in `order` takes than one of objects that are far apart,
/// or `None` if it takes fewer.
fn more_than_far<T: Threads + Sync>(
    rt: &T,
    alloc: Global,
    threads: u32,
    order: Order,
    count: u32,
) -> Result<Option<u64>, AllocError> {
    let far = requests(rt, alloc, threads, Order::Far, count)?;
    Ok(requests(rt, alloc, threads, order, count)?.checked_sub(far))
}

/// The number of objects, their order, and how many allocations a graph takes beyond one of objects that are far apart,
/// with one thread and with four.
///
/// Objects far apart take one allocation, for their entries; 4,096 objects or more take another, for the table of where
/// entries begin. Narrow entries take two, also if they do not serve: then others follow. If the ends of all
/// identifiers are read in parts, the result of each part takes one.
const INDEXES: [(u32, Order, u64, u64); 5] = [
    (2000, Order::Far, 0, 0),
    (2000, Order::Close, 1, 1),
    (3000, Order::LateDisorder, 1, 1),
    (2000, Order::Unaligned, 2, 6),
    (70_000, Order::Outlier, 2, 6),
];

#[test]
fn dumps_in_no_order_get_their_index(rt: HostRuntime) -> Result<(), Fail> {
    for (count, order, one, four) in INDEXES {
        for (threads, wanted) in [(1, one), (4, four)] {
            let more = more_than_far(&rt, rt.alloc(), threads, order, count)?;
            assert_eq!(rt; more, Some(wanted), "{count} {order:?}, {threads} threads");
        }
    }
    Ok(())
}

/// Extents are gathered in lists that grow, so they take more allocations than entries.
#[test]
fn dumps_in_order_get_extents(rt: HostRuntime) -> Result<(), Fail> {
    for threads in [1, 4] {
        let more = more_than_far(&rt, rt.alloc(), threads, Order::Ascending, 2000)?;
        assert!(rt; more > Some(1), "{more:?}, {threads} threads");
    }
    Ok(())
}
