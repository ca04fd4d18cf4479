//! Dumps of few objects that are nevertheless gathered in parts, some of only one object. Identifiers ascend, descend
//! or do neither. At each place in turn, one identifier has other lowest bits than the rest; in some dumps none has.
//! Each third object is a class. Each other object refers to all objects, so that each identifier is looked up.

use crate::graphs::{build, dump_of, gives};
use heap_graph::{Graph, LinkRefusal, Skip};
use hprof_grammar::{Team, read};
use limited_heap::{LimitedHeap, requests_of};
use std::alloc::{AllocError, Allocator, Global};
use std::test::Fail;
use std::thread::Threads;
use test_dumps::Bytes;
use test_dumps::Sub::Class;

/// The largest number of objects.
const MOST: u32 = 9;

/// Each third object is a class, from the first on. The others are arrays.
const CLASSES_EACH: u32 = 3;

/// An order of identifiers at sixteen granules: the granule of the first, and the distance of each from the one before
/// it, modulo 16.
type Order = (u32, u32);

/// Ascending, descending, and neither. In descending order each object would be an extent, so two or more such objects
/// are indexed by narrow entries.
const ORDERS: [Order; 3] = [(0, 1), (15, 15), (3, 5)];

/// Returns the identifiers of `count` objects in `order`. The identifier of object `odd`, if that exists, has other
/// lowest bits than the others.
fn ids_of(alloc: Global, order: Order, count: u32, odd: u32) -> Result<Vec<u32>, AllocError> {
    let mut ids = Vec::new(alloc);
    for number in 0..count {
        let place = order.0.wrapping_add(order.1.wrapping_mul(number)) % 16;
        ids.push(0x1000 + 8 * place + 4 * u32::from(number == odd))?;
    }
    Ok(ids)
}

/// Returns the number of `ids`.
fn count_of(ids: &[u32]) -> u32 {
    u32::try_from(ids.len()).unwrap_or(u32::MAX)
}

/// Writes the array `id` of the class `class`. Its elements are `ids`, those of all objects.
fn put_array(heap: &mut Bytes, id: u32, class: u32, ids: &[u32]) -> Result<(), AllocError> {
    heap.bytes.push(0x22)?;
    for field in [id, 0, count_of(ids), class] {
        heap.bytes.extend_from_slice(&field.to_be_bytes())?;
    }
    for id in ids {
        heap.bytes.extend_from_slice(&id.to_be_bytes())?;
    }
    Ok(())
}

/// Writes object `number`, a class or an array.
fn put_object(heap: &mut Bytes, number: usize, id: u32, ids: &[u32]) -> Result<(), AllocError> {
    if number % CLASSES_EACH as usize == 0 {
        return heap.sub(Class(u64::from(id), 0, &[]));
    }
    let class = ids.first().copied().unwrap_or(0);
    put_array(heap, id, class, ids)
}

/// Returns objects with the identifiers `ids`.
fn objects(alloc: Global, ids: &[u32]) -> Result<Bytes, AllocError> {
    let mut heap = Bytes::new(alloc, 4);
    for (number, id) in ids.iter().enumerate() {
        put_object(&mut heap, number, *id, ids)?;
    }
    Ok(heap)
}

/// Returns a dump of objects with the identifiers `ids`.
fn dump(alloc: Global, ids: &[u32]) -> Result<Bytes, AllocError> {
    let heap = objects(alloc, ids)?;
    dump_of(alloc, 4, &heap.bytes)
}

/// Returns what each array refers to in a dump of `count` objects: its class, and all objects in order.
fn references_of(alloc: Global, count: u32) -> Result<Vec<u32>, AllocError> {
    let mut references = Vec::new(alloc);
    references.push(0)?;
    for object in 0..count {
        references.push(object)?;
    }
    Ok(references)
}

/// Tests whether `graph` has as many objects as `ids`, and each array refers to `references`.
fn tells_objects<A: Allocator>(graph: &Graph<'_, A>, ids: &[u32], references: &[u32]) -> bool {
    for object in 0..graph.len() {
        let wanted = match object % CLASSES_EACH {
            0 => &[],
            _ => references,
        };
        if !gives(graph.successors(object), wanted) {
            return false;
        }
    }
    graph.len() as usize == ids.len()
}

/// Tests whether the classes of `graph` are the objects of `ids` that are classes.
fn tells_classes<A: Allocator>(graph: &Graph<'_, A>, ids: &[u32]) -> bool {
    for class in 0..graph.classes() {
        let id = ids.get(class as usize * CLASSES_EACH as usize);
        if Some(graph.class_id(class)) != id.map(|id| u64::from(*id)) {
            return false;
        }
    }
    graph.classes() as usize == ids.len().div_ceil(CLASSES_EACH as usize)
}

/// Tests whether `graph` has the objects and classes of `ids`, and each array refers to `references`.
fn tells_all<A: Allocator>(graph: &Graph<'_, A>, ids: &[u32], references: &[u32]) -> bool {
    tells_objects(graph, ids, references) && tells_classes(graph, ids)
}

/// Tests whether a team of `threads` threads makes the right graph of objects with the identifiers `ids` on `heap`.
/// Returns `None` if out of memory.
fn is_right<T: Threads + Sync, A: Allocator + Copy + Send + Sync>(
    rt: &T,
    alloc: Global,
    heap: A,
    ids: &[u32],
    threads: u32,
) -> Option<bool> {
    let file = dump(alloc, ids).ok()?;
    let references = references_of(alloc, count_of(ids)).ok()?;
    tells(
        rt,
        alloc,
        heap,
        file.bytes.as_slice(),
        ids,
        references.as_slice(),
        threads,
    )
}

/// Tests whether `built` is a graph that has the objects and classes of `ids`. Returns `None` if it is no graph.
fn tells_built<A: Allocator>(
    built: &Result<Graph<'_, A>, LinkRefusal>,
    ids: &[u32],
    references: &[u32],
) -> Option<bool> {
    match built {
        Ok(graph) => Some(tells_all(graph, ids, references)),
        Err(_) => None,
    }
}

/// Tests whether the graph that a team of `threads` threads makes of `bytes` on `heap` has the objects and classes of
/// `ids`. Returns `None` if no graph is made.
fn tells<T: Threads + Sync, A: Allocator + Copy + Send + Sync>(
    rt: &T,
    alloc: Global,
    heap: A,
    bytes: &[u8],
    ids: &[u32],
    references: &[u32],
    threads: u32,
) -> Option<bool> {
    let skip = Skip::none(alloc);
    let team = Team::sharing_from(rt, threads, 1);
    let built = build(&team, heap, bytes, &skip);
    let right = tells_built(&built, ids, references);
    drop(built);
    right
}

/// Tests whether teams of one, two and four threads make the right graph.
fn all_are_right<T: Threads + Sync>(rt: &T, alloc: Global, ids: &[u32]) -> bool {
    for threads in [1, 2, 4] {
        if is_right(rt, alloc, alloc, ids, threads) != Some(true) {
            return false;
        }
    }
    true
}

#[test]
fn graphs_of_parts(rt: HostRuntime) -> Result<(), Fail> {
    for order in ORDERS {
        for count in 1..=MOST {
            for odd in 0..=count {
                let ids = ids_of(rt.alloc(), order, count, odd)?;
                let right = all_are_right(&rt, rt.alloc(), ids.as_slice());
                assert!(rt;
                    right,
                    "{count} identifiers in order {order:?}, number {odd} differs"
                );
            }
        }
    }
    Ok(())
}

/// Tests whether a team of four makes the right graph on `heap`, or runs out of memory after `heap` refused an
/// allocation.
fn is_right_or_refused<T: Threads + Sync>(
    rt: &T,
    alloc: Global,
    heap: &LimitedHeap<Global>,
    ids: &[u32],
) -> bool {
    match is_right(rt, alloc, heap, ids, 4) {
        Some(right) => right,
        None => heap.refusals() > 0,
    }
}

/// Fails in turn each allocation that a team of four makes. Returns the number of allocations, or `None` if a result is
/// wrong.
fn requests_in_parts<T: Threads + Sync>(rt: &T, alloc: Global, ids: &[u32]) -> Option<u64> {
    requests_of(alloc, |heap| is_right_or_refused(rt, alloc, heap, ids))
}

#[test]
fn parts_or_out_of_memory(rt: HostRuntime) -> Result<(), Fail> {
    for order in [(3, 5), (15, 15)] {
        for odd in [4, MOST] {
            let ids = ids_of(rt.alloc(), order, MOST, odd)?;
            let requests = requests_in_parts(&rt, rt.alloc(), ids.as_slice());
            assert!(rt; requests.is_some(), "order {order:?}, number {odd} differs");
        }
    }
    Ok(())
}

/// Returns the number of allocations that one thread makes to read the objects `ids` and to make their graph, or `None`
/// if the graph is wrong.
fn requests_by_one<T: Threads + Sync>(rt: &T, alloc: Global, ids: &[u32]) -> Option<u64> {
    let heap = LimitedHeap::new(alloc, u64::MAX);
    match is_right(rt, alloc, &heap, ids, 1) {
        Some(true) => Some(u64::MAX - heap.requests_left()),
        _ => None,
    }
}

/// Returns the numbers of allocations for three lists: one whose identifiers agree in their lowest three bits, another
/// such list with other lowest bits, and one whose last identifier has other lowest bits than the rest.
fn requests_by_bits<T: Threads + Sync>(
    rt: &T,
    alloc: Global,
    order: Order,
) -> Result<[Option<u64>; 3], AllocError> {
    let agree = ids_of(alloc, order, MOST, MOST)?;
    let mut others = ids_of(alloc, order, MOST, MOST)?;
    for id in &mut others {
        *id = id.wrapping_add(4);
    }
    let odd = ids_of(alloc, order, MOST, MOST - 1)?;
    Ok([
        requests_by_one(rt, alloc, &agree),
        requests_by_one(rt, alloc, &others),
        requests_by_one(rt, alloc, &odd),
    ])
}

/// Tests whether identifiers that agree in their lowest bits take the same number of allocations whatever these bits
/// are, and fewer than a list in which one identifier differs.
fn are_gathered_once<T: Threads + Sync>(
    rt: &T,
    alloc: Global,
    order: Order,
) -> Result<bool, AllocError> {
    let [agree, others, odd] = requests_by_bits(rt, alloc, order)?;
    Ok(agree.is_some() && agree == others && agree < odd)
}

/// Identifiers that agree in their lowest bits, whichever these are, are gathered once.
#[test]
fn gathered_once(rt: HostRuntime) -> Result<(), Fail> {
    for order in ORDERS {
        assert!(rt;
            are_gathered_once(&rt, rt.alloc(), order)?,
            "order {order:?}"
        );
    }
    Ok(())
}

/// Returns the number of allocations that one thread makes for objects in `order` that agree in their lowest bits.
fn requests_in_order<T: Threads + Sync>(
    rt: &T,
    alloc: Global,
    order: Order,
) -> Result<Option<u64>, AllocError> {
    let ids = ids_of(alloc, order, MOST, MOST)?;
    Ok(requests_by_one(rt, alloc, &ids))
}

/// Objects in descending order take no more allocations than objects in ascending order: all their entries are
/// allocated at once, and so are all page words. A list of their extents would grow step by step.
#[test]
fn entries_are_asked_for_at_once(rt: HostRuntime) -> Result<(), Fail> {
    let ascending = requests_in_order(&rt, rt.alloc(), (0, 1))?;
    let descending = requests_in_order(&rt, rt.alloc(), (15, 15))?;
    assert!(rt;
        descending.is_some() && descending <= ascending,
        "{descending:?} and {ascending:?}"
    );
    Ok(())
}

/// Tests whether `team` reads the dump `bytes` on `heap`.
fn is_read<T: Threads + Sync>(
    team: &Team<'_, T>,
    heap: &LimitedHeap<Global>,
    bytes: &[u8],
) -> bool {
    read(team, heap, bytes).is_ok()
}

/// Returns the number of allocations that a team of `threads` threads makes to read the dump of `ids`.
fn requests_to_read<T: Threads + Sync>(
    rt: &T,
    alloc: Global,
    ids: &[u32],
    threads: u32,
) -> Result<u64, AllocError> {
    let file = dump(alloc, ids)?;
    let heap = LimitedHeap::new(alloc, u64::MAX);
    let _read = is_read(
        &Team::sharing_from(rt, threads, 1),
        &heap,
        file.bytes.as_slice(),
    );
    Ok(u64::MAX - heap.requests_left())
}

/// Lets only the first allocation after the reading of the dump fail, and tests whether the graph is right. Returns
/// `None` if out of memory.
fn is_right_without_the_first<T: Threads + Sync>(
    rt: &T,
    alloc: Global,
    ids: &[u32],
    threads: u32,
) -> Result<Option<bool>, AllocError> {
    let first = requests_to_read(rt, alloc, ids, threads)?;
    Ok(is_right(
        rt,
        alloc,
        &LimitedHeap::refusing(alloc, first),
        ids,
        threads,
    ))
}

/// If an allocation for the parts fails, the calling thread gathers all objects, and the graph is right. A team of one
/// thread uses no parts: it is out of memory.
#[test]
fn parts_are_used(rt: HostRuntime) -> Result<(), Fail> {
    let ids = ids_of(rt.alloc(), (3, 5), MOST, MOST)?;
    for (threads, wanted) in [(1, None), (2, Some(true)), (4, Some(true))] {
        let right = is_right_without_the_first(&rt, rt.alloc(), ids.as_slice(), threads)?;
        assert_eq!(rt; right, wanted, "{threads} threads");
    }
    Ok(())
}
