//! Reads a dump in parts, each by a thread, and joins the parts in order. Each must begin where the part before it
//! ends. If the bytes have a fault or an allocation fails, the result is `None`, and the caller reads the whole dump
//! with one thread.

ghost use Rattle.std.specs.Prelude.{All, IfSome, drop, ◌+◌, ◌<◌, ◌≡◌, ◌≤◌, ◌^◌, length};
ghost use Rattle.hprof_grammar.specs.Dump.{header_length};
ghost use Rattle.hprof_grammar.specs.working.Joining.{AddsAll, HasHeader, nothing_of};
ghost use Rattle.hprof_grammar.specs.working.Parts.{IsReadPart, MayBePart};

use crate::cuts::{Cut, FIRST_SEAM, Seam, cut_records};
use crate::dump::Dump;
use crate::record_list::{FIRST_RECORD, note_records};
use crate::team::Team;
use std::alloc::Allocator;
use std::thread::Threads;

/// The number of bytes that count as one object when a team decides whether to share the work. Most objects of a dump
/// have somewhat fewer.
const BYTES_OF_AN_OBJECT: usize = 64;

/// The places that the records from one seam to another add to a dump.
#[derive(Drop)]
pub struct Part<A: Allocator> {
    from: Seam,
    to: Seam,
    dump: Dump<A>,
}

/// Reads the records of `cut`. `bytes` is the whole dump. Returns `None` if `cut` is not within `bytes`, if the records
/// have a fault, or if an allocation fails.
fn read_part<A: Allocator + Copy>(alloc: A, bytes: &[u8], id_size: u8, cut: Cut) -> Option<Part<A>>
    requires low { 1 ≤ id_size }
    requires high { id_size ≤ 8 }
    ensures { IfSome result (λ part. IsReadPart bytes.now id_size part) }
{
    let records = bytes.get(cut.from.place as usize..cut.to as usize)?;
    let mut dump = Dump::new(alloc, id_size);
    let order = note_records(&mut dump, cut.from.order, records, cut.from.place).ok()?;
    let to = Seam {
        place: cut.to,
        order,
    };
    Some(Part {
        from: cut.from,
        to,
        dump,
    })
}

/// Joins `parts` of the dump `bytes`. Returns `None` if one of them is `None`, if the first does not begin at
/// [`FIRST_SEAM`], or if another does not begin at the seam where the previous one ends. Returns `None` too if the last
/// does not end where `bytes` end, if the snapshot is not complete there, or if an allocation fails.
fn join_parts<A: Allocator + Copy>(
    alloc: A,
    bytes: &[u8],
    id_size: u8,
    parts: Vec<Option<Part<A>>, A>,
) -> Option<Dump<A>>
    requires room { length bytes.now < 2 ^ 32 }
    requires parts { All (MayBePart bytes.now id_size) parts.items }
    ensures { IfSome result (λ dump. AddsAll (drop header_length bytes.now) (nothing_of id_size) dump) }
{
    let mut dump = Dump::new(alloc, id_size);
    let mut reached = FIRST_SEAM;
    for part in parts {
        let part = part?;
        if part.from != reached {
            return None;
        }
        let Ok(()) = dump.append(part.dump) else {
            return None;
        };
        reached = part.to;
    }
    if reached.place as usize != bytes.len() || !reached.order.is_done() {
        return None;
    }
    Some(dump)
}

/// Reads the dump `bytes` in parts, at most as many as `team` has threads. The header must be right. Returns `None` if
/// `team` does not share work of this size, if the records make fewer than two parts, if the bytes have a fault, or if
/// an allocation fails.
pub fn read_in_parts<T: Threads + Sync, A: Allocator + Copy + Send + Sync>(
    team: &Team<'_, T>,
    alloc: A,
    bytes: &[u8],
    id_size: u8,
) -> Option<Dump<A>>
    requires header { HasHeader id_size bytes.now }
    ensures { IfSome result (λ dump. AddsAll (drop header_length bytes.now) (nothing_of id_size) dump) }
{
    if !team.splits(bytes.len() / BYTES_OF_AN_OBJECT) {
        return None;
    }
    let records = bytes.get(FIRST_RECORD as usize..)?;
    let cuts = cut_records(alloc, records, team.part_of(records.len()))?;
    if cuts.len() < 2 {
        return None;
    }
    let read = |cut: Cut| -> Option<Part<A>>
        requires { (1 ≤ id_size) × (id_size ≤ 8) }
        ensures { IfSome result (λ part. IsReadPart bytes.entry.now id_size part) }
    { read_part(alloc, bytes, id_size, cut) };
    let Ok(parts) = team.map_jobs(cuts, &read) else {
        return None;
    };
    join_parts(alloc, bytes, id_size, parts)
}
