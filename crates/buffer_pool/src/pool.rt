//! A pool of buffers and marks for many workers. Each atomic step of a call is sequentially consistent, and is
//! on one word of the pool's table: `atomic_table` promises this of all steps on a table (its README, "Limits").
ghost use Rattle.std.specs.Prelude.{◌≡◌, MatchResult};
ghost use Rattle.mark_core.specs.Shares.{whole};
ghost use Rattle.mark_core.specs.World.{Setup};
ghost use Rattle.buffer_pool.specs.Book.{new_book};
ghost use Rattle.buffer_pool.specs.Faults.{Refuses};
ghost use Rattle.buffer_pool.specs.Ranges.{IsInside};
ghost use Rattle.buffer_pool.specs.WorkerLog.{first_log};

mod claim_and_finish;
mod close;
pub(crate) mod closed_marks;
mod head_exchange;
mod idle;
pub(crate) mod limits;
mod next_head;
mod opening;
mod peek;
mod shares;
mod slots;
mod stacks;
mod try_pop;
mod try_push;

use crate::buffer::Buffer;
use crate::key::{Key, NamedEdges};
use crate::rules::MarkingRule;
use crate::seat_view::SeatView;
use crate::worker::Worker;
use atomic_table::Table;
use limits::{PoolFault, is_inside};
use mark_core::Edges;
use opening::first_words;
use slots::first_slots;
use std::alloc::Allocator;
use std::marker::Model;

/// The marks of the objects, and the buffers on two stacks. All workers have the pool by reference. A call by a worker
/// takes that worker as an argument.
#[derive(Drop)]
pub struct Pool<A: Allocator> {
    pub(crate) table: Table<Option<Buffer<A>>, SeatView, Key, MarkingRule, A>,
    pub(crate) buffers: u32,
    pub(crate) objects: u32,
}

impl<A: Allocator> Model for Pool<A> {
    ghost use Rattle.std.specs.Prelude.{◌≡◌};
    ghost use Rattle.buffer_pool.specs.Calls.{PoolId};
    ghost use Rattle.buffer_pool.specs.working.BetweenCalls.{IsLaid};
    ghost use Rattle.buffer_pool.specs.working.Setups.{setup_of};

    ghost Value = { PoolId };

    ghost view = { λ p. record { table = p.table.shared.table_id; first_tag = p.table.shared.key.first_tag } };

    ghost invariant = { λ p. IsLaid p.table.shared.table_id (setup_of p.table.shared.key)
        × (p.buffers ≡ p.table.shared.key.buffers) × (p.objects ≡ p.table.shared.key.objects) };
}

impl<A: Allocator + Copy> Pool<A> {
    /// Creates a pool for the objects of `edges` (at most 16,777,216), with `buffers` buffers (4 to 65,534) that take
    /// `size` objects each (2 to 4,096). The heads of both stacks begin with the tag `first_tag` (at most
    /// 281,474,976,710,655). No object is marked, all buffers are on the empty stack, and the returned worker has the
    /// whole share. Allocates all memory of the pool. Returns `Err(PoolFault::BadOptions)` if a number is out of its
    /// range, and `Err(PoolFault::OutOfMemory)` if an allocation fails.
    pub fn new<E: Edges>(
        alloc: A,
        edges: &E,
        buffers: u32,
        size: u32,
        first_tag: u64,
    ) -> Result<(Pool<A>, Worker<A>), PoolFault>
        ensures { let e : Setup = record {
          objects = E.count edges.now;
          buffers = buffers;
          size = size;
          first_tag = first_tag;
          roots = E.roots edges.now;
          pairs = E.pairs edges.now;
        } in
            MatchResult result (λ p. IsInside e.objects buffers size first_tag × (p.1.pool ≡ p.0)
            × (p.1.book ≡ new_book e whole) × (p.1.log ≡ first_log) × (p.0.first_tag ≡ first_tag))
            (Refuses (IsInside e.objects buffers size first_tag)) }
    {
        let objects = edges.objects();
        if !is_inside(objects, buffers, size, first_tag) {
            return Err(PoolFault::BadOptions);
        }
        let words = first_words(alloc, objects, buffers, first_tag)?;
        let slots = first_slots(alloc, buffers, size)?;
        let key = Key {
            named: NamedEdges::of(edges),
            objects,
            buffers,
            size,
            first_tag,
        };
        let Ok((table, seat)) = Table::new(alloc, words.as_slice(), slots, &key) else {
            return Err(PoolFault::OutOfMemory);
        };
        Ok((
            Pool {
                table,
                buffers,
                objects,
            },
            Worker {
                seat,
                finished: 0,
                first_tag,
            },
        ))
    }
}
