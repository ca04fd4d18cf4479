//! A pool whose objects are all roots.

ghost use Rattle.std.specs.Prelude.{◌≡◌, ℕ, [], IfErr, IfOk};
ghost use Rattle.mark_core.specs.Shares.{whole};
ghost use Rattle.buffer_pool.specs.Faults.{Refuses};
ghost use Rattle.buffer_pool.specs.Ranges.{IsInside};
ghost use Rattle.pool_bench.specs.Owners.{AreRoots, numbers};

use crate::sizes::{BUFFERS, SIZE};
use buffer_pool::{Edges, Pool, PoolFault, Worker};
use std::alloc::Global;

/// A heap whose objects are all roots, without successors.
#[derive(Drop)]
struct Roots {
    objects: u32,
}

impl Edges for Roots {
    ghost count = { λ e. e.objects };

    ghost roots = { λ e. numbers e.objects };

    ghost pairs = { λ _. [] };

    fn objects(&self) -> u32 {
        self.objects
    }
}

/// Creates a pool for `objects` objects, which are all roots. Returns the pool and its only worker.
pub(crate) fn pool_of_roots(
    alloc: Global,
    objects: u32,
) -> Result<(Pool<Global>, Worker<Global>), PoolFault>
    ensures pool { IfOk result (λ p. p.1.pool ≡ p.0) }
    ensures roots { IfOk result (λ p. AreRoots objects p.1) }
    ensures fault { IfErr result (Refuses (IsInside objects 64 256 0)) }
    ensures share { IfOk result (λ p. p.1.book.account.share ≡ whole) }
    ensures awake { IfOk result (λ p. p.1.book.account.idle ≡ 0) }
{
    Pool::new(alloc, &Roots { objects }, BUFFERS, SIZE, 0)
}
