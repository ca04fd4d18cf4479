//! Pools of small heaps.
ghost use Rattle.std.specs.Prelude.{◌≡◌, ℕ, [], IfOk};
ghost use Rattle.mark_core.specs.Shares.{whole};
ghost use Rattle.pool_tests.specs.Rounds.{HasNone, HasRoots, numbers};

use buffer_pool::{Edges, Pool, PoolFault, Worker};
use std::alloc::Allocator;

/// A heap whose objects are all roots, without successors.
#[derive(Drop)]
pub(crate) struct Roots {
    pub(crate) objects: u32,
}

impl Edges for Roots {
    ghost count = { λ e. e.objects };

    ghost roots = { λ e. numbers e.objects };

    ghost pairs = { λ _. [] };

    fn objects(&self) -> u32 {
        self.objects
    }
}

/// Creates a pool whose `objects` objects are all roots. Returns it with its worker.
pub(crate) fn pool_of_roots<A: Allocator + Copy>(
    alloc: A,
    objects: u32,
    buffers: u32,
    size: u32,
) -> Result<(Pool<A>, Worker<A>), PoolFault>
    ensures pool { IfOk result (λ p. p.1.pool ≡ p.0) }
    ensures roots { IfOk result (λ p. HasRoots objects p.1) }
    ensures none { IfOk result (λ p. HasNone p.1) }
    ensures share { IfOk result (λ p. p.1.book.account.share ≡ whole) }
{
    Pool::new(alloc, &Roots { objects }, buffers, size, 0)
}
