//! A run over objects with references: two objects and their class.
ghost use Rattle.std.specs.Prelude.{◌≡◌, ◌≢◌, ℕ, [], ◌∷◌, IfOk};
ghost use Rattle.mark_core.specs.Events.{CanClaim};
ghost use Rattle.buffer_pool.specs.Book.{claimed};
ghost use Rattle.pool_tests.specs.Worked.{all_finished, begun, claimed_again, references, root_finished};

use crate::worked::mark;
use buffer_pool::{Edges, Pool, PoolFault, Worker};
use std::alloc::{Allocator, Global};
use std::process::Abort;

const OBJECTS: u32 = 3;

/// A heap of three objects. Object 0 is the class. Object 1 is a root and refers to the class and to object 2, which
/// refers to the class and to object 1.
#[derive(Drop)]
struct TwoObjects;

impl Edges for TwoObjects {
    ghost count = { λ _. 3 };

    ghost roots = { λ _. 1 ∷ [] };

    ghost pairs = { λ _. references };

    fn objects(&self) -> u32 {
        OBJECTS
    }
}

fn pool_of_two_objects(alloc: Global) -> Result<(Pool<Global>, Worker<Global>), PoolFault>
    ensures pool { IfOk result (λ p. p.1.pool ≡ p.0) }
    ensures book { IfOk result (λ p. p.1.book ≡ begun) }
{
    Pool::new(alloc, &TwoObjects, 4, 2, 0)
}

/// Claims `object`, which is white.
pub(crate) fn claim_white<R: Abort, A: Allocator>(
    rt: &R,
    pool: &Pool<A>,
    worker: &mut Worker<A>,
    object: u32,
)
    requires pool { worker.old.pool ≡ pool.now }
    requires can { CanClaim worker.old.book.setup object worker.old.book.account }
    requires awake { worker.old.book.account.idle ≡ 0 }
    ensures pool { worker.new.pool ≡ worker.old.pool }
    ensures book { worker.new.book ≡ claimed object 0 worker.old.book }
{
    assert!(rt; pool.claim(worker, object), "object {object}");
}

/// Claims `object`, which is marked.
fn claim_marked<R: Abort, A: Allocator>(rt: &R, pool: &Pool<A>, worker: &mut Worker<A>, object: u32)
    requires pool { worker.old.pool ≡ pool.now }
    requires can { CanClaim worker.old.book.setup object worker.old.book.account }
    requires awake { worker.old.book.account.idle ≡ 0 }
    ensures pool { worker.new.pool ≡ worker.old.pool }
    ensures book { worker.new.book ≡ claimed_again object worker.old.book }
{
    assert!(rt; !pool.claim(worker, object), "object {object}");
}

/// Claims the root and the two objects to which it refers, and finishes the root.
fn scan_root<R: Abort, A: Allocator>(rt: &R, pool: &Pool<A>, worker: &mut Worker<A>)
    requires pool { worker.old.pool ≡ pool.now }
    requires book { worker.old.book ≡ begun }
    ensures pool { worker.new.pool ≡ worker.old.pool }
    ensures book { worker.new.book ≡ root_finished }
{
    claim_white(rt, pool, worker, 1);
    claim_white(rt, pool, worker, 0);
    claim_white(rt, pool, worker, 2);
    pool.finish(worker, 1);
}

/// Finishes the class, which refers to nothing. Then claims the successors of object 2, which are marked already, and
/// finishes object 2.
fn scan_rest<R: Abort, A: Allocator>(rt: &R, pool: &Pool<A>, worker: &mut Worker<A>)
    requires pool { worker.old.pool ≡ pool.now }
    requires book { worker.old.book ≡ root_finished }
    ensures pool { worker.new.pool ≡ worker.old.pool }
    ensures book { worker.new.book ≡ all_finished }
{
    pool.finish(worker, 0);
    claim_marked(rt, pool, worker, 0);
    claim_marked(rt, pool, worker, 1);
    pool.finish(worker, 2);
}

/// For each object, whether it was claimed and whether it was finished; and the number of finished objects.
type Marked = ([(bool, bool); 3], u64);

fn marked_by_one<R: Abort>(rt: &R, alloc: Global) -> Result<Marked, PoolFault> {
    let (pool, mut worker) = pool_of_two_objects(alloc)?;
    scan_root(rt, &pool, &mut worker);
    scan_rest(rt, &pool, &mut worker);
    let marks = pool.close(worker);
    let each = [mark(&marks, 0), mark(&marks, 1), mark(&marks, 2)];
    Ok((each, marks.finished_len()))
}

#[test]
fn successors_of_a_root(rt: HostRuntime) {
    let marked = [(true, true), (true, true), (true, true)];
    assert_eq!(rt;
        marked_by_one(&rt, rt.alloc()),
        Ok((marked, u64::from(OBJECTS)))
    );
}
