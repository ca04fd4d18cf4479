//! The constants of a pool's table, fixed when the table is made.
ghost use Rattle.std.specs.Borrow.{ftrue};
ghost use Rattle.std.specs.Prelude.{◌≡◌, ℕ, List};
ghost use Rattle.std.specs.Coded.{coded_list, coded_ℕ, coded×};

use mark_core::Edges;
use std::marker::{Model, PhantomData};

/// The roots and references of a heap, for clauses only: the value has no bytes.
pub struct NamedEdges {
    marker: PhantomData<()>,
    /// The objects at which reachability begins.
    pub ghost roots: { List ℕ } by { coded_list coded_ℕ },
    /// Each object with each of its successors.
    pub ghost pairs: { List (ℕ × ℕ) } by { coded_list (coded× coded_ℕ coded_ℕ) },
}

impl Model for NamedEdges {
    ghost also_owns = { λ _. ftrue };
}

impl NamedEdges {
    pub(crate) fn of<E: Edges>(edges: &E) -> NamedEdges
        ensures { (result.roots ≡ E.roots edges.now) × (result.pairs ≡ E.pairs edges.now) }
    {
        // Only the clauses above use `edges`: the result has no bytes.
        let _ = edges;
        NamedEdges {
            marker: PhantomData,
        }
    }
}

impl Drop for NamedEdges {
    fn drop(self) {
        let Self { marker: _ } = self;
    }
}

/// The setup of a pool, as its table keeps it.
#[derive(Drop)]
pub struct Key {
    pub(crate) named: NamedEdges,
    pub(crate) objects: u32,
    pub(crate) buffers: u32,
    pub(crate) size: u32,
    pub(crate) first_tag: u64,
}
