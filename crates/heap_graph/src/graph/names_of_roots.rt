//! The identifiers of the roots of a dump.

ghost use Rattle.std.specs.Prelude.{IfOk, List, ◌≡◌};
ghost use Rattle.hprof_grammar.specs.Places.{IsDumpOf};
ghost use Rattle.heap_graph.specs.ObjectGraph.{IsGraphOfText, ObjectGraph};
ghost use Rattle.heap_graph.specs.Skips.{SkipEntry};

use crate::objects::read_ids;
use hprof_grammar::{Dump, View, dump_is_placed, one_list_of_records};
use std::alloc::{AllocError, Allocator};

/// Returns the identifiers of the root sub-records of `dump`, which was read from `bytes`, in order. A graph keeps only
/// the objects that they name, so it cannot say the position of a root among them. `Err` if an allocation fails.
pub fn root_names<A: Allocator, B: Allocator>(
    alloc: B,
    bytes: &[u8],
    dump: &Dump<A>,
) -> Result<Vec<u64, B>, AllocError>
    requires { IsDumpOf bytes.now dump.now }
    ensures { IfOk result (λ names. (skip : List SkipEntry) (g : ObjectGraph) → IsGraphOfText bytes.now skip g
        → names.items ≡ g.root_names) }
{
    dump_is_placed();
    one_list_of_records();
    let view = View::new(bytes, dump.id_size());
    read_ids(alloc, &view, dump.roots())
}
