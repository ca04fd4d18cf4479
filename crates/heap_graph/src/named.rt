//! What the identifiers of an object name, with an item for each identifier.

use crate::object_ids::ObjectIds;
use crate::resolving::target;
use crate::targets::IdSource;
use id_index::IdIndex;
use std::alloc::Allocator;
use std::marker::Model;

/// An iterator over what an object's identifiers name, in order: the number of an object, or `None` for 0 and for an
/// identifier that names no object. Unlike [`Visit`](crate::Visit), it skips no identifier: a caller that counts the
/// items knows the position of each.
#[derive(Drop)]
pub struct Named<'g, A: Allocator> {
    /// The index that has the identifier of `class`.
    known: &'g IdIndex<A>,
    /// The class, if it is known without a look-up and was not yielded yet.
    class: Option<u32>,
    /// The index in which `ids` are looked up.
    index: &'g IdIndex<A>,
    ids: ObjectIds<'g, A>,
}

impl<'g, A: Allocator> Model for Named<'g, A> {
    ghost use Rattle.std.specs.Prelude.{IfSome, List, map, ◌++◌};
    ghost use Rattle.heap_graph.specs.Walks.{Step, step_in};
    ghost use Rattle.heap_graph.specs.working.Resolving.{IsNamed, known_ids};

    ghost Value = { List Step };

    ghost view = { λ n. map (step_in n.known.now) (known_ids n.known.now n.class) ++ map (step_in n.index.now) n.ids };

    ghost invariant = { λ n. IfSome n.class (IsNamed n.known.now) };
}

impl<'g, A: Allocator> Named<'g, A> {
    ghost use Rattle.std.specs.Prelude.{IfSome, map, ◌++◌, ◌≡◌};
    ghost use Rattle.heap_graph.specs.Walks.{step_in};
    ghost use Rattle.heap_graph.specs.working.Resolving.{IsNamed, known_ids};

    /// Creates the iterator over what `ids` name by `index`, after `class`, if there is one, which `known` names.
    // Inlined, like everything that makes up a visit.
    #[inline(always)]
    pub(crate) fn new(
        known: &'g IdIndex<A>,
        class: Option<u32>,
        index: &'g IdIndex<A>,
        ids: ObjectIds<'g, A>,
    ) -> Self
        requires { IfSome class (IsNamed known.now) }
        ensures { result ≡ map (step_in known.now) (known_ids known.now class) ++ map (step_in index.now) ids.entry }
    {
        Named {
            known,
            class,
            index,
            ids,
        }
    }
}

impl<'g, A: Allocator> Iterator for Named<'g, A> {
    ghost use Rattle.std.specs.Iterator.{YieldsFirst, item_count};
    ghost use Rattle.heap_graph.specs.Walks.{named_in};

    type Item = Option<u32>;

    ghost next_gives = { YieldsFirst named_in };

    ghost remaining = { item_count named_in };

    // Inlined, as the other walks over identifiers are.
    #[inline(always)]
    fn next(&mut self) -> Option<Option<u32>> {
        if let Some(class) = self.class {
            self.class = None;
            return Some(Some(class));
        }
        match self.ids.next_id() {
            Some(id) => return Some(target(self.index, id)),
            None => return None,
        }
    }
}
