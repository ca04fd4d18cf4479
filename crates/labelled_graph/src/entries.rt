//! What an entry says of the places of a table.

ghost use Rattle.std.specs.Prelude.{◌≡◌};
ghost use Rattle.labelled_graph.specs.working.Saying.{IsSaidAt, class_place, object_place, root_place};

use crate::mark::Said;
use heap_graph::Graph;
use label_list::{Entry, Place};
use std::alloc::Allocator;

/// Returns what `entry` says of the identifiers that all objects of a class hold. The key is the class's identifier.
pub(crate) fn said_of_class(entry: Entry) -> Option<Said>
    ensures { IsSaidAt class_place entry result }
{
    let (label, place) = match entry {
        Entry::Label(label, place) => (Some(label), place),
        Entry::Cut(place) => (None, place),
        Entry::Root(_) => return None,
    };
    match place {
        Place::Class(key, index) => Some(Said { key, index, label }),
        _ => None,
    }
}

/// Returns what `entry` says of the identifiers that an object holds. The key is the object's number.
pub(crate) fn said_of_object<A: Allocator>(graph: &Graph<'_, A>, entry: Entry) -> Option<Said>
    ensures { IsSaidAt (object_place graph.now.ids) entry result }
{
    let (label, place) = match entry {
        Entry::Label(label, place) => (Some(label), place),
        Entry::Cut(place) => (None, place),
        Entry::Root(_) => return None,
    };
    match place {
        Place::Object(id, index) => match graph.find(id) {
            Some(object) => Some(Said {
                key: u64::from(object),
                index,
                label,
            }),
            None => None,
        },
        _ => None,
    }
}

/// Returns what `entry` says of a root. The key is 0.
pub(crate) fn said_of_root(entry: Entry) -> Option<Said>
    ensures { IsSaidAt root_place entry result }
{
    let (label, place) = match entry {
        Entry::Label(label, place) => (Some(label), place),
        Entry::Cut(place) => (None, place),
        Entry::Root(_) => return None,
    };
    match place {
        Place::Root(index) => Some(Said {
            key: 0,
            index,
            label,
        }),
        _ => None,
    }
}
