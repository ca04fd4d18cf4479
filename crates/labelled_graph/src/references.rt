//! The references of an object.

ghost use Rattle.std.specs.Prelude.{◌≡◌};
ghost use Rattle.labelled_graph.specs.working.Kept.{reference_of};

use crate::mark::Mark;
use crate::place_marks::PlaceMarks;
use heap_graph::Named;
use label_flow::{Reference, ReferenceSource};
use std::alloc::Allocator;
use std::marker::Model;

/// The references of an object: the identifiers that it holds and that name an object, without those that are cut.
#[derive(Drop)]
pub(crate) struct LabelledReferences<'g, A: Allocator> {
    /// What the remaining identifiers name.
    pub(crate) named: Named<'g, A>,
    /// The marks of the remaining identifiers.
    pub(crate) marks: PlaceMarks<'g, A>,
}

impl<'g, A: Allocator> Model for LabelledReferences<'g, A> {
    ghost use Rattle.std.specs.Prelude.{List};
    ghost use Rattle.heap_graph.specs.Walks.{named_in};
    ghost use Rattle.label_flow.specs.declared.graph.Reference.{Reference};
    ghost use Rattle.labelled_graph.specs.working.Kept.{kept, mark_of};
    ghost use Rattle.labelled_graph.specs.working.MarkMaps.{IsFrom};

    ghost Value = { List Reference };

    ghost view = { λ r. kept (mark_of r.marks) r.marks.index (named_in r.named) };

    ghost invariant = { λ r. IsFrom r.marks.index r.marks.class.now };
}

/// Returns the reference of an identifier that names `named` and has the mark `mark`.
pub(crate) fn reference(named: Option<u32>, mark: Mark) -> Option<Reference>
    ensures { result ≡ reference_of named mark }
{
    let Some(object) = named else {
        return None;
    };
    match mark {
        Mark::Cut => None,
        Mark::Labels(labels) => Some(Reference { object, labels }),
    }
}

impl<'g, A: Allocator> ReferenceSource for LabelledReferences<'g, A> {
    ghost left = { λ r. r };

    // Inlined into the loops over an object's references, where the parts of the walk stay in registers.
    #[inline(always)]
    fn next_reference(&mut self) -> Option<Reference> {
        while let Some(named) = self.named.next() {
            let mark = self.marks.next();
            if let Some(next) = reference(named, mark) {
                return Some(next);
            }
        }
        None
    }
}
