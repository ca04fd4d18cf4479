//! The graph of a dump, with labels.

use crate::place_marks::PlaceMarks;
use crate::references::LabelledReferences;
use crate::tables::Tables;
use heap_graph::Graph;
use label_flow::{LabelledGraph, Reference};
use std::alloc::Allocator;

/// The graph of a dump, with the labels that `tables` has.
#[derive(Drop)]
pub(crate) struct LabelledDump<'g, 'b, A: Allocator> {
    pub(crate) graph: &'g Graph<'b, A>,
    pub(crate) tables: &'g Tables<A>,
}

impl<'g, 'b, A: Allocator> LabelledGraph for LabelledDump<'g, 'b, A> {
    ghost use Rattle.heap_graph.specs.ObjectGraph.{object_count};
    ghost use Rattle.labelled_graph.specs.working.Tabled.{labelled_references};

    type References = LabelledReferences<'g, A>;

    ghost count = { λ d. object_count d.graph.now };

    ghost roots_of = { λ d. d.tables.now.roots.items };

    ghost references_of = { λ d. labelled_references d.graph.now d.tables.now.classes d.tables.now.objects.marks.marks
        d.tables.now.objects.has.items };

    fn objects(&self) -> u32 {
        self.graph.len()
    }

    fn roots(&self) -> &[Reference] {
        self.tables.roots.as_slice()
    }

    // Inlined, as the visit is.
    #[inline(always)]
    fn references(&self, object: u32) -> LabelledReferences<'g, A> {
        let graph = self.graph;
        let tables = self.tables;
        let visit = graph.visit(object);
        let class = tables.classes.of_row(visit.row());
        let has_own = tables.objects.has(object);
        LabelledReferences {
            named: visit.named(),
            marks: PlaceMarks {
                index: 0,
                class,
                own: &tables.objects.marks,
                object,
                has_own,
            },
        }
    }
}
