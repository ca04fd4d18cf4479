//! Laws about a text, its graph, the first fault of its links, and lists of skipped fields. A law is a function whose
//! body is empty, or calls the laws that it rests on.

ghost use Rattle.std.specs.Prelude.{List, [], map, ℕ, ◌∷◌, ◌≡◌, ◌⊎◌};
ghost use Rattle.hprof_grammar.specs.Dump.{Spells};
ghost use Rattle.hprof_grammar.specs.Record.{Record, tag_of};
ghost use Rattle.hprof_grammar.specs.Snapshot.{IsOrderly};
ghost use Rattle.hprof_grammar.specs.SubRecord.{Class, Instance};
ghost use Rattle.heap_graph.specs.Fields.{all_field_ids};
ghost use Rattle.heap_graph.specs.Layout.{layout};
ghost use Rattle.heap_graph.specs.LinkFault.{HasLinkFault};
ghost use Rattle.heap_graph.specs.Accepted.{IsAccepted};
ghost use Rattle.heap_graph.specs.ObjectGraph.{IsGraphOfText, ObjectGraph};
ghost use Rattle.heap_graph.specs.References.{instance_ids};
ghost use Rattle.heap_graph.specs.SkipText.{SpellsSkips};
ghost use Rattle.heap_graph.specs.Skips.{SkipEntry, is_skipped};

use hprof_grammar::dump_is_placed;

/// A text and a list of fields that are not followed have at most one graph.
pub fn one_graph()
    ensures { (text : List ℕ) (skip : List SkipEntry) (graph other : ObjectGraph) → IsGraphOfText text skip graph
        → IsGraphOfText text skip other → graph ≡ other }
{}

/// A text whose form has no fault is accepted, or its links have a first fault.
pub fn always_linked_or_fault()
    ensures { (text : List ℕ) (id_size : ℕ) (records : List Record) → Spells text id_size records
        → IsOrderly (map tag_of records)
        → IsAccepted text id_size records ⊎ ((code : ℕ) × (place : ℕ) × HasLinkFault text code place) }
{
    dump_is_placed();
}

/// A text spells at most one list of fields that are not followed.
pub fn one_skip_list()
    ensures { (text : List ℕ) (list other : List SkipEntry) → SpellsSkips text list → SpellsSkips text other
        → list ≡ other }
{}

/// If the list of fields to skip is empty, an instance holds its class and the identifiers in all fields of type 2 of
/// its layout.
pub fn an_empty_list_skips_nothing()
    ensures { (records : List Record) (s : ℕ) (i : Instance) (chain : List Class)
        → instance_ids (is_skipped records []) s i chain ≡ i.class ∷ all_field_ids s (layout chain) i.values }
{}
