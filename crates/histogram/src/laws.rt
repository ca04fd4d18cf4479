//! The laws that a text has at most one report: functions that do nothing.

ghost use Rattle.std.specs.Prelude.{◌≡◌, Bool, List, ℕ};
ghost use Rattle.histogram.specs.Histogram.{Histogram, IsHistogram};
ghost use Rattle.heap_graph.specs.ObjectGraph.{ObjectGraph};
ghost use Rattle.heap_graph.specs.Skips.{SkipEntry};
ghost use Rattle.histogram.specs.Report.{IsReport};

use drain::one_marking;
use heap_graph::one_graph;

/// States that a graph with marks has at most one histogram.
///
/// The histogram is defined by a relation (`IsHistogram`), which says that its rows are the right entries in some
/// arrangement, and in order. Only one arrangement is in order, since no two different entries are equal in the order.
pub fn one_histogram()
    ensures { (g : ObjectGraph) (marks : List Bool) (h k : Histogram) → IsHistogram g marks h → IsHistogram g marks k
        → h ≡ k }
{}

/// States that a text and a list of fields that are not followed have at most one report.
///
/// They have at most one graph. The graph has one list of marks that are exactly at the reachable objects. The graph
/// with these marks has at most one histogram.
pub fn one_report()
    ensures { (text : List ℕ) (skip : List SkipEntry) (report other : List ℕ) → IsReport text skip report
        → IsReport text skip other → report ≡ other }
{
    one_graph();
    one_marking();
    one_histogram();
}
