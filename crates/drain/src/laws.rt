//! A law of a graph's marks: a function with an empty body.

ghost use Rattle.std.specs.Prelude.{◌≡◌, Bool, List};
ghost use Rattle.heap_graph.specs.ObjectGraph.{ObjectGraph};
ghost use Rattle.drain.specs.ExactlyReachable.{ExactlyReachable};

/// States that a graph has at most one list of marks in which exactly the reachable objects are marked. So a marking's
/// result does not depend on who sets the marks, nor on the order.
pub fn one_marking()
    ensures { (graph : ObjectGraph) (marks other : List Bool) → ExactlyReachable graph marks
        → ExactlyReachable graph other → marks ≡ other }
{}
