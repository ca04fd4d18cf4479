//! What a tally reads of a graph's objects.

use buffer_pool::Edges;

/// A graph each of whose objects has a row and a size in bytes.
///
/// The duty of a thread is stated with this trait, and may name no type that a graph picks. In
/// [`Walk`](crate::walk::Walk) a graph picks the type `Alloc`, so the two traits are separate.
pub trait Measured: Edges {
    ghost use Rattle.std.specs.Prelude.{◌≡◌};
    ghost use Rattle.drain.specs.working.Tallies.{IsMeasureOf, Measure};

    /// What a tally reads of the objects.
    ghost measure: { Self → Measure };

    /// Recalls what holds of each graph: it has few objects, and each object has a row, few bytes and few unresolved
    /// identifiers. The call does nothing.
    fn recall_measure(&self)
        ensures { IsMeasureOf (Self.count self.now) (measure self.now) };

    /// Returns the number of rows of a tally.
    fn rows(&self) -> usize
        ensures { result ≡ (measure self.now).rows };
}
