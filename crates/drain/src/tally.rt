//! What a worker counts of the objects that it finished.

ghost use Rattle.std.specs.Prelude.{◌≡◌, ◌<◌, ◌≤◌, ◌^◌, ◌++◌, ◌∷◌, [], ℕ, IfOk, List, length};
ghost use Rattle.drain.specs.Sums.{sum_at};
ghost use Rattle.drain.specs.working.Tallying.{HasSmallSums, Tallies};
ghost use Rattle.drain.specs.working.Tallies.{Measure};
ghost use Rattle.drain.specs.working.Scans.{MatchesMeasure};

use crate::scanned_object::ScannedObject;
use crate::sum::Sum;
use buffer_pool::Worker;
use std::alloc::{AllocError, Allocator};

/// The counts of some objects: for each row their number and their bytes, and how many identifiers of all are other
/// than 0 and name no object.
#[derive(Drop)]
pub struct Tally<A: Allocator> {
    /// The sums of the rows, by their numbers.
    pub rows: Vec<Sum, A>,
    /// The number of the objects' identifiers that are other than 0 and name no object.
    pub unresolved: u64,
}

impl<A: Allocator> Tally<A> {
    /// Creates the tally of no object with `rows` rows. Allocates all its memory.
    pub fn new(alloc: A, rows: usize) -> Result<Tally<A>, AllocError>
        ensures { IfOk result (λ t. (m : Measure) → m.rows ≡ rows → Tallies m [] t) }
    {
        let rows = vec![in alloc; Sum::none(); rows]?;
        Ok(Tally {
            rows,
            unresolved: 0,
        })
    }

    /// Adds one `object`.
    pub fn add(&mut self, object: ScannedObject)
        requires row { object.row < length self.old.rows.items }
        requires small { HasSmallSums self.old }
        requires bytes { object.bytes ≤ 2 ^ 30 }
        requires unresolved { object.unresolved ≤ 2 ^ 33 }
        ensures { (m : Measure) (objects : List ℕ) (o : ℕ) → Tallies m objects self.old → MatchesMeasure m o object
            → Tallies m (objects ++ o ∷ []) self.new }
    {
        let sum = &mut self.rows[object.row];
        sum.add(object.bytes);
        self.unresolved += object.unresolved;
    }

    /// Adds the counts of `other`, which must have as many rows.
    pub fn join(&mut self, other: &Tally<A>)
        requires rows { length self.old.rows.items ≡ length other.now.rows.items }
        requires small { HasSmallSums self.old }
        requires others { HasSmallSums other.now }
        ensures { (m : Measure) (xs ys : List ℕ) → Tallies m xs self.old → Tallies m ys other.now
            → Tallies m (xs ++ ys) self.new }
    {
        for row in 0..self.rows.len() {
            let sum = &mut self.rows[row];
            sum.join(other.rows[row]);
        }
        self.unresolved += other.unresolved;
    }

    /// Returns the number of objects of row `number` and their bytes together, or (0, 0) if there is no row of this
    /// number.
    pub fn told_at(&self, number: usize) -> (u64, u64)
        ensures { result ≡ sum_at self.now.rows.items number }
    {
        match self.rows.get(number) {
            Some(sum) => (sum.count, sum.bytes),
            None => (0, 0),
        }
    }
}

/// A worker before or after its work, and the tally of the objects that it finished.
#[derive(Drop)]
pub struct TalliedWorker<A: Allocator> {
    /// The worker, which has no buffer and no charge.
    pub worker: Worker<A>,
    /// The tally of the objects that the worker finished.
    pub tally: Tally<A>,
}
