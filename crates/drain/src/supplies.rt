//! The memory that is allocated before the first thread is started.

ghost use Rattle.std.specs.Prelude.{◌≡◌, ◌≤◌, [], IfOk, vec_capacity, vec_len};
ghost use Rattle.drain.specs.working.Tallies.{Measure};
ghost use Rattle.drain.specs.working.Tallying.{AreTalliesOfNone, Tallies};

use crate::job::Job;
use crate::measured::Measured;
use crate::tally::{TalliedWorker, Tally};
use crate::worker_threads::StartedWorker;
use std::alloc::{AllocError, Allocator};

/// Room for the threads of a job and for the workers that they return, and the tallies of the workers and the leader.
#[derive(Drop)]
pub(crate) struct Supplies<A: Allocator, V: Measured> {
    /// The threads: none yet, with room for each.
    pub(crate) threads: Vec<StartedWorker<A, V>, A>,
    /// The workers that are through: none yet, with room for each.
    pub(crate) back: Vec<TalliedWorker<A>, A>,
    /// A tally for each worker, of no object.
    pub(crate) tallies: Vec<Tally<A>, A>,
    /// The leader's tally, of no object.
    pub(crate) tally: Tally<A>,
}

/// Allocates the room for the threads of `job`, for the workers that they return, the workers' tallies, and the
/// leader's tally, in this order. A tally that grew with the rows that its worker meets would allocate while others
/// mark.
pub(crate) fn supplies_of<A: Allocator + Copy, V: Measured, G, S>(
    job: &Job<'_, A, V, G, S>,
) -> Result<Supplies<A, V>, AllocError>
    ensures room { IfOk result (λ s. (vec_len s.threads ≡ 0) × (job.now.workers ≤ vec_capacity s.threads)) }
    ensures back { IfOk result (λ s. (vec_len s.back ≡ 0) × (job.now.workers ≤ vec_capacity s.back)) }
    ensures tallies { IfOk result (λ s. (job.now.workers ≤ vec_len s.tallies)
        × AreTalliesOfNone (V.measure job.now.graph.now) s.tallies.items) }
    ensures tally { IfOk result (λ s. Tallies (V.measure job.now.graph.now) [] s.tally) }
{
    let threads = Vec::with_capacity(job.alloc, job.workers as usize)?;
    let back = Vec::with_capacity(job.alloc, job.workers as usize)?;
    let rows = job.graph.rows();
    let tallies = tallies_of_none(job.alloc, job.workers, rows)?;
    let tally = Tally::new(job.alloc, rows)?;
    Ok(Supplies {
        threads,
        back,
        tallies,
        tally,
    })
}

/// Creates a tally of no object with `rows` rows for each of `workers` workers.
fn tallies_of_none<A: Allocator + Copy>(
    alloc: A,
    workers: u32,
    rows: usize,
) -> Result<Vec<Tally<A>, A>, AllocError>
    ensures count { IfOk result (λ v. vec_len v ≡ workers) }
    ensures none { IfOk result (λ v. (m : Measure) → m.rows ≡ rows → AreTalliesOfNone m v.items) }
{
    let mut tallies = Vec::with_capacity(alloc, workers as usize)?;
    while tallies.len() < workers as usize {
        tallies.push_reserved(Tally::new(alloc, rows)?);
    }
    Ok(tallies)
}
