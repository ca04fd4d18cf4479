//! A runtime, and the number of threads for a piece of work.

use std::alloc::{AllocError, Allocator};
use std::marker::Model;
use std::thread;
use std::thread::{Threads, available_parallelism};

/// The fewest objects that a team of `Team::new` or `Team::at_most` shares: fewer are not worth the start of a thread.
const FEWEST_IN_PARTS: u32 = 65_536;

/// A runtime that can start threads, for work that is done in parts. At most `threads` threads, including the calling
/// thread, work at once; 0 counts as one. No result depends on `threads`.
#[derive(Drop)]
pub struct Team<'r, T> {
    /// Never read: a value of a type that implements `Threads` is the permission to start threads.
    rt: &'r T,
    threads: u32,
    fewest: u32,
}

impl<'r, T> Model for Team<'r, T> {
    ghost use Rattle.hprof_grammar.specs.TeamLimits.{TeamLimits};

    ghost Value = { TeamLimits };

    ghost view = { λ t. record { threads = t.threads; fewest = t.fewest } };
}

impl<'r, T: Threads> Threads for Team<'r, T> {}

impl<'r, T: Threads> Team<'r, T> {
    ghost use Rattle.std.specs.Prelude.{min, ◌≡◌, ◌≤◌};

    /// Creates a team of `threads` threads that shares work on 65,536 objects or more. The calling thread does all of
    /// the work if `threads` is 0 or 1.
    pub fn new(rt: &'r T, threads: u32) -> Team<'r, T>
        ensures threads { result.threads ≡ threads }
        ensures fewest { result.fewest ≡ 65536 }
    {
        Team::sharing_from(rt, threads, FEWEST_IN_PARTS)
    }

    /// Creates a team like [`Team::new`], of fewer threads if the system grants the process fewer than `threads`
    /// processors.
    pub fn at_most(rt: &'r T, threads: u32) -> Team<'r, T>
        ensures threads { result.threads ≤ threads }
        ensures fewest { result.fewest ≡ 65536 }
    {
        let granted = match available_parallelism(rt) {
            Ok(processors) => u32::try_from(processors.get()).unwrap_or(u32::MAX),
            Err(_) => u32::MAX,
        };
        Team::within(rt, threads, granted)
    }

    /// Creates a team like [`Team::new`], of `threads` threads, or `granted` threads if these are fewer.
    fn within(rt: &'r T, threads: u32, granted: u32) -> Team<'r, T>
        ensures threads { result.threads ≡ min threads granted }
        ensures fewest { result.fewest ≡ 65536 }
    {
        Team::new(rt, threads.min(granted))
    }

    /// Creates a team of `threads` threads that shares work on `fewest` objects or more.
    pub fn sharing_from(rt: &'r T, threads: u32, fewest: u32) -> Team<'r, T>
        ensures threads { result.threads ≡ threads }
        ensures fewest { result.fewest ≡ fewest }
    {
        Team {
            rt,
            threads,
            fewest,
        }
    }
}

impl<'r, T> Team<'r, T> {
    ghost use Rattle.std.specs.Prelude.{◌<◌, ◌≡◌, ◌≤◌, max, nat_le, nat_lt, ◌&&◌};
    ghost use Rattle.hprof_grammar.specs.TeamLimits.{HasFewParts, HasManyParts};

    /// Returns the largest number of threads that work at once, where 0 counts as one.
    pub fn threads(&self) -> u32
        ensures { result ≡ max self.now.threads 1 }
    {
        self.threads.max(1)
    }

    /// Tests whether work on `objects` objects is done in parts.
    pub fn splits(&self, objects: usize) -> bool
        ensures { result ≡ (nat_lt 1 self.now.threads && nat_le self.now.fewest objects) }
    {
        self.threads > 1 && objects >= self.fewest as usize
    }

    /// Returns the number of items in each part of a piece of work of `length` items; the last part may have fewer.
    /// There are at most as many parts as threads, and more than half as many if there are at least as many items as
    /// threads.
    #[tactic(auto, using(crate::proofs::TeamParts::rounded))]
    pub(crate) fn part_of(&self, length: usize) -> usize
        ensures some { 0 < result }
        ensures few { HasFewParts self.now.threads length result }
        ensures many { HasManyParts self.now.threads length result }
    {
        length.div_ceil(self.threads() as usize).max(1)
    }

    /// Returns the number of parts of work on `length` objects: 1 if it is not done in parts.
    #[tactic(auto, using(crate::proofs::TeamParts::few_parts))]
    pub fn parts(&self, length: usize) -> usize
        ensures some { 0 < result }
        ensures few { result ≤ max self.now.threads 1 }
    {
        if self.splits(length) {
            length.div_ceil(self.part_of(length)).max(1)
        } else {
            1
        }
    }
}

// Parts are made and run by these calls only: no caller chooses a number of parts or a size, so none can start more
// threads than the team has.
impl<'r, T: Threads + Sync> Team<'r, T> {
    ghost use Rattle.std.specs.Prelude.{IfOk, max, vec_len, ◌≡◌, ◌≤◌};
    ghost use Rattle.std.specs.Fork.{AcceptsJobs, GivesJobs};
    ghost use Rattle.hprof_grammar.specs.PartResults.{AcceptsParts, AreResultsOfParts};

    /// Cuts `items` into parts and calls `f(first, part)` for each at the same time, as far as threads can be started.
    /// `first` is the number of the part's first item. Returns the results in the order of the parts. `AllocError` if
    /// an allocation fails.
    #[tactic(auto, using(crate::proofs::TeamParts::few_parts))]
    pub fn map_parts<
        I: Sync,
        X: Send + Drop,
        A: Allocator + Clone + Send,
        F: Fn(usize, &[I]) -> X + Sync,
    >(&self, alloc: A, items: &[I], f: &F) -> Result<Vec<X, A>, AllocError>
        requires { AcceptsParts F.Fn f.now items.now }
        ensures few { IfOk result (λ results. vec_len results ≤ max self.now.threads 1) }
        ensures parts { IfOk result (λ results.
            AreResultsOfParts F.Fn f.now self.now.threads items.now results.items) }
    {
        thread::map_chunks(self.rt, alloc, items, self.part_of(items.len()), f)
    }

    /// Calls `f` for each of `jobs` at the same time, as far as threads can be started. Returns the results in order.
    /// Requires no more jobs than the team has threads. `AllocError` if an allocation fails.
    pub(crate) fn map_jobs<
        J: Send + Drop,
        X: Send + Drop,
        A: Allocator + Clone + Send,
        F: Fn(J) -> X + Sync,
    >(&self, jobs: Vec<J, A>, f: &F) -> Result<Vec<X, A>, AllocError>
        requires few { vec_len jobs ≤ max self.now.threads 1 }
        requires accepts { AcceptsJobs F.Fn f.now jobs.items }
        ensures len { IfOk result (λ results. vec_len results ≡ vec_len jobs) }
        ensures each { IfOk result (λ results. GivesJobs F.Fn f.now jobs.items results.items) }
    {
        thread::map_vec(self.rt, jobs, f)
    }
}
