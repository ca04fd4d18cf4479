//! What all threads of a marking share.

use buffer_pool::Pool;
use std::alloc::Allocator;

/// The graph to be marked, the pool that it is marked with, and the calls during the marking.
#[derive(Drop)]
pub struct Job<'j, A: Allocator, V, G, S> {
    /// The allocator of the workers' lists.
    pub alloc: A,
    /// The graph to be marked.
    pub graph: &'j V,
    /// The buffers and the marks.
    pub pool: &'j Pool<A>,
    /// The hook that is called before each object is scanned.
    pub gate: &'j G,
    /// The hook that is called before each thread is started.
    pub hook: &'j S,
    /// The number of threads that mark, without the leading one.
    pub workers: u32,
}
