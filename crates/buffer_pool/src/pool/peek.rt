//! The words of the table, read without a worker: for tests alone.
ghost use Rattle.std.specs.Prelude.{◌<◌, ◌≤◌, MatchOption};

use crate::pool::Pool;
use std::alloc::Allocator;

impl<A: Allocator> Pool<A> {
    /// Returns word number `word` of the table as it is now, or `None` beyond the last one. `layout` says which word is
    /// which. Public only for tests. The call is no worker's step, so its contract says nothing of the word's value.
    pub fn peek(&self, word: usize) -> Option<u64>
        ensures { MatchOption result (self.now.table.words ≤ word) (λ _. word < self.now.table.words) }
    {
        if word < self.table.word_count() {
            Some(self.table.shared.peek(word))
        } else {
            None
        }
    }
}
