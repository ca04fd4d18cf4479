//! The results of a pop, and of single tries of a pop and of a push.

/// The result of one try of a pop.
#[derive(Drop)]
pub enum TryPopped<H> {
    /// The buffer that was on top.
    Took(H),
    /// The stack has no buffer.
    Empty,
    /// Another worker's step came first: nothing was taken.
    Lost,
    /// The head has the last tag: it is never exchanged again.
    Spent,
}

/// The result of one try of a push.
#[derive(Drop)]
pub enum TryPushed<H> {
    /// The buffer is on the stack.
    Done,
    /// Another worker's step came first. This is the buffer, with its items.
    Lost(H),
    /// The head has the last tag: it is never exchanged again. This is the buffer, with its items.
    Spent(H),
}

/// The result of a pop: the result of its first try that was not lost.
#[derive(Drop)]
pub enum Popped<H> {
    /// The buffer that was on top.
    Took(H),
    /// The stack has no buffer.
    Empty,
    /// The head has the last tag: it is never exchanged again.
    Spent,
}
