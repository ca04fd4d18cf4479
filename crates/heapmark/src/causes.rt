//! What a runtime is told of the causes of refusals.

use buffer_pool::SpentTag;
use drain::RefusedThread;
use std::rt::Files;

/// A runtime that is told of the causes of refusals, and does nothing with them.
///
/// A function that takes any `Causes` knows of no cause until it has made the call for it, and that call takes a token.
/// So what its contract says of a cause shows that the token was there: it cannot make the cause up.
pub trait Causes {
    ghost use Rattle.buffer_pool.specs.Calls.{first_tag_of};
    ghost use Rattle.heapmark.specs.Causes.{KnownCauses};

    /// The causes that were found.
    ghost causes: { Self → KnownCauses };

    /// Is called with the token of a worker that loaded a stack's last tag. Only the pool makes one.
    fn tag_is_spent(&self, token: SpentTag)
        ensures { (causes self.now).spent_tag (first_tag_of token) };

    /// Is called with the token of a worker whose thread could not be started. Only the marking makes one.
    fn worker_is_refused(&self, token: RefusedThread)
        ensures { (causes self.now).refused_thread };
}

/// The system. A contract cannot say what its workers load, nor which threads it refuses.
impl<T: Files> Causes for T {
    ghost use Rattle.heapmark.specs.Causes.{KnownCauses};

    ghost causes = { λ _. record { spent_tag = λ _. Unit; refused_thread = Unit } };

    fn tag_is_spent(&self, _token: SpentTag)
        ensures { Unit }
    {}

    fn worker_is_refused(&self, _token: RefusedThread)
        ensures { Unit }
    {}
}
