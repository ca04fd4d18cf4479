//! The refusal of a run whose marking failed.

ghost use Rattle.std.specs.Prelude.{ℕ, ◌≡◌};
ghost use Rattle.drain.specs.Stops.{IsFaultFrom};
ghost use Rattle.heapmark.specs.Causes.{HasCause};
ghost use Rattle.heapmark.specs.RefusalCodes.{run_refusal};

use crate::causes::Causes;
use drain::RunFault;
use front_end::Refusal;

/// Returns the refusal of a run whose marking failed with `fault`. Passes the token of the fault, if it has one, to
/// `rt`.
pub(crate) fn refusal_of_marking<T: Causes>(rt: &T, fault: RunFault) -> Refusal
    ensures value { result ≡ run_refusal fault }
    ensures cause { (first : ℕ) → IsFaultFrom first fault → HasCause (T.causes rt.now) first result }
{
    match fault {
        RunFault::OutOfMemory => Refusal::OUT_OF_MEMORY,
        RunFault::TagSpent(token) => {
            rt.tag_is_spent(token);
            Refusal::TAG_SPENT
        }
        RunFault::WorkerRefused(token) => {
            rt.worker_is_refused(token);
            Refusal::WORKER_REFUSED
        }
    }
}
