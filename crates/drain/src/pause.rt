//! The pause of a worker between two turns, while it waits for others.

ghost use Rattle.std.specs.Prelude.{◌≤◌};
ghost use Rattle.std.specs.Duration.{as_nanos};

use crossbeam_utils::Backoff;
use std::sync::Wait;
use std::thread::Parker;
use std::time::Duration;

/// The number of turns before the naps get twice as long, which happens three times: the longer nobody had work, the
/// longer the wait may last.
const TURNS_OF_A_LENGTH: u32 = 128;

/// Returns the length of the nap in turn `turn`: 50 microseconds at first, and 400 at most.
// The first naps are short compared with a marking, but long enough that a napping worker takes hardly any processor
// time from those at work. If all naps took 50 microseconds, a worker that waits in vain would stay for 0.13 seconds,
// and marking some linked lists takes longer.
fn nap_of(turn: u32) -> Duration
    ensures short { as_nanos result ≤ 400_000 }
{
    let micros = match turn / TURNS_OF_A_LENGTH {
        0 => 50,
        1 => 100,
        2 => 200,
        _ => 400,
    };
    Duration::from_micros(micros)
}

/// Lets the thread sleep for `length`, or less.
fn nap<R: Wait>(rt: &R, length: Duration)
    requires short { as_nanos length ≤ 400_000 }
{
    Parker::new().park_timeout(rt, length);
}

/// Spins at first and then lets other threads run, so that work that comes at once is seen at once. After that
/// (`Backoff` says when) naps. A worker that waits in vain leaves after 0.3 seconds, or some 0.4 with what the system
/// adds.
pub(crate) fn pause<R: Wait>(rt: &R, backoff: &Backoff, turn: u32) {
    if backoff.is_completed() {
        nap(rt, nap_of(turn));
    } else {
        backoff.snooze();
    }
}
