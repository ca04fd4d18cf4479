//! Sums at their bounds: 2^24 objects of 2^30 bytes, each with 2^33 identifiers that name no object.

ghost use Rattle.std.specs.Prelude.{◌≡◌, ◌≤◌, ◌^◌, IfOk, length};
ghost use Rattle.drain.specs.working.Tallying.{HasSmallSums};

use drain::inside::{ScannedObject, Sum, Tally};
use std::alloc::{AllocError, Global};
use std::test::Fail;

const OBJECTS: u64 = 1 << 24;

const BYTES: u64 = 1 << 30;

const UNRESOLVED: u64 = 1 << 33;

/// Returns a tally of `objects` objects of one row, each of the largest size and with the most unresolved identifiers.
fn of_largest(alloc: Global, objects: u64) -> Result<Tally<Global>, AllocError>
    requires { objects ≤ 2 ^ 24 }
    ensures { IfOk result (λ t. HasSmallSums t × (length t.rows.items ≡ 1)) }
{
    let sum = Sum {
        count: objects,
        bytes: objects * BYTES,
    };
    Ok(Tally {
        rows: vec![in alloc; sum; 1]?,
        unresolved: objects * UNRESOLVED,
    })
}

/// The sum of the first row, the sum at the place after it, and the number of identifiers that name no object.
type Told = ((u64, u64), (u64, u64), u64);

/// What a tally of [`OBJECTS`] objects of the largest size has to report.
const BOUNDS: Told = ((OBJECTS, OBJECTS * BYTES), (0, 0), OBJECTS * UNRESOLVED);

fn told(tally: &Tally<Global>) -> Told {
    (tally.told_at(0), tally.told_at(1), tally.unresolved)
}

/// Returns what a tally of [`OBJECTS`] objects reports if the last object was added to a tally of the others.
fn told_of_one_more(alloc: Global) -> Result<Told, AllocError> {
    let mut tally = of_largest(alloc, OBJECTS - 1)?;
    tally.add(ScannedObject {
        row: 0,
        bytes: BYTES,
        unresolved: UNRESOLVED,
    });
    Ok(told(&tally))
}

/// Returns what a tally of [`OBJECTS`] objects reports if it was joined from the tallies of two halves.
fn told_of_halves(alloc: Global) -> Result<Told, AllocError> {
    let mut halves = of_largest(alloc, OBJECTS / 2)?;
    let other = of_largest(alloc, OBJECTS / 2)?;
    halves.join(&other);
    Ok(told(&halves))
}

#[test]
fn sums_reach_their_bounds(rt: HostRuntime) -> Result<(), Fail> {
    let told = [told_of_one_more(rt.alloc())?, told_of_halves(rt.alloc())?];
    assert_eq!(rt; told, [BOUNDS, BOUNDS]);
    Ok(())
}
