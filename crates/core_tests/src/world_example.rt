//! The example of `mark_core`: a run of one account.

use mark_core::{Event, Kind, OutOfMemory, World, step};

/// Claims and then finishes two objects: 0, which is a root, and its successor 1.
#[test]
fn two_objects_are_finished(rt: HostRuntime) -> Result<(), OutOfMemory> {
    let alloc = rt.alloc();
    let mut world = World::new(
        alloc,
        2,
        vec![in alloc; 0]?,
        vec![in alloc; (0, 1)]?,
        4,
        2,
        0,
    )?;
    for kind in [
        Kind::Claim(0),
        Kind::Claim(1),
        Kind::Finish(0),
        Kind::Finish(1),
    ] {
        let Some(next) = step(alloc, world, Event { worker: 0, kind })? else {
            panic!(rt; "each of these is possible");
        };
        world = next;
    }
    assert_eq!(rt; world.marks(), &[2, 2][..]);
    Ok(())
}
