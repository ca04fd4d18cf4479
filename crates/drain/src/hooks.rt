//! The calls during a marking: before each scan of an object, and before the start of each thread.

/// A hook that is called for each object before its references are followed. Workers are numbered from 0; the leading
/// thread has the number of workers as its number.
pub trait Gate: Sync {
    /// Is called when `worker` is about to scan `object`.
    fn before_scan(&self, worker: u32, object: u32);
}

/// A hook that does nothing.
#[derive(Clone, Copy, Debug)]
pub struct NoGate;

impl Gate for NoGate {
    fn before_scan(&self, _worker: u32, _object: u32) {}
}

/// A hook that is called before the thread of each worker is started. With it a test refuses to start a thread: it
/// cannot make the system refuse one.
pub trait StartHook: Sync {
    /// Tests whether the thread of worker number `worker` may be started.
    fn may_start(&self, worker: u32) -> bool;
}

/// A hook that refuses no thread.
pub struct StartsAll;

impl StartHook for StartsAll {
    ghost use Rattle.std.specs.Prelude.{IsTrue};

    fn may_start(&self, _worker: u32) -> bool
        ensures { IsTrue result }
    {
        true
    }
}
