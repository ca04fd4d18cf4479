//! The objects that a worker recently saw marked.
//!
//! About half of all claims are of marked objects, most often of the class that an instance names first. A claim of a
//! marked object changes nothing, but it writes a word that all workers write. A mark never falls, so the claim may be
//! skipped.

ghost use Rattle.std.specs.Prelude.{◌≡◌, ◌%◌, ◌↔◌, ℕ, IsTrue, slice_set};
ghost use Rattle.drain.specs.working.RecentlySeen.{IsNoted};

/// The number of entries of the table, a power of two. At 4 bytes an object it takes 16 KiB, half of a processor's
/// first cache.
const ENTRIES: usize = 4096;

/// A table of objects that the worker saw marked. The entry of an object is its number modulo [`ENTRIES`]. If several
/// objects have one entry, the table has the one that was noted last.
#[derive(Drop)]
pub(crate) struct RecentlySeen {
    objects: [u32; ENTRIES],
}

impl RecentlySeen {
    /// Creates an empty table: each entry is an object that has another entry.
    pub(crate) fn new() -> RecentlySeen
        ensures none { (o : ℕ) → IsNoted result o → ⊥ }
    {
        let mut objects = [0; ENTRIES];
        objects[0] = 1;
        RecentlySeen { objects }
    }

    /// Tests whether the table has `object`.
    pub(crate) fn has(&self, object: u32) -> bool
        ensures { IsTrue result ↔ IsNoted self.now object }
    {
        self.objects[object as usize % ENTRIES] == object
    }

    /// Notes `object`, and replaces the one in its entry.
    pub(crate) fn note(&mut self, object: u32)
        ensures at { self.new.objects ≡ slice_set self.old.objects (object % 4096) object }
        ensures noted { IsNoted self.new object }
    {
        self.objects[object as usize % ENTRIES] = object;
    }
}
