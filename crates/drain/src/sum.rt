//! The number of some objects, and their bytes together.

ghost use Rattle.std.specs.Prelude.{◌≡◌, ◌+◌, ◌^◌, ◌<◌};
ghost use Rattle.drain.specs.Sums.{no_object};
ghost use Rattle.drain.specs.working.Tallies.{one_more, together};

/// The number of some objects, and their bytes together.
#[derive(Clone, Copy)]
pub struct Sum {
    /// The number of objects.
    pub count: u64,
    /// The bytes of all of them.
    pub bytes: u64,
}

impl Sum {
    /// Creates the sum of no object.
    pub(crate) fn none() -> Sum
        ensures { result ≡ no_object }
    {
        Sum { count: 0, bytes: 0 }
    }

    /// Adds one object of `bytes` bytes.
    pub(crate) fn add(&mut self, bytes: u64)
        requires counts { self.old.count + 1 < 2 ^ 64 }
        requires sums { self.old.bytes + bytes < 2 ^ 64 }
        ensures { self.new ≡ one_more self.old bytes }
    {
        self.count += 1;
        self.bytes += bytes;
    }

    /// Adds the objects of `other`.
    pub(crate) fn join(&mut self, other: Sum)
        requires counts { self.old.count + other.count < 2 ^ 64 }
        requires sums { self.old.bytes + other.bytes < 2 ^ 64 }
        ensures { self.new ≡ together self.old other }
    {
        self.count += other.count;
        self.bytes += other.bytes;
    }
}
