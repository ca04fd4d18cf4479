//! Extents of neighbouring objects, and how many bits of an extent's word are set below a granule.

ghost use Rattle.std.specs.Prelude.{◌<◌, ◌≡◌};
ghost use Rattle.id_index.specs.working.Extents.{rank};

/// The number of granules of a page.
pub(crate) const GRANULES: u64 = 64;

/// Neighbouring objects of one page whose numbers follow one another. Extents are ordered by page, and extents of one
/// page by the numbers of their objects.
#[derive(Clone, Copy, PartialEq, Eq, PartialOrd, Ord)]
pub(crate) struct Extent {
    /// The quotient of its objects' identifiers by 64, which is the same for all.
    pub(crate) page: u64,
    /// The number of its first object.
    pub(crate) first: u32,
    /// A bit for each granule of the page, set if the extent has an object there.
    pub(crate) granules: u64,
}

/// Returns how many bits of `granules` are set below granule `granule`.
#[tactic(auto, using(crate::proofs::Ones::rank_masked))]
pub(crate) fn rank_in(granules: u64, granule: u32) -> u32
    requires { granule < 64 }
    ensures { result ≡ rank granules granule }
{
    (granules & ((1 << granule) - 1)).count_ones()
}
