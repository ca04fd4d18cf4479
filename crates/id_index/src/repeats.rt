//! The first object whose identifier an earlier one bears.

ghost use Rattle.std.specs.Prelude.{length, ◌+◌, ◌<◌, ◌^◌};
ghost use Rattle.id_index.specs.working.ExtentRepeats.{IsLeastRepeat, IsLowered};
ghost use Rattle.id_index.specs.working.Extents.{end_of};
ghost use Rattle.id_index.specs.working.Pruning.{AreSorted};

use crate::extents::{Extent, rank_in};
use crate::pruning::seen_of;

/// Returns the least of `least` and the numbers of the objects of `extent` at granules whose bits are set in `before`.
fn lower_least(least: u32, extent: Extent, before: u64) -> u32
    requires { end_of extent < 2 ^ 32 }
    ensures { IsLowered extent before least result }
{
    let again = extent.granules & before;
    if again == 0 {
        return least;
    }
    least.min(extent.first + rank_in(extent.granules, again.trailing_zeros()))
}

/// Returns the least number of an object whose identifier an earlier one bears, or `count`, the number of objects, if
/// there is no such object.
pub(crate) fn least_repeat(extents: &[Extent], count: u32) -> u32
    requires { AreSorted extents.now }
    ensures { IsLeastRepeat extents.now (length extents.now) count result }
{
    let (mut page, mut seen, mut least) = (0, 0, count);
    for at in 0..extents.len() {
        let extent = extents[at];
        let before = seen_of(extent.page, page, seen);
        least = lower_least(least, extent, before);
        seen = before | extent.granules;
        page = extent.page;
    }
    least
}
