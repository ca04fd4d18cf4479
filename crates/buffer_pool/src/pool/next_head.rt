//! The heads by which a pop and a push replace the loaded head.
ghost use Rattle.std.specs.Prelude.{◌≡◌, ◌<◌, ◌≤◌, Some, MatchOption};
ghost use Rattle.std.specs.Option.{ForSome};
ghost use Rattle.tagged_index.specs.Head.{after, last_tag};

use tagged_index::HeadWord;

/// Returns the head after a pop from a stack with the head `head`, whose tag is not the last: it has the index `link`,
/// the link of the popped buffer, and the next tag.
pub(super) fn head_below(head: HeadWord, link: Option<u32>) -> HeadWord
    requires tag { head.tag < last_tag }
    requires link { ForSome link (λ i. i ≤ 65534) }
    ensures { result ≡ after head link }
{
    let Some(next) = head.next(link) else {
        unreachable!()
    };
    next
}

/// Returns the head after a push of buffer `index` on a stack with the head `head`: it has this index and the next tag.
/// Returns `None` exactly if `head` has the last tag.
pub(super) fn head_above(head: HeadWord, index: u32) -> Option<HeadWord>
    requires { index ≤ 65534 }
    ensures { MatchOption result (head.tag ≡ last_tag) (λ next. (head.tag < last_tag)
        × (next ≡ after head (Some index))) }
{
    head.next(Some(index))
}
