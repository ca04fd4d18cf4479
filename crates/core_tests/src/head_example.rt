//! The example of `tagged_index`: a head that changes, and changes back.

use tagged_index::HeadWord;

/// Follows the head of an empty stack while buffer 3 is pushed and popped again.
#[test]
fn changed_and_changed_back(rt: HostRuntime) {
    let empty = HeadWord::none(7);
    let pushed = empty.next(Some(3));
    let popped = pushed.and_then(|head| head.next(None));
    assert_eq!(rt;
        popped.map(|head| (head.index(), head.tag())),
        Some((None, 9))
    );
    assert!(rt; popped != Some(empty), "the tag tells the two apart");
}
