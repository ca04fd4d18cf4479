//! Tests of the words into which heads are packed, against words and tags worked out by hand.

use tagged_index::{HeadWord, LAST_INDEX, LAST_TAG};

/// The last tag.
const LAST: u64 = 281_474_976_710_655;

/// An index, a tag, the word of the head with both, and the tag of the next head, if there is one.
const WORDS: [(Option<u32>, u64, u64, Option<u64>); 6] = [
    (None, 0, 0, Some(1)),
    (Some(0), 0, 1, Some(1)),
    (Some(0), 1, 65_537, Some(2)),
    (Some(65_534), 0, 65_535, Some(1)),
    (None, LAST, 18_446_744_073_709_486_080, None),
    (Some(65_534), LAST, 18_446_744_073_709_551_615, None),
];

/// Returns the word of the head with `index` and `tag`, or `None` if one of the two is too large for a head.
fn word_of(index: Option<u32>, tag: u64) -> Option<u64> {
    if tag > LAST_TAG {
        return None;
    }
    match index {
        None => Some(HeadWord::none(tag).word()),
        Some(index) if index <= LAST_INDEX => Some(HeadWord::of(index, tag).word()),
        Some(_) => None,
    }
}

/// Returns the index and the tag of the head that `word` spells, and the tag of the next head, if there is one.
fn spelled_by(word: u64) -> (Option<u32>, u64, Option<u64>) {
    let head = HeadWord::from_word(word);
    let next = head.next(None);
    (head.index(), head.tag(), next.map(|head| head.tag()))
}

#[test]
fn words_of_the_format(rt: HostRuntime) {
    for (index, tag, word, next) in WORDS {
        assert_eq!(rt; word_of(index, tag), Some(word), "the word of {word}");
        assert_eq!(rt; spelled_by(word), (index, tag, next), "the head of {word}");
    }
    let next = HeadWord::from_word(65_537).next(Some(4));
    assert_eq!(rt; next.map(|head| head.word()), Some(131_077));
}
