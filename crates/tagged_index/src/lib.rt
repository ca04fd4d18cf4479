//! The head word of a stack: the index of the buffer on top, if any, and a tag that counts the changes, in 64 bits.
//!
//! A stack changes its head by a compare-and-exchange of the whole word, and each new head comes from `next`, which
//! raises the tag by one. So a head that was changed and changed back is another word, and an exchange that began
//! before the changes fails. At the last tag `next` returns `None`: tags never wrap.
//!
//! From `crates/core_tests/src/head_example.rt`, which is proved and run as a test:
//!
//!     let empty = HeadWord::none(7);
//!     let pushed = empty.next(Some(3));
//!     let popped = pushed.and_then(|head| head.next(None));
//!     assert_eq!(rt; popped.map(|head| (head.index(), head.tag())), Some((None, 9)));
//!     assert!(rt; popped != Some(empty), "the tag tells the two apart");
//!
//! `specs/Head.antt` defines which head a word spells. `docs/MARKING.md` says how stacks use them.

#![tactic(auto)]

mod head_word;

pub use head_word::{HeadWord, LAST_INDEX, LAST_TAG, words_tell_heads_apart};
