//! An index from the identifiers of objects to their numbers, for the objects of a heap dump in the order of the file.
//!
//! A page is the 64 identifiers that have the same quotient by 64; the remainder, from 0 to 63, is an identifier's
//! granule in the page. An extent is a stretch of neighbouring objects of one page whose numbers follow one another. It
//! has its page, the number of its first object, and a word with a bit for each granule, set if the extent has an
//! object there. So an object's number is that of the extent's first object plus the number of bits that are set below
//! the object's granule.
//!
//! Objects in no order have an index of another form: a vector of entries, each with an identifier and a number,
//! ordered by identifier and searched by halving. If the objects are close together, the entries are narrow: they have
//! the identifier's distance from the least one, and words with a bit for each granule of a page guess where an entry
//! is. Otherwise they are wide: they have the whole identifier.
//!
//! `index` has the index and the builder for objects that are mostly in order, `narrow_entries_builder` the builder for
//! objects that are close together, and `wide_entries_builder` that for all others. The first two shift the lowest bits
//! out, in which all identifiers agree. `look_up` has what a look-up in any form returns.
//!
//! Extents: `extent_index_builder` makes them, one object after the other, and `sorting` sorts them. `repeats` looks
//! for the first object whose identifier an earlier one bears. `pruning` moves the extents to the front that have a
//! granule which no earlier extent of their page has: an `extent_index` searches only those. A look-up
//! (`extent_look_up`) goes through a table of where pages begin (`beginnings`) to the first extent of a page
//! (`page_search`), and over the extents of that page. The search for the first extent reads a bounded number of
//! extents (`probes`).
//!
//! Narrow entries: `used_ids` notes which granules have an object, in the memory that the entries take later.
//! `page_words` has the pages from the first to the last one with an object, and counts the objects before each.
//! `narrow_index_builder` writes entries where the page words guess them, and makes an index of `narrow_entries` if no
//! entry is missing and all ascend.
//!
//! Wide entries: `wide_entries_builder` sorts them, and `wide_entries` halves, between ends that `entry_guesses`
//! guesses.
#![tactic(auto)]

mod beginnings;
mod entry_guesses;
mod extent_index;
mod extent_index_builder;
mod extent_look_up;
mod extents;
mod index;
mod look_up;
mod narrow_entries;
mod narrow_entries_builder;
mod narrow_index_builder;
mod page_search;
mod page_words;
mod probes;
mod pruning;
mod repeats;
mod sorting;
mod used_ids;
mod wide_entries;
mod wide_entries_builder;

pub use index::{IdIndex, IdIndexBuilder, LowBits};
pub use look_up::LookUp;
pub use narrow_entries_builder::NarrowEntriesBuilder;
pub use used_ids::{UsedIds, are_close};
pub use wide_entries_builder::WideEntriesBuilder;
