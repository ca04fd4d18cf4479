//! Reads the text from left to right.

ghost use Rattle.std.specs.Prelude.{IfSome, None, Some, drop, length, take, ◌<◌, ◌==◌, ◌≡◌, ◌≤◌};
ghost use Rattle.std.specs.Bool.{OnFalse, OnTrue};
ghost use Rattle.std.specs.List.{AllByRecursion};
ghost use Rattle.label_list.specs.ListText.{IsDigit, id_limit, index_limit, label_limit, value_after};
ghost use Rattle.label_list.specs.working.Reading.{Reads, after, digit_count, entry_at, line_at, number_at, pair_at};
ghost use Rattle.label_list.specs.working.Reading.{place_at};

use crate::entry::{Entry, Place};

/// Identifiers are less than this.
const ID_LIMIT: u128 = 1 << 64;

/// The numbers of identifiers and of roots are less than this.
const INDEX_LIMIT: u128 = 1 << 32;

/// Labels are less than this.
const LABEL_LIMIT: u128 = 1 << 20;

/// The largest number of digits of a number.
const MOST_DIGITS: usize = 20;

/// A scanner of a text. If a method returns `None`, what is left of the text is not specified.
#[derive(Drop)]
pub(crate) struct Scanner<'a> {
    /// The bytes that are left to read.
    rest: &'a [u8],
}

/// Returns the number of digits that `text` begins with.
#[tactic(auto, using(crate::proofs::Numbers::counted))]
fn digit_count(text: &[u8]) -> usize
    ensures count { result ≡ digit_count text.now }
    ensures within { result ≤ length text.now }
{
    text.iter().take_while(|byte| byte.is_ascii_digit()).count()
}

/// Returns the number that `digits` spell.
fn value_of(digits: &[u8]) -> u128
    requires each { AllByRecursion IsDigit digits.now }
    requires few { length digits.now ≤ 20 }
    ensures { result ≡ value_after 0 digits.now }
{
    let mut value = 0;
    for digit in digits {
        value = 10 * value + u128::from(*digit - b'0');
    }
    value
}

impl<'a> Scanner<'a> {
    /// Creates a scanner of `text`.
    pub(crate) fn new(text: &'a [u8]) -> Self
        ensures { result.rest.now ≡ text.now }
    {
        Scanner { rest: text }
    }

    /// Tests whether nothing is left.
    pub(crate) fn is_empty(&self) -> bool
        ensures { result ≡ (length self.now.rest.now == 0) }
    {
        self.rest.is_empty()
    }

    /// Reads `word` and returns true, or reads nothing and returns false if the text does not begin with `word`.
    fn word(&mut self, word: &[u8]) -> bool
        ensures there { OnTrue result (after word.now self.old.rest.now ≡ Some self.new.rest.now) }
        ensures missing { OnFalse result (after word.now self.old.rest.now ≡ None) }
        ensures unread { OnFalse result (self.new.rest.now ≡ self.old.rest.now) }
    {
        match self.rest.strip_prefix(word) {
            Some(behind) => {
                self.rest = behind;
                true
            }
            None => false,
        }
    }

    /// Reads all digits up to the first byte that is none.
    fn digits(&mut self) -> &'a [u8]
        ensures digits { result.now ≡ take (digit_count self.old.rest.now) self.old.rest.now }
        ensures rest { self.new.rest.now ≡ drop (digit_count self.old.rest.now) self.old.rest.now }
    {
        let (digits, behind) = self.rest.split_at(digit_count(self.rest));
        self.rest = behind;
        digits
    }

    /// Reads a number of 1 to 20 digits. Returns `None` if it is not less than `limit`, or has no digit or too many.
    #[tactic(auto, unfolding(crate::specs::working::Reading::number_at))]
    fn number(&mut self, limit: u128) -> Option<u128>
        ensures read { Reads result self.new.rest.now (number_at limit self.old.rest.now) }
        ensures below { IfSome result (λ value. value < limit) }
    {
        let digits = self.digits();
        if digits.is_empty() || digits.len() > MOST_DIGITS {
            return None;
        }
        let value = value_of(digits);
        if value < limit { Some(value) } else { None }
    }

    /// Reads an identifier.
    fn id(&mut self) -> Option<u64>
        ensures { Reads result self.new.rest.now (number_at id_limit self.old.rest.now) }
    {
        let value = self.number(ID_LIMIT)?;
        Some(value as u64)
    }

    /// Reads the number of an identifier of an object, or of a root.
    fn index(&mut self) -> Option<u32>
        ensures { Reads result self.new.rest.now (number_at index_limit self.old.rest.now) }
    {
        let value = self.number(INDEX_LIMIT)?;
        Some(value as u32)
    }

    /// Reads a label.
    fn label(&mut self) -> Option<u32>
        ensures { Reads result self.new.rest.now (number_at label_limit self.old.rest.now) }
    {
        let value = self.number(LABEL_LIMIT)?;
        Some(value as u32)
    }

    /// Reads an identifier, a blank, and the number of one of the identifiers that its object, or each object of its
    /// class, holds.
    fn pair(&mut self) -> Option<(u64, u32)>
        ensures { Reads result self.new.rest.now (pair_at self.old.rest.now) }
    {
        let id = self.id()?;
        if !self.word(b" ") {
            return None;
        }
        let index = self.index()?;
        Some((id, index))
    }

    /// Reads a place.
    #[tactic(auto, unfolding(crate::specs::working::Reading::place_at))]
    fn place(&mut self) -> Option<Place>
        ensures { Reads result self.new.rest.now (place_at self.old.rest.now) }
    {
        if self.word(b"class ") {
            let (id, index) = self.pair()?;
            return Some(Place::Class(id, index));
        }
        if self.word(b"object ") {
            let (id, index) = self.pair()?;
            return Some(Place::Object(id, index));
        }
        if self.word(b"root ") {
            let index = self.index()?;
            return Some(Place::Root(index));
        }
        None
    }

    /// Reads a line without its newline.
    #[tactic(auto, unfolding(crate::specs::working::Reading::entry_at))]
    fn entry(&mut self) -> Option<Entry>
        ensures { Reads result self.new.rest.now (entry_at self.old.rest.now) }
    {
        if self.word(b"label ") {
            let label = self.label()?;
            if !self.word(b" ") {
                return None;
            }
            let place = self.place()?;
            return Some(Entry::Label(label, place));
        }
        if self.word(b"cut ") {
            let place = self.place()?;
            return Some(Entry::Cut(place));
        }
        if self.word(b"root ") {
            let id = self.id()?;
            return Some(Entry::Root(id));
        }
        None
    }

    /// Reads a line. Returns `None` if the text does not begin with a line that is an entry.
    #[tactic(auto, unfolding(crate::specs::working::Reading::line_at))]
    pub(crate) fn line(&mut self) -> Option<Entry>
        ensures { Reads result self.new.rest.now (line_at self.old.rest.now) }
    {
        let entry = self.entry()?;
        if !self.word(b"\n") {
            return None;
        }
        Some(entry)
    }
}
