//! Laws about a text and the list that it spells. A law is a function whose body is empty.

ghost use Rattle.std.specs.Prelude.{Contains, List, ℕ, ◌<◌, ◌^◌, ◌≡◌, ◌≤◌};
ghost use Rattle.label_list.specs.Entries.{label_count};
ghost use Rattle.label_list.specs.ListText.{IsFirstBadLine, SpellsList};
ghost use Rattle.label_list.specs.declared.entry.Entry.{Entry};
ghost use Rattle.label_list.specs.declared.entry.Entry.TheVariants as entries;
ghost use Rattle.label_list.specs.declared.entry.Place.{Place};

/// A text spells at most one list.
pub fn one_label_list()
    ensures { (text : List ℕ) (list other : List Entry) → SpellsList text list → SpellsList text other
        → list ≡ other }
{}

/// A text with a first line that is no entry spells no list.
pub fn no_list_with_a_bad_line()
    ensures { (text : List ℕ) (n : ℕ) (list : List Entry) → IsFirstBadLine text n → SpellsList text list → ⊥ }
{}

/// A text has at most one first line that is no entry.
pub fn one_bad_line()
    ensures { (text : List ℕ) (n other : ℕ) → IsFirstBadLine text n → IsFirstBadLine text other → n ≡ other }
{}

/// Each label that an entry of a list names is below the list's number of labels.
pub fn each_label_is_counted()
    ensures { (list : List Entry) (label : ℕ) (place : Place) → Contains list (entries.Label label place)
        → label < label_count list }
{}

/// A list that a text spells has at most 1,048,576 labels.
pub fn labels_are_few()
    ensures { (text : List ℕ) (list : List Entry) → SpellsList text list → label_count list ≤ 2 ^ 20 }
{}
