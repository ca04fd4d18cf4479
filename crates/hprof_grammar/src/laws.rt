//! Laws of a text and its dump or first fault: functions with empty bodies.

ghost use Rattle.std.specs.Prelude.{List, ℕ, ◌≡◌, ◌⊎◌};
ghost use Rattle.hprof_grammar.specs.Dump.{Spells};
ghost use Rattle.hprof_grammar.specs.Fault.{FirstFault};
ghost use Rattle.hprof_grammar.specs.Laws.{AreBytes, HasFirstFault, SpellsDump};
ghost use Rattle.hprof_grammar.specs.Places.{IsDumpOf, Places};
ghost use Rattle.hprof_grammar.specs.Record.{Record};

/// A text spells at most one list of records, with identifiers of one size.
pub fn one_list_of_records()
    ensures { (text : List ℕ) (id_size other_size : ℕ) (records others : List Record) → Spells text id_size records
        → Spells text other_size others
        → (id_size ≡ other_size) × (records ≡ others) }
{}

/// A text spells at most one dump.
pub fn one_dump()
    ensures { (text : List ℕ) (dump other : Places) → IsDumpOf text dump → IsDumpOf text other → dump ≡ other }
{}

/// A text has at most one first fault, with one code and one offset.
pub fn one_fault()
    ensures { (text : List ℕ) (code place other_code other_place : ℕ) → FirstFault text code place
        → FirstFault text other_code other_place
        → (code ≡ other_code) × (place ≡ other_place) }
{}

/// A text of bytes spells a dump or has a first fault.
pub fn always_dump_or_fault()
    ensures { (text : List ℕ) → AreBytes text → SpellsDump text ⊎ HasFirstFault text }
{}

/// A text that spells a dump has no first fault.
pub fn dump_or_fault()
    ensures { (text : List ℕ) (dump : Places) (code place : ℕ) → IsDumpOf text dump → FirstFault text code place → ⊥ }
{}
