//! Laws of what is at a dump's places: functions with empty bodies.

ghost use Rattle.std.specs.Prelude.{List, ℕ, ◌+◌, ◌≤◌, length};
ghost use Rattle.hprof_grammar.specs.Places.{IsDumpOf, Places};
ghost use Rattle.hprof_grammar.specs.SubRecord.{SubRecord, spelling_of};
ghost use Rattle.hprof_grammar.specs.Standing.{IsPlaced, Sight, Stands};

/// Each string, loaded class, root and object of a dump is at its place, in order.
pub fn dump_is_placed()
    ensures { (text : List ℕ) (dump : Places) (is : IsDumpOf text dump) → IsPlaced text dump is.records }
{}

/// A sub-record at a place ends within the bytes.
pub fn stands_within()
    ensures { (v : Sight) (at : ℕ) (sub : SubRecord) → Stands v at sub
        → at + length (spelling_of v.id_size sub) ≤ length v.bytes }
{}
