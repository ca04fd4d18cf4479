//! Laws about the first fault of a text. Each law is a function, whose body calls the laws from which it follows.

ghost use Rattle.std.specs.Prelude.{◌≡◌, ◌⊎◌, List, ℕ};
ghost use Rattle.hprof_grammar.specs.Laws.{AreBytes};
ghost use Rattle.heapmark.specs.Answer.{FirstFaultOf, IsAcceptedText};

use heap_graph::always_linked_or_fault;
use hprof_grammar::{always_dump_or_fault, dump_or_fault, one_fault, one_list_of_records};

/// States that a text of bytes is accepted or has a first fault.
pub fn always_accepted_or_fault()
    ensures { (text : List ℕ) → AreBytes text
        → IsAcceptedText text ⊎ ((code : ℕ) × (place : ℕ) × FirstFaultOf text code place) }
{
    always_dump_or_fault();
    always_linked_or_fault();
}

/// States that an accepted text has no first fault. So the bytes read are not accepted if a refusal reports a fault.
pub fn accepted_or_fault()
    ensures { (text : List ℕ) (code place : ℕ) → IsAcceptedText text → FirstFaultOf text code place → ⊥ }
{
    dump_or_fault();
    one_list_of_records();
}

/// States that a text has at most one first fault: one code and one offset.
pub fn one_first_fault()
    ensures { (text : List ℕ) (code place other_code other_place : ℕ) → FirstFaultOf text code place
        → FirstFaultOf text other_code other_place → (code ≡ other_code) × (place ≡ other_place) }
{
    dump_or_fault();
    one_fault();
    one_list_of_records();
}
