//! The identifiers that a class holds.

ghost use Rattle.std.specs.Prelude.{length, ◌<◌, ◌^◌, ◌≡◌, ◌≤◌};
ghost use Rattle.std.specs.Iterator.{YieldsFirst};
ghost use Rattle.heap_graph.specs.working.Values.{AreClassValues, values_ids};

use hprof_grammar::{Ids, OBJECT_TYPE, Values, View, number_at};
use std::marker::Model;

/// The remaining identifiers of those that a class holds.
#[derive(Drop)]
pub(crate) struct ClassIds<'g> {
    /// The remaining identifiers of the first four: superclass, loader, signers and protection domain.
    leading: Ids<'g>,
    constants: Values<'g>,
    statics: Values<'g>,
}

impl<'g> Model for ClassIds<'g> {
    ghost use Rattle.std.specs.Prelude.{List, length, ℕ, ◌++◌, ◌≤◌};
    ghost use Rattle.heap_graph.specs.working.Values.{AreClassValues, values_ids};

    ghost Value = { List ℕ };

    ghost view = { λ c. c.leading ++ values_ids c.constants ++ values_ids c.statics };

    ghost invariant = { λ c. record {
      few : length c.leading ≤ 4;
      constants : AreClassValues c.constants;
      statics : AreClassValues c.statics;
    } };
}

/// Returns the next identifier among `values`: the next value of type 2, or `None` if there is none.
fn next_id(values: &mut Values<'_>) -> Option<u64>
    requires { AreClassValues values.old }
    ensures ids { YieldsFirst values_ids values.old result values.new }
    ensures kept { AreClassValues values.new }
{
    while let Some(value) = values.next() {
        if value.type_code == OBJECT_TYPE {
            return Some(number_at(value.value, 0, value.value.len()));
        }
    }
    None
}

/// Returns the number of identifiers among `values`.
fn count_ids(values: Values<'_>) -> u64
    requires { length values < 2 ^ 16 }
    ensures value { result ≡ length (values_ids values.entry) }
    ensures few { result ≤ length values.entry }
{
    let mut ids = 0;
    for value in values {
        if value.type_code == OBJECT_TYPE {
            ids += 1;
        }
    }
    ids
}

impl<'g> ClassIds<'g> {
    ghost use Rattle.hprof_grammar.specs.SubRecord.{Class};
    ghost use Rattle.hprof_grammar.specs.SubRecord.SubRecord.{class_dump};
    ghost use Rattle.hprof_grammar.specs.Standing.{Stands};
    ghost use Rattle.heap_graph.specs.References.{class_ids};

    /// Returns the identifiers of the class dump at `at`.
    // Inlined, like everything that makes up a visit.
    #[inline(always)]
    pub(crate) fn new(view: &View<'g>, at: u32) -> Self
        requires size { (1 ≤ view.now.id_size) × (view.now.id_size ≤ 8) }
        requires dump { (c : Class) × Stands view.now at (class_dump c) }
        ensures { (c : Class) → Stands view.now at (class_dump c) → result ≡ class_ids view.now.id_size c }
    {
        ClassIds {
            leading: view.leading_ids(at),
            constants: view.constants(at),
            statics: view.statics(at),
        }
    }

    /// Returns the number of remaining identifiers.
    pub(crate) fn len(&self) -> u64
        ensures { result ≡ length self.now }
    {
        let constants = count_ids(self.constants.again());
        let statics = count_ids(self.statics.again());
        self.leading.len() as u64 + constants + statics
    }
}

impl<'g> Iterator for ClassIds<'g> {
    ghost use Rattle.std.specs.Iterator.{YieldsFirst, item_count};

    type Item = u64;

    ghost next_gives = { YieldsFirst (λ c. c) };

    ghost remaining = { item_count (λ c. c) };

    fn next(&mut self) -> Option<u64> {
        if let Some(id) = self.leading.next() {
            return Some(id);
        }
        if let Some(id) = next_id(&mut self.constants) {
            return Some(id);
        }
        next_id(&mut self.statics)
    }
}
