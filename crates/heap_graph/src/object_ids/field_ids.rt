//! The identifiers in the fields of an instance.

ghost use Rattle.std.specs.Prelude.{drop, length, take, ◌<◌, ◌≡◌, ◌≤◌};
ghost use Rattle.heap_graph.specs.working.FieldsUp.{Up, Up-prop};

use crate::objects::Objects;
use crate::plan::Plan;
use std::alloc::Allocator;
use std::marker::Model;

/// The remaining identifiers in the followed fields of an instance: first those in fields that the current class
/// declares, then those in fields that the classes above it declare.
// The order of the fields is for the compiler. Other variants of the walk that contains this type have fields of one
// byte and of four bytes at the offsets of `next` and `own`, so the compiler keeps `next` and `own` in pieces of these
// sizes. If `places` were at these offsets, the compiler would join the length of `places` from pieces at each
// identifier.
#[derive(Drop)]
pub struct FieldIds<'g, A: Allocator> {
    objects: &'g Objects<'g, A>,
    plan: &'g Plan<A>,
    /// The next class that declares fields, or `None` after the last.
    next: Option<u32>,
    /// The size in bytes of the values of the current class's own fields, 0 before the first class.
    own: usize,
    /// The remaining places of identifiers among the values of the current class.
    places: &'g [u32],
    /// The values of the fields of the current class, then those of the classes above it.
    values: &'g [u8],
    /// The class `next`, the first class above `next` that declares fields, and so on up.
    ghost up: { Up objects.now.fates.items next } by { Up-prop objects.now.fates.items next },
}

impl<'g, A: Allocator> Model for FieldIds<'g, A> {
    ghost use Rattle.std.specs.Prelude.{List, drop, ℕ, ◌++◌};
    ghost use Rattle.heap_graph.specs.working.FieldsUp.{HaveFields, StandInside, ids_up};
    ghost use Rattle.heap_graph.specs.working.IdPlaces.{ids_at};

    ghost Value = { List ℕ };

    ghost view = { λ f. ids_at f.objects.now.view.id_size f.places.now f.values.now
        ++ ids_up f.objects.now.view.id_size f.plan.now.classes.items f.plan.now.places.items
        f.up.0 (drop f.own f.values.now) };

    ghost invariant = { λ f. record {
      stand : StandInside f.objects.now.view.id_size f.places.now f.own f.values.now;
      above : HaveFields f.objects.now.view.id_size f.plan.now.classes.items f.plan.now.places.items
          f.objects.now.fates.items f.up.0 (drop f.own f.values.now);
    } };
}

/// Splits `values` after the first `own` bytes: into the values of a class's own fields, and those of the classes above
/// it.
// Inlined, as `next` is.
#[inline(always)]
fn by_class(values: &[u8], own: usize) -> (&[u8], &[u8])
    requires { own ≤ length values.now }
    ensures own { result.0.now ≡ take own values.now }
    ensures above { result.1.now ≡ drop own values.now }
{
    values.split_at(own)
}

impl<'g, A: Allocator> FieldIds<'g, A> {
    ghost use Rattle.std.specs.Prelude.{Bool, List, ℕ};
    ghost use Rattle.hprof_grammar.specs.SubRecord.{Class, Member, SubRecord};
    ghost use Rattle.heap_graph.specs.Fields.{field_ids};
    ghost use Rattle.heap_graph.specs.working.ClassPlans.{IsPlanOf};
    ghost use Rattle.heap_graph.specs.working.ObjectIds.{IsLayoutFrom};
    ghost use Rattle.heap_graph.specs.working.ClassFates.{HaveFatesOf};

    /// Returns the identifiers in the followed fields of an instance with the values `values`. `first` is the first
    /// class of its layout that declares fields.
    // Inlined, like everything that makes up a visit.
    #[inline(always)]
    pub(crate) fn new(
        objects: &'g Objects<'g, A>,
        plan: &'g Plan<A>,
        first: Option<u32>,
        values: &'g [u8],
    ) -> Self
        requires size { 1 ≤ objects.now.view.id_size }
        requires heap { (skips : Class → Member → Bool) × (heap : List SubRecord) × (fields : List (Class × Member))
            × HaveFatesOf objects.now heap × IsPlanOf skips objects.now heap plan.now
            × IsLayoutFrom objects.now heap fields first values.now }
        ensures { (skips : Class → Member → Bool) (heap : List SubRecord) (fields : List (Class × Member))
            → HaveFatesOf objects.now heap → IsPlanOf skips objects.now heap plan.now
            → IsLayoutFrom objects.now heap fields first values.now
            → result ≡ field_ids skips objects.now.view.id_size fields values.now }
    {
        FieldIds {
            objects,
            plan,
            places: &[],
            values,
            own: 0,
            next: first,
        }
    }

    /// Returns the number of remaining identifiers.
    pub(crate) fn len(&self) -> u64
        ensures { result ≡ length self.now }
    {
        let mut ids = self.places.len();
        let mut above = self.next;
        while let Some(number) = above {
            ids += self.plan.id_places(number).len();
            above = self.objects.next_of(number);
        }
        ids as u64
    }
}

impl<'g, A: Allocator> Iterator for FieldIds<'g, A> {
    ghost use Rattle.std.specs.Iterator.{YieldsFirst, item_count};

    type Item = u64;

    ghost next_gives = { YieldsFirst (λ f. f) };

    ghost remaining = { item_count (λ f. f) };

    // Inlined into the loop of a worker, which calls it for each reference of an instance.
    #[inline(always)]
    fn next(&mut self) -> Option<u64> {
        loop {
            let (own, above) = by_class(self.values, self.own);
            if let Some((place, left)) = self.places.split_first() {
                self.places = left;
                return Some(self.objects.view.identifier_at(own, *place as usize));
            }
            let number = self.next?;
            self.values = above;
            self.own = self.plan.bytes_of(number) as usize;
            self.places = self.plan.id_places(number);
            self.next = self.objects.next_of(number);
        }
    }
}
