//! The texts that name classes.

ghost use Rattle.std.specs.Prelude.{IfOk, List, filter, map, ◌≡◌, option_copied};
ghost use Rattle.hprof_grammar.specs.Places.{is_load, is_string};
ghost use Rattle.hprof_grammar.specs.Record.{Record};
ghost use Rattle.heap_graph.specs.ClassNames as named;
ghost use Rattle.heap_graph.specs.working.PlacedNames.{AreNamesByIdOf, AreNamesOf, loaded_id, string_id};

use hprof_grammar::View;
use id_index::{IdIndex, IdIndexBuilder, LowBits};
use std::alloc::{AllocError, Allocator};

/// The strings and the loaded classes of a dump, at their places.
#[derive(Drop)]
pub(crate) struct Names<'a, 'd> {
    pub(crate) view: View<'a>,
    pub(crate) strings: &'d [u32],
    pub(crate) loaded: &'d [u32],
}

/// The strings and the loaded classes of a dump, by their identifiers. If several strings or several loaded classes
/// have the same identifier, the first one counts.
#[derive(Drop)]
pub(crate) struct NamesById<'n, 'a, A: Allocator> {
    pub(crate) names: &'n Names<'a, 'n>,
    pub(crate) strings: IdIndex<A>,
    pub(crate) loaded: IdIndex<A>,
}

impl<'a, 'd> Names<'a, 'd> {
    /// Indexes the strings by their identifiers.
    fn strings_by_id<B: Allocator + Copy>(&self, alloc: B) -> Result<IdIndex<B>, AllocError>
        requires { (records : List Record) × AreNamesOf self.now records }
        ensures { IfOk result (λ index. (records : List Record) → AreNamesOf self.now records
            → index ≡ map string_id (filter is_string records)) }
    {
        let mut builder = IdIndexBuilder::new(alloc, LowBits { shift: 0, low: 0 });
        for at in self.strings {
            builder.push(self.view.string_id(*at))?;
        }
        builder.finish(alloc)
    }

    /// Indexes the loaded classes by their identifiers.
    fn loaded_by_id<B: Allocator + Copy>(&self, alloc: B) -> Result<IdIndex<B>, AllocError>
        requires { (records : List Record) × AreNamesOf self.now records }
        ensures { IfOk result (λ index. (records : List Record) → AreNamesOf self.now records
            → index ≡ map loaded_id (filter is_load records)) }
    {
        let mut builder = IdIndexBuilder::new(alloc, LowBits { shift: 0, low: 0 });
        for at in self.loaded {
            builder.push(self.view.loaded_class_id(*at))?;
        }
        builder.finish(alloc)
    }
}

impl<'n, 'a, A: Allocator + Copy> NamesById<'n, 'a, A> {
    /// Indexes the strings and the loaded classes of `names` by their identifiers.
    pub(crate) fn new(alloc: A, names: &'n Names<'a, 'n>) -> Result<Self, AllocError>
        requires { (records : List Record) × AreNamesOf names.now records }
        ensures { IfOk result (λ n. (records : List Record) → AreNamesOf names.now records → AreNamesByIdOf n records) }
    {
        let strings = names.strings_by_id(alloc)?;
        let loaded = names.loaded_by_id(alloc)?;
        Ok(NamesById {
            names,
            strings,
            loaded,
        })
    }
}

impl<'n, 'a, A: Allocator> NamesById<'n, 'a, A> {
    /// Returns the identifier of the string that names the first loaded class with the identifier `class`, or `None` if
    /// no loaded class has this identifier.
    fn name_of(&self, class: u64) -> Option<u64>
        requires { (records : List Record) × AreNamesByIdOf self.now records }
        ensures { (records : List Record) → AreNamesByIdOf self.now records → result ≡ named.name_of records class }
    {
        match self.loaded.find(class) {
            Some(number) => {
                let place = self.names.loaded[number as usize];
                return Some(self.names.view.loaded_class_name(place));
            }
            None => return None,
        }
    }

    /// Returns the text of the first string with the identifier `id`, or `None` if no string has this identifier.
    pub(crate) fn string_named(&self, id: u64) -> Option<&'a [u8]>
        requires { (records : List Record) × AreNamesByIdOf self.now records }
        ensures { (records : List Record) → AreNamesByIdOf self.now records
            → option_copied result ≡ named.string_named records id }
    {
        match self.strings.find(id) {
            Some(number) => {
                let place = self.names.strings[number as usize];
                return Some(self.names.view.string_text(place));
            }
            None => return None,
        }
    }

    /// Returns the text that names the class with the identifier `class`, or `None` if the dump has none.
    pub(crate) fn class_text(&self, class: u64) -> Option<&'a [u8]>
        requires { (records : List Record) × AreNamesByIdOf self.now records }
        ensures { (records : List Record) → AreNamesByIdOf self.now records
            → option_copied result ≡ named.class_text records class }
    {
        match self.name_of(class) {
            Some(name) => return self.string_named(name),
            None => return None,
        }
    }
}
