//! A dump, as places in its bytes.

ghost use Rattle.std.specs.Prelude.{[], ◌++◌, ◌≡◌, IfErr, IfOk, OnOk};
ghost use Rattle.hprof_grammar.specs.working.Joining.{noted, nothing_of, with_loaded, with_places, with_string};

use crate::flaw::ReadRefusal;
use crate::kinds::Kind;
use std::alloc::{AllocError, Allocator};
use std::marker::Model;
use std::mem::replace;

/// The size of a dump's identifiers, and the places of its strings, loaded classes, roots and objects, each list in the
/// order of the file. The place of a record or a sub-record is the offset of its tag, in bytes from the beginning of
/// the dump.
#[derive(Debug, Drop)]
pub struct Dump<A: Allocator> {
    id_size: u8,
    strings: Vec<u32, A>,
    loaded: Vec<u32, A>,
    roots: Vec<u32, A>,
    objects: Vec<u32, A>,
}

impl<A: Allocator> Model for Dump<A> {
    ghost use Rattle.hprof_grammar.specs.Places.{Places};

    ghost Value = { Places };

    ghost view = { λ d. record {
      id_size = d.id_size;
      strings = d.strings.items;
      loaded = d.loaded.items;
      roots = d.roots.items;
      objects = d.objects.items;
    } };
}

impl<A: Allocator> Dump<A> {
    /// Returns the size of an identifier in bytes, 4 or 8.
    pub fn id_size(&self) -> u8
        ensures { result ≡ self.now.id_size }
    {
        self.id_size
    }

    /// Returns the places of the STRING IN UTF8 records.
    pub fn strings(&self) -> &[u32]
        ensures { result.now ≡ self.now.strings }
    {
        &self.strings
    }

    /// Returns the places of the LOAD CLASS records.
    pub fn loaded(&self) -> &[u32]
        ensures { result.now ≡ self.now.loaded }
    {
        &self.loaded
    }

    /// Returns the places of the root sub-records.
    pub fn roots(&self) -> &[u32]
        ensures { result.now ≡ self.now.roots }
    {
        &self.roots
    }

    /// Returns the places of the class, instance and array dumps.
    pub fn objects(&self) -> &[u32]
        ensures { result.now ≡ self.now.objects }
    {
        &self.objects
    }

    /// Notes that a sub-record of `kind` is at the offset `at`.
    pub(crate) fn note(&mut self, kind: Kind, at: u32) -> Result<(), ReadRefusal>
        ensures ok { OnOk result (self.new ≡ noted self.old kind at) }
        ensures memory { IfErr result (λ e. e ≡ ReadRefusal.OutOfMemory) }
    {
        match kind {
            Kind::Root(_) => self.roots.push(at).map_err(|_| ReadRefusal::OutOfMemory),
            Kind::Object(_) => self.objects.push(at).map_err(|_| ReadRefusal::OutOfMemory),
        }
    }

    /// Notes that a STRING IN UTF8 record is at the offset `at`.
    pub(crate) fn note_string(&mut self, at: u32) -> Result<(), ReadRefusal>
        ensures ok { OnOk result (self.new ≡ with_string self.old at) }
        ensures memory { IfErr result (λ e. e ≡ ReadRefusal.OutOfMemory) }
    {
        self.strings.push(at).map_err(|_| ReadRefusal::OutOfMemory)
    }

    /// Notes that a LOAD CLASS record is at the offset `at`.
    pub(crate) fn note_loaded(&mut self, at: u32) -> Result<(), ReadRefusal>
        ensures ok { OnOk result (self.new ≡ with_loaded self.old at) }
        ensures memory { IfErr result (λ e. e ≡ ReadRefusal.OutOfMemory) }
    {
        self.loaded.push(at).map_err(|_| ReadRefusal::OutOfMemory)
    }
}

/// Appends `more` to `list`. Copies nothing if `list` is empty.
fn append<A: Allocator>(list: &mut Vec<u32, A>, more: Vec<u32, A>) -> Result<(), AllocError>
    ensures { OnOk result (list.new.items ≡ list.old.items ++ more.items) }
{
    let mut more = more;
    if list.is_empty() {
        *list = more;
        return Ok(());
    }
    list.append(&mut more)
}

impl<A: Allocator> Dump<A> {
    /// Appends the places of `more`.
    pub(crate) fn append(&mut self, more: Dump<A>) -> Result<(), AllocError>
        ensures { OnOk result (self.new ≡ with_places self.old more) }
    {
        append(&mut self.strings, more.strings)?;
        append(&mut self.loaded, more.loaded)?;
        append(&mut self.roots, more.roots)?;
        append(&mut self.objects, more.objects)
    }
}

impl<A: Allocator + Copy> Dump<A> {
    /// Creates a dump without places, whose identifiers have `id_size` bytes.
    pub(crate) fn new(alloc: A, id_size: u8) -> Self
        ensures { result ≡ nothing_of id_size }
    {
        Dump {
            id_size,
            strings: Vec::new(alloc),
            loaded: Vec::new(alloc),
            roots: Vec::new(alloc),
            objects: Vec::new(alloc),
        }
    }

    /// Removes and returns the places of the class, instance and array dumps. Leaves an empty list with the allocator
    /// `alloc` in the dump, and allocates nothing.
    pub fn take_objects(&mut self, alloc: A) -> Vec<u32, A>
        ensures places { result.items ≡ self.old.objects }
        ensures rest { self.new ≡ record self.old { objects = [] } }
    {
        replace(&mut self.objects, Vec::new(alloc))
    }
}
