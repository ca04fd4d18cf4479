//! Reads the fields of roots.

ghost use Rattle.std.specs.Prelude.{ℕ, ◌+◌, ◌≡◌};
ghost use Rattle.hprof_grammar.specs.Kinds.{origin_kind};
ghost use Rattle.hprof_grammar.specs.RootFields.{RootSays, frame_of, reference_of, thread_of, trace_of};
ghost use Rattle.hprof_grammar.specs.Standing.{Stands};
ghost use Rattle.hprof_grammar.specs.SubRecord.{Root};
ghost use Rattle.hprof_grammar.specs.SubRecord.SubRecord.{root};

use crate::kinds::{Kind, RootKind};
use crate::tags_and_types::kind_of;
use crate::view::identifiers::number_at;
use crate::view::{OBJECT, View, u32_at};

/// The offset of a root's JNI reference. This and the offsets below are numbers of bytes from the tag, without the
/// identifier of the object. The kind of a root says which of these fields the root has: none, the reference, the
/// thread, or the thread and then a frame or a stack trace.
const REFERENCE: usize = OBJECT;

const THREAD: usize = OBJECT;

const FRAME: usize = THREAD + 4;

const STACK_TRACE: usize = THREAD + 4;

impl<'a> View<'a> {
    /// Returns the kind of a root.
    pub fn root_kind(&self, at: u32) -> RootKind
        requires { (r : Root) × Stands self.now at (root r) }
        ensures { (r : Root) → Stands self.now at (root r) → result ≡ origin_kind r.origin }
    {
        match kind_of(self.bytes[at as usize]) {
            Some(Kind::Root(kind)) => kind,
            _ => RootKind::Unknown,
        }
    }

    /// Returns the identifier of the reference of a JNI global root.
    pub fn root_reference(&self, at: u32) -> u64
        requires { (n : ℕ) × RootSays self.now at reference_of n }
        ensures { (n : ℕ) → RootSays self.now at reference_of n → result ≡ n }
    {
        let size = self.id_size as usize;
        number_at(self.bytes, at as usize + REFERENCE + size, size)
    }

    /// Returns the serial number of the thread of a root whose kind is JNI local, Java frame, native stack, thread
    /// block or thread object.
    pub fn root_thread(&self, at: u32) -> u32
        requires { (n : ℕ) × RootSays self.now at thread_of n }
        ensures { (n : ℕ) → RootSays self.now at thread_of n → result ≡ n }
    {
        let size = self.id_size as usize;
        u32_at(self.bytes, at as usize + THREAD + size)
    }

    /// Returns the number that the frame of a JNI local or Java frame root has in the stack trace of the root's thread.
    pub fn root_frame(&self, at: u32) -> u32
        requires { (n : ℕ) × RootSays self.now at frame_of n }
        ensures { (n : ℕ) → RootSays self.now at frame_of n → result ≡ n }
    {
        let size = self.id_size as usize;
        u32_at(self.bytes, at as usize + FRAME + size)
    }

    /// Returns the serial number of the stack trace of a thread object root.
    pub fn root_stack_trace(&self, at: u32) -> u32
        requires { (n : ℕ) × RootSays self.now at trace_of n }
        ensures { (n : ℕ) → RootSays self.now at trace_of n → result ≡ n }
    {
        let size = self.id_size as usize;
        u32_at(self.bytes, at as usize + STACK_TRACE + size)
    }
}
