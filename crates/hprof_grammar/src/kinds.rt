//! The kinds of roots, objects and sub-records, and the places of type codes.

/// The reason why an object is a root.
#[derive(Clone, Copy, Debug, PartialEq, Eq)]
pub enum RootKind {
    /// The reason is unknown.
    Unknown,
    /// A global JNI reference names the object.
    JniGlobal,
    /// A local JNI reference names the object.
    JniLocal,
    /// A local variable of a Java frame holds the object.
    JavaFrame,
    /// The object was passed to a native method.
    NativeStack,
    /// The object is a system class.
    StickyClass,
    /// A thread block refers to the object.
    ThreadBlock,
    /// The object is a monitor in use.
    MonitorUsed,
    /// The object is a live thread.
    ThreadObject,
}

/// The kind of a sub-record that describes an object.
#[derive(Clone, Copy, Debug, PartialEq, Eq)]
pub enum ObjectKind {
    /// A class: CLASS DUMP.
    Class,
    /// An instance: INSTANCE DUMP.
    Instance,
    /// An array of objects: OBJECT ARRAY DUMP.
    ObjectArray,
    /// An array of values of a primitive type: PRIMITIVE ARRAY DUMP.
    PrimitiveArray,
}

/// The kind of a sub-record, which its tag says.
#[derive(Clone, Copy, Debug, PartialEq, Eq)]
pub enum Kind {
    /// A root.
    Root(RootKind),
    /// The dump of an object.
    Object(ObjectKind),
}

/// The part of a sub-record that a type code is in.
#[derive(Clone, Copy, Debug, PartialEq, Eq)]
pub enum TypePlace {
    /// In an entry of a constant pool.
    InConstant,
    /// In a static field.
    InStatic,
    /// In an instance field.
    InMember,
    /// In a primitive array.
    InArray,
}
