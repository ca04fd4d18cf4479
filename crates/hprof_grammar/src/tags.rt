//! The tags of records and sub-records, by the names that the HPROF manual gives them.

/// The record STRING IN UTF8: a text and its identifier.
pub const STRING_IN_UTF8: u8 = 0x01;

/// The record LOAD CLASS: a class and the identifier of its name.
pub const LOAD_CLASS: u8 = 0x02;

/// The record HEAP DUMP: all sub-records of a snapshot.
pub const HEAP_DUMP: u8 = 0x0C;

/// The record HEAP DUMP SEGMENT: some sub-records of a snapshot.
pub const HEAP_DUMP_SEGMENT: u8 = 0x1C;

/// The record HEAP DUMP END, after the last segment.
pub const HEAP_DUMP_END: u8 = 0x2C;

/// The sub-record ROOT UNKNOWN.
pub const ROOT_UNKNOWN: u8 = 0xFF;

/// The sub-record ROOT JNI GLOBAL.
pub const ROOT_JNI_GLOBAL: u8 = 0x01;

/// The sub-record ROOT JNI LOCAL.
pub const ROOT_JNI_LOCAL: u8 = 0x02;

/// The sub-record ROOT JAVA FRAME.
pub const ROOT_JAVA_FRAME: u8 = 0x03;

/// The sub-record ROOT NATIVE STACK.
pub const ROOT_NATIVE_STACK: u8 = 0x04;

/// The sub-record ROOT STICKY CLASS.
pub const ROOT_STICKY_CLASS: u8 = 0x05;

/// The sub-record ROOT THREAD BLOCK.
pub const ROOT_THREAD_BLOCK: u8 = 0x06;

/// The sub-record ROOT MONITOR USED.
pub const ROOT_MONITOR_USED: u8 = 0x07;

/// The sub-record ROOT THREAD OBJECT.
pub const ROOT_THREAD_OBJECT: u8 = 0x08;

/// The sub-record CLASS DUMP.
pub const CLASS_DUMP: u8 = 0x20;

/// The sub-record INSTANCE DUMP.
pub const INSTANCE_DUMP: u8 = 0x21;

/// The sub-record OBJECT ARRAY DUMP.
pub const OBJECT_ARRAY_DUMP: u8 = 0x22;

/// The sub-record PRIMITIVE ARRAY DUMP.
pub const PRIMITIVE_ARRAY_DUMP: u8 = 0x23;
