//! Encodes a dump: the bytes of its header, records and sub-records.

ghost use Rattle.std.specs.Prelude.{◌≡◌, ◌++◌, OnOk};

use crate::record::Record;
use crate::sub::{ClassParts, Sub};
use std::alloc::{AllocError, Global};

/// A buffer to which numbers, records and sub-records are appended. All identifiers have one size.
#[derive(Drop)]
pub struct Bytes {
    /// The bytes written so far.
    pub bytes: Vec<u8>,
    id_size: u32,
}

impl Bytes {
    /// Creates an empty buffer, with identifiers of 8 bytes if `id_size` is 8 and of 4 bytes otherwise.
    pub fn new(alloc: Global, id_size: u32) -> Self {
        Bytes {
            bytes: Vec::new(alloc),
            id_size,
        }
    }

    /// Creates a buffer with the header of a dump. The two words of the header's time are 0.
    pub fn header(alloc: Global, id_size: u32) -> Result<Self, AllocError> {
        let mut dump = Bytes::new(alloc, id_size);
        dump.raw(b"JAVA PROFILE 1.0.2\0")?;
        dump.number(id_size)?;
        dump.raw(&[0; 8])?;
        Ok(dump)
    }

    /// Creates a buffer with a dump of `records`.
    pub fn dump(alloc: Global, id_size: u32, records: &[Record]) -> Result<Self, AllocError> {
        let mut dump = Bytes::header(alloc, id_size)?;
        for record in records {
            dump.push(record)?;
        }
        Ok(dump)
    }

    /// Appends `bytes`.
    pub fn raw(&mut self, bytes: &[u8]) -> Result<(), AllocError>
        ensures { OnOk result (self.new.bytes.items ≡ self.old.bytes.items ++ bytes.now) }
    {
        self.bytes.extend_from_slice(bytes)
    }

    /// Appends `value` as a number of 4 bytes.
    pub fn number(&mut self, value: u32) -> Result<(), AllocError> {
        self.raw(&value.to_be_bytes())
    }

    /// Appends `count` as a number of 2 bytes, or 65,535 if `count` is larger.
    fn count(&mut self, count: usize) -> Result<(), AllocError> {
        self.raw(&u16::try_from(count).unwrap_or(u16::MAX).to_be_bytes())
    }

    /// Appends the identifier `value`, or its low 4 bytes if identifiers have 4.
    fn id(&mut self, value: u64) -> Result<(), AllocError> {
        let bytes = value.to_be_bytes();
        let front = if self.id_size == 8 { 0 } else { 4 };
        self.raw(&bytes[front..])
    }

    /// Appends a record with `tag`, time 0 and `body`.
    pub fn record(&mut self, tag: u8, body: &[u8]) -> Result<(), AllocError> {
        self.raw(&[tag, 0, 0, 0, 0])?;
        self.number(u32::try_from(body.len()).unwrap_or(u32::MAX))?;
        self.raw(body)
    }

    fn push(&mut self, record: &Record) -> Result<(), AllocError> {
        let mut body = Bytes::new(*self.bytes.allocator(), self.id_size);
        let tag = match *record {
            Record::Text(id, text) => {
                body.id(id)?;
                body.raw(text)?;
                0x01
            }
            Record::Load(class, name) => {
                body.number(1)?;
                body.id(class)?;
                body.number(0)?;
                body.id(name)?;
                0x02
            }
            Record::Heap(subs) => {
                body.subs(subs)?;
                0x0C
            }
            Record::Segment(subs) => {
                body.subs(subs)?;
                0x1C
            }
            Record::Other(tag, bytes) => {
                body.raw(bytes)?;
                tag
            }
        };
        self.record(tag, body.bytes.as_slice())
    }

    /// Appends each of `subs`.
    pub fn subs(&mut self, subs: &[Sub]) -> Result<(), AllocError> {
        for sub in subs {
            self.sub(*sub)?;
        }
        Ok(())
    }

    /// Appends `sub`.
    pub fn sub(&mut self, sub: Sub) -> Result<(), AllocError> {
        match sub {
            Sub::Class(id, above, fields) => self.class(&ClassParts::plain(id, above, fields)),
            Sub::Named(id, above, fields) => self.class_with_fields(id, above, fields),
            Sub::Static(id, code, value) => self.class_with_static(id, code, value),
            Sub::Whole(parts) => self.class(&parts),
            Sub::Instance(id, class, values) => {
                self.head(0x21, id)?;
                self.id(class)?;
                self.number(u32::try_from(values.len()).unwrap_or(u32::MAX))?;
                self.raw(values)
            }
            Sub::Objects(id, class, elements) => self.objects(id, class, elements),
            Sub::Values(id, code, count, elements) => {
                self.head(0x23, id)?;
                self.number(count)?;
                self.raw(&[code])?;
                self.raw(elements)
            }
            Sub::Root(id) => {
                self.raw(&[0xFF])?;
                self.id(id)
            }
            Sub::Raw(bytes) => self.raw(bytes),
        }
    }

    /// Appends the first fields of an object's sub-record: `tag`, `id` and stack serial 0.
    fn head(&mut self, tag: u8, id: u64) -> Result<(), AllocError> {
        self.raw(&[tag])?;
        self.id(id)?;
        self.number(0)
    }

    /// Appends a class dump up to and including its instance size, which is 0. `others` are the identifiers after the
    /// stack serial.
    fn class_head(&mut self, id: u64, others: &[u64]) -> Result<(), AllocError> {
        self.head(0x20, id)?;
        for other in others {
            self.id(*other)?;
        }
        self.number(0)
    }

    fn class(&mut self, class: &ClassParts) -> Result<(), AllocError> {
        self.class_head(class.id, &class.others)?;
        self.count(class.constants.len())?;
        for (index, code, value) in class.constants {
            self.raw(&index.to_be_bytes())?;
            self.raw(&[*code])?;
            self.raw(value)?;
        }
        self.count(class.statics.len())?;
        for (code, value) in class.statics {
            self.id(2)?;
            self.raw(&[*code])?;
            self.raw(value)?;
        }
        self.count(class.fields.len())?;
        for code in class.fields {
            self.id(2)?;
            self.raw(&[*code])?;
        }
        Ok(())
    }

    fn class_with_fields(
        &mut self,
        id: u64,
        above: u64,
        fields: &[(u64, u8)],
    ) -> Result<(), AllocError> {
        self.class_head(id, &[above, 0, 0, 0, 0, 0])?;
        self.raw(&[0; 4])?;
        self.count(fields.len())?;
        for (name, code) in fields {
            self.id(*name)?;
            self.raw(&[*code])?;
        }
        Ok(())
    }

    fn class_with_static(&mut self, id: u64, code: u8, value: &[u8]) -> Result<(), AllocError> {
        self.class_head(id, &[0; 6])?;
        self.raw(&[0, 0, 0, 1])?;
        self.id(2)?;
        self.raw(&[code])?;
        self.raw(value)?;
        self.raw(&[0, 0])
    }

    /// Appends the object array `id` of class `class` with `elements`.
    pub fn objects(&mut self, id: u64, class: u64, elements: &[u64]) -> Result<(), AllocError> {
        self.head(0x22, id)?;
        self.number(u32::try_from(elements.len()).unwrap_or(u32::MAX))?;
        self.id(class)?;
        for element in elements {
            self.id(*element)?;
        }
        Ok(())
    }
}
