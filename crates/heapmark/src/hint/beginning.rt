//! What the first bytes of a file say of it, if a run refused its header.

ghost use Rattle.std.specs.Prelude.{◌↔◌, ◌≤◌, All, IsTrue};

use std::fmt;

/// The first bytes of a dump of the version that is read.
const HEADER: [u8; 19] = *b"JAVA PROFILE 1.0.2\0";

/// The first bytes of a dump of any version.
const FORMAT: &[u8] = b"JAVA PROFILE ";

/// The number of bytes that are enough to classify a file.
pub(super) const LENGTH: usize = HEADER.len();

/// What the first bytes of a file are.
#[derive(Clone, Copy, Debug, PartialEq, Eq)]
pub(super) enum Beginning {
    /// There are none.
    Empty,
    /// They are the header or a beginning of it: the file ends too early.
    Part,
    /// They are those of a dump of another version.
    Version(Version),
    /// They are those of a file compressed by a known program.
    Packed(Packer),
    /// They are none of these.
    Other,
}

/// A version of the format: its three digits.
#[derive(Clone, Copy, Debug, PartialEq, Eq)]
pub(crate) struct Version(u8, u8, u8);

/// A program that compresses files.
#[derive(Clone, Copy, Debug, PartialEq, Eq)]
pub(crate) enum Packer {
    Gzip,
    Zip,
    Zstd,
    Xz,
    Bzip2,
}

/// The first bytes of each program's files. A virtual machine that compresses its dumps writes gzip files.
const MARKS: [(&[u8], Packer); 5] = [
    (&[0x1f, 0x8b], Packer::Gzip),
    (b"PK\x03\x04", Packer::Zip),
    (&[0x28, 0xb5, 0x2f, 0xfd], Packer::Zstd),
    (b"\xfd7zXZ\0", Packer::Xz),
    (b"BZh", Packer::Bzip2),
];

impl Beginning {
    /// Classifies a file by `bytes`, its first [`LENGTH`] bytes, or all of them if it has fewer.
    pub(super) fn of(bytes: &[u8]) -> Beginning {
        if bytes.is_empty() {
            return Beginning::Empty;
        }
        if HEADER.starts_with(bytes) {
            return Beginning::Part;
        }
        if let Some(version) = Version::of(bytes) {
            return Beginning::Version(version);
        }
        match Packer::of(bytes) {
            Some(packer) => Beginning::Packed(packer),
            None => Beginning::Other,
        }
    }
}

impl Version {
    /// Returns the version that `bytes` name, if `bytes` are the first bytes of a dump of any version.
    fn of(bytes: &[u8]) -> Option<Version> {
        match bytes.strip_prefix(FORMAT)? {
            [major, b'.', minor, b'.', patch, 0] if is_numeral(&[*major, *minor, *patch]) => {
                Some(Version(*major, *minor, *patch))
            }
            _ => None,
        }
    }
}

/// Tests whether `bytes` are decimal digits.
fn is_numeral(bytes: &[u8]) -> bool
    ensures { IsTrue result ↔ All (λ byte. (48 ≤ byte) × (byte ≤ 57)) bytes.now }
{
    bytes.iter().all(|byte| byte.is_ascii_digit())
}

impl fmt::Display for Version {
    fn fmt<W: fmt::Write>(&self, f: &mut fmt::Formatter<W>) -> fmt::Result {
        let Version(major, minor, patch) = *self;
        let [major, minor, patch] = [char::from(major), char::from(minor), char::from(patch)];
        write!(f, "{major}.{minor}.{patch}")
    }
}

impl Packer {
    /// Returns the program that writes files that begin like `bytes`, if one is known.
    fn of(bytes: &[u8]) -> Option<Packer> {
        for (mark, packer) in MARKS {
            if bytes.starts_with(mark) {
                return Some(packer);
            }
        }
        None
    }

    /// Returns the command that unpacks this program's files.
    pub(super) fn unpacker(self) -> &'static str {
        match self {
            Packer::Gzip => "gunzip",
            Packer::Zip => "unzip",
            Packer::Zstd => "unzstd",
            Packer::Xz => "unxz",
            Packer::Bzip2 => "bunzip2",
        }
    }
}
