//! Where the program finds the dump that its command line names.

ghost use Rattle.std.specs.Prelude.{◌≡◌, ◌≢◌, ◌+◌, ◌-◌, ◌^◌, ◌<◌, ◌≤◌, IfOk};
ghost use Rattle.histogram.specs.Counting.{failures_of};

use histogram::Counted;
use std::fs::OpenFile;
use std::io::{Read, Seek};
use std::rt::Files;
use std::{fs, io};

/// Dumps that have names, such as the files of the system. They can only be read.
///
/// A contract can name the bytes of some dumps, such as those that a test keeps in memory. A function that takes any
/// `Dumps` cannot treat a file otherwise than such a dump. So what its contract says of known bytes shows that it also
/// reads the right file.
pub trait Dumps {
    ghost use Rattle.std.specs.Prelude.{◌≡◌, ◌≢◌, IfErr, IfOk, IfSome, List, Option, Some, ℕ};
    ghost use Rattle.histogram.specs.Counting.{failures_of, inner_of};

    /// The bytes of the dump with a name, if a contract can name them.
    ghost bytes_at: { Self → List ℕ → Option (List ℕ) };

    /// That the dump with a name could not be opened or read. A function that takes any `Dumps` learns this only from a
    /// call that failed.
    ghost is_unread: { Self → List ℕ → Type 0 };

    /// An open dump.
    type Dump: Read + Seek + Drop;

    /// Opens the dump `name` to read all of it.
    fn open_dump(&self, name: &str) -> io::Result<Counted<Self::Dump>>
        ensures unfailed { IfOk result (λ reader. failures_of reader ≡ 0) }
        ensures bytes { IfOk result (λ reader. IfSome (bytes_at self.now name.now) (λ bytes.
            Self.Dump.remaining (inner_of reader) ≡ Some bytes)) }
        ensures unread { IfErr result (λ _. is_unread self.now name.now) };

    /// Returns the position of `reader`, an open dump with the name `name`: the number of bytes that were read from it.
    /// Returns `None` if the system reports no position, as for a pipe.
    fn position(&self, name: &str, reader: Counted<Self::Dump>) -> Option<u64>
        ensures { failures_of reader ≢ 0 → is_unread self.now name.now };

    /// Opens the dump `name`, which was read before, a second time. `Err` with `Unsupported` if the first reading may
    /// have taken its bytes, as from a pipe.
    fn reopen_dump(&self, name: &str) -> io::Result<Counted<Self::Dump>>
        ensures { IfOk result (λ reader. failures_of reader ≡ 0) };

    /// Returns the number of bytes of the dump `name`.
    fn dump_size(&self, name: &str) -> io::Result<u64>;
}

/// The files of the system. No contract can name their bytes.
impl<T: Files> Dumps for T {
    ghost use Rattle.std.specs.Prelude.{None};

    ghost bytes_at = { λ _ _. None };

    // A contract cannot say which calls of the system fail.
    ghost is_unread = { λ _ _. Unit };

    type Dump = T::File;

    fn open_dump(&self, name: &str) -> io::Result<Counted<T::File>> {
        open(self, name)
    }

    fn position(&self, _name: &str, reader: Counted<T::File>) -> Option<u64>
        ensures { failures_of reader ≢ 0 → Unit }
    {
        reader.into_inner().stream_position().ok()
    }

    fn reopen_dump(&self, name: &str) -> io::Result<Counted<T::File>> {
        // To open a named pipe would wait for a writer.
        if !fs::metadata(self, name)?.is_file() {
            return Err(io::Error::from(io::ErrorKind::Unsupported));
        }
        open(self, name)
    }

    fn dump_size(&self, name: &str) -> io::Result<u64> {
        Ok(fs::metadata(self, name)?.len())
    }
}

/// Opens the file `name` to read all of it. Refuses a directory, which the system would open, but not read.
fn open<T: Files>(rt: &T, name: &str) -> io::Result<Counted<T::File>>
    ensures { IfOk result (λ reader. failures_of reader ≡ 0) }
{
    let file = fs::open(rt, name)?;
    let Ok(metadata) = file.metadata() else {
        return Ok(Counted::new(file));
    };
    if metadata.is_dir() {
        return Err(io::Error::from(io::ErrorKind::IsADirectory));
    }
    Ok(Counted::of_size(file, expected_size(metadata.len())))
}

/// Returns the number of bytes to reserve for a file of `size` bytes: one more, so that the last read finds the end.
/// This is only a hint, since the file may change.
fn expected_size(size: u64) -> usize
    ensures most { result ≤ size + 1 }
    ensures whole { size < 2 ^ 64 - 1 → result ≡ size + 1 }
{
    usize::try_from(size).unwrap_or(0).saturating_add(1)
}
