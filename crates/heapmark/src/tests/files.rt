//! Files as the program opens them: how much memory it reserves, and which files it does not open a second time.

use super::hints::advice;
use super::program::{Outcome, file_of, refused_with_reason};
use crate::pipeline::read_bytes;
use crate::{Dumps, Refusal};
use std::alloc::{AllocError, Global};
use std::env::Env;
use std::fs::OpenFile;
use std::path::{Path, PathBuf};
use std::rt::Files;
use std::{env, fs, io};

/// Returns the capacity and the length of the vector into which the file `name` is read.
fn room_of<T: AllocGlobal + Files>(rt: &T, name: &str) -> Option<(usize, usize)> {
    let Ok(mut reader) = rt.open_dump(name) else {
        return None;
    };
    match read_bytes(rt.alloc(), &mut reader) {
        Ok(bytes) => Some((bytes.capacity(), bytes.len())),
        Err(_) => None,
    }
}

/// Like [`room_of`], for a file of `bytes`.
fn room_of_bytes<T: AllocGlobal + Env + Files>(rt: &T, bytes: &[u8]) -> Option<(usize, usize)> {
    let Ok(path) = file_of(rt, "heapmark_room.hprof", bytes) else {
        return None;
    };
    let room = room_of_path(rt, path.as_path());
    match fs::remove_file(rt, path.as_path()) {
        Ok(()) => room,
        Err(_) => None,
    }
}

/// Like [`room_of`], for the file at `path`.
fn room_of_path<T: AllocGlobal + Files>(rt: &T, path: Path<'_>) -> Option<(usize, usize)> {
    room_of(rt, path.to_str()?)
}

/// Returns `size` zeros, which are no dump.
fn zeros(alloc: Global, size: usize) -> Result<Vec<u8>, AllocError> {
    vec![in alloc; 0u8; size]
}

/// The memory reserved for a file is its size and one byte more, so that the last read finds the end.
#[test]
fn a_file_gets_the_room_of_its_size(rt: HostRuntime) {
    for size in [0, 1, 174, 1_000_000] {
        let room = match zeros(rt.alloc(), size) {
            Ok(bytes) => room_of_bytes(&rt, bytes.as_slice()),
            Err(_) => None,
        };
        assert_eq!(rt; room, Some((size.saturating_add(1), size)), "{size} bytes");
    }
}

/// Only a plain file is opened again, since opening a pipe could wait. So the first bytes of a device are not looked
/// at.
#[test]
fn only_a_plain_file_is_opened_again(rt: HostRuntime) {
    let refusal = "heapmark: refused 1 BadHeader at 0\n";
    let hint = "heapmark: /dev/null: \
        no HPROF binary dump of version 1.0.2, as `jcmd PID GC.heap_dump FILE` writes it\n";
    let told = refused_with_reason(&rt, &["heapmark", "/dev/null"], refusal, hint);
    assert_eq!(rt; told, Outcome::right(1));
}

/// Makes a file with a hole of `size` bytes, which takes no room on the disk.
fn hollow_file<T: AllocGlobal + Env + Files>(rt: &T, size: u64) -> io::Result<PathBuf> {
    let path = env::temp_dir(rt)?.join(rt.alloc(), "heapmark_hollow.hprof")?;
    fs::create(rt, path.as_path())?.set_len(size)?;
    Ok(path)
}

/// Tests whether the hint about too little memory for the file at `path` ends with `want`.
fn is_hint_at<T: AllocGlobal + Files>(rt: &T, path: Path<'_>, want: &str) -> bool {
    match path.to_str() {
        Some(file) => {
            let hint = advice(rt, file, Refusal::OUT_OF_MEMORY, 4, 1024);
            hint.as_slice().ends_with(want.as_bytes())
        }
        None => false,
    }
}

/// Tests whether the hint about too little memory for a file of `size` bytes ends with `want`.
fn is_hint_of_size<T: AllocGlobal + Env + Files>(rt: &T, size: u64, want: &str) -> bool {
    let Ok(path) = hollow_file(rt, size) else {
        return false;
    };
    let is_told = is_hint_at(rt, path.as_path(), want);
    is_told && fs::remove_file(rt, path.as_path()).is_ok()
}

/// No memory is enough for a file that has more bytes than a dump may have.
#[test]
fn a_file_that_is_too_large_wants_no_memory(rt: HostRuntime) {
    let memory = ": takes its own size in memory and more for each object: free some memory, \
        or try --workers 1, which takes the least\n";
    let bytes = ": more than 1,073,741,824 bytes: \
        dump a smaller heap, or live objects only (without -all)\n";
    for (size, want) in [(1_073_741_824, memory), (1_073_741_825, bytes)] {
        assert!(rt; is_hint_of_size(&rt, size, want), "{size} bytes");
    }
}
