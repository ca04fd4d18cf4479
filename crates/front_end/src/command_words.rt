//! Where the program finds the words of its command line.

use std::alloc::Global;
use std::env::Env;
use std::io::ErrorKind;
use std::{env, io};

/// A command line. A contract can name the words of some, such as those that a test keeps in memory. As with
/// [`Dumps`](crate::Dumps), what a contract says of known words shows that the system's words are read, too.
pub trait CommandWords {
    ghost use Rattle.std.specs.Prelude.{◌≡◌, IfErr, IfOk, IfSome, List, None, Option, map, string_bytes, ℕ};
    ghost use Rattle.std.specs.IoError.{error_kind};

    /// The words, if a contract can name them.
    ghost words: { Self → Option (List (List ℕ)) };

    /// Returns the words as text. The error is `InvalidData` if a word is not text; any other error means that an
    /// allocation failed.
    fn texts(&self, alloc: Global) -> io::Result<Vec<String>>
        ensures same { IfOk result (λ texts. IfSome (words self.now) (λ known.
            map string_bytes texts.items ≡ known)) }
        ensures text { IfErr result (λ error. error_kind error ≡ ErrorKind.InvalidData → words self.now ≡ None) };
}

/// The command line of the system. No contract can name its words.
impl<V: Env> CommandWords for V {
    ghost use Rattle.std.specs.Prelude.{None};

    ghost words = { λ _. None };

    fn texts(&self, alloc: Global) -> io::Result<Vec<String>> {
        Ok(env::args(&(self, alloc))?.collect(alloc)?)
    }
}
