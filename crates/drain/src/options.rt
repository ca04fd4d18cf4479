//! The options of a marking: the number of workers, and the room that they have.

use std::marker::Model;
use thiserror::Error;

/// A value of the options is out of its range, or there are too few buffers for the workers.
#[derive(Clone, Copy, Debug, PartialEq, Eq, Error)]
#[error("an option is out of its range")]
pub struct BadOptions;

/// The options of a marking: the number of workers, the number of buffers and of objects in each, and the first tag.
#[derive(Clone, Copy, Debug, PartialEq, Eq)]
pub struct Options {
    /// The number of threads that mark, without the calling one.
    workers: u32,
    /// The number of objects in a buffer.
    buffer: u32,
    /// The number of buffers.
    buffers: u32,
    /// The tag that the heads of the stacks have at first.
    first_tag: u64,
}

impl Model for Options {
    ghost use Rattle.drain.specs.Options.{Choice, IsInRange, choice};

    ghost Value = { Choice };

    ghost view = { λ o. choice o.workers o.buffer o.buffers o.first_tag };

    ghost invariant = { λ o. IsInRange (choice o.workers o.buffer o.buffers o.first_tag) };

    ghost inverse = { λ c.
        record { workers = c.workers; buffer = c.buffer; buffers = c.buffers; first_tag = c.first_tag } };
}

impl Options {
    ghost use Rattle.std.specs.Prelude.{◌≡◌, ◌↔◌, IfOk, IsOk};
    ghost use Rattle.drain.specs.Options.{IsInRange, choice};

    /// The largest number of workers.
    pub const MOST_WORKERS: u32 = 64;

    /// The largest number of objects in a buffer.
    pub const MOST_IN_BUFFER: u32 = 4096;

    /// The largest number of buffers.
    pub const MOST_BUFFERS: u32 = 65_534;

    /// The last tag of a stack's head, and thus the largest first tag.
    pub const LAST_TAG: u64 = 281_474_976_710_655;

    /// Creates the options for 1 to 64 `workers`, a `buffer` of 2 to 4,096 objects, 4 to 65,534 `buffers` with at least
    /// two for each worker and two more, and a `first_tag` of at most 281,474,976,710,655. `Err(BadOptions)` for any
    /// other value.
    ///
    /// `buffer` is a size and `buffers` a number. Many values are in the range of both, so nothing here notices if a
    /// caller exchanges them: its own clause has to name them, as `choice` does in the clause `value`.
    pub fn new(
        workers: u32,
        buffer: u32,
        buffers: u32,
        first_tag: u64,
    ) -> Result<Options, BadOptions>
        ensures allowed { IsOk result ↔ IsInRange (choice workers buffer buffers first_tag) }
        ensures value { IfOk result (λ o. o ≡ choice workers buffer buffers first_tag) }
    {
        let in_range = (1..=Options::MOST_WORKERS).contains(&workers)
            && (2..=Options::MOST_IN_BUFFER).contains(&buffer)
            && (4..=Options::MOST_BUFFERS).contains(&buffers)
            && first_tag <= Options::LAST_TAG;
        if !in_range || buffers < 2 * workers + 2 {
            return Err(BadOptions);
        }
        Ok(Options {
            workers,
            buffer,
            buffers,
            first_tag,
        })
    }

    /// Returns the number of threads that mark, without the calling one.
    pub fn workers(&self) -> u32
        ensures value { result ≡ self.now.workers }
        ensures allowed { IsInRange self.now }
    {
        self.workers
    }

    /// Returns the number of objects in a buffer.
    pub fn buffer(&self) -> u32
        ensures { result ≡ self.now.buffer }
    {
        self.buffer
    }

    /// Returns the number of buffers.
    pub fn buffers(&self) -> u32
        ensures { result ≡ self.now.buffers }
    {
        self.buffers
    }

    /// Returns the tag that the heads of the stacks have at first.
    pub fn first_tag(&self) -> u64
        ensures { result ≡ self.now.first_tag }
    {
        self.first_tag
    }
}
