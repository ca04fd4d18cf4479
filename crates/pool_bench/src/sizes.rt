//! The sizes of a run: the arguments of the command line, and the constants.

ghost use Rattle.std.specs.Prelude.{◌<◌, ◌≤◌};

use anyhow::{Context, Result, bail, ensure};

/// The number of buffers of a pool.
pub(crate) const BUFFERS: u32 = 64;

/// The most objects that a buffer takes.
pub(crate) const SIZE: u32 = 256;

/// The most threads.
const MOST_THREADS: u32 = 64;

/// The amount of work, and the number of threads.
#[derive(Clone, Copy)]
pub(crate) struct Sizes {
    /// The number of threads, 1 to 64.
    pub(crate) threads: u32,
    /// The number of objects of the pool. They are divided into rows, which are dealt to the threads in turn.
    pub(crate) objects: u32,
    /// The number of neighbouring objects in a row, at least 1; the last row may have fewer. One thread claims all
    /// objects of a row.
    pub(crate) row: u32,
    /// The number of times that each object is claimed.
    pub(crate) passes: u32,
    /// The number of turns of each thread: in a turn it pops a buffer, if there is one, and pushes it.
    pub(crate) turns: u32,
    ghost some: { 0 < threads },
    ghost few: { threads ≤ 64 },
    ghost any: { 0 < row },
}

fn number(word: &String) -> Result<u32> {
    word.parse::<u32>()
        .context(format_args!("reading {word:?}"))
}

/// Reads the numbers of `words` that follow the program's name: threads, objects, row, passes and turns. Fails if
/// `words` has more or fewer, if one is not a `u32`, if the threads are not 1 to 64, or if the row is 0.
pub(crate) fn sizes_of(words: &[String]) -> Result<Sizes> {
    let [_, threads, objects, row, passes, turns] = words else {
        bail!("usage: pool_bench THREADS OBJECTS ROW PASSES TURNS");
    };
    let threads = number(threads)?;
    ensure!((1..=MOST_THREADS).contains(&threads), "{threads} threads");
    let row = number(row)?;
    ensure!(row > 0, "rows without objects");
    Ok(Sizes {
        threads,
        objects: number(objects)?,
        row,
        passes: number(passes)?,
        turns: number(turns)?,
    })
}
