//! The faults of markings without tokens, for tables of tests, and the tokens.

ghost use Rattle.std.specs.Prelude.{◌≡◌, IfOk};
ghost use Rattle.buffer_pool.specs.Calls.{first_tag_of};

use crate::dumps::{graph_of, wide_array};
use buffer_pool::SpentTag;
use drain::inside::{StartHook, mark_where};
use drain::{NoGate, Options, RefusedThread, RunFault, mark};
use heap_graph::{Graph, Skip};
use std::alloc::Global;
use std::sync::Wait;
use std::test::Fail;
use std::thread::Threads;

/// Why a graph was not marked. No test can make a token, so tables of tests have these faults.
#[derive(Clone, Copy, Debug, PartialEq, Eq)]
pub enum Fault {
    OutOfMemory,
    TagSpent,
    WorkerRefused,
}

impl From<RunFault> for Fault {
    fn from(fault: RunFault) -> Fault {
        match fault {
            RunFault::OutOfMemory => Fault::OutOfMemory,
            RunFault::TagSpent(_) => Fault::TagSpent,
            RunFault::WorkerRefused(_) => Fault::WorkerRefused,
        }
    }
}

/// The tokens of faults.
#[derive(Clone, Copy, Debug)]
pub struct Tokens {
    pub spent_tag: SpentTag,
    pub refused_thread: RefusedThread,
}

/// Refuses each thread.
struct StartsNone;

impl StartHook for StartsNone {
    fn may_start(&self, _worker: u32) -> bool {
        false
    }
}

/// Marks `graph` with the last tag as the first one, and returns the token of the fault.
fn tag_spent_in<T: Threads + Wait + Sync>(
    rt: &T,
    alloc: Global,
    graph: &Graph<'_, Global>,
) -> Result<SpentTag, Fail>
    ensures { IfOk result (λ token. first_tag_of token ≡ 281474976710655) }
{
    let options = Options::new(1, 2, 4, Options::LAST_TAG)?;
    match mark(rt, alloc, graph, &options, &NoGate) {
        Err(RunFault::TagSpent(token)) => Ok(token),
        _ => Err("no last tag was loaded".into()),
    }
}

/// Marks `graph` with a hook that refuses each thread, and returns the token of the fault.
fn thread_refused_in<T: Threads + Wait + Sync>(
    rt: &T,
    alloc: Global,
    graph: &Graph<'_, Global>,
) -> Result<RefusedThread, Fail> {
    let options = Options::new(1, 2, 4, 0)?;
    match mark_where(rt, alloc, graph, &options, &NoGate, &StartsNone) {
        Err(RunFault::WorkerRefused(token)) => Ok(token),
        _ => Err("no thread was refused".into()),
    }
}

/// Returns the token of a marking whose first tag is the last one.
fn spent_tag<T: Threads + Wait + Sync>(rt: &T, alloc: Global) -> Result<SpentTag, Fail>
    ensures { IfOk result (λ token. first_tag_of token ≡ 281474976710655) }
{
    let dump = wide_array(alloc)?;
    let skip = Skip::none(alloc);
    let graph = graph_of(rt, alloc, dump.as_slice(), &skip)?;
    let token = tag_spent_in(rt, alloc, &graph);
    drop(graph);
    token
}

/// Returns the token of a marking whose thread is refused.
fn refused_thread<T: Threads + Wait + Sync>(rt: &T, alloc: Global) -> Result<RefusedThread, Fail> {
    let dump = wide_array(alloc)?;
    let skip = Skip::none(alloc);
    let graph = graph_of(rt, alloc, dump.as_slice(), &skip)?;
    let token = thread_refused_in(rt, alloc, &graph);
    drop(graph);
    token
}

/// Returns a token of each kind. The spent tag is that of a pool whose first tag is the last one.
pub fn make_tokens<T: Threads + Wait + Sync>(rt: &T, alloc: Global) -> Result<Tokens, Fail>
    ensures { IfOk result (λ tokens. first_tag_of tokens.spent_tag ≡ 281474976710655) }
{
    Ok(Tokens {
        spent_tag: spent_tag(rt, alloc)?,
        refused_thread: refused_thread(rt, alloc)?,
    })
}
