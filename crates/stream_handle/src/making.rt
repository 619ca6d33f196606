//! A run of a graph's text.
ghost use Rattle.std.specs.Prelude.{◌≡◌, IfOk, IfErr};
ghost use Rattle.stream_handle.specs.Runs.{OpensText, RefusesRun};

use graph_lang::{FaultKind, GraphFault, GraphRefusal, read_graph};
use std::alloc::Global;
use stream_job::{JobRefusal, Stream};

/// The run of a graph's text, to which no samples came.
fn run_of(alloc: Global, text: &[u8]) -> Result<Stream, GraphRefusal>
    ensures opened { IfOk result (OpensText text.now) }
    ensures refused { IfErr result (RefusesRun text.now) }
{
    let graph = match read_graph(alloc, text) {
        Ok(graph) => graph,
        Err(why) => return Err(why),
    };
    match Stream::new(alloc, graph) {
        Ok(run) => Ok(run),
        Err(JobRefusal::AnyMeets { line }) => Err(GraphRefusal::Fault(GraphFault {
            line,
            kind: FaultKind::AnyMeets,
        })),
        Err(JobRefusal::OutOfMemory) => Err(GraphRefusal::OutOfMemory),
    }
}

/// The same, on the heap.
pub(crate) fn boxed_run_of(alloc: Global, text: &[u8]) -> Result<Box<Stream, Global>, GraphRefusal>
    ensures opened { IfOk result (λ made. OpensText text.now made.value) }
    ensures refused { IfErr result (RefusesRun text.now) }
{
    let run = match run_of(alloc, text) {
        Ok(run) => run,
        Err(why) => return Err(why),
    };
    match Box::new(alloc, run) {
        Ok(made) => Ok(made),
        Err(_) => Err(GraphRefusal::OutOfMemory),
    }
}
