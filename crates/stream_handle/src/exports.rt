//! What C calls to make, end and look at a run.
ghost use Rattle.std.specs.Prelude.{◌≡◌, ◌≢◌, Some, None, IsSome, IsSomeAnd};
ghost use Rattle.graph_numbers.specs.Numbers.{no_fault};
ghost use Rattle.stream_job.specs.Streams.{StreamState};
ghost use Rattle.stream_handle.specs.Runs.{HasCounts, OpensText};
ghost use Rattle.stream_handle.specs.Told.{RunIsRefused};
ghost use Rattle.stream_handle.specs.declared.numbers.TheConstants.{GOOD, HAS_STREAM, NO_STREAM};

use crate::handle::Handle;
use crate::making::boxed_run_of;
use crate::numbers::*;
use crate::told::{graph_status, graph_told};
use graph_numbers::{NO_FAULT, PhaseCounts, PhaseFault};
use std::alloc::Global;

/// Makes a run of a graph's text, to which no samples came; or answers why not, and writes the
/// fault.
///
/// A fault of the kind `AnyMeets` tells the first task that could signal with one of an earlier
/// line in one phase of a phaser with `any`, were there samples enough. It takes memory for the
/// graph, and what `Stream::new` takes.
#[unsafe(no_mangle)]
pub extern "C" fn phase_stream_new(
    alloc: Global,
    text: &[u8],
    stream: &mut Handle,
    fault: &mut PhaseFault,
) -> i32
    ensures good { result ≡ GOOD → IsSomeAnd stream.new.place.stream (OpensText text.now) }
    ensures quiet { result ≡ GOOD → fault.new ≡ fault.old }

    ensures has_stream { IsSome stream.old.place.stream
        → (result ≡ HAS_STREAM) × (fault.new ≡ no_fault) }
    ensures refused { stream.old.place.stream ≡ None → result ≢ GOOD
        → RunIsRefused text.now result fault.new }
    ensures same { result ≢ GOOD → stream.new.place.stream ≡ stream.old.place.stream }
{
    if stream.live {
        *fault = NO_FAULT;
        return HAS_STREAM;
    }
    match boxed_run_of(alloc, text) {
        Ok(made) => {
            stream.put(made);
            GOOD
        }
        Err(why) => {
            *fault = graph_told(why);
            graph_status(why)
        }
    }
}

/// Ends the run, and gives its memory back. The handle has none then. It is fine where it has none
/// before.
#[unsafe(no_mangle)]
pub extern "C" fn phase_stream_free(alloc: Global, stream: &mut Handle)
    ensures { stream.new.place.stream ≡ None }
{
    if stream.live {
        drop(stream.take(alloc));
    }
}

/// Writes how many phasers, tasks, sources and sinks the graph has. It takes no memory.
#[unsafe(no_mangle)]
pub extern "C" fn phase_stream_counts(
    alloc: Global,
    stream: &mut Handle,
    counts: &mut PhaseCounts,
) -> i32
    ensures good { (run : StreamState) → stream.old.place.stream ≡ Some run
        → (result ≡ GOOD) × HasCounts run counts.new }

    ensures no_stream { stream.old.place.stream ≡ None → result ≡ NO_STREAM }
    ensures unwritten { result ≢ GOOD → counts.new ≡ counts.old }
    ensures same { stream.new.place.stream ≡ stream.old.place.stream }
{
    if !stream.live {
        return NO_STREAM;
    }
    *counts = stream.counts(alloc);
    GOOD
}
