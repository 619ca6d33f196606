//! What C calls to feed a run, and to let it go on.
ghost use Rattle.std.specs.Prelude.{◌≡◌, ◌≢◌, ◌≤◌, ◌<◌, ◌⊎◌, Some, None, IsSome, IsSomeAnd};
ghost use Rattle.graph_base.specs.Graphs.{sources_of};
ghost use Rattle.phase_accum.specs.Sends.{AreSends};
ghost use Rattle.stream_job.specs.Streams.{StreamGoesOn, StreamMoves, StreamState};
ghost use Rattle.stream_job.specs.declared.stream_turns.TheConstants.{ROUNDS};
ghost use Rattle.stream_handle.specs.Runs.{Feeds, Finishes};
ghost use Rattle.stream_handle.specs.Told.{StopsAsTold};
ghost use Rattle.stream_handle.specs.declared.numbers.TheConstants.{GOOD, PAUSED, SAMPLE, OUT_OF_MEMORY, NO_STREAM, NO_SOURCE};

use crate::handle::Handle;
use crate::numbers::*;
use crate::told::{PhaseStop, stop_of};
use phase_core::are_sends;
use std::alloc::Global;

/// Feeds these samples to a source, as many of them as it has room for, and writes how many it
/// took: none, where it has ended, and none after a value out of range. Where one of them is none
/// that a sample may be, none is fed. It takes no memory.
#[unsafe(no_mangle)]
pub extern "C" fn phase_stream_feed(
    alloc: Global,
    stream: &mut Handle,
    source: usize,
    samples: &[i64],
    took: &mut usize,
) -> i32
    ensures good { (old : StreamState) → stream.old.place.stream ≡ Some old
        → source < sources_of old.job.graph → AreSends samples.now
        → (result ≡ GOOD) × IsSomeAnd stream.new.place.stream (λ new.
        Feeds source samples.now old new took.new) }

    ensures no_stream { stream.old.place.stream ≡ None → result ≡ NO_STREAM }
    ensures no_source { (old : StreamState) → stream.old.place.stream ≡ Some old
        → sources_of old.job.graph ≤ source → result ≡ NO_SOURCE }
    ensures sample { (old : StreamState) → stream.old.place.stream ≡ Some old
        → source < sources_of old.job.graph → (AreSends samples.now → ⊥) → result ≡ SAMPLE }
    ensures same { result ≢ GOOD → (stream.new.place.stream ≡ stream.old.place.stream)
        × (took.new ≡ took.old) }
{
    if !stream.live {
        return NO_STREAM;
    }
    if source >= stream.counts(alloc).sources {
        return NO_SOURCE;
    }
    if !are_sends(samples) {
        return SAMPLE;
    }
    *took = stream.feed(alloc, source, samples);
    GOOD
}

/// Tells a source that no more samples come. It takes no memory.
#[unsafe(no_mangle)]
pub extern "C" fn phase_stream_finish(alloc: Global, stream: &mut Handle, source: usize) -> i32
    ensures good { (old : StreamState) → stream.old.place.stream ≡ Some old
        → source < sources_of old.job.graph
        → (result ≡ GOOD) × IsSomeAnd stream.new.place.stream (Finishes source old) }

    ensures no_stream { stream.old.place.stream ≡ None → result ≡ NO_STREAM }
    ensures no_source { (old : StreamState) → stream.old.place.stream ≡ Some old
        → sources_of old.job.graph ≤ source → result ≡ NO_SOURCE }
    ensures same { result ≢ GOOD → stream.new.place.stream ≡ stream.old.place.stream }
{
    if !stream.live {
        return NO_STREAM;
    }
    if source >= stream.counts(alloc).sources {
        return NO_SOURCE;
    }
    stream.finish(alloc, source);
    GOOD
}

/// Gives turns to the tasks until none can move, and writes why. A child's registration may take
/// memory, and nothing else does: where there is none no value is lost, and the call can be made
/// again.
#[unsafe(no_mangle)]
pub extern "C" fn phase_stream_run(alloc: Global, stream: &mut Handle, stop: &mut PhaseStop) -> i32
    ensures goes_on { (old : StreamState) → stream.old.place.stream ≡ Some old
        → IsSomeAnd stream.new.place.stream (StreamGoesOn old) }
    ensures stops { result ≡ GOOD
        → IsSomeAnd stream.new.place.stream (λ new. StopsAsTold new stop.new) }
    // PAUSED is told only behind so many events.
    ensures paused { result ≡ GOOD → stop.new.kind ≡ PAUSED → (old : StreamState)
        → stream.old.place.stream ≡ Some old
        → IsSomeAnd stream.new.place.stream (StreamMoves ROUNDS old) }

    ensures answers { IsSome stream.old.place.stream
        → (result ≡ GOOD) ⊎ (result ≡ OUT_OF_MEMORY) }
    ensures no_stream { stream.old.place.stream ≡ None
        → (result ≡ NO_STREAM) × (stream.new.place.stream ≡ None) }
    ensures unwritten { result ≢ GOOD → stop.new ≡ stop.old }
{
    if !stream.live {
        return NO_STREAM;
    }
    match stream.run(alloc) {
        Ok(why) => {
            *stop = stop_of(why);
            GOOD
        }
        Err(_) => OUT_OF_MEMORY,
    }
}
