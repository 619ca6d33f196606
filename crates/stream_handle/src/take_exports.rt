//! What C calls to read a run, and to be told how its tasks stand.
ghost use Rattle.std.specs.Prelude.{◌≡◌, ◌≢◌, ◌≤◌, ◌<◌, ◌⊎◌, Some, None, IsSome, IsSomeAnd, length};
ghost use Rattle.stream_lists.specs.Lists.{sinks_of};
ghost use Rattle.stream_job.specs.Streams.{StreamState};
ghost use Rattle.stream_handle.specs.Runs.{HandsOver, LacksRoom, WritesLines};
ghost use Rattle.stream_handle.specs.Told.{BeginsAsTold};
ghost use Rattle.stream_handle.specs.declared.numbers.TheConstants.{GOOD, ROOM, NO_STREAM, NO_SINK};

use crate::handle::Handle;
use crate::numbers::*;
use crate::reading::write_first;
use crate::told::start_told;
use std::alloc::Global;

/// Writes all values that a sink has in the first places, forgets them, and writes how many they
/// are. Where they are more than there are places it answers `ROOM`, writes how many they are, and
/// forgets none. What stands behind the values stays. It takes no memory.
#[unsafe(no_mangle)]
pub extern "C" fn phase_stream_take(
    alloc: Global,
    stream: &mut Handle,
    sink: usize,
    values: &mut [i64],
    count: &mut usize,
) -> i32
    ensures good { (old : StreamState) → stream.old.place.stream ≡ Some old → result ≡ GOOD
        → IsSomeAnd stream.new.place.stream (λ new.
        HandsOver sink values.old values.new old new count.new) }
    ensures room { (old : StreamState) → stream.old.place.stream ≡ Some old → result ≡ ROOM
        → LacksRoom sink (length values.old) old count.new }

    ensures answers { (old : StreamState) → stream.old.place.stream ≡ Some old
        → sink < length (sinks_of old.job) → (result ≡ GOOD) ⊎ (result ≡ ROOM) }
    ensures no_stream { stream.old.place.stream ≡ None → result ≡ NO_STREAM }
    ensures no_sink { (old : StreamState) → stream.old.place.stream ≡ Some old
        → length (sinks_of old.job) ≤ sink → result ≡ NO_SINK }
    ensures same { result ≢ GOOD → (stream.new.place.stream ≡ stream.old.place.stream)
        × (values.new ≡ values.old) }
    ensures uncounted { result ≢ GOOD → result ≢ ROOM → count.new ≡ count.old }
{
    if !stream.live {
        return NO_STREAM;
    }
    if sink >= stream.counts(alloc).sinks {
        return NO_SINK;
    }
    match stream.hand_over(alloc, sink, values) {
        Ok(many) => {
            *count = many;
            GOOD
        }
        Err(many) => {
            *count = many;
            ROOM
        }
    }
}

/// Writes the phase at which a sink that joins now begins, once it is registered, else -1. It takes
/// no memory.
#[unsafe(no_mangle)]
pub extern "C" fn phase_stream_start(
    alloc: Global,
    stream: &mut Handle,
    sink: usize,
    start: &mut i64,
) -> i32
    ensures good { (run : StreamState) → stream.old.place.stream ≡ Some run
        → sink < length (sinks_of run.job)
        → (result ≡ GOOD) × BeginsAsTold sink run start.new }

    ensures no_stream { stream.old.place.stream ≡ None → result ≡ NO_STREAM }
    ensures no_sink { (run : StreamState) → stream.old.place.stream ≡ Some run
        → length (sinks_of run.job) ≤ sink → result ≡ NO_SINK }
    ensures unwritten { result ≢ GOOD → start.new ≡ start.old }
    ensures same { stream.new.place.stream ≡ stream.old.place.stream }
{
    if !stream.live {
        return NO_STREAM;
    }
    if sink >= stream.counts(alloc).sinks {
        return NO_SINK;
    }
    *start = start_told(stream.start(alloc, sink));
    GOOD
}

/// Writes, of a run that is stalled, what each task that is left waits for, and how far the waiters
/// are of each phaser that a task may not signal, in the first places, and how many bytes that is:
/// lines for a person, as `phase stream --explain` has them, none where memory runs out. Where they
/// are more than there are places it answers `ROOM`, and writes how many they are. What stands
/// behind the lines stays. It takes memory, and gives it back.
#[unsafe(no_mangle)]
pub extern "C" fn phase_stream_waits(
    alloc: Global,
    stream: &mut Handle,
    text: &mut [u8],
    count: &mut usize,
) -> i32
    ensures good { result ≡ GOOD → WritesLines text.old text.new count.new }
    ensures room { result ≡ ROOM → length text.old < count.new }

    ensures answers { IsSome stream.old.place.stream → (result ≡ GOOD) ⊎ (result ≡ ROOM) }
    ensures no_stream { stream.old.place.stream ≡ None → result ≡ NO_STREAM }
    ensures unwritten { result ≢ GOOD → text.new ≡ text.old }
    ensures uncounted { result ≢ GOOD → result ≢ ROOM → count.new ≡ count.old }
    ensures same { stream.new.place.stream ≡ stream.old.place.stream }
{
    if !stream.live {
        return NO_STREAM;
    }
    let lines = stream.waits(alloc);
    *count = lines.len();
    if lines.len() > text.len() {
        return ROOM;
    }
    write_first(text, &lines);
    GOOD
}
