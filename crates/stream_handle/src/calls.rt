//! Calls of the run of a handle.
ghost use Rattle.std.specs.Prelude.{◌≡◌, ◌<◌, Some, IsSome, IsSomeAnd, IfOk, IfErr, OnErr, length};
ghost use Rattle.graph_commands.specs.Explained.{AreFurtherLines};
ghost use Rattle.graph_base.specs.Graphs.{sources_of};
ghost use Rattle.phase_accum.specs.Sends.{AreSends};
ghost use Rattle.stream_lists.specs.Lists.{sinks_of};
ghost use Rattle.stream_job.specs.Streams.{StreamGoesOn, StreamMoves, StreamState};
ghost use Rattle.stream_job.specs.declared.stopped.Stopped.TheVariants.{Paused};
ghost use Rattle.stream_job.specs.declared.stream_turns.TheConstants.{ROUNDS};
ghost use Rattle.stream_handle.specs.Runs.{BeginsAt, Feeds, Finishes, HandsOver, HasCounts, LacksRoom, StopsFor};

use crate::handle::Handle;
use crate::reading::{hand_over, waits_told};
use graph_numbers::PhaseCounts;
use std::alloc::{AllocError, Global};
use stream_job::Stopped;

impl Handle {
    /// Returns how many phasers, tasks, sources and sinks the graph has.
    pub fn counts(&mut self, alloc: Global) -> PhaseCounts
        requires { IsSome self.old.place.stream }
        ensures counts { (run : StreamState) → self.old.place.stream ≡ Some run
            → HasCounts run result }
        ensures same { self.new.place.stream ≡ self.old.place.stream }
    {
        let run = self.take(alloc);
        let sinks = run.sinks();
        let graph = run.graph();
        let counts = PhaseCounts {
            phasers: graph.phasers(),
            tasks: graph.tasks(),
            sources: graph.sources(),
            sinks,
        };
        self.put(run);
        counts
    }

    /// Feeds these samples to a source, as many of them as it has room for, and returns how many it
    /// took.
    pub fn feed(&mut self, alloc: Global, source: usize, samples: &[i64]) -> usize
        requires source { IsSomeAnd self.old.place.stream (λ run.
            source < sources_of run.job.graph) }
        requires sends { AreSends samples.now }
        ensures { (old : StreamState) → self.old.place.stream ≡ Some old
            → IsSomeAnd self.new.place.stream (λ new. Feeds source samples.now old new result) }
    {
        let mut run = self.take(alloc);
        let took = run.feed(source, samples);
        self.put(run);
        took
    }

    /// Tells a source that no more samples come.
    pub fn finish(&mut self, alloc: Global, source: usize)
        requires { IsSomeAnd self.old.place.stream (λ run. source < sources_of run.job.graph) }
        ensures { (old : StreamState) → self.old.place.stream ≡ Some old
            → IsSomeAnd self.new.place.stream (Finishes source old) }
    {
        let mut run = self.take(alloc);
        run.finish(source);
        self.put(run);
    }

    /// Gives turns to the tasks until none can move, and returns why. It may take memory.
    pub fn run(&mut self, alloc: Global) -> Result<Stopped, AllocError>
        requires { IsSome self.old.place.stream }
        ensures goes_on { (old : StreamState) → self.old.place.stream ≡ Some old
            → IsSomeAnd self.new.place.stream (StreamGoesOn old) }
        ensures stops { IfOk result (λ stop. IsSomeAnd self.new.place.stream (λ new.
            StopsFor new stop)) }
        ensures paused { IfOk result (λ stop. stop ≡ Paused → (old : StreamState)
            → self.old.place.stream ≡ Some old
            → IsSomeAnd self.new.place.stream (StreamMoves ROUNDS old)) }
    {
        let mut run = self.take(alloc);
        let stop = run.run();
        self.put(run);
        stop
    }

    /// Writes the values of a sink in the first places, forgets them, and answers how many they
    /// are; or, where they are more than there are places, how many they are, and forgets none.
    pub fn hand_over(&mut self, alloc: Global, sink: usize, out: &mut [i64]) -> Result<usize, usize>
        requires { IsSomeAnd self.old.place.stream (λ run. sink < length (sinks_of run.job)) }
        ensures over { IfOk result (λ count. (old : StreamState)
            → self.old.place.stream ≡ Some old → IsSomeAnd self.new.place.stream (λ new.
            HandsOver sink out.old out.new old new count)) }
        ensures room { IfErr result (λ count. (old : StreamState)
            → self.old.place.stream ≡ Some old → LacksRoom sink (length out.old) old count) }
        ensures same { OnErr result (self.new.place.stream ≡ self.old.place.stream) }
        ensures unwritten { OnErr result (out.new ≡ out.old) }
    {
        let mut run = self.take(alloc);
        let answer = hand_over(&mut run, sink, out);
        self.put(run);
        answer
    }

    /// Returns the phase at which a sink that joins now begins, once it is registered.
    pub fn start(&mut self, alloc: Global, sink: usize) -> Option<u64>
        requires { IsSomeAnd self.old.place.stream (λ run. sink < length (sinks_of run.job)) }
        ensures start { (run : StreamState) → self.old.place.stream ≡ Some run
            → BeginsAt sink run result }
        ensures same { self.new.place.stream ≡ self.old.place.stream }
    {
        let run = self.take(alloc);
        let start = run.start(sink);
        self.put(run);
        start
    }

    /// Returns what each task that is left waits for, as lines for a person; nothing where memory
    /// ran out.
    pub fn waits(&mut self, alloc: Global) -> Vec<u8>
        requires { IsSome self.old.place.stream }
        ensures lines { AreFurtherLines result.items }
        ensures same { self.new.place.stream ≡ self.old.place.stream }
    {
        let run = self.take(alloc);
        let lines = waits_told(alloc, &run);
        self.put(run);
        lines
    }
}
