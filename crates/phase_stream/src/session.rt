//! A run of a graph over the files of its sources, of which the values of sinks are written.
ghost use Rattle.std.specs.Prelude.{◌≡◌, ◌≢◌, ◌<◌, ◌≤◌, ℕ, ℤ, List, Option, Some, [], IfOk, IfErr, OnOk, OnErr, IsErrOf, length, false, true};
ghost use Rattle.std.specs.Io.KnownBytes.{Appends};
ghost use Rattle.graph_commands.specs.FileJobs.{Known};
ghost use Rattle.watched_io.specs.declared.fault.IoFault.TheVariants as io_fault;
ghost use Rattle.graph_base.specs.Graphs.{sources_of};
ghost use Rattle.graph_runs.specs.Moments.{Moment};
ghost use mathlib.Core.List.{IsPrefix};
ghost use Rattle.stream_job.specs.Gone.{has_gone};
ghost use Rattle.stream_job.specs.SinkLines.{kept_by};
ghost use Rattle.stream_job.specs.Streams.{IsStreamAt, StreamGoesOn};
ghost use Rattle.stream_job.specs.declared.stopped.Stopped.{Stopped as StoppedValue};
ghost use Rattle.stream_job.specs.declared.stopped.Stopped.TheVariants.{Hungry};
ghost use Rattle.stream_lists.specs.Lists.{sinks_of};
ghost use Rattle.phase_stream.specs.Outputs.{StopOf, writers_at};
ghost use Rattle.phase_stream.specs.Sessions.{AreKeptRight, AreSources, AreTargets, Forgets, HandsOverAll, HandsPart, HasFailed, IsKeptRight, IsKeptWhole, IsStreamAtOpening, IsFaultWithoutText, MayStand, HasStopped, IsKnownAs, IsSameSession, StandsBy, StandsFresh, StandsFurther, StandsLacking, StandsPart, StandsStopped, WritesFirst, WritesLeft, WritesLeftPart, WritesSome, task_for};
ghost use Rattle.phase_stream.specs.Sources.{AreUnopened};
ghost use Rattle.graph_commands.specs.Explained.{AreFurtherLines};
ghost use Rattle.graph_commands.specs.Failures.{HasPlace};
ghost use Rattle.watched_io.specs.States.{WriterState};

use crate::opens::Opens;
use crate::sink::Sink;
use crate::source::{Lack, Room, Source};
use crate::writers::write_to;
use graph_base::Place;
use graph_commands::{Failure, JobFault, OutputBuffer, stall_told};
use std::alloc::{AllocError, Global};
use std::io::{Read, Write};
use stream_job::{Job, Stopped, Stream, starts_are_in_time};
use watched_io::{Explain, IoFault, Watched, WriteFailed};

/// A run of a graph over the files of its sources, of which the values of sinks are written.
#[derive(Drop)]
pub struct Session<R> {
    pub stream: Stream,
    pub sources: Vec<Source<R>>,
    /// The sink whose values go to each writer, by the writer's number, or none.
    pub targets: Vec<Option<Sink>>,
}

impl<R: Read + Drop> Session<R> {
    /// Makes it of a stream at its opening, for these sinks.
    pub fn new(
        alloc: Global,
        stream: Stream,
        targets: Vec<Option<Sink>>,
    ) -> Result<Session<R>, AllocError>
        requires { IsStreamAtOpening stream }
        ensures stands { IfOk result (λ session. (held : Known) (old now : ℕ → Option (List ℕ))
            → ((k : ℕ) → Appends (old k) (now k) [])
            → StandsFresh R.remaining held old now session) }
        ensures job { IfOk result (λ session. session.stream.job ≡ stream.job) }
        ensures targets { IfOk result (λ session. session.targets.items ≡ targets.items) }
    {
        let sources = unopened(alloc, stream.job())?;
        Ok(Session {
            stream,
            sources,
            targets,
        })
    }

    /// Gives turns to the tasks until none can move, and returns why.
    pub fn run(&mut self) -> Result<Stopped, AllocError>
        ensures stands { (held : Known) (old now : ℕ → Option (List ℕ))
            → StandsBy R.remaining held old now self.old
            → StandsBy R.remaining held old now self.new }
        ensures stops { IfOk result (λ stop. (s : List (List ℤ)) (m : Moment)
            (given : ℕ → List ℤ) → IsStreamAt self.new.stream s m given
            → HasStopped self.new.stream s m stop) }
        ensures goes_on { StreamGoesOn self.old.stream self.new.stream }
        ensures others { (self.new.sources ≡ self.old.sources)
            × (self.new.targets ≡ self.old.targets) }
        ensures same { IsSameSession self.old self.new }
    {
        starts_are_in_time();
        self.stream.run()
    }

    /// Writes to a writer the values of its sink that were not handed over.
    fn write_left<W: Write, V: Write>(
        &self,
        number: usize,
        buffer: &mut OutputBuffer,
        output: &mut Watched<W>,
        made: &mut Vec<Watched<V>>,
    ) -> Result<(), WriteFailed>
        requires there { number < length self.now.targets.items }
        requires targets { AreTargets self.now.stream.job self.now.targets.items }
        ensures ok { OnOk result (WritesLeft self.now.stream self.now.targets.items number
            (writers_at W.contents V.contents output.old made.old.items)
            (writers_at W.contents V.contents output.new made.new.items)) }
        ensures err { OnErr result (WritesLeftPart self.now.stream self.now.targets.items number
            (writers_at W.contents V.contents output.old made.old.items)
            (writers_at W.contents V.contents output.new made.new.items)) }
        ensures failed { OnErr result ((writers_at W.contents V.contents output.new made.new.items
            number).failed ≡ true) }
    {
        match self.targets[number] {
            Some(sink) => write_to(
                buffer,
                output,
                made,
                number,
                self.stream.values(sink.number),
            ),
            None => Ok(()),
        }
    }

    /// Writes the values of each sink that were not handed over.
    fn write_all<W: Write, V: Write>(
        &self,
        buffer: &mut OutputBuffer,
        output: &mut Watched<W>,
        made: &mut Vec<Watched<V>>,
    ) -> Result<(), WriteFailed>
        requires { AreTargets self.now.stream.job self.now.targets.items }
        ensures ok { OnOk result (WritesFirst self.now.stream self.now.targets.items
            (length self.now.targets.items)
            (writers_at W.contents V.contents output.old made.old.items)
            (writers_at W.contents V.contents output.new made.new.items)) }
        ensures err { OnErr result (WritesSome self.now.stream self.now.targets.items
            (writers_at W.contents V.contents output.old made.old.items)
            (writers_at W.contents V.contents output.new made.new.items)) }
        ensures failed { OnErr result (HasFailed (length self.now.targets.items)
            (writers_at W.contents V.contents output.new made.new.items)) }
    {
        for number in 0..self.targets.len() {
            self.write_left(number, buffer, output, made)?;
        }
        Ok(())
    }

    /// Writes the values of the sinks that were not handed over, and forgets those of all sinks.
    fn hand_over<W: Write, V: Write>(
        &mut self,
        buffer: &mut OutputBuffer,
        output: &mut Watched<W>,
        made: &mut Vec<Watched<V>>,
    ) -> Result<(), WriteFailed>
        requires { AreTargets self.old.stream.job self.old.targets.items }
        ensures ok { OnOk result (HandsOverAll
            (writers_at W.contents V.contents output.old made.old.items)
            (writers_at W.contents V.contents output.new made.new.items) self.old self.new) }
        ensures err { OnErr result (HandsPart
            (writers_at W.contents V.contents output.old made.old.items)
            (writers_at W.contents V.contents output.new made.new.items) self.old self.new) }
        ensures failed { OnErr result (HasFailed (length self.old.targets.items)
            (writers_at W.contents V.contents output.new made.new.items)) }
        ensures same { IsSameSession self.old self.new }
    {
        self.write_all(buffer, output, made)?;
        forget_all(&mut self.stream);
        Ok(())
    }

    /// Goes on until no task can move, and writes what the sinks have then.
    pub fn turn<W: Write, V: Write>(
        &mut self,
        buffer: &mut OutputBuffer,
        output: &mut Watched<W>,
        made: &mut Vec<Watched<V>>,
    ) -> Result<Stopped, IoFault>
        requires { AreTargets self.old.stream.job self.old.targets.items }
        ensures ok { IfOk result (λ stop. (held : Known) (old : ℕ → Option (List ℕ))
            → StandsBy R.remaining held old
            (λ k. (writers_at W.contents V.contents output.old made.old.items k).written) self.old
            → StandsStopped R.remaining held old
            (λ k. (writers_at W.contents V.contents output.new made.new.items k).written) self.new
            stop) }
        ensures err { OnErr result ((held : Known) (old : ℕ → Option (List ℕ))
            → StandsBy R.remaining held old
            (λ k. (writers_at W.contents V.contents output.old made.old.items k).written) self.old
            → StandsPart held old
            (λ k. (writers_at W.contents V.contents output.new made.new.items k).written)
            self.new) }
        ensures right { OnErr result (AreKeptRight self.new.stream self.new.targets.items) }
        ensures failed { IsErrOf result io_fault.WriteFault → HasFailed
            (length self.old.targets.items)
            (writers_at W.contents V.contents output.new made.new.items) }
        ensures fault { IfErr result (λ fault. fault ≢ io_fault.ReadFault) }
        ensures same { IsSameSession self.old self.new }
    {
        let stop = match self.run() {
            Ok(stop) => stop,
            Err(_) => {
                self.kept_is_right();
                return Err(IoFault::OutOfMemory);
            }
        };
        match self.hand_over(buffer, output, made) {
            Ok(()) => Ok(stop),
            Err(_) => {
                self.kept_is_right();
                Err(IoFault::WriteFault)
            }
        }
    }

    /// Reads on of a source, once, and feeds what came.
    pub fn refill<F: Opens<Reader = R>>(
        &mut self,
        alloc: Global,
        files: &mut F,
        room: &mut Room,
        k: usize,
        explain: Explain,
    ) -> Result<(), Lack>
        requires { MayStand R.remaining (F.file files.old) self.old }
        ensures ok { OnOk result ((held : Known) (old now : ℕ → Option (List ℕ))
            → IsKnownAs held (F.file files.old)
            → (stands : StandsBy R.remaining held old now self.old)
            → StandsFurther R.remaining held old now self.old self.new stands) }
        ensures err { IfErr result (λ lack. (held : Known) (old now : ℕ → Option (List ℕ))
            (hungry : ℕ) → IsKnownAs held (F.file files.old)
            → StandsStopped R.remaining held old now self.old (Hungry hungry)
            → StandsLacking held old now self.new k lack) }
        ensures same { IsSameSession self.old self.new }
        ensures files { (other : List ℕ) → F.file files.new other ≡ F.file files.old other }
    {
        if k >= self.stream.graph().sources() {
            return Err(Lack::ReadFault);
        }
        let Some(source) = self.sources.get_mut(k) else {
            return Err(Lack::ReadFault);
        };
        let name = self.stream.graph().file(k);
        let piece = match source.read(alloc, files, name, explain, room) {
            Ok(piece) => piece,
            Err(lack) => return Err(lack),
        };
        if self.stream.feed(k, &room.values[..piece.count]) < piece.count {
            return Err(Lack::ReadFault);
        }
        if piece.is_last {
            self.stream.finish(k);
            return Ok(());
        }
        Ok(())
    }

    /// Returns whether the sink that goes to a writer has left, where one does: it gets no more
    /// values.
    fn has_left(&self, number: usize) -> bool
        requires there { number < length self.now.targets.items }
        requires targets { AreTargets self.now.stream.job self.now.targets.items }
        ensures gone { (t : ℕ) → task_for self.now.targets.items number ≡ Some t
            → (s : List (List ℤ)) (m : Moment) (given : ℕ → List ℤ)
            → IsStreamAt self.now.stream s m given
            → has_gone self.now.stream.job m t ≡ result }
        ensures whole { (t : ℕ) → task_for self.now.targets.items number ≡ Some t
            → result ≡ true → IsKeptWhole self.now.stream t }
    {
        starts_are_in_time();
        match self.targets[number] {
            Some(sink) => self.stream.has_left(sink.number),
            None => true,
        }
    }

    /// Returns whether all sinks that go somewhere have left.
    pub fn have_left(&self) -> bool
        requires { AreTargets self.now.stream.job self.now.targets.items }
        ensures gone { result ≡ true → (k t : ℕ) → task_for self.now.targets.items k ≡ Some t
            → (s : List (List ℤ)) (m : Moment) (given : ℕ → List ℤ)
            → IsStreamAt self.now.stream s m given
            → has_gone self.now.stream.job m t ≡ true }
        ensures whole { result ≡ true → (k t : ℕ) → task_for self.now.targets.items k ≡ Some t
            → IsKeptWhole self.now.stream t }
    {
        for number in 0..self.targets.len() {
            if !self.has_left(number) {
                return false;
            }
        }
        true
    }

    /// Returns why it stops, where a source got no more samples of this cause.
    pub fn lacking<'a>(&self, alloc: Global, k: usize, lack: Lack) -> Failure<'a>
        requires { AreTargets self.now.stream.job self.now.targets.items }
        ensures stops { (held : Known) (old : ℕ → Option (List ℕ)) (new : ℕ → WriterState)
            → StandsLacking held old (λ k. (new k).written) self.now k lack
            → StopOf held self.now.stream.job (task_for self.now.targets.items)
            (length self.now.targets.items) old new result }
        ensures place { HasPlace result }
    {
        self.kept_is_right();
        let Lack::BadRecord { number, told } = lack else {
            return unread(alloc, JobFault::ReadFault);
        };
        if k >= self.sources.len() {
            return unread(alloc, JobFault::OutOfMemory);
        }
        let task = self.sources[k].task;
        let graph = self.stream.graph();
        if task >= graph.tasks() {
            return unread(alloc, JobFault::OutOfMemory);
        }
        match String::from_str(alloc, graph.name(Place::Task(task))) {
            Ok(name) => unread(alloc, JobFault::BadSample { name, number, told }),
            Err(_) => unread(alloc, JobFault::OutOfMemory),
        }
    }

    /// What a person is told of a stall, where that is asked for.
    pub fn stall_told(&self, alloc: Global, explain: Explain) -> Vec<u8>
        ensures { AreFurtherLines result.items }
    {
        if explain == Explain::No {
            return Vec::new(alloc);
        }
        match self.stream.stands(alloc) {
            Ok(stands) => stall_told(alloc, self.stream.job(), &stands),
            Err(_) => Vec::new(alloc),
        }
    }

    /// What was handed over of the sink that goes to a writer begins what it has kept, and that
    /// begins its values in each run whose samples go on behind those that came.
    fn is_right(&self, number: usize)
        requires there { number < length self.now.targets.items }
        requires targets { AreTargets self.now.stream.job self.now.targets.items }
        ensures given { (t : ℕ) → task_for self.now.targets.items number ≡ Some t
            → (s : List (List ℤ)) (m : Moment) (given : ℕ → List ℤ)
            → IsStreamAt self.now.stream s m given
            → IsPrefix (given t) (kept_by self.now.stream.job m t) }
        ensures right { (t : ℕ) → task_for self.now.targets.items number ≡ Some t
            → IsKeptRight self.now.stream t }
    {
        if let Some(sink) = self.targets[number] {
            let _values = self.stream.values(sink.number);
        }
    }

    /// The same of each.
    pub fn kept_is_right(&self)
        requires { AreTargets self.now.stream.job self.now.targets.items }
        ensures given { (k t : ℕ) → task_for self.now.targets.items k ≡ Some t
            → (s : List (List ℤ)) (m : Moment) (given : ℕ → List ℤ)
            → IsStreamAt self.now.stream s m given
            → IsPrefix (given t) (kept_by self.now.stream.job m t) }
        ensures right { AreKeptRight self.now.stream self.now.targets.items }
    {
        for number in 0..self.targets.len() {
            self.is_right(number);
        }
    }

    /// Returns the job of the graph, and drops all else.
    pub fn into_job(self) -> Job
        ensures { result ≡ self.stream.job }
    {
        let Session { stream, .. } = self;
        stream.into_job()
    }

    /// Closes the files of the sources that have left.
    pub fn close_left(&mut self)
        ensures stands { (held : Known) (old now : ℕ → Option (List ℕ)) (stop : StoppedValue)
            → StandsStopped R.remaining held old now self.old stop
            → StandsStopped R.remaining held old now self.new stop }
        ensures sources { (held : Known) (s : List (List ℤ))
            → AreSources R.remaining held self.old s → AreSources R.remaining held self.new s }
        ensures stream { self.new.stream ≡ self.old.stream }
        ensures same { IsSameSession self.old self.new }
    {
        for k in 0..self.sources.len() {
            if k < self.stream.graph().sources() && !self.stream.has_live(k) {
                self.close(k);
            }
        }
    }

    /// Closes the file of a source, where it is open.
    fn close(&mut self, k: usize)
        ensures stands { (held : Known) (old now : ℕ → Option (List ℕ)) (stop : StoppedValue)
            → StandsStopped R.remaining held old now self.old stop
            → StandsStopped R.remaining held old now self.new stop }
        ensures sources { (held : Known) (s : List (List ℤ))
            → AreSources R.remaining held self.old s → AreSources R.remaining held self.new s }
        ensures stream { self.new.stream ≡ self.old.stream }
        ensures same { IsSameSession self.old self.new }
    {
        if let Some(source) = self.sources.get_mut(k) {
            source.file = None;
        }
    }
}

/// Forgets the values of all sinks.
pub fn forget_all(stream: &mut Stream)
    ensures { Forgets (length (sinks_of stream.old.job)) stream.old stream.new }
{
    for sink in 0..stream.sinks() {
        stream.forget(sink);
    }
}

/// A fault of the files, with no text that explains it.
fn unread<'a>(alloc: Global, fault: JobFault) -> Failure<'a>
    ensures { IsFaultWithoutText fault result }
{
    Failure::Graph {
        fault,
        text: Vec::new(alloc),
    }
}

/// The sources of a job, of each of which the file is still to be opened.
fn unopened<R: Read + Drop>(alloc: Global, job: &Job) -> Result<Vec<Source<R>>, AllocError>
    ensures { (held : Known) → IfOk result (λ sources.
        AreUnopened R.remaining held job.now sources.items) }
{
    let mut sources = Vec::with_capacity(alloc, job.graph().sources())?;
    for t in 0..job.graph().tasks() {
        if job.graph().is_source(t) {
            sources.push(Source::unopened(t))?;
        }
    }
    Ok(sources)
}
