//! The command: a graph over the files of its sources, of which sinks are written as they come.
ghost use Rattle.std.specs.Prelude.{◌≡◌, ℕ, [], List, Option, OnOk, IfOk, IfErr, length};
ghost use Rattle.graph_commands.specs.Explained.{IsTextOf};
ghost use Rattle.graph_commands.specs.Failures.{HasPlace};
ghost use Rattle.graph_commands.specs.declared.failure.Failure.TheVariants as failure;
ghost use Rattle.graph_commands.specs.FileJobs.{IsGraphOf, Known};
ghost use Rattle.watched_io.specs.Watched.{inner_of};
ghost use Rattle.phase_words.specs.StreamLine.{stream_asked};
ghost use Rattle.phase_stream.specs.Outputs.{AreTargetsOf, IsUnreadGraph, StopOf, StreamDoes, StreamFailsBy, WriteWhole, bare_at, writers_at};
ghost use Rattle.phase_stream.specs.Sessions.{AreTargets, IsKnownAs, IsStreamAtOpening, StandsBy, task_for};
ghost use Rattle.phase_stream.specs.Streams.{GivesNoRun};

use crate::opens::Opens;
use crate::session::Session;
use crate::sink::{Sink, Untargeted, targets};
use crate::source::{Lack, Room};
use crate::writers::make_files;
use graph_base::Place;
use graph_commands::{Failure, GRAPH_MAX, JobFault};
use graph_lang::{FaultKind, GraphFault, read_graph};
use graph_runs::outcomes;
use phase_words::StreamCall;
use std::alloc::Global;
use std::io::Write;
use stream_job::{Job, JobRefusal, Stopped, Stream};
use watched_io::{Explain, Files, IoFault, Watched};

/// Reads the graph of a file, and then the samples of its sources as they come, and writes the
/// values of the sinks that are asked for as they come.
///
/// It makes the files that they go to, once all of them are known to be right. It reads of the
/// source that waits for samples and is the first in the order of the lines, at most `PIECE` bytes,
/// feeds them, goes on, writes what the sinks have, and only then reads again. It comes back where
/// each call of its readers and its writers does.
pub fn stream<'a, W: Write, F: Opens>(
    alloc: Global,
    call: &StreamCall<'a>,
    output: &mut Watched<W>,
    made: &mut Vec<Watched<F::Writer>>,
    files: &mut F,
) -> Result<(), Failure<'a>>
    requires { made.old.items ≡ [] }
    ensures done { OnOk result (StreamDoes (F.file files.old) (stream_asked call.now)
        (bare_at F.knows (stream_asked call.now).files (W.contents (inner_of output.old)))
        (λ k. (writers_at W.contents F.Writer.contents output.new made.new.items k).written)) }
    ensures failed { IfErr result (λ found. StreamFailsBy (F.file files.old)
        (stream_asked call.now) F.knows W.contents F.Writer.contents output.old output.new
        made.new.items found) }
    ensures place { IfErr result HasPlace }
    ensures same { (other : List ℕ) → F.file files.new other ≡ F.file files.old other }
{
    let stream = match read_stream(alloc, files, call.graph) {
        Ok(stream) => stream,
        Err(failure) => return Err(failure),
    };
    match targets(alloc, stream.job(), call) {
        Ok(targets) => begin(alloc, stream, targets, call, output, made, files),
        Err(Untargeted::NoSink(name)) => Err(Failure::NoSink {
            job: stream.into_job(),
            name,
        }),
        Err(Untargeted::OutOfMemory) => Err(Failure::Io(IoFault::OutOfMemory)),
    }
}

/// Makes the files that are asked for, and streams the graph.
fn begin<'a, W: Write, F: Opens>(
    alloc: Global,
    stream: Stream,
    targets: Vec<Option<Sink>>,
    call: &StreamCall<'a>,
    output: &mut Watched<W>,
    made: &mut Vec<Watched<F::Writer>>,
    files: &mut F,
) -> Result<(), Failure<'a>>
    requires made { made.old.items ≡ [] }
    requires opening { IsStreamAtOpening stream }
    requires targets { AreTargetsOf stream.job (stream_asked call.now) targets.items }
    ensures done { OnOk result ((known : Known) → IsKnownAs known (F.file files.old)
        → IsGraphOf known (stream_asked call.now).graph stream.job.graph
        → StreamDoes known (stream_asked call.now)
        (bare_at F.knows (stream_asked call.now).files (W.contents (inner_of output.old)))
        (λ k. (writers_at W.contents F.Writer.contents output.new made.new.items k).written)) }
    ensures failed { IfErr result (λ found. (known : Known) → IsKnownAs known (F.file files.old)
        → IsGraphOf known (stream_asked call.now).graph stream.job.graph
        → StreamFailsBy known
        (stream_asked call.now) F.knows W.contents F.Writer.contents output.old output.new
        made.new.items found) }
    ensures place { IfErr result HasPlace }
    ensures same { (other : List ℕ) → F.file files.new other ≡ F.file files.old other }
{
    let Ok(session) = Session::new(alloc, stream, targets) else {
        return Err(Failure::Io(IoFault::OutOfMemory));
    };
    match make_files(alloc, session.stream.graph(), call, made, files) {
        Ok(()) => go(alloc, session, call.explain, output, made, files),
        Err(fault) => Err(Failure::Io(fault)),
    }
}

/// Makes the run of the graph in a file, to which no samples came.
pub fn read_stream<'a, F: Files>(
    alloc: Global,
    files: &mut F,
    name: &str,
) -> Result<Stream, Failure<'a>>
    ensures ok { IfOk result (λ stream. IsGraphOf (F.file files.old) name.now stream.job.graph
        × IsStreamAtOpening stream) }
    ensures failed { IfErr result (IsUnreadGraph (F.file files.old) name.now) }
    ensures place { IfErr result HasPlace }
    ensures same { (other : List ℕ) → F.file files.new other ≡ F.file files.old other }
{
    match files.read(alloc, name, GRAPH_MAX) {
        Ok(text) => match stream_of_text(alloc, &text) {
            Ok(stream) => Ok(stream),
            Err(fault) => Err(Failure::Graph { fault, text }),
        },
        Err(fault) => Err(Failure::Graph {
            fault: JobFault::from(fault),
            text: Vec::new(alloc),
        }),
    }
}

/// Makes the run of the graph of a text.
fn stream_of_text(alloc: Global, text: &[u8]) -> Result<Stream, JobFault>
    ensures ok { IfOk result (λ stream. (known : Known) (name : List ℕ)
        → IsTextOf known name text.now
        → IsGraphOf known name stream.job.graph × IsStreamAtOpening stream) }
    ensures fault { IfErr result (λ fault. (known : Known) (name : List ℕ)
        → IsTextOf known name text.now → GivesNoRun known name fault) }
{
    let graph = read_graph(alloc, text)?;
    match Stream::new(alloc, graph) {
        Ok(stream) => Ok(stream),
        Err(JobRefusal::AnyMeets { line }) => Err(JobFault::Graph(GraphFault {
            line,
            kind: FaultKind::AnyMeets,
        })),
        Err(JobRefusal::OutOfMemory) => Err(JobFault::OutOfMemory),
    }
}

/// Goes on until the sinks have left, the run is over, or a cause stops it: a read fault after
/// 2^64 - 1 rounds.
fn go<'a, W: Write, F: Opens>(
    alloc: Global,
    mut session: Session<F::Reader>,
    explain: Explain,
    output: &mut Watched<W>,
    made: &mut Vec<Watched<F::Writer>>,
    files: &mut F,
) -> Result<(), Failure<'a>>
    requires targets { AreTargets session.stream.job session.targets.items }
    requires stands { (held : Known) × (old : ℕ → Option (List ℕ))
        × IsKnownAs held (F.file files.old) × StandsBy F.Reader.remaining held old
        (λ k. (writers_at W.contents F.Writer.contents output.old made.old.items k).written)
        session }
    ensures done { OnOk result ((held : Known) (old : ℕ → Option (List ℕ))
        → IsKnownAs held (F.file files.old)
        → StandsBy F.Reader.remaining held old
        (λ k. (writers_at W.contents F.Writer.contents output.old made.old.items k).written)
        session
        → WriteWhole held session.stream.job (task_for session.targets.items) old
        (λ k. (writers_at W.contents F.Writer.contents output.new made.new.items k).written)) }
    ensures failed { IfErr result (λ found. (held : Known) (old : ℕ → Option (List ℕ))
        → IsKnownAs held (F.file files.old)
        → StandsBy F.Reader.remaining held old
        (λ k. (writers_at W.contents F.Writer.contents output.old made.old.items k).written)
        session
        → StopOf held session.stream.job (task_for session.targets.items)
        (length session.targets.items) old
        (writers_at W.contents F.Writer.contents output.new made.new.items) found) }
    ensures place { IfErr result HasPlace }
    ensures same { (other : List ℕ) → F.file files.new other ≡ F.file files.old other }
{
    let mut room = Room::empty();
    for _ in 0..u64::MAX {
        let stop = match session.turn(&mut room.text, output, made) {
            Ok(stop) => stop,
            Err(fault) => return Err(Failure::Io(fault)),
        };
        if session.have_left() {
            return Ok(());
        }
        session.kept_is_right();
        match stop {
            Stopped::Done => return Ok(()),
            Stopped::Hungry { source } => {
                session.close_left();
                if let Err(lack) = session.refill(alloc, files, &mut room, source, explain) {
                    return Err(session.lacking(alloc, source, lack));
                }
            }
            Stopped::Full { .. } | Stopped::Paused => {}
            Stopped::Stalled => {
                let further = session.stall_told(alloc, explain);
                return Err(Failure::Stalled { further });
            }
            Stopped::TooBig { place, phase } => {
                outcomes::faults_are_there();
                return Err(too_big(session.into_job(), place, phase));
            }
        }
    }
    Err(session.lacking(alloc, 0, Lack::ReadFault))
}

/// A value of a job that is out of range.
pub fn too_big<'a>(job: Job, place: Place, phase: u64) -> Failure<'a>
    ensures { result ≡ failure.TooBig job place phase }
{
    Failure::TooBig {
        job,
        place,
        phase: phase as usize,
    }
}
