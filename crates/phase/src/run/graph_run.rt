//! A run of a graph.
ghost use Rattle.std.specs.Prelude.{◌≡◌, ℕ, List, Option, OnOk, IfOk, IfErr};
ghost use Rattle.graph_commands.specs.Explained.{AreFurtherLines};
ghost use Rattle.graph_commands.specs.FileJobs.{IsJobOf, Known};
ghost use Rattle.graph_commands.specs.GraphRuns.{AsksSink};
ghost use Rattle.phase.specs.Runs.{RunFails, Runs};
ghost use Rattle.phase_words.specs.RunLine.{run_of};
ghost use Rattle.watched_io.specs.States.{writer_state};

use crate::run::counts::Counts;
use graph_commands::{AskedJob, Failure, read_asked, stall_told, write_sinks};
use phase_eval::ByThreads;
use phase_words::{Explain, RunCall};
use std::alloc::Global;
use std::io::Write;
use std::sync::Wait;
use std::thread::Threads;
use std::time::Clock;
use stream_lists::Job;
use stream_workers::{RunFault, Stand, run_watched};
use watched_io::{Files, IoFault, Watched};

/// Reads a graph and the samples of its sources, runs it by as many worker threads as the call asks
/// for, of which the caller's is one, and writes the lists of its sinks, or the values alone of the
/// sink of the name that is asked for. Returns what each task did, as lines for a person, where the
/// call asks for that, and memory suffices.
///
/// It waits, and it is not promised that it comes back.
pub fn run<'a, H: Threads + Wait + Clock + Sync, W: Write, F: Files>(
    rt: &H,
    alloc: Global,
    call: RunCall<'a>,
    output: &mut Watched<W>,
    files: &mut F,
) -> Result<Vec<u8>, Failure<'a>>
    ensures done { OnOk result (Runs (F.file files.old)
        (run_of call.entry).graph (run_of call.entry).sink
        (writer_state W.contents output.old) (writer_state W.contents output.new)) }
    ensures failed { IfErr result (λ found. RunFails (F.file files.old)
        (run_of call.entry).graph (run_of call.entry).sink
        W.contents output.old output.new found) }
    ensures lines { IfOk result (λ lines. AreFurtherLines lines.items) }
    ensures same { (other : List ℕ) → F.file files.new other ≡ F.file files.old other }
{
    let texts = ByThreads::new(rt, alloc, call.workers);
    match read_asked(alloc, files, &texts, call.graph, call.sink) {
        Ok(asked) => run_asked(rt, alloc, asked, call, output),
        Err(failure) => Err(failure),
    }
}

/// What a person is told of the stall of a job, where that is asked for.
fn stalled(alloc: Global, job: &Job, stands: &[Stand], explain: Explain) -> Vec<u8>
    ensures { AreFurtherLines result.items }
{
    match explain {
        Explain::No => Vec::new(alloc),
        Explain::Yes => stall_told(alloc, job, stands),
    }
}

/// Runs a job for all its sinks, or for the one that is asked for.
fn run_asked<'a, H: Threads + Wait + Clock + Sync, W: Write>(
    rt: &H,
    alloc: Global,
    asked: AskedJob,
    call: RunCall<'a>,
    output: &mut Watched<W>,
) -> Result<Vec<u8>, Failure<'a>>
    ensures done { OnOk result ((known : Known) (name : List ℕ) (sink : Option (List ℕ))
        → IsJobOf known name asked.job → AsksSink asked.job sink asked.sink
        → Runs known name sink
        (writer_state W.contents output.old) (writer_state W.contents output.new)) }
    ensures failed { IfErr result (λ found. (known : Known) (name : List ℕ)
        (sink : Option (List ℕ))
        → IsJobOf known name asked.job → AsksSink asked.job sink asked.sink
        → RunFails known name sink W.contents output.old output.new found) }
    ensures lines { IfOk result (λ lines. AreFurtherLines lines.items) }
{
    let AskedJob { job, sink } = asked;
    let texts = ByThreads::new(rt, alloc, call.workers);
    let Ok(counts) = Counts::new(rt, alloc, &job, call.counts) else {
        return Err(Failure::Io(IoFault::OutOfMemory));
    };
    match run_watched(rt, alloc, &job, call.workers, counts.asked()) {
        Ok(lines) => match write_sinks(output, &texts, &job, &lines, sink) {
            Ok(()) => Ok(counts.lines(alloc, &job, call.workers)),
            Err(_) => Err(Failure::Io(IoFault::WriteFault)),
        },
        Err(RunFault::TooBig { place, phase }) => Err(Failure::TooBig { job, place, phase }),
        Err(RunFault::Stalled(stands)) => Err(Failure::Stalled {
            further: stalled(alloc, &job, &stands, call.explain),
        }),
        Err(RunFault::OutOfMemory) => Err(Failure::Io(IoFault::OutOfMemory)),
    }
}
