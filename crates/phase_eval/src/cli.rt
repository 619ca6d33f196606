//! An evaluation by threads, over any outputs and files.
ghost use Rattle.std.specs.Prelude.{◌≡◌};
ghost use Rattle.phase_eval.specs.Ends.{EndsAsEval, MayEndAsEval};
ghost use Rattle.phase_words.specs.Answers.{AnswerEnds, MayEnd, Wrote, WroteIfBegun};
ghost use Rattle.phase_words.specs.CommandLine.{texts};
ghost use Rattle.phase_words.specs.RunLine.{AreWorkersTaken, AsksWorkers, Run, run_of, workers_kinds_of};

use crate::texts::ByThreads;
use graph_commands::{LooksBeside, Refuses, end, eval_by, look_by};
use phase_words::{RunCall, answer, read_eval_words};
use std::alloc::Global;
use std::io::Write;
use std::thread::Threads;
use watched_io::{Files, Status, Streams};

/// Runs the program on its words, those behind `phase eval`, of which one is `--workers`, and
/// answers its status: `Done` where the graph was evaluated, or help or the version was shown,
/// `GraphRefused` where the graph or its samples are refused, or no sink has the name that is asked
/// for, `Refused` where the words are refused, `TooBig` where a value of the graph is out of range,
/// and `Failed` after a fault.
///
/// A refusal's text goes to the fault stream, and so does a fault's line. Where that stream fails
/// too, the status stands alone.
pub fn run_cli<H: Threads + Sync, W: Write, E: Write, F: Files + Refuses + LooksBeside>(
    rt: &H,
    alloc: Global,
    words: &[String],
    streams: &mut Streams<W, E, F>,
) -> Status
    // Which statuses may come, by what the words ask for.
    ensures status { MayEnd (workers_kinds_of (texts words.now)) MayEndAsEval result }

    // What an evaluation of a graph wrote, whole or up to a fault, why there is no other answer,
    // and what is said further where that is asked for.
    ensures eval { (what : Run) → AsksWorkers (texts words.now) what
        → WroteIfBegun E.contents result (EndsAsEval what (F.file streams.old.files) W.contents
        result) streams.old streams.new }

    // How other words are answered, and that they open no file.
    ensures answered { (AreWorkersTaken (texts words.now) → ⊥)
        → Wrote E.contents (AnswerEnds (workers_kinds_of (texts words.now)) result)
        streams.old streams.new }
    ensures unopened { (AreWorkersTaken (texts words.now) → ⊥)
        → streams.new.files ≡ streams.old.files }
    ensures quiet { result ≡ Status.Done → streams.new.faults ≡ streams.old.faults }
{
    match read_eval_words(alloc, words) {
        Ok(call) => run_call(rt, alloc, call, streams),
        Err(none) => answer(&none, &mut streams.output, &mut streams.faults),
    }
}

/// Evaluates a graph as a call asks for it, reports why there is no answer, and answers the status.
fn run_call<H: Threads + Sync, W: Write, E: Write, F: Files + Refuses + LooksBeside>(
    rt: &H,
    alloc: Global,
    call: RunCall<'_>,
    streams: &mut Streams<W, E, F>,
) -> Status
    ensures status { MayEndAsEval result }
    ensures ends { Wrote E.contents (EndsAsEval (run_of call.entry) (F.file streams.old.files)
        W.contents result) streams.old streams.new }
    ensures quiet { result ≡ Status.Done → streams.new.faults ≡ streams.old.faults }
{
    let graph = call.graph;
    let explain = call.explain;
    look_by(alloc, &mut streams.files, call.beside, graph);
    let by = ByThreads::new(rt, alloc, call.workers);
    let done = eval_by(
        alloc,
        &by,
        &by,
        graph,
        call.sink,
        &mut streams.output,
        &mut streams.files,
    );
    end(
        alloc,
        done,
        graph,
        explain,
        &mut streams.faults,
        &mut streams.files,
    )
}
