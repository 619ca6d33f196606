//! A run of the program over any outputs and files.
ghost use Rattle.std.specs.Prelude.{◌≡◌, false};
ghost use Rattle.phase.specs.Ends.{AskNoCounts, EndsAsRun, MayEndAsRun, TellsCounts};
ghost use Rattle.phase_words.specs.Answers.{AnswerEnds, MayEnd, Wrote, WroteIfBegun};
ghost use Rattle.phase_words.specs.CommandLine.{texts};
ghost use Rattle.phase_words.specs.RunLine.{AreRunTaken, AsksRun, Run, run_kinds_of, run_of};
ghost use Rattle.graph_commands.specs.Explained.{AreFurtherLines};
ghost use Rattle.watched_io.specs.States.{writer_state};

use crate::run::graph_run::run;
use graph_commands::{LooksBeside, Refuses, look_by, report, tell_bytes};
use phase_words::{RunCall, answer, read_run_words};
use std::alloc::Global;
use std::io::Write;
use std::sync::Wait;
use std::thread::Threads;
use std::time::Clock;
use watched_io::{Files, Status, Streams, Watched};

/// Runs the program on its words, those behind `phase run`, and answers its status: `Done` where
/// the graph was run, or help or the version was shown, `GraphRefused` where the graph or its
/// samples are refused, or no sink has the name that is asked for, `Refused` where the words are
/// refused, `TooBig` where a value of the graph is out of range, `Stalled` where every task that is
/// left waits for another, and `Failed` after a fault.
///
/// A refusal's text goes to the fault stream, and so does a fault's line, and what each task did
/// where the words ask for that, behind all values. Where that stream fails too, the status stands
/// alone. A run waits, and it is not promised that it comes back.
pub fn run_graph<
    H: Threads + Wait + Clock + Sync,
    W: Write,
    E: Write,
    F: Files + Refuses + LooksBeside,
>(rt: &H, alloc: Global, words: &[String], streams: &mut Streams<W, E, F>) -> Status
    // Which statuses may come, by what the words ask for.
    ensures status { MayEnd (run_kinds_of (texts words.now)) MayEndAsRun result }

    // What a run of a graph wrote, whole or up to a fault, why there is no other answer, and what
    // is said further where that is asked for.
    ensures run { (what : Run) → AsksRun (texts words.now) what
        → WroteIfBegun E.contents result (EndsAsRun what (F.file streams.old.files) W.contents
        result) streams.old streams.new }

    // How other words are answered, and that they open no file.
    ensures answered { (AreRunTaken (texts words.now) → ⊥)
        → Wrote E.contents (AnswerEnds (run_kinds_of (texts words.now)) result)
        streams.old streams.new }
    ensures unopened { (AreRunTaken (texts words.now) → ⊥)
        → streams.new.files ≡ streams.old.files }
    ensures quiet { result ≡ Status.Done → AskNoCounts (texts words.now)
        → streams.new.faults ≡ streams.old.faults }
{
    match read_run_words(alloc, words) {
        Ok(call) => run_call(rt, alloc, call, streams),
        Err(none) => answer(&none, &mut streams.output, &mut streams.faults),
    }
}

/// Runs a graph as a call asks for it, reports why there is no answer, and answers the status.
fn run_call<H: Threads + Wait + Clock + Sync, W: Write, E: Write, F: Files + Refuses + LooksBeside>(
    rt: &H,
    alloc: Global,
    call: RunCall<'_>,
    streams: &mut Streams<W, E, F>,
) -> Status
    ensures status { MayEndAsRun result }
    ensures ends { Wrote E.contents (EndsAsRun (run_of call.entry) (F.file streams.old.files)
        W.contents result) streams.old streams.new }
    ensures quiet { result ≡ Status.Done → call.entry.counts ≡ false
        → streams.new.faults ≡ streams.old.faults }
{
    let (graph, explain, counts) = (call.graph, call.explain, call.counts);
    look_by(alloc, &mut streams.files, call.beside, graph);
    match run(rt, alloc, call, &mut streams.output, &mut streams.files) {
        Ok(lines) => {
            tell_counts(counts, &lines, &mut streams.faults);
            Status::Done
        }
        Err(failure) => report(
            alloc,
            &failure,
            graph,
            explain,
            &mut streams.faults,
            &mut streams.files,
        ),
    }
}

/// Tells what each task did, where that is asked for.
fn tell_counts<E: Write>(is_asked: bool, lines: &[u8], faults: &mut Watched<E>)
    requires { AreFurtherLines lines.now }
    ensures told { TellsCounts is_asked
        (writer_state E.contents faults.old) (writer_state E.contents faults.new) }
    ensures quiet { is_asked ≡ false → faults.new ≡ faults.old }
{
    if is_asked {
        tell_bytes(lines, faults);
    }
}
