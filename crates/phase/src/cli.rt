//! A run of the program over any input, outputs and files.
ghost use Rattle.std.specs.Prelude.{◌≡◌, ◌≢◌, List};
ghost use Rattle.clap.specs.Words.{Text};
ghost use Rattle.phase.specs.Answers.{AsksNoCounts, EvalAnswers, OthersAnswer, RunAnswers, StreamAnswers};
ghost use Rattle.phase.specs.Standing.{own_texts};
ghost use Rattle.phase.specs.Ways.{by_workers, others, run, stream, way_of};
ghost use Rattle.phase.specs.Ends.{AskNoCounts};
ghost use Rattle.phase_words.specs.Answers.{IsAnswer, OfStreams, Wrote};
ghost use Rattle.phase_words.specs.CommandLine.{texts};

use crate::run::run_graph;
use crate::way::{Own, Way, help_word, way_of};
use graph_commands::{LooksBeside, Refuses};
use phase_replay::Watched;
use phase_stream::Opens;
use phase_words::{NoCall, answer};
use std::alloc::Global;
use std::io::{Read, Write};
use std::sync::Wait;
use std::thread::Threads;
use std::time::Clock;
use watched_io::{Status, Streams};

/// Runs the program on its words, without its own name, and answers its status: that of `run` or of
/// `stream` on the words behind its name, of `eval` by workers on those behind its name where one
/// of them is `--workers`, or that of the other commands on all the words. `help run` asks for what
/// `run --help` does, and `help stream` for what `stream --help` does.
///
/// A run waits, and it is not promised that it comes back. A stream comes back where each call of
/// its readers and writers does. The writers of the files that it makes for sinks are left in
/// `made`.
pub fn run_cli<
    H: Threads + Wait + Clock + Sync,
    R: Read,
    W: Write,
    E: Write,
    F: Opens + Refuses + LooksBeside,
>(
    rt: &H,
    alloc: Global,
    words: &[String],
    input: &mut Watched<R>,
    streams: &mut Streams<W, E, F>,
    made: &mut Vec<Watched<F::Writer>>,
) -> Status
    // How each command answers, by the words.
    ensures run { (own : List Text) → way_of (texts words.now) ≡ run own
        → OfStreams E.contents (RunAnswers own (F.file streams.old.files) W.contents result)
        streams.old streams.new }
    ensures stream { (own : List Text) → way_of (texts words.now) ≡ stream own
        → OfStreams E.contents (StreamAnswers own (F.file streams.old.files) F.knows W.contents
        F.Writer.contents result made.new.items) streams.old streams.new }
    ensures eval { (own : List Text) → way_of (texts words.now) ≡ by_workers own
        → OfStreams E.contents (EvalAnswers own (F.file streams.old.files) W.contents result)
        streams.old streams.new }
    ensures others { way_of (texts words.now) ≡ others
        → OfStreams E.contents (OthersAnswer (texts words.now) (F.file streams.old.files)
        R.remaining W.contents result input.old input.new) streams.old streams.new }

    // That the input is left to the files by a run and by a stream.
    ensures unread { way_of (texts words.now) ≢ others → input.new ≡ input.old }
    ensures quiet { result ≡ Status.Done → AsksNoCounts (texts words.now)
        → streams.new.faults ≡ streams.old.faults }
{
    match way_of(words) {
        Way::Run(own) => run_own(rt, alloc, own, streams),
        Way::Stream(own) => stream_own(alloc, own, streams, made),
        Way::Eval(words) => eval_own(rt, alloc, words, streams),
        Way::Others => phase_commands::run_cli(alloc, words, input, streams),
    }
}

/// Runs a graph by the words of `run`.
fn run_own<H: Threads + Wait + Clock + Sync, W: Write, E: Write, F: Opens + Refuses + LooksBeside>(
    rt: &H,
    alloc: Global,
    own: Own<'_>,
    streams: &mut Streams<W, E, F>,
) -> Status
    ensures answers { OfStreams E.contents (RunAnswers (own_texts own.entry)
        (F.file streams.old.files) W.contents result) streams.old streams.new }
    ensures quiet { result ≡ Status.Done → AskNoCounts (own_texts own.entry)
        → streams.new.faults ≡ streams.old.faults }
{
    match own {
        Own::Behind(words) => run_graph(rt, alloc, words, streams),
        Own::Help => match help_word(alloc) {
            Ok(words) => run_graph(rt, alloc, words.as_slice(), streams),
            Err(_) => out_of_memory(streams),
        },
    }
}

/// Evaluates a graph by the words behind `eval`.
fn eval_own<H: Threads + Sync, W: Write, E: Write, F: Opens + Refuses + LooksBeside>(
    rt: &H,
    alloc: Global,
    words: &[String],
    streams: &mut Streams<W, E, F>,
) -> Status
    ensures answers { OfStreams E.contents (EvalAnswers (texts words.now) (F.file streams.old.files)
        W.contents result) streams.old streams.new }
    ensures quiet { result ≡ Status.Done → streams.new.faults ≡ streams.old.faults }
{
    phase_eval::run_cli(rt, alloc, words, streams)
}

/// Streams a graph by the words of `stream`.
fn stream_own<W: Write, E: Write, F: Opens + Refuses + LooksBeside>(
    alloc: Global,
    own: Own<'_>,
    streams: &mut Streams<W, E, F>,
    made: &mut Vec<Watched<F::Writer>>,
) -> Status
    ensures answers { OfStreams E.contents (StreamAnswers (own_texts own.entry)
        (F.file streams.old.files) F.knows W.contents F.Writer.contents result made.new.items)
        streams.old streams.new }
    ensures quiet { result ≡ Status.Done → streams.new.faults ≡ streams.old.faults }
{
    match own {
        Own::Behind(words) => phase_stream::run_cli(alloc, words, streams, made),
        Own::Help => match help_word(alloc) {
            Ok(words) => phase_stream::run_cli(alloc, words.as_slice(), streams, made),
            Err(_) => out_of_memory(streams),
        },
    }
}

/// Tells that memory ran out over the words.
fn out_of_memory<W: Write, E: Write, F>(streams: &mut Streams<W, E, F>) -> Status
    ensures told { Wrote E.contents (IsAnswer NoCall.OutOfMemory result) streams.old streams.new }
    ensures unopened { streams.new.files ≡ streams.old.files }
{
    answer(
        &NoCall::OutOfMemory,
        &mut streams.output,
        &mut streams.faults,
    )
}
