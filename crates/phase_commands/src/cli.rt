//! A run of the program over any input, outputs and files.
ghost use Rattle.std.specs.Prelude.{◌≡◌, option_map};
ghost use Rattle.graph_commands.specs.Ends.{CheckEnds, ColumnsEnd, DrawEnds, EvalEnds};
ghost use Rattle.graph_commands.specs.Folders.{known_by};
ghost use Rattle.phase_commands.specs.Ends.{EndsAs, LeavesAlone, MayEndAs, MayEndAsked};
ghost use Rattle.phase_commands.specs.Leaving.{LeavesBy};
ghost use Rattle.phase_words.specs.Answers.{AnswerEnds, MayEnd, Wrote, WroteIfBegun};
ghost use Rattle.phase_words.specs.CommandLine.{AreTaken, AskReplay, Asked, Asks, asked_of, kinds_of, check, columns, draw, eval, replay, replay_file, texts};
ghost use Rattle.watched_io.specs.States.{ReaderState, reader_state};

use graph_commands::{LooksBeside, Refuses, check, draw, end, eval, eval_columns, look_by};
use phase_replay::{Watched, replay_and_report, replay_file_and_report, replay_file_strictly};
use phase_words::{Call, Strict, answer, read_words};
use std::alloc::Global;
use std::io::{Read, Write};
use watched_io::{Explain, Files, Status, Streams};

/// Runs the program on its words, without its own name, and answers its status: `Done` where what
/// was asked for is done, or help or the version was shown, `GraphRefused` where a graph or its
/// samples are refused, or no sink has the name that is asked for, or a line of a strict replay is
/// refused, `Refused` where the words are refused, `TooBig` where a value of a graph is out of
/// range, and `Failed` after a fault.
///
/// A refusal's text goes to the fault stream, and so does a fault's line. Where that stream fails
/// too, the status stands alone.
pub fn run_cli<R: Read, W: Write, E: Write, F: Files + Refuses + LooksBeside>(
    alloc: Global,
    words: &[String],
    input: &mut Watched<R>,
    streams: &mut Streams<W, E, F>,
) -> Status
    // Which statuses may come, by what the words ask for.
    ensures status { MayEnd (kinds_of (texts words.now)) (MayEndAsked (texts words.now)) result }

    // What a replay wrote, whole or up to a fault, which has its cause and was told.
    ensures replay { AskReplay (texts words.now)
        → Wrote E.contents (EndsAs replay (F.file streams.old.files) W.contents result
        (reader_state R.remaining input.old) (reader_state R.remaining input.new))
        streams.old streams.new }

    // What a replay of a file, and a check, an evaluation and a drawing of a graph wrote, whole or
    // up to a fault, why there is no other answer, and what is said further where that is asked
    // for.
    ensures asked { (what : Asked) → Asks (texts words.now) what
        → WroteIfBegun E.contents result (EndsAs what (F.file streams.old.files) W.contents result
        (reader_state R.remaining input.old) (reader_state R.remaining input.new))
        streams.old streams.new }

    // How other words are answered.
    ensures answered { (AreTaken (texts words.now) → ⊥)
        → Wrote E.contents (AnswerEnds (kinds_of (texts words.now)) result)
        streams.old streams.new }

    // What is left alone: a replay with no file alone reads the input, and what goes by a file
    // alone opens files.
    ensures left { LeavesAlone (texts words.now) input.old input.new
        streams.old.files streams.new.files }
    ensures quiet { result ≡ Status.Done → streams.new.faults ≡ streams.old.faults }
{
    match read_words(alloc, words) {
        Ok(call) => run_call(alloc, call, input, streams),
        Err(none) => answer(&none, &mut streams.output, &mut streams.faults),
    }
}

/// Does what a call asks for, and answers the status.
fn run_call<R: Read, W: Write, E: Write, F: Files + Refuses + LooksBeside>(
    alloc: Global,
    call: Call<'_>,
    input: &mut Watched<R>,
    streams: &mut Streams<W, E, F>,
) -> Status
    ensures status { MayEndAs (asked_of call.entry) result }
    ensures ends { Wrote E.contents (EndsAs (asked_of call.entry) (F.file streams.old.files)
        W.contents result (reader_state R.remaining input.old) (reader_state R.remaining input.new))
        streams.old streams.new }
    ensures left { LeavesBy call.entry input.old input.new streams.old.files streams.new.files }
    ensures quiet { result ≡ Status.Done → streams.new.faults ≡ streams.old.faults }
{
    match call {
        Call::Replay => {
            replay_and_report(alloc, input, &mut streams.output, &mut streams.faults)
        }
        Call::ReplayFile { script, strict } => run_replay(alloc, script, strict, streams),
        Call::Check {
            graph,
            explain,
            beside,
        } => run_check(alloc, graph, explain, beside, streams),
        Call::Eval {
            graph,
            sink,
            explain,
            beside,
        } => run_eval(alloc, graph, sink, explain, beside, streams),
        Call::Columns {
            graph,
            explain,
            beside,
        } => run_columns(alloc, graph, explain, beside, streams),
        Call::Draw { graph, explain } => run_draw(alloc, graph, explain, streams),
    }
}

/// Replays the script in a file, to its end, or strictly.
fn run_replay<W: Write, E: Write, F: Files + Refuses>(
    alloc: Global,
    script: &str,
    strict: Strict,
    streams: &mut Streams<W, E, F>,
) -> Status
    ensures status { MayEndAs (replay_file strict script.now) result }
    ensures ends { (input rest : ReaderState)
        → Wrote E.contents (EndsAs (replay_file strict script.now) (F.file streams.old.files)
        W.contents result input rest) streams.old streams.new }
    ensures quiet { result ≡ Status.Done → streams.new.faults ≡ streams.old.faults }
{
    let Streams {
        output,
        faults,
        files,
    } = streams;
    match strict {
        Strict::No => replay_file_and_report(alloc, script, output, faults, files),
        Strict::Yes => replay_file_strictly(alloc, script, output, faults, files),
    }
}

/// Checks a graph, and reports why it could not be checked.
fn run_check<W: Write, E: Write, F: Files + Refuses + LooksBeside>(
    alloc: Global,
    graph: &str,
    explain: Explain,
    beside: bool,
    streams: &mut Streams<W, E, F>,
) -> Status
    ensures status { MayEndAs (check beside explain graph.now) result }
    ensures ends { Wrote E.contents (CheckEnds explain (known_by beside graph.now
        (F.file streams.old.files)) graph.now result W.contents) streams.old streams.new }
    ensures quiet { result ≡ Status.Done → streams.new.faults ≡ streams.old.faults }
{
    look_by(alloc, &mut streams.files, beside, graph);
    let done = check(
        alloc,
        graph,
        explain,
        &mut streams.output,
        &mut streams.files,
    );
    end(
        alloc,
        done,
        graph,
        explain,
        &mut streams.faults,
        &mut streams.files,
    )
}

/// Draws a graph, and reports why it could not be drawn.
fn run_draw<W: Write, E: Write, F: Files + Refuses>(
    alloc: Global,
    graph: &str,
    explain: Explain,
    streams: &mut Streams<W, E, F>,
) -> Status
    ensures status { MayEndAs (draw explain graph.now) result }
    ensures ends { Wrote E.contents (DrawEnds explain (F.file streams.old.files) graph.now result
        W.contents) streams.old streams.new }
    ensures quiet { result ≡ Status.Done → streams.new.faults ≡ streams.old.faults }
{
    let done = draw(alloc, graph, &mut streams.output, &mut streams.files);
    end(
        alloc,
        done,
        graph,
        explain,
        &mut streams.faults,
        &mut streams.files,
    )
}

/// Evaluates a graph, and reports why it could not be evaluated.
fn run_eval<W: Write, E: Write, F: Files + Refuses + LooksBeside>(
    alloc: Global,
    graph: &str,
    sink: Option<&str>,
    explain: Explain,
    beside: bool,
    streams: &mut Streams<W, E, F>,
) -> Status
    ensures status { MayEndAs
        (eval beside explain graph.now (option_map (λ s. s.now) sink.entry)) result }
    ensures ends { Wrote E.contents (EvalEnds explain (known_by beside graph.now
        (F.file streams.old.files)) graph.now (option_map (λ s. s.now) sink.entry) result
        W.contents) streams.old streams.new }
    ensures quiet { result ≡ Status.Done → streams.new.faults ≡ streams.old.faults }
{
    look_by(alloc, &mut streams.files, beside, graph);
    let done = eval(alloc, graph, sink, &mut streams.output, &mut streams.files);
    end(
        alloc,
        done,
        graph,
        explain,
        &mut streams.faults,
        &mut streams.files,
    )
}

/// Evaluates a graph as columns, and reports why it could not be evaluated.
fn run_columns<W: Write, E: Write, F: Files + Refuses + LooksBeside>(
    alloc: Global,
    graph: &str,
    explain: Explain,
    beside: bool,
    streams: &mut Streams<W, E, F>,
) -> Status
    ensures status { MayEndAs (columns beside explain graph.now) result }
    ensures ends { Wrote E.contents (ColumnsEnd explain (known_by beside graph.now
        (F.file streams.old.files)) graph.now result W.contents) streams.old streams.new }
    ensures quiet { result ≡ Status.Done → streams.new.faults ≡ streams.old.faults }
{
    look_by(alloc, &mut streams.files, beside, graph);
    let done = eval_columns(alloc, graph, &mut streams.output, &mut streams.files);
    end(
        alloc,
        done,
        graph,
        explain,
        &mut streams.faults,
        &mut streams.files,
    )
}
