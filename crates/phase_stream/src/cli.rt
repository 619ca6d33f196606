//! A run of the program over any outputs and files.
ghost use Rattle.std.specs.Prelude.{◌≡◌, ◌⊎◌, [], OnOk, IfErr};
ghost use Rattle.graph_commands.specs.Ends.{IsTold, SaysRefusal};
ghost use Rattle.graph_commands.specs.Failures.{HasPlace, failure_status};
ghost use Rattle.graph_commands.specs.Folders.{known_by};
ghost use Rattle.watched_io.specs.States.{WriterState, writer_state};
ghost use Rattle.phase_stream.specs.Ends.{EndsAsAsked, EndsAsStreamed, EndsAsTable, MayEndAsStream};
ghost use Rattle.phase_stream.specs.Outputs.{StreamEndsBy};
ghost use Rattle.phase_stream.specs.Streams.{IsStreamTold, explained};
ghost use Rattle.phase_stream.specs.Tables.{TableEnds};
ghost use Rattle.phase_words.specs.Answers.{AnswerEnds, MayEnd, Wrote, WroteIfBegun};
ghost use Rattle.phase_words.specs.CommandLine.{texts};
ghost use Rattle.phase_words.specs.StreamLine.{AreStreamTaken, AsksStream, Stream as AskedStream, stream_asked, stream_kinds_of};

use crate::opens::{OUTPUT, Opens};
use crate::streamed::stream;
use crate::streamed_table::stream_table;
use graph_commands::{Failure, JobFault, LooksBeside, Refuses, look_by, report, tell_refusal};
use graph_lang::{FaultKind, GraphFault};
use phase_words::{StreamCall, answer, read_stream_words};
use std::alloc::Global;
use std::io::Write;
use watched_io::{Explain, IoFault, Status, Streams, Watched};

/// Runs the program on its words, those behind `phase stream`, and answers its status: `Done` where
/// the run is over, or help or the version was shown, `GraphRefused` where the graph or a sample is
/// refused, or there is no such sink, `Refused` where the words are refused, `TooBig` where a value
/// of the graph is out of range, `Stalled` where every task that is left waits for another, and
/// `Failed` after a fault.
///
/// A refusal's text goes to the fault stream, and so does a fault's line. Where that stream fails
/// too, the status stands alone. It comes back where each call of its readers and writers does.
///
/// The writers of the files that are made for sinks are left in `made`, in the order of the words,
/// and what was there before is let go.
pub fn run_cli<W: Write, E: Write, F: Opens + Refuses + LooksBeside>(
    alloc: Global,
    words: &[String],
    streams: &mut Streams<W, E, F>,
    made: &mut Vec<Watched<F::Writer>>,
) -> Status
    // Which statuses may come, by what the words ask for.
    ensures status { MayEnd (stream_kinds_of (texts words.now)) MayEndAsStream result }

    // What a stream wrote, whole or as far as it came, to the output, to files too, or of the table
    // of all sinks, why there is no more, and what is said further where that is asked for.
    ensures asked { (what : AskedStream) → AsksStream (texts words.now) what
        → WroteIfBegun E.contents result (EndsAsStreamed what (F.file streams.old.files) F.knows
        W.contents F.Writer.contents result made.new.items) streams.old streams.new }

    // How other words are answered, and that they open no file and make none.
    ensures answered { (AreStreamTaken (texts words.now) → ⊥)
        → Wrote E.contents (AnswerEnds (stream_kinds_of (texts words.now)) result)
        streams.old streams.new }
    ensures unopened { (AreStreamTaken (texts words.now) → ⊥)
        → streams.new.files ≡ streams.old.files }
    ensures unmade { (AreStreamTaken (texts words.now) → ⊥) → made.new.items ≡ [] }
    ensures quiet { result ≡ Status.Done → streams.new.faults ≡ streams.old.faults }
{
    made.clear();
    match read_stream_words(alloc, words) {
        Ok(call) => run_call(alloc, &call, streams, made),
        Err(none) => answer(&none, &mut streams.output, &mut streams.faults),
    }
}

/// Streams a graph as a call asks for it, reports why it stopped, and answers the status.
fn run_call<W: Write, E: Write, F: Opens + Refuses + LooksBeside>(
    alloc: Global,
    call: &StreamCall<'_>,
    streams: &mut Streams<W, E, F>,
    made: &mut Vec<Watched<F::Writer>>,
) -> Status
    requires { made.old.items ≡ [] }
    ensures status { MayEndAsStream result }
    ensures ends { Wrote E.contents (EndsAsAsked (stream_asked call.now)
        (F.file streams.old.files) F.knows W.contents F.Writer.contents result made.new.items)
        streams.old streams.new }
    ensures table { Wrote E.contents (EndsAsTable (stream_asked call.now) (F.file streams.old.files)
        W.contents result) streams.old streams.new }
    ensures quiet { result ≡ Status.Done → streams.new.faults ≡ streams.old.faults }
{
    if call.columns {
        return run_table(alloc, call, streams);
    }
    run_sinks(alloc, call, streams, made)
}

/// Streams the sinks of a graph that a call names.
fn run_sinks<W: Write, E: Write, F: Opens + Refuses + LooksBeside>(
    alloc: Global,
    call: &StreamCall<'_>,
    streams: &mut Streams<W, E, F>,
    made: &mut Vec<Watched<F::Writer>>,
) -> Status
    requires { made.old.items ≡ [] }
    ensures status { MayEndAsStream result }
    ensures ends { Wrote E.contents (λ old new. StreamEndsBy
        (known_by call.now.beside call.now.graph.now (F.file streams.old.files))
        (stream_asked call.now) F.knows W.contents F.Writer.contents result old new made.new.items)
        streams.old streams.new }
    ensures quiet { result ≡ Status.Done → streams.new.faults ≡ streams.old.faults }
{
    look_by(alloc, &mut streams.files, call.beside, call.graph);
    let done = stream(alloc, call, &mut streams.output, made, &mut streams.files);
    let failed = failed_name(call, &streams.output, made);
    ask_why(alloc, failed, &mut streams.files);
    end(
        alloc,
        done,
        call.graph,
        call.explain,
        &mut streams.faults,
        &mut streams.files,
    )
}

/// The name of standard output, where a write to it failed.
fn failed_output<W>(output: &Watched<W>) -> Option<&'static str> {
    output.has_failed().then_some(OUTPUT)
}

/// Asks why a write failed to the file of this name, where one did.
fn ask_why<F: Opens>(alloc: Global, failed: Option<&str>, files: &mut F) {
    if let Some(name) = failed {
        files.ask_why(alloc, name);
    }
}

/// The name of the file that a write to failed, or of standard output.
fn failed_name<'a, W, V>(
    call: &StreamCall<'a>,
    output: &Watched<W>,
    made: &[Watched<V>],
) -> Option<&'a str> {
    if let Some(name) = failed_output(output) {
        return Some(name);
    }
    for (file, writer) in call.files.iter().zip(made) {
        if writer.has_failed() {
            return Some(file.file);
        }
    }
    None
}

/// Streams all sinks of a graph as the columns of a table.
fn run_table<W: Write, E: Write, F: Opens + Refuses + LooksBeside>(
    alloc: Global,
    call: &StreamCall<'_>,
    streams: &mut Streams<W, E, F>,
) -> Status
    ensures status { MayEndAsStream result }
    ensures ends { Wrote E.contents (TableEnds call.now.explain (known_by call.now.beside
        call.now.graph.now (F.file streams.old.files)) call.now.graph.now result W.contents)
        streams.old streams.new }
    ensures quiet { result ≡ Status.Done → streams.new.faults ≡ streams.old.faults }
{
    look_by(alloc, &mut streams.files, call.beside, call.graph);
    let done = stream_table(alloc, call, &mut streams.output, &mut streams.files);
    let failed = failed_output(&streams.output);
    ask_why(alloc, failed, &mut streams.files);
    end(
        alloc,
        done,
        call.graph,
        call.explain,
        &mut streams.faults,
        &mut streams.files,
    )
}

/// Ends the stream of the graph in the file of this name, and answers the status: `Done`, or where
/// it failed that of its failure, which is reported.
fn end<E: Write, F: Opens + Refuses>(
    alloc: Global,
    done: Result<(), Failure<'_>>,
    file: &str,
    explain: Explain,
    faults: &mut Watched<E>,
    files: &mut F,
) -> Status
    requires { IfErr done (λ found. HasPlace found) }
    ensures done { OnOk done.entry ((result ≡ Status.Done) × (faults.new ≡ faults.old)) }
    ensures status { IfErr done.entry (λ found. result ≡ failure_status found) }
    ensures quiet { result ≡ Status.Done → faults.new ≡ faults.old }
    ensures told { IfErr done.entry (λ found. IsStreamTold (explained found explain) found
        (writer_state E.contents faults.old) (writer_state E.contents faults.new)) }
{
    match done {
        Ok(()) => Status::Done,
        Err(failure) => {
            let explain = explained(&failure, explain);
            let status = report(alloc, &failure, file, explain, faults, files);
            tell_more(alloc, &failure, explain, faults, files);
            status
        }
    }
}

/// Tells which file was not written, and why, behind what was told of a failure, where that is
/// asked for.
fn tell_more<E: Write, F: Opens>(
    alloc: Global,
    failure: &Failure<'_>,
    explain: Explain,
    faults: &mut Watched<E>,
    files: &F,
)
    ensures { (before : WriterState)
        → IsTold explain failure.now before (writer_state E.contents faults.old)
        → IsStreamTold explain failure.now before (writer_state E.contents faults.new) }
{
    match (explain, failure) {
        (Explain::Yes, Failure::Io(IoFault::WriteFault)) => tell_unwritten(alloc, faults, files),
        _ => {}
    }
}

/// Tells which file was not written, and why, where that is known.
fn tell_unwritten<E: Write, F: Opens>(alloc: Global, faults: &mut Watched<E>, files: &F)
    ensures { (writer_state E.contents faults.new ≡ writer_state E.contents faults.old)
        ⊎ SaysRefusal (writer_state E.contents faults.old) (writer_state E.contents faults.new) }
{
    if let Some((name, why)) = files.unwritten() {
        tell_refusal(alloc, name, why, faults);
    }
}

/// Whether a failure is explained: not where that would read the files of sources again.
fn explained(failure: &Failure<'_>, explain: Explain) -> Explain
    ensures { result ≡ explained failure.now explain }
{
    match failure {
        Failure::Graph {
            fault: JobFault::Graph(found),
            ..
        } if found.kind == FaultKind::AnyMeets => Explain::No,
        _ => explain,
    }
}
