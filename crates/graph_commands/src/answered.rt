//! A check and an evaluation of a graph.
ghost use Rattle.std.specs.Prelude.{◌≡◌, ℕ, List, Option, Some, true, OnOk, OnErr, IfErr, option_map};
ghost use Rattle.std.specs.Io.KnownBytes.{Appends};
ghost use Rattle.graph_commands.specs.Ends.{AreNotes, CheckFails, Checks, ColumnsFail, EvalFails, WritesCheck, WritesCheckPrefix};
ghost use Rattle.graph_commands.specs.Failures.{IsUnanswered};
ghost use Rattle.graph_commands.specs.FileJobs.{IsJobOf, Known};
ghost use Rattle.graph_commands.specs.GraphRuns.{AsksSink, Evaluates, EvaluatesColumns, check_line};
ghost use Rattle.stream_lists.specs.Ranges.{first_too_big};
ghost use Rattle.graph_base.specs.declared.place.Place.{Place as PlaceValue};
ghost use Rattle.watched_io.specs.Prefix.{AppendsPrefix};
ghost use Rattle.watched_io.specs.States.{writer_state};
ghost use Rattle.watched_io.specs.Watched.{has_failed_of, inner_of};

use crate::asked::{AskedJob, read_asked, write_sinks};
use crate::columns::write_columns;
use crate::further::further_lines;
use crate::notes::job_notes;
use crate::{Failure, ValueTexts, read_job};
use graph_lang::{Graph, OneThread, SampleTexts};
use itoa::Buffer;
use std::alloc::Global;
use std::io::Write;
use stream_eval::{EvalFault, FilterLists, InTurn};
use stream_lists::Job;
use watched_io::{Explain, Files, IoFault, Watched, WriteFailed, write_parts};

/// Reads a graph and the samples of its sources, and writes how many phasers and tasks there are.
///
/// Where an explanation is asked for, lines for a person stand behind that: which phasers hang
/// loose, which sinks take no value, which tasks have inputs that end at different lengths, and at
/// which phasers no bound is enough. Where memory runs out over these lines, there are none.
pub fn check<'a, W: Write, F: Files>(
    alloc: Global,
    name: &str,
    explain: Explain,
    output: &mut Watched<W>,
    files: &mut F,
) -> Result<(), Failure<'a>>
    ensures done { OnOk result (Checks explain (F.file files.old) name.now
        (writer_state W.contents output.old) (writer_state W.contents output.new)) }
    ensures failed { IfErr result (λ found.
        CheckFails explain (F.file files.old) name.now W.contents output.old output.new found) }
    ensures same { (other : List ℕ) → F.file files.new other ≡ F.file files.old other }
{
    let job = match read_job(alloc, files, &OneThread, name) {
        Ok(job) => job,
        Err(failure) => return Err(failure),
    };
    match write_check(alloc, &job, explain, output) {
        Ok(()) => Ok(()),
        Err(_) => Err(Failure::Io(IoFault::WriteFault)),
    }
}

/// Lines for a person of a job that has no fault, where they are asked for.
fn notes(alloc: Global, job: &Job, explain: Explain) -> Vec<u8>
    ensures { AreNotes explain result.items }
{
    match explain {
        Explain::No => Vec::new(alloc),
        Explain::Yes => further_lines(alloc, job_notes(alloc, job)),
    }
}

/// Writes how many phasers and tasks there are.
fn write_counts<W: Write>(graph: &Graph, output: &mut Watched<W>) -> Result<(), WriteFailed>
    ensures ok { OnOk result (Appends (W.contents (inner_of output.old))
        (W.contents (inner_of output.new)) (check_line graph.now)) }
    ensures err { OnErr result (AppendsPrefix (W.contents (inner_of output.old))
        (W.contents (inner_of output.new)) (check_line graph.now)) }
    ensures failed { OnErr result (has_failed_of output.new ≡ true) }
{
    let mut phasers = Buffer::new();
    let mut tasks = Buffer::new();
    let phasers = phasers.format(graph.phasers());
    let tasks = tasks.format(graph.tasks());
    let parts = ["ok phasers ", phasers, " tasks ", tasks, "\n"];
    write_parts(parts.as_slice(), output)
}

/// Writes how many phasers and tasks there are, and then lines for a person, or none.
fn write_check<W: Write>(
    alloc: Global,
    job: &Job,
    explain: Explain,
    output: &mut Watched<W>,
) -> Result<(), WriteFailed>
    ensures ok { OnOk result (WritesCheck explain job.now.graph
        (W.contents (inner_of output.old)) (W.contents (inner_of output.new))) }
    ensures err { OnErr result (WritesCheckPrefix explain job.now.graph
        (W.contents (inner_of output.old)) (W.contents (inner_of output.new))) }
    ensures failed { OnErr result (has_failed_of output.new ≡ true) }
{
    let more = notes(alloc, job, explain);
    write_counts(job.graph(), output)?;
    output.send(&more)
}

/// Evaluates a graph on the samples of its sources, and writes the lists of its sinks, or the
/// values alone of the sink of the name that is asked for.
pub fn eval<'a, W: Write, F: Files>(
    alloc: Global,
    name: &str,
    sink: Option<&'a str>,
    output: &mut Watched<W>,
    files: &mut F,
) -> Result<(), Failure<'a>>
    ensures done { OnOk result (Evaluates (F.file files.old) name.now
        (option_map (λ s. s.now) sink.entry)
        (writer_state W.contents output.old) (writer_state W.contents output.new)) }
    ensures failed { IfErr result (λ found. EvalFails (F.file files.old) name.now
        (option_map (λ s. s.now) sink.entry) W.contents output.old output.new found) }
    ensures same { (other : List ℕ) → F.file files.new other ≡ F.file files.old other }
{
    eval_by(alloc, &OneThread, &InTurn, name, sink, output, files)
}

/// The same, where texts are read and made as `texts` does it, and the lists of filters as
/// `filters` does it: by several threads, say.
pub fn eval_by<'a, T: SampleTexts + ValueTexts, L: FilterLists, W: Write, F: Files>(
    alloc: Global,
    texts: &T,
    filters: &L,
    name: &str,
    sink: Option<&'a str>,
    output: &mut Watched<W>,
    files: &mut F,
) -> Result<(), Failure<'a>>
    requires read { T.may_read texts.now }
    requires write { T.may_write texts.now }
    requires filter { L.may_filter filters.now }
    ensures done { OnOk result (Evaluates (F.file files.old) name.now
        (option_map (λ s. s.now) sink.entry)
        (writer_state W.contents output.old) (writer_state W.contents output.new)) }
    ensures failed { IfErr result (λ found. EvalFails (F.file files.old) name.now
        (option_map (λ s. s.now) sink.entry) W.contents output.old output.new found) }
    ensures same { (other : List ℕ) → F.file files.new other ≡ F.file files.old other }
{
    match read_asked(alloc, files, texts, name, sink) {
        Ok(asked) => eval_asked(alloc, texts, filters, asked, output),
        Err(failure) => Err(failure),
    }
}

/// Why a job has no lists.
fn unanswered<'a>(job: Job, fault: EvalFault) -> Failure<'a>
    requires { (place : PlaceValue) (n : ℕ) → fault ≡ EvalFault.TooBig place n
        → first_too_big job ≡ Some (place, n) }
    ensures { (known : Known) (name : List ℕ) (asked : Option (List ℕ))
        → IsJobOf known name job → IsUnanswered ⊥ known name asked result }
{
    match fault {
        EvalFault::TooBig { place, phase } => Failure::TooBig { job, place, phase },
        EvalFault::OutOfMemory => Failure::Io(IoFault::OutOfMemory),
    }
}

/// Evaluates a job for all its sinks, or for the one that is asked for.
fn eval_asked<'a, T: ValueTexts, L: FilterLists, W: Write>(
    alloc: Global,
    texts: &T,
    filters: &L,
    asked: AskedJob,
    output: &mut Watched<W>,
) -> Result<(), Failure<'a>>
    requires write { T.may_write texts.now }
    requires filter { L.may_filter filters.now }
    ensures done { OnOk result ((known : Known) (name : List ℕ) (sink : Option (List ℕ))
        → IsJobOf known name asked.job → AsksSink asked.job sink asked.sink
        → Evaluates known name sink
        (writer_state W.contents output.old) (writer_state W.contents output.new)) }
    ensures failed { IfErr result (λ found. (known : Known) (name : List ℕ)
        (sink : Option (List ℕ))
        → IsJobOf known name asked.job → AsksSink asked.job sink asked.sink
        → EvalFails known name sink W.contents output.old output.new found) }
{
    let AskedJob { job, sink } = asked;
    match stream_eval::eval_by(alloc, filters, &job) {
        Ok(lines) => match write_sinks(output, texts, &job, &lines, sink) {
            Ok(()) => Ok(()),
            Err(_) => Err(Failure::Io(IoFault::WriteFault)),
        },
        Err(fault) => Err(unanswered(job, fault)),
    }
}

/// Evaluates a graph on the samples of its sources, and writes its sinks as the columns of a table,
/// a line a step.
pub fn eval_columns<'a, W: Write, F: Files>(
    alloc: Global,
    name: &str,
    output: &mut Watched<W>,
    files: &mut F,
) -> Result<(), Failure<'a>>
    ensures done { OnOk result (EvaluatesColumns (F.file files.old) name.now
        (writer_state W.contents output.old) (writer_state W.contents output.new)) }
    ensures failed { IfErr result (λ found. ColumnsFail (F.file files.old) name.now
        W.contents output.old output.new found) }
    ensures same { (other : List ℕ) → F.file files.new other ≡ F.file files.old other }
{
    match read_job(alloc, files, &OneThread, name) {
        Ok(job) => job_columns(alloc, job, output),
        Err(failure) => Err(failure),
    }
}

/// Evaluates a job, and writes its sinks as the columns of a table.
fn job_columns<'a, W: Write>(
    alloc: Global,
    job: Job,
    output: &mut Watched<W>,
) -> Result<(), Failure<'a>>
    ensures done { OnOk result ((known : Known) (name : List ℕ)
        → IsJobOf known name job → EvaluatesColumns known name
        (writer_state W.contents output.old) (writer_state W.contents output.new)) }
    ensures failed { IfErr result (λ found. (known : Known) (name : List ℕ)
        → IsJobOf known name job
        → ColumnsFail known name W.contents output.old output.new found) }
{
    match stream_eval::eval(alloc, &job) {
        Ok(lines) => match write_columns(output, &job, &lines) {
            Ok(()) => Ok(()),
            Err(_) => Err(Failure::Io(IoFault::WriteFault)),
        },
        Err(fault) => Err(unanswered(job, fault)),
    }
}
