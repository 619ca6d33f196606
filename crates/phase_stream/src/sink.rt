//! The sinks that are asked for.
ghost use Rattle.std.specs.Prelude.{◌≡◌, ◌<◌, ◌∷◌, [], ℕ, None, IfOk, IfErr, IfSome, length, true, option_map};
ghost use Rattle.stream_lists.specs.Lists.{is_sink_at, sinks_of};
ghost use Rattle.phase_words.specs.StreamLine.{stream_asked};
ghost use Rattle.phase_stream.specs.Outputs.{AreTargetsOf, IsOutputTarget, IsUntargeted, LacksSink};
ghost use Rattle.phase_stream.specs.Sessions.{IsSinkNumber};
ghost use Rattle.phase_stream.specs.Streams.{AsksNone, AsksOne};

use graph_commands::find_sink;
use phase_words::StreamCall;
use std::alloc::Global;
use stream_job::Job;

/// A sink: its task, and its number among the sinks.
#[derive(Clone, Copy, Debug, PartialEq, Eq)]
pub struct Sink {
    pub task: usize,
    pub number: usize,
}

/// What stands in place of a name where there are several sinks, or none, and none is named.
const UNNAMED: &str = "is named";

/// Why there is nothing to write for some writer.
#[derive(Clone, Copy, Debug, PartialEq, Eq)]
pub enum Untargeted<'a> {
    /// There is no sink of this name.
    NoSink(&'a str),
    /// Memory ran out.
    OutOfMemory,
}

/// The sinks that are asked for, by the numbers of their writers.
pub fn targets<'a>(
    alloc: Global,
    job: &Job,
    call: &StreamCall<'a>,
) -> Result<Vec<Option<Sink>>, Untargeted<'a>>
    ensures targets { IfOk result (λ targets.
        AreTargetsOf job.now (stream_asked call.now) targets.items) }
    ensures none { IfErr result (λ none. IsUntargeted job.now (stream_asked call.now) none) }
{
    let Some(output) = output_target(job, call) else {
        return Err(Untargeted::NoSink(call.sink.unwrap_or(UNNAMED)));
    };
    let mut targets = Vec::new(alloc);
    let Ok(()) = targets.push(output) else {
        return Err(Untargeted::OutOfMemory);
    };
    for file in &call.files {
        let Some(sink) = asked_sink(job, Some(file.sink)) else {
            return Err(Untargeted::NoSink(file.sink));
        };
        let Ok(()) = targets.push(Some(sink)) else {
            return Err(Untargeted::OutOfMemory);
        };
    }
    Ok(targets)
}

/// What goes to the output: a sink, or none where others alone are named; nothing where the sink is
/// not there.
fn output_target(job: &Job, call: &StreamCall<'_>) -> Option<Option<Sink>>
    ensures some { IfSome result (λ target.
        IsOutputTarget job.now (stream_asked call.now) target) }
    ensures none { result ≡ None
        → LacksSink job.now (stream_asked call.now).sink (stream_asked call.now).files }
{
    if call.sink.is_none() && !call.files.is_empty() {
        return Some(None);
    }
    match asked_sink(job, call.sink) {
        Some(sink) => Some(Some(sink)),
        None => None,
    }
}

/// The sink that is asked for: the one of a name, or the only one.
pub fn asked_sink(job: &Job, name: Option<&str>) -> Option<Sink>
    ensures some { IfSome result (λ sink. AsksOne job.now (option_map (λ s. s.now) name.entry)
        sink.task × IsSinkNumber job.now sink.task sink.number) }
    ensures none { result ≡ None → AsksNone job.now (option_map (λ s. s.now) name.entry) }
{
    match name {
        Some(name) => {
            let task = find_sink(job, name)?;
            Some(Sink {
                task,
                number: sink_number(job, task),
            })
        }
        None => only_sink(job),
    }
}

/// The number of a sink among the sinks.
fn sink_number(job: &Job, task: usize) -> usize
    requires there { task < length job.now.graph.tasks }
    requires sink { is_sink_at job.now task ≡ true }
    ensures { IsSinkNumber job.now task result }
{
    let mut number = 0;
    for t in 0..task {
        if job.graph().is_sink(t) {
            number += 1;
        }
    }
    number
}

/// The only sink, where there is one and no other.
fn only_sink(job: &Job) -> Option<Sink>
    ensures some { IfSome result (λ sink. (sinks_of job.now ≡ sink.task ∷ [])
        × IsSinkNumber job.now sink.task sink.number) }
    ensures none { result ≡ None → (t : ℕ) → sinks_of job.now ≡ t ∷ [] → ⊥ }
{
    let mut only = None;
    for task in 0..job.graph().tasks() {
        if job.graph().is_sink(task) {
            if only.is_some() {
                return None;
            }
            only = Some(Sink { task, number: 0 });
        }
    }
    only
}
