//! A graph's text and the samples of its sources, evaluated.
ghost use Rattle.std.specs.Prelude.{◌≡◌, ◌↔◌, [], length, IsTrue, IfOk, IfErr, OnOk, OnErr, None};
ghost use Rattle.stream_lists.specs.Lists.{sinks_of};
ghost use Rattle.stream_lists.specs.Meetings.{meeting_line};
ghost use Rattle.phase_c.specs.Evaluations.{WritesValues};
ghost use Rattle.phase_c.specs.Lent.{HasLengths, IsGraphLent, IsJobLent, sinks_in};
ghost use Rattle.phase_c.specs.Refusals.{IsDone, RefusesEval, RefusesJob, RefusesLent};

use crate::counts::{are_counts, has_room};
use crate::refusal::Refusal;
use crate::samples::{first_no_sample, lists_of};
use crate::sinks::{sinks_of, tell_sinks};
use crate::written::write_values;
use graph_lang::{FaultKind, Graph, GraphFault, read_graph};
use std::alloc::Global;
use stream_eval::{EvalFault, eval};
use stream_lists::{Job, JobRefusal};

/// Whether what is lent has the lengths that a graph with so many sinks asks for.
fn have_lengths(
    graph: &Graph,
    samples: &[i64],
    counts: &[usize],
    found: usize,
    sinks: usize,
    starts: usize,
) -> bool
    requires { found ≡ length (sinks_in graph.now) }
    ensures { IsTrue result ↔ HasLengths samples.now counts.now sinks starts graph.now }
{
    sinks == found && starts == found && are_counts(graph, samples.len(), counts)
}

/// The graph of a text, where what is lent is what it asks for: so many places for a count and for
/// a start of each sink too.
fn graph_lent(
    alloc: Global,
    text: &[u8],
    samples: &[i64],
    counts: &[usize],
    sinks: usize,
    starts: usize,
) -> Result<Graph, Refusal>
    ensures lent { IfOk result (λ graph.
        IsGraphLent text.now samples.now counts.now sinks starts graph) }
    ensures refused { IfErr result (λ why.
        RefusesLent text.now samples.now counts.now sinks starts why) }
{
    let graph = read_graph(alloc, text)?;
    let found = sinks_of(alloc, &graph)?.len();
    if !have_lengths(&graph, samples, counts, found, sinks, starts) {
        return Err(Refusal::Counts);
    }
    if let Some(at) = first_no_sample(samples) {
        return Err(Refusal::Sample { at });
    }
    Ok(graph)
}

/// The job of a text and of samples, where what is lent is what the graph asks for.
fn job_lent(
    alloc: Global,
    text: &[u8],
    samples: &[i64],
    counts: &[usize],
    sinks: usize,
    starts: usize,
) -> Result<Job, Refusal>
    ensures lent { IfOk result (λ job.
        IsJobLent text.now samples.now counts.now sinks starts job) }
    ensures apart { IfOk result (λ job. meeting_line job ≡ None) }
    ensures refused { IfErr result (λ why.
        RefusesLent text.now samples.now counts.now sinks starts why) }
{
    let graph = match graph_lent(alloc, text, samples, counts, sinks, starts) {
        Ok(graph) => graph,
        Err(why) => return Err(why),
    };
    let Ok(lists) = lists_of(alloc, samples, counts) else {
        return Err(Refusal::OutOfMemory);
    };
    match Job::new(alloc, graph, lists) {
        Ok(job) => Ok(job),
        Err(JobRefusal::AnyMeets { line }) => Err(Refusal::Graph(GraphFault {
            line,
            kind: FaultKind::AnyMeets,
        })),
        Err(JobRefusal::OutOfMemory) => Err(Refusal::OutOfMemory),
    }
}

/// Writes the values of each sink of a job, one sink behind the other, how many each has, and where
/// each begins.
fn evaluate_job(
    alloc: Global,
    job: &Job,
    out: &mut [i64],
    sinks: &mut [usize],
    starts: &mut [i64],
) -> Result<(), Refusal>
    requires sinks { length sinks.old ≡ length (sinks_of job.now) }
    requires starts { length starts.old ≡ length (sinks_of job.now) }
    ensures done { OnOk result (WritesValues job.now out.old out.new sinks.new starts.new) }
    ensures refused { IfErr result (λ why.
        RefusesJob job.now (length out.old) sinks.new starts.new why) }
    ensures same { OnErr result (out.new ≡ out.old) }
    ensures least { job.now.starts ≡ [] }
{
    if !tell_sinks(alloc, job, sinks, starts) {
        return Err(Refusal::OutOfMemory);
    }
    if !has_room(sinks, out.len()) {
        return Err(Refusal::Room);
    }
    let lines = match eval(alloc, job) {
        Ok(lines) => lines,
        Err(EvalFault::TooBig { place, phase }) => return Err(Refusal::TooBig { place, phase }),
        Err(EvalFault::OutOfMemory) => return Err(Refusal::OutOfMemory),
    };
    write_values(&lines, out);
    Ok(())
}

/// Writes the values of each sink of a graph's text over these samples, one sink behind the other,
/// how many each has, and where each begins.
pub(crate) fn evaluate(
    alloc: Global,
    text: &[u8],
    samples: &[i64],
    counts: &[usize],
    out: &mut [i64],
    sinks: &mut [usize],
    starts: &mut [i64],
) -> Result<(), Refusal>
    ensures done { OnOk result (IsDone text.now samples.now counts.now out.old out.new
        sinks.new starts.new) }
    ensures refused { IfErr result (λ why. RefusesEval text.now samples.now counts.now
        (length out.old) sinks.old sinks.new starts.old starts.new why) }
    ensures same { OnErr result (out.new ≡ out.old) }
{
    match job_lent(alloc, text, samples, counts, sinks.len(), starts.len()) {
        Ok(job) => evaluate_job(alloc, &job, out, sinks, starts),
        Err(why) => Err(why),
    }
}
