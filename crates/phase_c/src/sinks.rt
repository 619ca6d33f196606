//! The sinks of a graph, and what is told of them.
ghost use Rattle.std.specs.Prelude.{◌≡◌, ◌<◌, [], length, map, true, IfOk, IfSome};
ghost use Rattle.std.specs.List.{All};
ghost use Rattle.graph_base.specs.TaskLines.{IsGraph};
ghost use Rattle.stream_lists.specs.Spans.{span_in};
ghost use Rattle.stream_lists.specs.Lists.{sinks_of, start_in};
ghost use Rattle.phase_c.specs.Lent.{sinks_in};
ghost use Rattle.phase_c.specs.Evaluations.{TellsSinks, start_number};

use graph_lang::Graph;
use std::alloc::{AllocError, Global};
use stream_lists::Job;

/// The numbers of the sinks among the tasks, in the order of the lines.
pub(crate) fn sinks_of(alloc: Global, graph: &Graph) -> Result<Vec<usize>, AllocError>
    ensures sinks { IfOk result (λ sinks. sinks.items ≡ sinks_in graph.now) }
    ensures tasks { IfOk result (λ sinks. All (λ t. t < length graph.now.tasks) sinks.items) }
    ensures graph { IsGraph graph.now }
{
    let mut sinks = Vec::new(alloc);
    for t in 0..graph.tasks() {
        if graph.is_sink(t) {
            sinks.push(t)?;
        }
    }
    Ok(sinks)
}

/// Writes how many values each of these sinks has, by the steps that it makes. No list is composed.
/// It is false where a number does not fit, of a list that no memory holds.
fn write_counts(job: &Job, sinks: &[usize], counts: &mut [usize]) -> bool
    requires tasks { All (λ t. t < length job.now.graph.tasks) sinks.now }
    requires each { length counts.old ≡ length sinks.now }
    ensures { result ≡ true → counts.new ≡ map (λ t. (span_in job.now t).steps) sinks.now }
{
    for k in 0..sinks.len() {
        let steps = job.span(sinks[k]).steps;
        if steps > usize::MAX as u128 {
            return false;
        }
        counts[k] = steps as usize;
    }
    true
}

/// The number that tells where a sink begins, where it fits.
fn number_of_start(start: Option<u64>) -> Option<i64>
    ensures { IfSome result (λ number. number ≡ start_number start) }
{
    match start {
        None => Some(-1),
        Some(phase) if phase <= i64::MAX as u64 => Some(phase as i64),
        Some(_) => None,
    }
}

/// Writes where each of these sinks begins, of those that join now and are live. It is false where
/// a number does not fit, of a list that no memory holds.
fn write_starts(job: &Job, sinks: &[usize], starts: &mut [i64]) -> bool
    requires tasks { All (λ t. t < length job.now.graph.tasks) sinks.now }
    requires each { length starts.old ≡ length sinks.now }
    ensures { result ≡ true → starts.new ≡ map (λ t. start_number (start_in job.now t)) sinks.now }
{
    for k in 0..sinks.len() {
        let Some(number) = number_of_start(job.start(sinks[k])) else {
            return false;
        };
        starts[k] = number;
    }
    true
}

/// Writes how many values each sink of a job has, and where each begins, of those that join now and
/// are live. It is false where memory ran out, or a number does not fit.
pub(crate) fn tell_sinks(alloc: Global, job: &Job, counts: &mut [usize], starts: &mut [i64]) -> bool
    requires counts { length counts.old ≡ length (sinks_of job.now) }
    requires starts { length starts.old ≡ length (sinks_of job.now) }
    ensures told { result ≡ true → TellsSinks job.now counts.new starts.new }
    ensures least { job.now.starts ≡ [] }
{
    let Ok(sinks) = sinks_of(alloc, job.graph()) else {
        return false;
    };
    if !write_counts(job, &sinks, counts) {
        return false;
    }
    write_starts(job, &sinks, starts)
}
