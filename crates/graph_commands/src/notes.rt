//! What a person may want to know of a graph that has no fault.

use crate::members::{is_signalled, is_taken, signals};
use crate::rates::put_rates;
use graph_base::{Graph, Place, TaskLine};
use itoa::Buffer;
use std::alloc::{AllocError, Global};
use stream_lists::Job;

/// A phaser, and how many phases its list has; or a source, and the phase at which it ends.
#[derive(Clone, Copy)]
struct End<'a> {
    name: &'a str,
    length: u128,
}

/// Puts a name and what is said of it behind other texts.
fn put_note(
    alloc: Global,
    texts: &mut Vec<Vec<u8>>,
    name: &str,
    note: &str,
) -> Result<(), AllocError> {
    let mut text = Vec::from_slice(alloc, name.as_bytes())?;
    text.extend_from_slice(note.as_bytes())?;
    texts.push(text)?;
    Ok(())
}

/// Puts which phasers no task signals, and which no task takes from.
fn put_loose(alloc: Global, graph: &Graph, texts: &mut Vec<Vec<u8>>) -> Result<(), AllocError> {
    for p in 0..graph.phasers() {
        let name = graph.name(Place::Phaser(p));
        if !is_signalled(graph, p) {
            put_note(alloc, texts, name, ": no task signals it")?;
        }
        if !is_taken(graph, p) {
            put_note(alloc, texts, name, ": no task takes from it")?;
        }
    }
    Ok(())
}

/// Puts which sinks take no value.
fn put_idle(alloc: Global, job: &Job, texts: &mut Vec<Vec<u8>>) -> Result<(), AllocError> {
    let graph = job.graph();
    for t in 0..graph.tasks() {
        if graph.is_sink(t) && job.span(t).steps == 0 {
            let name = graph.name(Place::Task(t));
            put_note(alloc, texts, name, ": it takes no value")?;
        }
    }
    Ok(())
}

/// Where the list of each phaser ends.
fn ends_of<'a>(alloc: Global, job: &'a Job) -> Result<Vec<End<'a>>, AllocError> {
    let graph = job.graph();
    let mut ends = Vec::with_capacity(alloc, graph.phasers())?;
    for p in 0..graph.phasers() {
        ends.push(End {
            name: graph.name(Place::Phaser(p)),
            length: job.length(p),
        })?;
    }
    Ok(ends)
}

/// The ends of the inputs of a task, among those of all phasers.
fn input_ends<'a>(
    alloc: Global,
    task: &TaskLine,
    all: &[End<'a>],
) -> Result<Vec<End<'a>>, AllocError> {
    let mut ends = Vec::new(alloc);
    for p in task.inputs.as_slice() {
        if let Some(end) = all.get(*p) {
            ends.push(*end)?;
        }
    }
    Ok(ends)
}

/// Where the sources that signal phaser number `p` end, but for those that never begin.
fn source_ends<'a>(alloc: Global, job: &'a Job, p: usize) -> Result<Vec<End<'a>>, AllocError> {
    let graph = job.graph();
    let mut ends = Vec::new(alloc);
    for t in 0..graph.tasks() {
        let span = job.span(t);
        if span.live && graph.is_source(t) && signals(graph.task(t), p) {
            ends.push(End {
                name: graph.name(Place::Task(t)),
                length: span.offset.saturating_add(span.steps),
            })?;
        }
    }
    Ok(ends)
}

/// Whether two of these ends differ.
fn differ(ends: &[End<'_>]) -> bool {
    let Some(first) = ends.first() else {
        return false;
    };
    ends.iter().any(|end| end.length != first.length)
}

/// Puts where something ends, where these ends differ.
fn put_if_different(
    alloc: Global,
    texts: &mut Vec<Vec<u8>>,
    name: &str,
    what: &str,
    ends: &[End<'_>],
) -> Result<(), AllocError> {
    if !differ(ends) {
        return Ok(());
    }
    let mut text = Vec::from_slice(alloc, name.as_bytes())?;
    let mut between = what;
    for end in ends {
        let mut buffer = Buffer::new();
        text.extend_from_slice(between.as_bytes())?;
        text.extend_from_slice(end.name.as_bytes())?;
        text.extend_from_slice(b" ")?;
        text.extend_from_slice(buffer.format(end.length).as_bytes())?;
        between = ", ";
    }
    texts.push(text)?;
    Ok(())
}

/// Puts which tasks have inputs that end at different lengths.
fn put_ends(alloc: Global, job: &Job, texts: &mut Vec<Vec<u8>>) -> Result<(), AllocError> {
    let graph = job.graph();
    let all = ends_of(alloc, job)?;
    for t in 0..graph.tasks() {
        let ends = input_ends(alloc, graph.task(t), &all)?;
        let name = graph.name(Place::Task(t));
        put_if_different(alloc, texts, name, ": its inputs end at ", &ends)?;
    }
    Ok(())
}

/// Puts which phasers have sources that end at different phases.
fn put_sources(alloc: Global, job: &Job, texts: &mut Vec<Vec<u8>>) -> Result<(), AllocError> {
    let graph = job.graph();
    for p in 0..graph.phasers() {
        let ends = source_ends(alloc, job, p)?;
        let name = graph.name(Place::Phaser(p));
        put_if_different(alloc, texts, name, ": its sources end at ", &ends)?;
    }
    Ok(())
}

/// What a person may want to know of a job that has no fault, as texts: phasers that hang loose,
/// sinks without values, sources of a phaser or inputs of a task that end at different lengths,
/// and rates that no bound is enough for.
pub(crate) fn job_notes(alloc: Global, job: &Job) -> Result<Vec<Vec<u8>>, AllocError> {
    let mut texts = Vec::new(alloc);
    put_loose(alloc, job.graph(), &mut texts)?;
    put_idle(alloc, job, &mut texts)?;
    put_sources(alloc, job, &mut texts)?;
    put_ends(alloc, job, &mut texts)?;
    put_rates(alloc, job.graph(), &mut texts)?;
    Ok(texts)
}
