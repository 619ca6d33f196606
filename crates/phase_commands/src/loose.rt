//! What a person at a terminal is told of sinks that no source reaches.
ghost use Rattle.std.specs.Prelude.{◌<◌, ◌≤◌, length};

use graph_base::{Graph, Kind, Place, TaskLine};
use graph_commands::{GRAPH_MAX, TellingFiles};
use graph_lang::read_graph;
use phase_words::{Call, read_run_words, read_words};
use std::alloc::{AllocError, Global};
use std::io::Write;
use watched_io::{Files, Watched};

/// The graph's file of words for an evaluation or a run.
fn graph_evaluated(alloc: Global, words: &[String]) -> Option<&str> {
    match words {
        [first, behind @ ..] if first.as_str() == "run" => match read_run_words(alloc, behind) {
            Ok(call) => Some(call.graph),
            Err(_) => None,
        },
        _ => match read_words(alloc, words) {
            Ok(Call::Eval { graph, .. }) | Ok(Call::Columns { graph, .. }) => Some(graph),
            _ => None,
        },
    }
}

/// Whether the phaser that a task takes from first is among these, or it takes from none.
fn is_reached(graph: &Graph, t: usize, reached: &[bool]) -> bool
    requires { t < length graph.now.tasks }
{
    match graph.task(t).inputs.first() {
        Some(p) => reached.get(*p) == Some(&true),
        None => true,
    }
}

/// Notes that a phaser is reached.
fn note(reached: &mut [bool], p: usize) {
    if let Some(place) = reached.get_mut(p) {
        *place = true;
    }
}

/// Notes the phasers that a task signals: a peer signals its second input, too.
fn note_all(reached: &mut [bool], task: &TaskLine) {
    for p in &task.outputs {
        note(reached, *p);
    }
    if matches!(task.kind, Kind::Peer) {
        if let Some(p) = task.inputs.get(1) {
            note(reached, *p);
        }
    }
}

/// Notes the phasers that tasks signal which are reached.
fn reach(graph: &Graph, reached: &mut [bool]) {
    for t in 0..graph.tasks() {
        if is_reached(graph, t, reached) {
            note_all(reached, graph.task(t));
        }
    }
}

/// Which phasers have values of some source, or of what comes of one. A chain of tasks is no longer
/// than there are tasks.
fn reached(alloc: Global, graph: &Graph) -> Result<Vec<bool>, AllocError> {
    let mut reached = Vec::with_capacity(alloc, graph.phasers())?;
    for _ in 0..graph.phasers() {
        reached.push(false)?;
    }
    for _ in 0..graph.tasks() {
        reach(graph, reached.as_mut_slice());
    }
    Ok(reached)
}

/// The first sink that no source reaches.
fn loose_sink(alloc: Global, graph: &Graph) -> Option<&str> {
    let Ok(reached) = reached(alloc, graph) else {
        return None;
    };
    for t in 0..graph.tasks() {
        if graph.is_sink(t) && !is_reached(graph, t, reached.as_slice()) {
            return Some(graph.name(Place::Task(t)));
        }
    }
    None
}

/// Tells a person of a sink that no source reaches.
fn tell<E: Write>(name: &str, faults: &mut Watched<E>) {
    let _ = faults.send(b"phase: no source reaches the sink ");
    let _ = faults.send(name.as_bytes());
    let _ = faults.send(b": `phase check --explain` says what hangs loose\n");
}

/// Tells a person, behind an evaluation or a run that these words ask for, of the first sink of its
/// graph that no source reaches, and that `check --explain` says more: such a sink has no values,
/// and that is no fault. Nothing is told where the graph is in no file of the disk.
pub fn point_to_check<R: std::rt::Files, E: Write>(
    rt: &R,
    alloc: Global,
    words: &[String],
    faults: &mut Watched<E>,
) {
    let Some(name) = graph_evaluated(alloc, words) else {
        return;
    };
    // A pipe would be waited for.
    match rt.metadata(name) {
        Ok(found) if found.is_file() => {}
        _ => return,
    }
    let Ok(text) = TellingFiles::new(rt).read(alloc, name, GRAPH_MAX) else {
        return;
    };
    if let Ok(graph) = read_graph(alloc, text.as_slice()) {
        if let Some(sink) = loose_sink(alloc, &graph) {
            tell(sink, faults);
        }
    }
}
