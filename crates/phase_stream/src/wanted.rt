//! Which source is read next where the values of sinks wait in a table.
ghost use Rattle.std.specs.Prelude.{◌≡◌, ◌<◌, ℕ, List, IfSome, length};
ghost use Rattle.phase_stream.specs.TableLines.{IsSameStop};

use crate::opens::Opens;
use crate::session::Session;
use crate::table::{Table, WAITING_MAX};
use graph_base::{Graph, PHASERS_MAX, Place};
use std::alloc::Global;
use std::io::Read;
use stream_job::Stopped;

/// The phasers to which the values of a source come, by their numbers.
fn reached(graph: &Graph, source: usize) -> [bool; PHASERS_MAX] {
    let mut reached = [false; PHASERS_MAX];
    if source < graph.tasks() {
        reach(graph, source, &mut reached);
    }
    // What a task signals is declared below what it takes.
    for p in 0..graph.phasers() {
        if reached[p] {
            for t in 0..graph.tasks() {
                if graph.task(t).inputs.contains(&p) {
                    reach(graph, t, &mut reached);
                }
            }
        }
    }
    reached
}

/// Adds the phasers of a task.
fn reach(graph: &Graph, t: usize, reached: &mut [bool; PHASERS_MAX])
    requires { t < length graph.now.tasks }
{
    for k in 0..graph.registrations(t) {
        let p = graph.registration(t, k).phaser;
        if p < PHASERS_MAX {
            reached[p] = true;
        }
    }
}

/// Whether the values of a source come to a sink of which as many wait as may.
fn comes_to_full(graph: &Graph, table: &Table, source: usize) -> bool {
    let reached = reached(graph, source);
    for column in &table.columns {
        if column.is_full() && column.task < graph.tasks() {
            for p in graph.task(column.task).inputs.as_slice() {
                if *p < PHASERS_MAX && reached[*p] {
                    return true;
                }
            }
        }
    }
    false
}

/// The number of the source that is read next: the first that is hungry, which is this one, or
/// where values of a sink wait as far as may be, the first of which none comes to such a sink. A
/// number that no source has where there is none.
fn wanted<R: Read + Drop>(session: &Session<R>, table: &Table, first: usize) -> usize {
    if !table.is_full() {
        return first;
    }
    let graph = session.stream.graph();
    for k in 0..session.sources.len() {
        let t = session.sources[k].task;
        if t < graph.tasks() && session.stream.is_hungry(t) && !comes_to_full(graph, table, t) {
            return k;
        }
    }
    usize::MAX
}

/// Returns this stop, at which a hungry source is the one that is read next.
pub fn with_wanted<R: Read + Drop>(session: &Session<R>, table: &Table, stop: Stopped) -> Stopped
    ensures { IsSameStop stop result }
{
    match stop {
        Stopped::Hungry { source } => Stopped::Hungry {
            source: wanted(session, table, source),
        },
        Stopped::Full { .. } | Stopped::Paused | Stopped::Done => stop,
        Stopped::Stalled | Stopped::TooBig { .. } => stop,
    }
}

/// Keeps which sink is waited for, where this number is that of no source: nothing more is read,
/// since others are ahead of it.
pub fn tell_awaited<R: Read + Drop, F: Opens>(
    alloc: Global,
    session: &Session<R>,
    table: &Table,
    source: usize,
    files: &mut F,
)
    ensures { (other : List ℕ) → F.file files.new other ≡ F.file files.old other }
{
    let graph = session.stream.graph();
    if source < session.sources.len() {
        return;
    }
    if let Some(t) = awaited(graph, table) {
        files.await_sink(alloc, graph.name(Place::Task(t)), WAITING_MAX);
    }
}

/// The task of the first sink whose value in the next line is not known.
fn awaited(graph: &Graph, table: &Table) -> Option<usize>
    ensures { IfSome result (λ t. t < length graph.now.tasks) }
{
    for column in &table.columns {
        if !column.is_known() && column.task < graph.tasks() {
            return Some(column.task);
        }
    }
    None
}
