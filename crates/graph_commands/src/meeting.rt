//! Where tasks meet.
ghost use Rattle.std.specs.Prelude.{◌<◌, ◌≤◌, length, IfSome};
ghost use Rattle.std.specs.List.{All};
ghost use Rattle.graph_lang.specs.declared.sample.TheConstants.{TEXT_MAX};

use crate::sources::read_sources;
use graph_base::{Graph, Place};
use graph_lang::{FaultKind, GraphFault, OneThread, read_graph};
use graph_show::MeetingPlace;
use std::alloc::{AllocError, Global};
use stream_lists::{Meeting, meeting_on};
use watched_io::Files;

/// Where a task meets one of an earlier line, as `MeetingPlace` tells it.
#[derive(Drop)]
pub(crate) struct FoundMeeting {
    phaser: String,
    task: String,
    line: usize,
    phase: u128,
}

impl FoundMeeting {
    /// The same, for who explains it.
    pub(crate) fn place(&self) -> MeetingPlace<'_> {
        MeetingPlace {
            phaser: self.phaser.as_str(),
            task: self.task.as_str(),
            line: self.line,
            phase: self.phase,
        }
    }
}

/// The number of the task of this line, where a graph has one.
fn task_on(graph: &Graph, line: u64) -> Option<usize>
    ensures { IfSome result (λ t. t < length graph.now.tasks) }
{
    for t in 0..graph.tasks() {
        if graph.task(t).line == line {
            return Some(t);
        }
    }
    None
}

/// Where a task meets one of an earlier line.
fn met_at(
    alloc: Global,
    graph: &Graph,
    p: usize,
    found: Meeting,
) -> Result<FoundMeeting, AllocError>
    requires phaser { p < length graph.now.phasers }
    requires task { found.task < length graph.now.tasks }
{
    Ok(FoundMeeting {
        phaser: String::from_str(alloc, graph.name(Place::Phaser(p)))?,
        task: String::from_str(alloc, graph.name(Place::Task(found.task)))?,
        line: graph.task(found.task).line as usize,
        phase: found.phase,
    })
}

/// Where a task meets one of an earlier line, on the first phaser on which it does.
fn first_met(
    alloc: Global,
    graph: &Graph,
    samples: &[Vec<i64>],
    t: usize,
) -> Result<Option<FoundMeeting>, AllocError>
    requires task { t < length graph.now.tasks }
    requires few { All (λ list. length list.items ≤ TEXT_MAX) samples.now }
{
    for p in 0..graph.phasers() {
        if let Some(found) = meeting_on(alloc, graph, samples, t, p)? {
            return Ok(Some(met_at(alloc, graph, p, found)?));
        }
    }
    Ok(None)
}

/// Where the task at fault meets one of an earlier line, if that is the fault of a graph's text.
/// The files of its sources are read again for that; where one is refused now, or they changed, it
/// may not be known.
pub(crate) fn meeting_found<F: Files>(
    alloc: Global,
    files: &mut F,
    text: &[u8],
    fault: GraphFault,
) -> Result<Option<FoundMeeting>, AllocError> {
    if !matches!(fault.kind, FaultKind::AnyMeets) {
        return Ok(None);
    }
    let Ok(graph) = read_graph(alloc, text) else {
        return Ok(None);
    };
    let Ok(samples) = read_sources(alloc, files, &OneThread, &graph) else {
        return Ok(None);
    };
    match task_on(&graph, fault.line) {
        Some(t) => first_met(alloc, &graph, &samples, t),
        None => Ok(None),
    }
}
