//! Jobs of graphs that are given as text, and what their runs end with, as text.
use graph_base::{Graph, Place};
use std::alloc::{AllocError, Global};
use std::sync::Wait;
use std::test::Fail;
use std::thread::Threads;
use stream_job::{Job, Lines};
use stream_workers::{Gate, RunFault, run};

/// The numbers of workers of each test.
pub const WORKERS: [usize; 4] = [1, 2, 4, 16];

/// The job of a graph, on samples of these texts, one for each source.
pub fn job_of(alloc: Global, graph: &str, samples: &[&str]) -> Result<Job, Fail> {
    let job = stream_job::job_of(alloc, graph, samples)?;
    Ok(job?)
}

// The name of a place that the graph has.
fn name_of(graph: &Graph, place: Place) -> &str {
    match place {
        Place::Phaser(p) if p < graph.phasers() => graph.name(place),
        Place::Task(t) if t < graph.tasks() => graph.name(place),
        _ => "?",
    }
}

// The lists of the sinks: for each its name and how many values it has, and then the values.
fn text_of(alloc: Global, graph: &Graph, lines: &[Lines]) -> Result<String, AllocError> {
    let mut text = String::new(alloc);
    for line in lines {
        let name = name_of(graph, Place::Task(line.task));
        text.push_str(&format!(in alloc; "{name} {}\n", line.values.len())?)?;
        for value in line.values.as_slice() {
            text.push_str(&format!(in alloc; "{value}\n")?)?;
        }
    }
    Ok(text)
}

/// What a run by so many workers ends with: the lists of the sinks, or why there are none.
pub fn told<R: Threads + Wait + Sync, G: Gate + Sync>(
    rt: &R,
    alloc: Global,
    job: &Job,
    workers: usize,
    gate: &G,
) -> Result<String, AllocError> {
    match run(rt, alloc, job, workers, gate) {
        Ok(lines) => text_of(alloc, job.graph(), &lines),
        Err(RunFault::TooBig { place, phase }) => {
            format!(in alloc; "too big at {} {phase}\n", name_of(job.graph(), place))
        }
        Err(RunFault::Stalled(_)) => String::from_str(alloc, "stalled\n"),
        Err(RunFault::OutOfMemory) => Err(AllocError),
    }
}
