//! Runs of graphs whose samples come in pieces.
use crate::jobs::job_of;
use graph_lang::read_graph;
use std::alloc::{AllocError, Global};
use std::test::Fail;
use stream_job::{Job, Stopped, Stream};

/// What is done with a run that is fed.
#[derive(Clone, Copy, Debug)]
pub enum Act {
    /// A source is fed so many of its samples, behind those that it was fed.
    Feed(usize, usize),
    /// A source has ended.
    Finish(usize),
    /// Turns until no task can move.
    Run,
    /// All sinks are read, and what they have is forgotten.
    Take,
}

/// How many samples each source of a job was fed.
pub type Fed = [usize; 3];

/// Feeds a source so many of the job's samples, behind so many, and tells how many it took.
#[tactic(auto, using(crate::proofs::Pieces::sends_between))]
fn feed(stream: &mut Stream, job: &Job, source: usize, from: usize, many: usize) -> usize {
    let samples = job.samples(source);
    if source >= stream.graph().sources() || from >= samples.len() {
        return 0;
    }
    let to = samples.len().min(from.saturating_add(many));
    stream.feed(source, &samples[from..to])
}

/// Feeds a source so many of the job's samples, behind those that it was fed, and tells how many it
/// took.
fn feed_next(stream: &mut Stream, job: &Job, fed: &mut Fed, source: usize, many: usize) -> usize {
    let Some(from) = fed.get(source).copied() else {
        return 0;
    };
    let took = feed(stream, job, source, from, many);
    if let Some(count) = fed.get_mut(source) {
        *count = from.saturating_add(took);
    }
    took
}

/// Tells a source that it has ended, where there is one.
fn finish(stream: &mut Stream, source: usize) {
    if source < stream.graph().sources() {
        stream.finish(source);
    }
}

/// What a sink has, which is then forgotten.
fn taken(alloc: Global, stream: &mut Stream, sink: usize) -> Result<String, Fail> {
    let mut text = String::new(alloc);
    if sink >= stream.sinks() {
        return Ok(text);
    }
    for value in stream.values(sink) {
        text.push_str(&format!(in alloc; " {value}")?)?;
    }
    stream.forget(sink);
    Ok(text)
}

/// What all sinks have, which is then forgotten, with the start of one that joined now.
fn all_taken(alloc: Global, stream: &mut Stream) -> Result<String, Fail> {
    let mut text = String::new(alloc);
    for sink in 0..stream.sinks() {
        text.push_str(&format!(in alloc; "{sink}:{} ", taken(alloc, stream, sink)?.as_str())?)?;
    }
    Ok(text)
}

/// What comes of an act.
fn done(
    alloc: Global,
    stream: &mut Stream,
    job: &Job,
    fed: &mut Fed,
    act: Act,
) -> Result<String, Fail> {
    match act {
        Act::Feed(source, many) => {
            Ok(format!(in alloc; "{} ", feed_next(stream, job, fed, source, many))?)
        }
        Act::Finish(source) => {
            finish(stream, source);
            Ok(String::new(alloc))
        }
        Act::Run => Ok(format!(in alloc; "{:?} ", stream.run()?)?),
        Act::Take => all_taken(alloc, stream),
    }
}

/// What comes of all acts.
fn all_done(alloc: Global, stream: &mut Stream, job: &Job, acts: &[Act]) -> Result<String, Fail> {
    let mut fed = [0usize; 3];
    let mut text = String::new(alloc);
    for act in acts {
        text.push_str(&done(alloc, stream, job, &mut fed, *act)?)?;
    }
    Ok(text)
}

/// What comes of these acts on a graph with these samples, or that it is refused.
pub fn told(alloc: Global, graph: &str, samples: &[&str], acts: &[Act]) -> Result<String, Fail> {
    let job = job_of(alloc, graph, samples)?;
    let graph = read_graph(alloc, graph.as_bytes())?;
    match Stream::new(alloc, graph) {
        Ok(mut stream) => all_done(alloc, &mut stream, &job, acts),
        Err(refusal) => Ok(format!(in alloc; "{refusal:?}")?),
    }
}

/// Feeds each source its next piece of so many samples; one that has all has ended.
fn feed_all(stream: &mut Stream, job: &Job, round: usize, piece: usize) {
    for source in 0..job.graph().sources() {
        let from = round.saturating_mul(piece);
        if from >= job.samples(source).len() {
            finish(stream, source);
        } else {
            feed(stream, job, source, from, piece);
        }
    }
}

/// Puts what all sinks have behind their lines, and forgets it.
fn take_all(alloc: Global, stream: &mut Stream, lines: &mut [String]) -> Result<(), Fail> {
    for sink in 0..lines.len() {
        lines[sink].push_str(&taken(alloc, stream, sink)?)?;
    }
    Ok(())
}

/// Feeds and reads by pieces of so many samples, until nothing helps.
fn ran_by(
    alloc: Global,
    stream: &mut Stream,
    job: &Job,
    lines: &mut [String],
    piece: usize,
) -> Result<Stopped, Fail> {
    for round in 0..100 {
        feed_all(stream, job, round, piece);
        let stop = stream.run()?;
        take_all(alloc, stream, lines)?;
        if !matches!(stop, Stopped::Hungry { .. }) {
            return Ok(stop);
        }
    }
    Ok(Stopped::Paused)
}

/// The line of each sink, its number and nothing behind it.
fn heads(alloc: Global, job: &Job) -> Result<Vec<String>, Fail> {
    let mut lines = Vec::new(alloc);
    for t in 0..job.graph().tasks() {
        if job.graph().is_sink(t) {
            lines.push(format!(in alloc; "{t}:")?)?;
        }
    }
    Ok(lines)
}

/// What the sinks of a run gave in all, a line each, by pieces of so many samples. Or why it
/// stopped before its end.
fn lines_of(alloc: Global, stream: &mut Stream, job: &Job, piece: usize) -> Result<String, Fail> {
    let mut lines = heads(alloc, job)?;
    let stop = ran_by(alloc, stream, job, &mut lines, piece)?;
    if stop != Stopped::Done {
        return Ok(format!(in alloc; "{stop:?}")?);
    }
    let mut text = String::new(alloc);
    for line in &lines {
        text.push_str(line)?;
        text.push_str("\n")?;
    }
    Ok(text)
}

/// The same of a graph with these samples.
pub fn fed(alloc: Global, graph: &str, samples: &[&str], piece: usize) -> Result<String, Fail> {
    let job = job_of(alloc, graph, samples)?;
    let graph = read_graph(alloc, graph.as_bytes())?;
    match Stream::new(alloc, graph) {
        Ok(mut stream) => lines_of(alloc, &mut stream, &job, piece),
        Err(refusal) => Ok(format!(in alloc; "{refusal:?}")?),
    }
}
