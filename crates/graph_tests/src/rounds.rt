//! Runs whose tasks have turns in rotation.
ghost use Rattle.std.specs.Prelude.{◌≡◌};

use crate::jobs::job_of;
use graph_base::Place;
use std::alloc::{AllocError, Global};
use std::test::Fail;
use stream_job::{EvalFault, Job, Lines, RunTurnsFault, Turned, World, eval, run_turns};

/// What a round of turns came to, one turn for each task.
#[derive(Clone, Copy, Debug, PartialEq, Eq)]
pub enum Round {
    /// Some task made an event.
    Moved,
    /// No task made one, and some task was blocked.
    Blocked,
    /// No task is live.
    Gone,
    /// A value is out of range.
    TooBig { place: Place, phase: u64 },
}

/// What a round came to, after one more turn of it.
fn with_turn(round: Round, turned: Turned) -> Round {
    match turned {
        Turned::Moved | Turned::Ended => Round::Moved,
        Turned::TooBig { place, phase } => Round::TooBig { place, phase },
        Turned::Gone => round,
        Turned::Blocked => match round {
            Round::Gone => Round::Blocked,
            _ => round,
        },
    }
}

/// The numbers of so many tasks, over and over.
pub fn in_rotation(alloc: Global, tasks: usize, rounds: usize) -> Result<Vec<usize>, Fail> {
    let mut turns = Vec::new(alloc);
    for _ in 0..rounds {
        for task in 0..tasks {
            turns.push(task)?;
        }
    }
    Ok(turns)
}

/// Gives each task a turn, in the order of their lines.
pub fn one_round(world: &mut World<'_>, tasks: usize) -> Result<Round, AllocError>
    ensures { world.new.job ≡ world.old.job }
{
    let mut round = Round::Gone;
    for task in 0..tasks {
        round = with_turn(round, world.turn(task)?);
    }
    Ok(round)
}

/// Gives rounds of turns until one makes no event, and answers what that one came to.
pub fn last_round(world: &mut World<'_>, tasks: usize) -> Result<Round, AllocError>
    ensures { world.new.job ≡ world.old.job }
{
    for _ in 0..1_000 {
        let round = one_round(world, tasks)?;
        if round != Round::Moved {
            return Ok(round);
        }
    }
    Ok(Round::Moved)
}

/// The numbers and values of sinks, a line for each, with the start of one that joined now.
pub fn text_of(alloc: Global, lines: &[Lines]) -> Result<String, Fail> {
    let mut text = String::new(alloc);
    for line in lines {
        text.push_str(&format!(in alloc; "{}", line.task)?)?;
        if let Some(start) = line.start {
            text.push_str(&format!(in alloc; " from {start}")?)?;
        }
        text.push_str(":")?;
        for value in &line.values {
            text.push_str(&format!(in alloc; " {value}")?)?;
        }
        text.push_str("\n")?;
    }
    Ok(text)
}

/// What a round of a world comes to, and what the sinks have after it.
fn after_round(
    alloc: Global,
    world: &mut World<'_>,
    tasks: usize,
) -> Result<(Round, String), Fail> {
    let round = one_round(world, tasks)?;
    Ok((round, text_of(alloc, world.lines())?))
}

/// What the last round of a world comes to, and what the sinks have after it.
fn after_last_round(
    alloc: Global,
    world: &mut World<'_>,
    tasks: usize,
) -> Result<(Round, String), Fail> {
    let round = last_round(world, tasks)?;
    Ok((round, text_of(alloc, world.lines())?))
}

/// What the last round of a job's run in rotation comes to, and what the sinks have after it.
fn ran_job(alloc: Global, job: &Job) -> Result<(Round, String), Fail> {
    let mut world = World::new(alloc, job)?;
    after_last_round(alloc, &mut world, job.graph().tasks())
}

/// What the sinks of a graph have at the end of a run in rotation, and what its last round came to.
pub fn ran(alloc: Global, graph: &str, samples: &[&str]) -> Result<(Round, String), Fail> {
    let job = job_of(alloc, graph, samples)?;
    ran_job(alloc, &job)
}

/// What a further round comes to after these turns, and what the sinks have after it. Or which
/// value was out of range before, and no lines.
fn given_turns(alloc: Global, job: &Job, turns: &[usize]) -> Result<(Round, String), Fail> {
    match run_turns(alloc, job, turns) {
        Ok(mut world) => after_round(alloc, &mut world, job.graph().tasks()),
        Err(RunTurnsFault::TooBig { place, phase }) => {
            Ok((Round::TooBig { place, phase }, String::new(alloc)))
        }
        Err(RunTurnsFault::OutOfMemory) => Err(Fail::from(AllocError)),
    }
}

/// The same after forty turns of each task, by which all have left.
fn given_job(alloc: Global, job: &Job) -> Result<(Round, String), Fail> {
    let turns = in_rotation(alloc, job.graph().tasks(), 40)?;
    given_turns(alloc, job, &turns)
}

/// What the sinks of a graph have after forty given turns of each task, and what a further round
/// comes to. Or which value was out of range before, and no lines.
pub fn given(alloc: Global, graph: &str, samples: &[&str]) -> Result<(Round, String), Fail> {
    let job = job_of(alloc, graph, samples)?;
    given_job(alloc, &job)
}

/// What the sinks had at the end of a run, which all tasks have left. Or what its last round came
/// to.
pub fn at_end(alloc: Global, (round, lines): (Round, String)) -> Result<String, Fail> {
    match round {
        Round::Gone => Ok(lines),
        _ => Ok(format!(in alloc; "{round:?}")?),
    }
}

/// What whole lists have for the sinks of a job.
fn evaluated_job(alloc: Global, job: &Job) -> Result<String, Fail> {
    match eval(alloc, job) {
        Ok(lines) => text_of(alloc, &lines),
        Err(EvalFault::OutOfMemory) => Err(Fail::from(AllocError)),
        Err(EvalFault::TooBig { place, phase }) => { Ok(format!(in alloc; "{place:?} {phase}")?) }
    }
}

/// What whole lists have for the sinks of a graph.
pub fn evaluated(alloc: Global, graph: &str, samples: &[&str]) -> Result<String, Fail> {
    let job = job_of(alloc, graph, samples)?;
    evaluated_job(alloc, &job)
}
