//! The lines of the sinks of a run that is fed.
ghost use Rattle.std.specs.Prelude.{◌≡◌, ◌<◌, [], length, map, None, IfOk};
ghost use Rattle.std.specs.List.{All};
ghost use Rattle.stream_eval.specs.Results.{sink_values};
ghost use Rattle.stream_lists.specs.Lists.{sinks_of};
ghost use Rattle.stream_job.specs.Machines.{HasRoom};
ghost use Rattle.stream_job.specs.Streams.{line_room};

use std::alloc::{AllocError, Global};
use stream_eval::Lines;
use stream_lists::Job;

/// How many values a sink keeps until they are forgotten, at least; more where its line names a
/// greater block.
pub const LINE_ROOM: u64 = 4096;

/// How many values the line of task number `t` may have.
pub fn line_room(job: &Job, t: usize) -> u64
    requires { t < length job.now.graph.tasks }
    ensures { result ≡ line_room job.now t }
{
    LINE_ROOM.max(job.graph().task(t).block)
}

/// A sink that has taken nothing, with its room.
fn bounded_line(alloc: Global, job: &Job, t: usize) -> Result<Lines, AllocError>
    requires { t < length job.now.graph.tasks }
    ensures line { IfOk result (λ line. sink_values line ≡ (t, [])) }
    ensures start { IfOk result (λ line. line.start ≡ None) }
    ensures own { IfOk result (HasRoom (line_room job.now)) }
{
    let Ok(room) = usize::try_from(line_room(job, t)) else {
        return Err(AllocError);
    };
    Ok(Lines {
        task: t,
        start: None,
        values: Vec::with_capacity(alloc, room)?,
    })
}

/// The sinks, in the order of their lines, each with its room.
pub fn bounded_lines(alloc: Global, job: &Job) -> Result<Vec<Lines>, AllocError>
    ensures lines { IfOk result (λ lines.
        map sink_values lines.items ≡ map (λ t. (t, [])) (sinks_of job.now)) }
    ensures starts { IfOk result (λ lines.
        map (λ line. line.start) lines.items ≡ map (λ t. None) (sinks_of job.now)) }
    ensures own { IfOk result (λ lines. All (HasRoom (line_room job.now)) lines.items) }
{
    let mut lines = Vec::with_capacity(alloc, job.graph().tasks())?;
    for t in 0..job.graph().tasks() {
        if job.graph().is_sink(t) {
            lines.push(bounded_line(alloc, job, t)?)?;
        }
    }
    Ok(lines)
}
