//! What the line of a task says.
ghost use Rattle.std.specs.Prelude.{◌≡◌, ◌≢◌, ◌<◌, ◌%◌, length};
ghost use Rattle.graph_base.specs.Graphs.{task_at};
ghost use Rattle.graph_base.specs.GraphFields.{task_of};
ghost use Rattle.graph_base.specs.TaskLines.{HasEnds, IsGraph, IsTaskLine};
ghost use Rattle.graph_base.specs.declared.line.Kind.TheVariants.{Source, Split};
ghost use Rattle.graph_base.specs.Registrations.{signalled_by};
ghost use Rattle.graph_runs.specs.Moments.{first_input, input_at};
ghost use Rattle.graph_runs.specs.Answers.{output_at};
ghost use Rattle.graph_runs.specs.Nexts.{is_cut};
ghost use Rattle.graph_runs.specs.TaskPlaces.{registration_of_output};

use graph_base::{ENDS_MAX, Kind, Parent, TaskLine};
use stream_lists::Job;

/// The line of task number `t`.
fn line_of(job: &Job, t: usize) -> &TaskLine
    requires { t < length job.now.graph.tasks }
    ensures task { task_of result.now ≡ task_at job.now.graph t }
    ensures line { IsTaskLine job.now.graph t (task_of result.now) }
{
    job.graph().task(t)
}

/// Returns what task number `t` does. It takes no memory.
pub fn kind_of(job: &Job, t: usize) -> Kind
    requires { t < length job.now.graph.tasks }
    ensures { result ≡ (task_at job.now.graph t).kind }
{
    line_of(job, t).kind
}

/// Returns which task registers task number `t`, and when. It takes no memory.
pub fn parent_of(job: &Job, t: usize) -> Option<Parent>
    requires { t < length job.now.graph.tasks }
    ensures { result ≡ (task_at job.now.graph t).parent }
{
    line_of(job, t).parent
}

/// Returns after how many steps task number `t` leaves, where its line says so. It takes no memory.
pub fn until_of(job: &Job, t: usize) -> Option<u64>
    requires { t < length job.now.graph.tasks }
    ensures { result ≡ (task_at job.now.graph t).until }
{
    line_of(job, t).until
}

/// Returns whether so many steps are all that `until` allows. It takes no memory.
pub fn is_cut(until: Option<u64>, steps: u64) -> bool
    ensures { result ≡ is_cut until steps }
{
    match until {
        None => false,
        Some(until) => until == steps,
    }
}

/// Returns the phaser that is input `k` of task number `t`. It takes no memory.
pub fn input_of(job: &Job, t: usize, k: usize) -> usize
    requires task { t < length job.now.graph.tasks }
    requires input { k < length (task_at job.now.graph t).inputs }
    ensures phaser { result ≡ input_at (task_at job.now.graph t) k }
    ensures within { result < length job.now.graph.phasers }
{
    line_of(job, t).inputs[k]
}

/// Returns the input that the step of task number `t` after `steps` others waits for first. It
/// takes no memory.
pub fn first_input_of(job: &Job, t: usize, steps: u64) -> usize
    requires { t < length job.now.graph.tasks }
    ensures input { result ≡ first_input (task_at job.now.graph t) steps }
    ensures within { (task_at job.now.graph t).kind ≢ Source
        → result < length (task_at job.now.graph t).inputs }
{
    first_input(line_of(job, t), steps)
}

/// The input that the step of a line after so many waits for first.
fn first_input(task: &TaskLine, steps: u64) -> usize
    requires { HasEnds task.now.kind
        (length task.now.inputs.items) (length task.now.outputs.items) }
    ensures input { result ≡ first_input (task_of task.now) steps }
    ensures within { task.now.kind ≢ Source → result < length task.now.inputs.items }
{
    match task.kind {
        Kind::Join => (steps % task.inputs.len() as u64) as usize,
        _ => 0,
    }
}

/// Returns which registration of task number `t` is on its output `j`, and the phaser of it. It
/// takes no memory.
pub fn output_of(job: &Job, t: usize, j: usize) -> (usize, usize)
    requires graph { IsGraph job.now.graph }
    requires task { t < length job.now.graph.tasks }
    requires output { j < length (signalled_by (task_at job.now.graph t)) }
    ensures registration { result.0 ≡ registration_of_output (task_at job.now.graph t) j }
    ensures phaser { result.1 ≡ output_at job.now t j }
    ensures within { result.1 < length job.now.graph.phasers }
{
    let k = registration_of_output(line_of(job, t), j);
    (k, job.graph().registration(t, k).phaser)
}

/// The number of the registration of output `j` of a line.
fn registration_of_output(task: &TaskLine, j: usize) -> usize
    requires { j < ENDS_MAX }
    ensures { result ≡ registration_of_output (task_of task.now) j }
{
    match task.kind {
        Kind::Peer => j + 1,
        _ => task.inputs.len() + j,
    }
}

/// The output that the step of a splitter after `begun` others signals.
pub(crate) fn output_in_turn(job: &Job, t: usize, begun: u64) -> usize
    requires task { t < length job.now.graph.tasks }
    requires kind { (task_at job.now.graph t).kind ≡ Split }
    ensures { result ≡ begun % length (task_at job.now.graph t).outputs }
{
    (begun % line_of(job, t).outputs.len() as u64) as usize
}
