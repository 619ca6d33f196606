//! Which lists are still read, and the end of the others.
ghost use Rattle.std.specs.Prelude.{◌≡◌, ◌<◌, ℕ, [], length, get_or};
ghost use Rattle.std.specs.List.{All};
ghost use Rattle.phase_accum.specs.Sends.{AreSends};
ghost use Rattle.stream_eval.specs.Composing.{is_read_from, list_kept, reads_from, signals_from, signals_on, sinks_on, waits_on};
ghost use Rattle.stream_lists.specs.JobFields.{items_of};

use graph_base::Kind;
use std::alloc::Global;
use stream_lists::{Job, input_number, output_number};

/// Whether task number `t` signals phaser number `p`.
fn signals_on(job: &Job, t: usize, p: usize) -> bool
    requires { t < length job.now.graph.tasks }
    ensures { result ≡ signals_on job.now t p }
{
    output_number(job.graph().task(t), p).is_some()
}

/// Whether task number `t` signals phaser number `p` or one below it.
fn signals_from(job: &Job, p: usize, t: usize) -> bool
    requires { t < length job.now.graph.tasks }
    ensures { result ≡ signals_from job.now p t }
{
    for below in p..job.graph().phasers() {
        if signals_on(job, t, below) {
            return true;
        }
    }
    false
}

/// Whether phaser number `q` is an input of task number `t`.
fn waits_on(job: &Job, t: usize, q: usize) -> bool
    requires { t < length job.now.graph.tasks }
    ensures { result ≡ waits_on job.now t q }
{
    input_number(job.graph().task(t), q).is_some()
}

/// Whether task number `t` is a sink on phaser number `q`.
fn sinks_on(job: &Job, t: usize, q: usize) -> bool
    requires { t < length job.now.graph.tasks }
    ensures { result ≡ sinks_on job.now t q }
{
    let task = job.graph().task(t);
    matches!(task.kind, Kind::Sink) && task.inputs.first().copied().unwrap_or(0) == q
}

/// Whether task number `t` reads the list of phaser number `q`, where the phasers from number `p`
/// on, and then the sinks, are gone through.
fn reads_from(job: &Job, p: usize, q: usize, t: usize) -> bool
    requires { t < length job.now.graph.tasks }
    ensures { result ≡ reads_from job.now p q t }
{
    sinks_on(job, t, q) || (waits_on(job, t, q) && signals_from(job, p, t))
}

/// Whether some task reads the list of phaser number `q`, where the phasers from number `p` on, and
/// then the sinks, are gone through.
fn is_read_from(job: &Job, p: usize, q: usize) -> bool
    ensures { result ≡ is_read_from job.now p q }
{
    for t in 0..job.graph().tasks() {
        if reads_from(job, p, q, t) {
            return true;
        }
    }
    false
}

/// Drops the values of each list that is no more read, where the phasers from number `p` on, and
/// then the sinks, are gone through.
pub(crate) fn drop_read(alloc: Global, job: &Job, p: usize, lists: &mut [Vec<i64>])
    requires sends { All (λ list. AreSends list.items) lists.old }
    ensures each { (q : ℕ) → get_or (items_of lists.new) q []
        ≡ list_kept job.now p (items_of lists.old) q }
    ensures sends { All (λ list. AreSends list.items) lists.new }
    ensures length { length lists.new ≡ length lists.old }
{
    for q in 0..lists.len() {
        if !is_read_from(job, p, q) {
            lists[q] = Vec::new(alloc);
        }
    }
}
