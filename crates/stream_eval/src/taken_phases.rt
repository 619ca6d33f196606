//! The phases that some task takes.
ghost use Rattle.std.specs.Prelude.{◌≡◌, ◌&&◌, ◌<◌, length};
ghost use Rattle.graph_base.specs.GraphFields.{task_of};
ghost use Rattle.stream_lists.specs.Ranges.{is_taken, is_too_big, task_takes};
ghost use Rattle.stream_lists.specs.Spans.{schedule_of};

use phase_accum::Outcome;
use stream_lists::{Job, input_number, taken_count};

/// Whether task number `t` takes phase number `n` of phaser number `p`.
fn takes(job: &Job, p: usize, n: usize, t: usize) -> bool
    requires { t < length job.now.graph.tasks }
    ensures { result ≡ task_takes job.now (schedule_of job.now) p n t }
{
    let task = job.graph().task(t);
    let span = job.span(t);
    if !span.live {
        return false;
    }
    let Some(k) = input_number(task, p) else {
        return false;
    };
    let n = n as u128;
    span.offset <= n && n - span.offset < taken_count(task, span.steps, k)
}

/// Whether some task takes phase number `n` of phaser number `p`.
fn is_taken(job: &Job, p: usize, n: usize) -> bool
    ensures { result ≡ is_taken job.now (schedule_of job.now) p n }
{
    for t in 0..job.graph().tasks() {
        if takes(job, p, n, t) {
            return true;
        }
    }
    false
}

/// Whether a value is too big.
fn is_too_big(outcome: Outcome) -> bool
    ensures { result ≡ is_too_big outcome }
{
    matches!(outcome, Outcome::TooBig)
}

/// Whether the value of phase number `n` of phaser number `p` is too big and some task takes it.
pub(crate) fn is_faulty(job: &Job, p: usize, n: usize, outcome: Outcome) -> bool
    ensures { result ≡ is_too_big outcome && is_taken job.now (schedule_of job.now) p n }
{
    is_too_big(outcome) && is_taken(job, p, n)
}
