//! The tasks that begin with a run, which are those without a parent.
ghost use Rattle.std.specs.Prelude.{◌≡◌, ◌<◌, ◌≤◌, ◌+◌, length};
ghost use Rattle.phase_history.specs.Histories.{greatest_used};
ghost use Rattle.graph_runs.specs.Beginnings.{mode_on, root_mode, roots_joined};

use phase_base::Mode;
use stream_lists::Job;

/// The mode in which task number `t` is registered on phaser number `p`, where it is.
fn mode_on(job: &Job, t: usize, p: usize) -> Option<Mode>
    requires { t < length job.now.graph.tasks }
    ensures { result ≡ mode_on job.now t p }
{
    for k in 0..job.graph().registrations(t) {
        let registration = job.graph().registration(t, k);
        if registration.phaser == p {
            return Some(registration.mode);
        }
    }
    None
}

/// The same of a task without a parent, and nothing of a child.
pub fn root_mode(job: &Job, t: usize, p: usize) -> Option<Mode>
    requires { t < length job.now.graph.tasks }
    ensures { result ≡ root_mode job.now t p }
{
    match job.graph().task(t).parent {
        None => mode_on(job, t, p),
        Some(_) => None,
    }
}

/// The number of task number `t` on phaser number `p`, where it begins there: the founder is 0, and
/// the tasks above it that begin there are 1, 2, ..
pub fn root_number(job: &Job, t: usize, p: usize) -> u64
    requires { t ≤ length job.now.graph.tasks }
    ensures { result ≡ greatest_used (roots_joined job.now p t) + 1 }
{
    let _few = job.graph().tasks();
    let mut number = 1;
    for u in 0..t {
        if root_mode(job, u, p).is_some() {
            number += 1;
        }
    }
    number
}
