//! Whether the numbers that founders gave are those of tasks.
ghost use Rattle.std.specs.Prelude.{◌≡◌, ◌<◌, [], ℕ, true, length, get_or, map};
ghost use Rattle.graph_runs.specs.Nexts.{registrations_at};
ghost use Rattle.graph_runs.specs.TaskPlaces.{registration_at};
ghost use Rattle.stream_tasks.specs.Agreeing.{IsNumberOfTask, AreOfTasks, HasNumberOn};

use crate::ending::agreeing::part_at;
use crate::ending::task_left::TaskKnowledge;
use stream_lists::Job;

/// Whether task number `t`, which knows this of itself, has this number on phaser `p`.
fn has_number(job: &Job, part: &TaskKnowledge, t: usize, p: usize, number: u64) -> bool
    requires { t < length job.now.graph.tasks }
    ensures { result ≡ true → HasNumberOn job.now part.now t p number }
{
    let numbers = part.numbers.as_slice();
    for i in 0..job.graph().registrations(t) {
        if job.graph().registration(t, i).phaser == p && i < numbers.len() && numbers[i] == number {
            return true;
        }
    }
    false
}

/// Whether a task that came has this number on phaser `p`.
fn is_of_task(job: &Job, parts: &[Option<TaskKnowledge>], p: usize, number: u64) -> bool
    ensures { result ≡ true → IsNumberOfTask job.now parts.now p number }
{
    for t in 0..job.graph().tasks() {
        let Some(part) = part_at(parts, t) else {
            continue;
        };
        if has_number(job, part, t, p, number) {
            return true;
        }
    }
    false
}

/// Whether each of these numbers is that of a task on phaser `p`.
fn are_of_tasks(job: &Job, parts: &[Option<TaskKnowledge>], p: usize, gave: &[u64]) -> bool
    ensures { result ≡ true → AreOfTasks job.now parts.now p gave.now }
{
    for k in 0..gave.len() {
        if !is_of_task(job, parts, p, gave[k]) {
            return false;
        }
    }
    true
}

/// Whether the numbers that the founders of the phasers gave are those of tasks.
pub fn all_of_tasks(job: &Job, parts: &[Option<TaskKnowledge>], gave: &[Vec<u64>]) -> bool
    ensures { result ≡ true → (p : ℕ) → p < length gave.now
        → AreOfTasks job.now parts.now p (get_or (map (λ g. g.items) gave.now) p []) }
{
    for p in 0..gave.len() {
        if !are_of_tasks(job, parts, p, &gave[p]) {
            return false;
        }
    }
    true
}
