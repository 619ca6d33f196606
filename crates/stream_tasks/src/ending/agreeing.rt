//! Whether what the tasks know of one another agrees.
ghost use Rattle.std.specs.Prelude.{◌≡◌, ◌<◌, ℕ, true, length, slice_get, IfSome, None};
ghost use Rattle.graph_base.specs.TaskLines.{IsGraph};
ghost use Rattle.stream_tasks.specs.declared.ending.task_left.TaskKnowledge.{TaskKnowledge as TaskKnowledgeValue};
ghost use Rattle.stream_tasks.specs.Joinings.{IsPlaced};
ghost use Rattle.stream_tasks.specs.TaskLefts.{given_to};
ghost use Rattle.stream_tasks.specs.Agreeing.{Agrees};

use crate::child::Child;
use crate::ending::task_left::TaskKnowledge;
use stream_lists::Job;

/// What task number `t` knows of itself, where it came.
pub(crate) fn part_at(parts: &[Option<TaskKnowledge>], t: usize) -> Option<&TaskKnowledge>
    ensures some { IfSome result (λ part. IsPlaced parts.now t part.now) }
    ensures none { result ≡ None → (part : TaskKnowledgeValue) → IsPlaced parts.now t part → ⊥ }
{
    match parts.get(t) {
        Some(Some(part)) => Some(part),
        _ => None,
    }
}

/// The numbers that were given to task number `c`, and none where it stands nowhere.
fn given_to(given: &[Child], c: usize) -> &[u64]
    ensures { result.now ≡ given_to given.now c }
{
    for i in 0..given.len() {
        if given[i].task == c {
            return given[i].numbers.as_slice();
        }
    }
    &[]
}

/// Whether what task number `c` and its parent know of one another agrees: it came where it has
/// none, and else with just the numbers that its parent gave it, after the steps at which it comes.
fn agrees(job: &Job, parts: &[Option<TaskKnowledge>], c: usize) -> bool
    requires { c < length job.now.graph.tasks }
    ensures { result ≡ true → Agrees job.now parts.now c }
{
    let own = part_at(parts, c);
    let Some(parent) = job.graph().task(c).parent else {
        return own.is_some();
    };
    match (own, part_at(parts, parent.task)) {
        (None, None) => true,
        (Some(_), None) => false,
        (None, Some(above)) => given_to(&above.given, c).is_empty(),
        (Some(own), Some(above)) => {
            parent.at <= above.begun && given_to(&above.given, c) == own.numbers.as_slice()
        }
    }
}

/// Whether what all tasks know of one another agrees.
pub fn all_agree(job: &Job, parts: &[Option<TaskKnowledge>]) -> bool
    ensures { result ≡ true → (c : ℕ) → c < length job.now.graph.tasks
        → Agrees job.now parts.now c }
{
    for c in 0..job.graph().tasks() {
        if !agrees(job, parts, c) {
            return false;
        }
    }
    true
}
