//! What all tasks have seen, put together.
ghost use Rattle.std.specs.Prelude.{◌≡◌, ◌<◌, [], ◌∷◌, ℕ, length, IfOk, IfSome};
ghost use Rattle.graph_base.specs.TaskLines.{IsGraph};
ghost use Rattle.stream_members.specs.Members.{Spot};
ghost use Rattle.stream_members.specs.declared.any_left.AnyLeft.{AnyLeft as LeftValue};
ghost use Rattle.graph_runs.specs.TaskPlaces.{registration_at};
ghost use Rattle.graph_runs.specs.RunEnds.{Ends};
ghost use Rattle.stream_tasks.specs.declared.ending.task_left.TaskLeft.{TaskLeft as TaskLeftValue};
ghost use Rattle.stream_tasks.specs.Joinings.{IsPlaced, HasPlaceFor, HaveGrown, IsTakenIn};
ghost use Rattle.stream_tasks.specs.Gatherings.{AreGathered};
ghost use Rattle.stream_tasks.specs.TaskLefts.{IsTaskLeft, HasLeftAs};

use crate::ending::joining::take_all_in;
use crate::ending::task_left::{TaskKnowledge, TaskLeft};
use std::alloc::{AllocError, Global};
use stream_lists::Job;
use stream_members::AnyLeft;

/// Puts what the tasks have seen to what their founders have, phaser by phaser. It gives what each
/// task knows of itself, or none where one stands at another's place.
pub fn gather<'a>(
    alloc: Global,
    job: &Job,
    joined: &mut Vec<Option<AnyLeft<'a>>>,
    tasks: Vec<Option<TaskLeft<'a>>>,
) -> Result<Option<Vec<Option<TaskKnowledge>>>, AllocError>
    requires graph { IsGraph job.now.graph }
    requires phasers { length joined.old.items ≡ length job.now.graph.phasers }
    requires tasks { length tasks.items ≡ length job.now.graph.tasks }
    requires left { (spots : ℕ → Spot)
        × ((p : ℕ) → p < length job.now.graph.phasers → (founder : LeftValue)
        × IsPlaced joined.old.items p founder × HasLeftAs job.now spots p (0 ∷ []) founder)
        × ((t : ℕ) (left : TaskLeftValue) → IsPlaced tasks.items t left
        → IsTaskLeft job.now spots left) }
    ensures { IfOk result (λ found. IfSome found (λ parts. (ends : Ends)
        × AreGathered job.now joined.old.items joined.new.items parts.items ends
        × (length ends ≡ length job.now.graph.tasks))) }
{
    let mut tasks = tasks;
    let mut parts = Vec::with_capacity(alloc, tasks.len())?;
    for t in 0..tasks.len() {
        let Some(left) = tasks[t].take() else {
            parts.push(None)?;
            continue;
        };
        let TaskLeft { task, part, lefts } = left;
        if task != t {
            return Ok(None);
        }
        take_all_in(joined, job, t, lefts);
        parts.push(Some(part))?;
    }
    Ok(Some(parts))
}
