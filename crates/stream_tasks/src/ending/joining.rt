//! What the members of the phasers have seen, put together.
ghost use Rattle.std.specs.Prelude.{◌≡◌, ◌<◌, ℕ, length, slice_get, Some};
ghost use Rattle.graph_base.specs.TaskLines.{IsGraph};
ghost use Rattle.stream_members.specs.declared.any_left.AnyLeft.{AnyLeft as LeftValue};
ghost use Rattle.graph_runs.specs.Nexts.{registrations_at};
ghost use Rattle.graph_runs.specs.TaskPlaces.{registration_at};
ghost use Rattle.stream_tasks.specs.Joinings.{HasPlaceFor, HaveGrown, IsTakenIn};
ghost use Rattle.stream_tasks.specs.EndsInside.{HasTakenIn};

use stream_lists::Job;
use stream_members::AnyLeft;

/// Makes one of what stands at place `p` and this, which left the same phaser.
fn take_in<'a>(joined: &mut Vec<Option<AnyLeft<'a>>>, p: usize, left: AnyLeft<'a>)
    requires within { p < length joined.old.items }
    requires there { HasPlaceFor joined.old.items p left }
    ensures { HasTakenIn joined.old.items joined.new.items p left.entry }
{
    let Some(one) = joined[p].take() else {
        unreachable!()
    };
    joined[p] = Some(one.join(left));
}

/// Makes one of what stands for each phaser and what a task has seen of it, which it gives in the
/// order of its registrations.
pub fn take_all_in<'a>(
    joined: &mut Vec<Option<AnyLeft<'a>>>,
    job: &Job,
    t: usize,
    lefts: Vec<AnyLeft<'a>>,
)
    requires graph { IsGraph job.now.graph }
    requires task { t < length job.now.graph.tasks }
    requires phasers { length joined.old.items ≡ length job.now.graph.phasers }
    requires long { length lefts.items ≡ length (registrations_at job.now t) }
    requires there { (i : ℕ) (left : LeftValue) → slice_get lefts.items i ≡ Some left
        → HasPlaceFor joined.old.items (registration_at job.now t i).phaser left }
    ensures long { length joined.new.items ≡ length joined.old.items }
    ensures grown { HaveGrown joined.old.items joined.new.items }
    ensures taken { (i : ℕ) (left : LeftValue) → slice_get lefts.entry.items i ≡ Some left
        → IsTakenIn joined.old.items joined.new.items (registration_at job.now t i).phaser left }
{
    let mut lefts = lefts;
    for _ in 0..job.graph().registrations(t) {
        let Some(left) = lefts.pop() else {
            return;
        };
        let p = job.graph().registration(t, lefts.len()).phaser;
        take_in(joined, p, left);
    }
}
