//! What runs by turns come to: whether a value out of range was met, and that a run is over. Each
//! function here makes no call and has no effect: its contract is the law.
ghost use Rattle.std.specs.Prelude.{◌≡◌, ◌≢◌, ◌<◌, ℕ, Some, None, Ok, false, length, map};
ghost use Rattle.graph_base.specs.TaskLines.{IsGraph};
ghost use Rattle.stream_lists.specs.Jobs.{Job};
ghost use Rattle.stream_lists.specs.Lists.{sinks_of};
ghost use Rattle.stream_lists.specs.Ranges.{Where, answer_of};
ghost use Rattle.graph_runs.specs.InTime.{BeginsInTime};
ghost use Rattle.graph_runs.specs.Moments.{Moment, HasRun, IsOver, HasAnsweredNone, HasAnsweredNoneBefore, started};
ghost use Rattle.graph_runs.specs.Settled.{IsReady, IsFaultAt, IsPlaceThere};
ghost use Rattle.graph_runs.specs.Nexts.{first_missing, is_live};
ghost use Rattle.graph_runs.specs.Answers.{TooBig, answer_of_turn, after_answer, turn_tells};
ghost use Rattle.graph_runs.specs.Beginnings.{opening};
ghost use Rattle.graph_runs.specs.Reached.{IsReachable};

use crate::{moments, turns};

/// What a turn tells as out of range is a fault of the job whose sinks that join now begin where
/// they do at that moment: the value of a phase that some task takes, or one that a live task
/// makes. So who gives turns, and stops at the first that tells so, has named a value that counts.
pub fn told_is_a_fault()
    ensures { (job : Job) (m : Moment) (t : ℕ) (at : Where) → IsReady job → IsReachable job m
        → turn_tells job None m t ≡ Some (TooBig at) → IsFaultAt (started job m) at }
{
    turns::turns_make_next_events();
}

/// A fault of a job stands on a line of its graph.
pub fn faults_are_there()
    ensures { (job : Job) (at : Where) → IsFaultAt job at → IsPlaceThere job at }
{}

/// At the opening no wait was answered a value that is too big, and a turn that tells no value out
/// of range leaves none that was: `opening` and `none`. A turn that tells one leaves at most the
/// last event of each phaser: `last`. So who stops at the first that tells one knows of all waits
/// before.
pub fn turns_answer_none()
    ensures opening { (job : Job) → HasAnsweredNone job (opening job) }
    ensures none { (job : Job) (m : Moment) (t : ℕ) → IsGraph job.graph → IsReachable job m
        → HasAnsweredNone job m → ((at : Where) → turn_tells job None m t ≢ Some (TooBig at))
        → HasAnsweredNone job (after_answer job (answer_of_turn job m t) m) }
    ensures last { (job : Job) (m : Moment) (t : ℕ) → HasAnsweredNone job m
        → HasAnsweredNoneBefore job (after_answer job (answer_of_turn job m t) m) }
{}

/// Where no task is live at a reached moment, the run is over: each task that came has left, and
/// nobody signals. Where besides no wait was answered a value that is too big, the answer of the
/// job is what its sinks have taken. So who gives turns until no task is live has all that the
/// sinks get.
pub fn all_gone()
    ensures over { (job : Job) (m : Moment) → IsGraph job.graph → IsReachable job m
        → ((t : ℕ) → is_live job m t ≡ false) → IsOver job m }
    ensures answer { (job : Job) (m : Moment) → IsReady job → IsReachable job m
        → ((t : ℕ) → is_live job m t ≡ false) → HasAnsweredNone job m
        → answer_of (started job m) ≡ Ok (map (λ t. (t, m.taken t 0)) (sinks_of job)) }
{
    moments::answers();
    moments::met_none();
}

/// A sink that joins now begins at most one phase behind the last of its phaser's list, once it is
/// registered: `came`, and where the run is over: `over`.
pub fn starts_are_in_time()
    ensures came { (job : Job) (m : Moment) (t : ℕ) → IsReady job → HasRun job m
        → t < length job.graph.tasks → first_missing job m t ≡ None
        → BeginsInTime (started job m) t }
    ensures over { (job : Job) (m : Moment) (t : ℕ) → IsReady job → HasRun job m → IsOver job m
        → t < length job.graph.tasks → BeginsInTime (started job m) t }
{}
