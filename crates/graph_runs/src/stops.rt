//! What holds of a run whose tasks are stopped wherever they stand. Each function's contract is the
//! law. `specs/Stops.antt` has what each task knows then; the end of a run (`ends`) is a stop whose
//! tasks have left.
ghost use Rattle.std.specs.Prelude.{◌≡◌, ◌<◌, ℕ, ℤ, List, Bool, length};
ghost use Rattle.graph_runs.specs.Feeds.{IsFed};
ghost use Rattle.graph_runs.specs.Moments.{Moment, HasRun};
ghost use Rattle.graph_runs.specs.RunEnds.{Ends};
ghost use Rattle.graph_runs.specs.Settled.{IsReady};
ghost use Rattle.graph_runs.specs.Stops.{IsStop, IsFedStop, IsRightFor};
ghost use Rattle.stream_lists.specs.Jobs.{Job, with_samples};
ghost use Rattle.graph_base.specs.TaskLines.{IsGraph};

use crate::feeds;

/// Wherever the tasks of a run stand, what they know of themselves is one moment of all that has
/// run.
pub fn stops_have_run()
    ensures { (job : Job) (ends : Ends) → IsGraph job.graph → IsStop job ends
        → (m : Moment) × HasRun job m }
{}

/// Where the tasks of a run are stopped whose sources were fed, each for itself, what each sink has
/// taken begins its values in every run whose samples go on so.
pub fn stops_are_right()
    ensures { (job : Job) (samples more : List (List ℤ)) (ended : ℕ → Bool) (ends : Ends)
        → IsReady (with_samples more job) → IsFedStop job samples ended ends
        → IsFed (with_samples samples job) ended more
        → IsRightFor (with_samples more job) ends }
{
    feeds::feeds_go_on();
    feeds::taken_is_right();
}
