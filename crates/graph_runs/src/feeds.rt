//! What samples that come later leave as it is. The contract of each function is the law.
ghost use Rattle.std.specs.Prelude.{◌≡◌, ◌<◌, ◌≤◌, Some, None, ℕ, ℤ, List, length, Bool, nat_le};
ghost use Rattle.graph_base.specs.declared.line.Kind.TheVariants.{Source};
ghost use Rattle.graph_runs.specs.Nexts.{next_of};
ghost use Rattle.graph_runs.specs.TaskPlaces.{TaskPlace, StandsUpTo};
ghost use mathlib.Core.List.{IsPrefix};
ghost use Rattle.graph_base.specs.Graphs.{task_at};
ghost use Rattle.graph_base.specs.TaskLines.{IsGraph};
ghost use Rattle.stream_lists.specs.Jobs.{Job, samples_at, samples_in, with_samples};
ghost use Rattle.stream_lists.specs.Lists.{numbers_of, taken_from};
ghost use Rattle.stream_lists.specs.Spans.{span_in};
ghost use Rattle.graph_runs.specs.Moments.{Moment, HasRun, started};
ghost use Rattle.graph_runs.specs.Reached.{IsReachable};
ghost use Rattle.graph_runs.specs.Settled.{IsFaultAt, IsReady};
ghost use Rattle.graph_runs.specs.Answers.{TooBig, after_answer, answer_of_turn, turn_tells};
ghost use Rattle.stream_lists.specs.Ranges.{Where};
ghost use Rattle.graph_runs.specs.TaskEvents.{TaskEvent, IsNext, after_turn};
ghost use Rattle.graph_runs.specs.Feeds.{Continues, IsFed, IsOpenAt, NotStarved};

use crate::{moments, turns};

/// A run of a job up to a moment is one of the job with other samples, too, as long as they begin
/// with those that the sources have signalled, and no source has left that would now have more.
pub fn runs_go_on()
    ensures ran { (job : Job) (m : Moment) (samples : List (List ℤ)) → IsGraph job.graph
        → HasRun job m → Continues job m samples → HasRun (with_samples samples job) m }
    ensures reachable { (job : Job) (m : Moment) (samples : List (List ℤ)) → IsGraph job.graph
        → IsReachable job m → Continues job m samples
        → IsReachable (with_samples samples job) m }
{}

/// More samples for sources that have not ended continue the run, and leave them as open as they
/// were. A turn that lets no starved source leave does so, too.
pub fn feeds_go_on()
    ensures continues { (job : Job) (ended : ℕ → Bool) (m : Moment) (samples : List (List ℤ))
        → HasRun job m → IsOpenAt job ended m → IsFed job ended samples
        → Continues job m samples }
    ensures opens { (job : Job) (ended : ℕ → Bool) (m : Moment) (samples : List (List ℤ))
        → IsOpenAt job ended m → IsOpenAt (with_samples samples job) ended m }
    ensures turn { (job : Job) (ended : ℕ → Bool) (m : Moment) (event : TaskEvent)
        → IsGraph job.graph → HasRun job m → IsNext job m event → NotStarved job ended m event
        → IsOpenAt job ended m → IsOpenAt job ended (after_turn job event m) }
{}

/// What a task has taken so far begins what it takes in the job with any samples that continue the
/// run: so what a sink has written is right, whatever comes.
pub fn taken_is_right()
    ensures { (job : Job) (m : Moment) (samples : List (List ℤ)) (t k : ℕ)
        → IsReady (with_samples samples job) → HasRun job m → Continues job m samples
        → t < length job.graph.tasks → k < length (task_at job.graph t).inputs
        → IsPrefix (m.taken t k)
        (taken_from (numbers_of (started (with_samples samples job) m)) (task_at job.graph t)
        (span_in (started (with_samples samples job) m) t) k) }
{
    moments::takes();
}

/// Where a task stands stays with samples that continue the run, and so does what it does next, but
/// for a source that was starved and has samples now, or was not and is.
pub fn places_go_on()
    ensures stands { (most : ℕ) (job : Job) (m : Moment) (more : List (List ℤ)) (t : ℕ)
        (at : TaskPlace) → Continues job m more → t < length job.graph.tasks
        → StandsUpTo most job m t at → StandsUpTo most (with_samples more job) m t at }
    ensures next { (job : Job) (m : Moment) (more : List (List ℤ)) (t : ℕ)
        → Continues job m more → t < length job.graph.tasks
        → ((task_at job.graph t).kind ≡ Source
        → nat_le (length (samples_in job more t)) (m.begun t)
        ≡ nat_le (length (samples_at job t)) (m.begun t))
        → next_of (with_samples more job) m t ≡ next_of job m t }
{}

/// What a turn tells as out of range is so with any samples that continue the run behind the turn:
/// so who is fed, and stops at the first that a turn tells, has named a value that counts, whatever
/// comes.
pub fn faults_go_on()
    ensures { (job : Job) (m : Moment) (t : ℕ) (at : Where) (samples : List (List ℤ))
        → IsReady (with_samples samples job) → IsReachable job m
        → turn_tells job None m t ≡ Some (TooBig at)
        → Continues job (after_answer job (answer_of_turn job m t) m) samples
        → IsFaultAt (started (with_samples samples job)
        (after_answer job (answer_of_turn job m t) m)) at }
{
    turns::turns_stay_reached();
}
