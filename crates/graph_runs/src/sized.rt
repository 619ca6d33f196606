//! Turns of other sizes than a block of the task's line. The contract of the function is the law.
ghost use Rattle.std.specs.Prelude.{◌≡◌, ◌≢◌, ℕ, ℤ, List, Some};
ghost use Rattle.phase_accum.specs.Sends.{AreSends};
ghost use Rattle.graph_base.specs.TaskLines.{IsGraph};
ghost use Rattle.stream_lists.specs.Jobs.{Job, samples_at, with_samples};
ghost use Rattle.stream_lists.specs.Ranges.{Where};
ghost use Rattle.graph_runs.specs.Moments.{Moment, HasAnsweredNone, HasAnsweredNoneBefore, started};
ghost use Rattle.graph_runs.specs.TaskEvents.{TaskEvent, IsNext};
ghost use Rattle.graph_runs.specs.NextBlocks.{MaySize};
ghost use Rattle.graph_runs.specs.Answers.{TooBig, after_answer, is_refused, makes, tells_up_to, turn_up_to};
ghost use Rattle.graph_runs.specs.Feeds.{Continues};
ghost use Rattle.graph_runs.specs.Reached.{IsReachable};
ghost use Rattle.graph_runs.specs.Settled.{IsFaultAt, IsReady};

/// A turn that makes at most so many steps, or signals at most so many of the values that its task
/// owes, does what a turn by the table does: its event is the task's next one, it leads from a
/// reached moment to one that is reached, it is not refused, it leaves no wait that was answered a
/// value too big but where it tells one, and what it tells is a fault whatever samples come behind.
/// Of the sizes it asks that the line may name such a block.
pub fn turns_up_to()
    ensures next { (steps most : ℕ) (job : Job) (m : Moment) (t : ℕ) (event : TaskEvent)
        → MaySize job.graph t steps most → IsGraph job.graph → IsReachable job m
        → turn_up_to steps most job m t ≡ makes event → IsNext job m event }
    ensures reached { (steps most : ℕ) (job : Job) (m : Moment) (t : ℕ)
        → MaySize job.graph t steps most → IsGraph job.graph → IsReachable job m
        → IsReachable job (after_answer job (turn_up_to steps most job m t) m) }
    ensures answered { (steps most : ℕ) (job : Job) (m : Moment) (t : ℕ)
        → MaySize job.graph t steps most → IsGraph job.graph → AreSends (samples_at job t)
        → IsReachable job m → turn_up_to steps most job m t ≢ is_refused }
    ensures none { (steps most : ℕ) (job : Job) (m : Moment) (t : ℕ)
        → MaySize job.graph t steps most → IsGraph job.graph → IsReachable job m
        → HasAnsweredNone job m
        → ((at : Where) → tells_up_to steps most job m t ≢ Some (TooBig at))
        → HasAnsweredNone job (after_answer job (turn_up_to steps most job m t) m) }
    ensures last { (steps most : ℕ) (job : Job) (m : Moment) (t : ℕ) → HasAnsweredNone job m
        → HasAnsweredNoneBefore job (after_answer job (turn_up_to steps most job m t) m) }
    ensures faults { (steps most : ℕ) (job : Job) (m : Moment) (t : ℕ) (at : Where)
        (samples : List (List ℤ)) → MaySize job.graph t steps most
        → IsReady (with_samples samples job) → IsReachable job m
        → tells_up_to steps most job m t ≡ Some (TooBig at)
        → Continues job (after_answer job (turn_up_to steps most job m t) m) samples
        → IsFaultAt (started (with_samples samples job)
        (after_answer job (turn_up_to steps most job m t) m)) at }
{}
