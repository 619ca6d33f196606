//! What a task's calls leave of its part. Each function here makes no call and has no effect: its
//! contract is the law.
ghost use Rattle.std.specs.Prelude.{◌<◌, ◌+◌, ℕ, ℤ, List, [], ◌∷◌, length};
ghost use Rattle.phase_accum.specs.declared.outcome.Outcome.{Outcome};
ghost use Rattle.phase_history.specs.Histories.{History};
ghost use Rattle.graph_base.specs.Graphs.{task_at};
ghost use Rattle.graph_base.specs.TaskLines.{IsGraph};
ghost use Rattle.stream_lists.specs.Jobs.{Job};
ghost use Rattle.graph_runs.specs.Moments.{Moment, HasEnded, RanOut, input_at};
ghost use Rattle.graph_runs.specs.Moves.{IsStaying, NoneDue};
ghost use Rattle.graph_runs.specs.Parts.{HasPart, SeesOthers, SeesOwn, HasSeen, put_event, IsAnsweredBy, IsAnsweredEnd, AreNextValues, AreNextSamples, HasPut, BeginsSteps, IsExchange, HasGot, LeavesPart};

use phase_history::Event;

/// A call that makes no event leaves the part with the history that was seen by it: the task is as
/// it was, and has still left none of its phasers, or ended, as it had.
pub fn others_come()
    ensures { (job : Job) (m : Moment) (t p n : ℕ) (now : History) → IsGraph job.graph
        → t < length job.graph.tasks → HasPart job m t → SeesOthers job m t p n now
        → (after : Moment) × HasSeen job m after t p now }
{}

/// A signal with the next values of begun steps, or of a source with its next samples, which begins
/// as many steps, leaves the part with those values put.
pub fn puts()
    ensures values { (job : Job) (m : Moment) (t j p n : ℕ) (vs : List ℤ) (before : History)
        → IsGraph job.graph → t < length job.graph.tasks → HasPart job m t
        → SeesOwn job m t p n (put_event job p n vs) before → AreNextValues job m t j p vs
        → (after : Moment)
        × HasPut job m after t j p vs (m.begun t) (put_event job p n vs ∷ before) }
    ensures samples { (job : Job) (m : Moment) (t j p n : ℕ) (vs : List ℤ) (before : History)
        → IsGraph job.graph → t < length job.graph.tasks → HasPart job m t
        → SeesOwn job m t p n (put_event job p n vs) before → AreNextSamples job m t j p vs
        → (after : Moment) × HasPut job m after t j p vs (m.begun t + length vs)
        (put_event job p n vs ∷ before) }
{}

/// A wait that begins steps, or a peer's for the value on E, leaves the part with what it was
/// answered taken.
pub fn gets()
    ensures first { (job : Job) (m : Moment) (t k p n : ℕ) (outcomes : List Outcome)
        (before : History) → IsGraph job.graph → t < length job.graph.tasks → HasPart job m t
        → SeesOwn job m t p n (Event.Waited n (length outcomes)) before
        → IsAnsweredBy job p n outcomes before → BeginsSteps job m t k p (length outcomes)
        → (after : Moment) × HasGot job m after t k p outcomes (m.begun t + length outcomes)
        (Event.Waited n (length outcomes) ∷ before) }
    ensures exchange { (job : Job) (m : Moment) (t p n : ℕ) (outcome : Outcome) (before : History)
        → IsGraph job.graph → t < length job.graph.tasks → HasPart job m t
        → SeesOwn job m t p n (Event.Waited n 1) before
        → IsAnsweredBy job p n (outcome ∷ []) before
        → IsExchange job m t p → (after : Moment)
        × HasGot job m after t 1 p (outcome ∷ []) (m.begun t) (Event.Waited n 1 ∷ before) }
{}

/// A wait that is answered that its input has ended leaves the part with that input run out.
pub fn ends()
    ensures { (job : Job) (m : Moment) (t k n : ℕ) (now : History) → IsGraph job.graph
        → t < length job.graph.tasks → HasPart job m t → IsStaying m t
        → k < length (task_at job.graph t).inputs
        → SeesOthers job m t (input_at (task_at job.graph t) k) n now
        → IsAnsweredEnd job (input_at (task_at job.graph t) k) n now → (after : Moment)
        × HasSeen job m after t (input_at (task_at job.graph t) k) now
        × RanOut after (task_at job.graph t) t k }
{}

/// Leaving a phaser at the task's end, when no child is due there, leaves the part with the task
/// gone from there, and ended still.
pub fn leaves()
    ensures { (job : Job) (m : Moment) (t p n : ℕ) (before : History) → IsGraph job.graph
        → t < length job.graph.tasks → HasPart job m t
        → SeesOwn job m t p n (Event.Dropped n) before → HasEnded job m t → NoneDue job m t p
        → (after : Moment) × LeavesPart job m after t p (Event.Dropped n ∷ before) }
{}
