//! What holds of every moment of a run. Each function here makes no call and has no effect: its
//! contract is the law. `IsReady` is what reading a graph and making a job tell, and `HasRun` what
//! the events of a run keep, in whatever order the tasks take their turns.
ghost use Rattle.std.specs.Prelude.{◌≡◌, ◌≢◌, ◌+◌, ◌<◌, ◌≤◌, ℕ, ℤ, suc, pos, List, Some, None, Ok, true, length, get_or, map};
ghost use mathlib.Core.List.{IsPrefix};
ghost use Rattle.phase_accum.specs.declared.outcome.Outcome.TheVariants.{TooBig};
ghost use Rattle.phase_history.specs.Histories.{HasNoSignaller, done_of};
ghost use Rattle.phase_history.specs.Phases.{stream_of, value_of_phase};
ghost use Rattle.graph_base.specs.Graphs.{task_at};
ghost use Rattle.graph_base.specs.TaskLines.{IsGraph};
ghost use Rattle.graph_base.specs.declared.place.Place.TheVariants as place;
ghost use Rattle.stream_lists.specs.Jobs.{Job, index_in};
ghost use Rattle.stream_lists.specs.Lists.{numbers_of, list_of_phaser, taken_from, sinks_of};
ghost use Rattle.stream_lists.specs.Ranges.{Where, first_too_big, answer_of, are_made, is_out_of_range};
ghost use Rattle.stream_lists.specs.Spans.{span_in, signalled_by};
ghost use Rattle.graph_runs.specs.Moments.{Moment, HasRun, IsOver, IsRegistered, started, HasMetNone, AnsweredNone, HasExchanged, value_at, input_at, made_now};
ghost use Rattle.graph_runs.specs.Settled.{IsReady, Stands, PutsOut, IsFaultAt, IsPlaceThere};

/// The phases of a phaser that are complete have the values that its list begins with, and where no
/// task signals any more they are the whole list. So a wait is answered what the graph's lines say,
/// whoever runs the tasks, in whatever order and however far they have come.
pub fn streams()
    ensures begin { (job : Job) (m : Moment) (p : ℕ) → IsReady job → HasRun job m
        → p < length job.graph.phasers
        → IsPrefix (stream_of (value_at job p) (m.history p)) (list_of_phaser (started job m) p) }
    ensures whole { (job : Job) (m : Moment) (p : ℕ) → IsReady job → HasRun job m
        → p < length job.graph.phasers → HasNoSignaller (m.history p)
        → stream_of (value_at job p) (m.history p) ≡ list_of_phaser (started job m) p }
{}

/// What a task has taken from an input at some moment begins what it takes there in all its steps.
/// So the values that a sink has so far are right, and can be shown while the run goes on.
pub fn takes()
    ensures { (job : Job) (m : Moment) (t k : ℕ) → IsReady job → HasRun job m
        → t < length job.graph.tasks → k < length (task_at job.graph t).inputs
        → IsPrefix (m.taken t k)
        (taken_from (numbers_of (started job m)) (task_at job.graph t)
        (span_in (started job m) t) k) }
{}

/// A registered task is one that is live by the lines: it began at its offset, and has begun at
/// most its steps, and all of them where it may end. What it has put on an output begins its output
/// list, and is all of it where the task has ended. So no run registers a task that should not
/// come, or lets one leave too early.
pub fn members()
    ensures stands { (job : Job) (m : Moment) (t : ℕ) → IsReady job → HasRun job m
        → t < length job.graph.tasks → IsRegistered m t → Stands (started job m) m t }
    ensures puts { (job : Job) (m : Moment) (t j : ℕ) → IsReady job → HasRun job m
        → t < length job.graph.tasks → IsRegistered m t
        → j < length (signalled_by (task_at job.graph t)) → PutsOut (started job m) m t j }
{}

/// A value that is too big and that a task has taken is out of range by the graph's lines too, in
/// the same phase, and so is a value out of range that a step of a task makes, at the same step:
/// `met` and `made`. The job does not fit then: `tells`. So a run that stops at such a value and
/// names its place has named one that counts.
pub fn too_big_is_a_fault()
    ensures met { (job : Job) (m : Moment) (t k n : ℕ) → IsReady job → HasRun job m
        → t < length job.graph.tasks → k < length (task_at job.graph t).inputs → IsRegistered m t
        → m.offset t ≤ n → n < m.offset t + length (m.taken t k)
        → n < done_of (m.history (input_at (task_at job.graph t) k))
        → value_of_phase (value_at job (input_at (task_at job.graph t) k))
        (m.history (input_at (task_at job.graph t) k)) n ≡ TooBig
        → IsFaultAt (started job m) (place.Phaser (input_at (task_at job.graph t) k), n) }
    ensures made { (job : Job) (m : Moment) (t j p i : ℕ) → IsReady job → HasRun job m
        → t < length job.graph.tasks → p < length job.graph.phasers → IsRegistered m t
        → index_in (signalled_by (task_at job.graph t)) p ≡ Some j
        → are_made (task_at job.graph t).kind j ≡ true → i < length (made_now job m t j)
        → HasExchanged (task_at job.graph t).kind j (suc i) (length (m.taken t 1))
        → is_out_of_range (get_or (made_now job m t j) i (pos 0)) ≡ true
        → IsFaultAt (started job m) (place.Task t, i) }
    ensures tells { (job : Job) (at : Where) → IsGraph job.graph → IsPlaceThere job at
        → IsFaultAt job at → first_too_big job ≢ None }
{}

/// Where a run is over and no task has got a value that is too big, the answer of the job is what
/// its sinks have taken. This is what a run that ends well has written.
pub fn answers()
    ensures { (job : Job) (m : Moment) → IsReady job → HasRun job m → IsOver job m
        → HasMetNone job m
        → answer_of (started job m) ≡ Ok (map (λ t. (t, m.taken t 0)) (sinks_of job)) }
{}

/// Where no wait on any phaser was answered a value that is too big, no task has got one. So
/// whoever runs a graph, and stops at the first such answer, has the premise of `answers` at the
/// end.
pub fn met_none()
    ensures { (job : Job) (m : Moment)
        → ((p : ℕ) → p < length job.graph.phasers
        → AnsweredNone (value_at job p) (m.history p))
        → HasMetNone job m }
{}
