//! What a turn makes is the task's next event. Each function here makes no call and has no effect:
//! its contract is the law.
ghost use Rattle.std.specs.Prelude.{◌≡◌, ◌≢◌, ◌+◌, ◌-◌, ◌<◌, ◌≤◌, ℕ, List, Option, Some, None, false, IsSome, length, slice_get, ℤ};
ghost use Rattle.phase_accum.specs.Sends.{AreSends};
ghost use Rattle.phase_accum.specs.declared.outcome.Outcome.{Outcome};
ghost use Rattle.graph_base.specs.Graphs.{task_at};
ghost use Rattle.graph_base.specs.Registrations.{signalled_by};
ghost use Rattle.graph_base.specs.TaskLines.{IsGraph};
ghost use Rattle.stream_lists.specs.Jobs.{Job, samples_at};
ghost use Rattle.stream_lists.specs.Ranges.{Where};
ghost use Rattle.graph_base.specs.declared.line.Parent.{Parent};
ghost use Rattle.graph_runs.specs.Moments.{Moment, HasRun, HasSamples, input_at};
ghost use Rattle.graph_runs.specs.Moves.{further, MayBeginTo};
ghost use Rattle.graph_runs.specs.Turned.{after_signals, after_waits, IsNextSamples, IsNextSignals, IsFirstWaits};
ghost use Rattle.graph_runs.specs.NextBlocks.{block_of, until_allows};
ghost use Rattle.graph_runs.specs.TaskEvents.{TaskEvent, IsNext, after_turn, sample, signal, first_wait, exchange_wait, leave};
ghost use Rattle.graph_runs.specs.Nexts.{first_due, HasChildrenToCome, first_missing, first_kept, first_owed, is_cut, registrations_at};
ghost use Rattle.graph_runs.specs.Answers.{answer_of_turn, after_answer, after_turns, makes, is_refused, turn_tells, output_at};
ghost use Rattle.graph_runs.specs.Beginnings.{opening};
ghost use Rattle.graph_runs.specs.Reached.{HasBegun, IsReachable};
ghost use Rattle.graph_runs.specs.TaskPlaces.{TaskPlace, StandsAt, own_place, child_place, child_of, number_given, registration_at, registration_of_output};

/// Where a turn makes an event, the event is the task's next one, and the moment after it has run
/// as well. So who gives turns by the table, and nothing else, stays within the runs of the graph.
/// Of children it asks that those to come are as the opening leaves them, and of a task with no
/// child to register not even that: `childless`.
pub fn turns_make_next_events()
    ensures next { (job : Job) (m : Moment) (t : ℕ) (event : TaskEvent) → IsGraph job.graph
        → HasRun job m → HasChildrenToCome job m → answer_of_turn job m t ≡ makes event
        → IsNext job m event }
    ensures keeps { (job : Job) (m : Moment) (t : ℕ) (event : TaskEvent) → IsGraph job.graph
        → HasRun job m → HasChildrenToCome job m → answer_of_turn job m t ≡ makes event
        → HasRun job (after_turn job event m) }
    ensures childless { (job : Job) (m : Moment) (t : ℕ) (event : TaskEvent) → IsGraph job.graph
        → HasRun job m → first_due job m t ≡ None → answer_of_turn job m t ≡ makes event
        → IsNext job m event × HasRun job (after_turn job event m) }
{}

/// The opening is reached, and turns lead from a reached moment to reached ones, whichever tasks
/// have them and whatever they answer. So who begins at the opening and gives turns by the table
/// has what `turns_make_next_events` asks for, always.
pub fn turns_stay_reached()
    ensures opening { (job : Job) (m : Moment) → IsGraph job.graph → HasBegun job m
        → IsReachable job m }
    ensures turn { (job : Job) (m : Moment) (t : ℕ) → IsGraph job.graph → IsReachable job m
        → IsReachable job (after_answer job (answer_of_turn job m t) m) }
    ensures turns { (job : Job) (m : Moment) (ts : List ℕ) → IsGraph job.graph
        → IsReachable job m → IsReachable job (after_turns job m ts) }
{}

/// A block of a task that has all its registrations leads from a reached moment to one that is
/// reached, as its steps one by one do.
pub fn blocks_stay_reached()
    ensures samples { (job : Job) (m : Moment) (t j p n : ℕ) (vs : List ℤ) → IsGraph job.graph
        → t < length job.graph.tasks → p < length job.graph.phasers
        → IsNextSamples job m t j p n vs → first_missing job m t ≡ None → IsReachable job m
        → IsReachable job (after_signals job t j p n vs (further (m.begun t) vs) m) }
    ensures signals { (job : Job) (m : Moment) (t j p n : ℕ) (vs : List ℤ) → IsGraph job.graph
        → t < length job.graph.tasks → p < length job.graph.phasers
        → IsNextSignals job m t j p n vs → first_missing job m t ≡ None → IsReachable job m
        → IsReachable job (after_signals job t j p n vs (m.begun t) m) }
    ensures first_waits { (job : Job) (m : Moment) (t k p n : ℕ) (outcomes : List Outcome)
        → IsGraph job.graph → t < length job.graph.tasks → p < length job.graph.phasers
        → IsFirstWaits job m t k p n outcomes → first_missing job m t ≡ None
        → IsReachable job m
        → IsReachable job (after_waits t k p n outcomes (further (m.begun t) outcomes) m) }
{}

/// The next block of a task has a step, where `until` allows one, and at most as many as its line
/// names; none past `until`, and none past the boundary of a child that is still to come. Where
/// nothing is owed and no child is due, the task may make as many of them as its samples allow.
pub fn blocks_are_cut()
    ensures some { (job : Job) (m : Moment) (t : ℕ) → IsGraph job.graph → HasRun job m
        → t < length job.graph.tasks
        → is_cut (task_at job.graph t).until (m.begun t) ≡ false → 1 ≤ block_of job m t }
    ensures few { (job : Job) (m : Moment) (t : ℕ)
        → block_of job m t ≤ (task_at job.graph t).block }
    ensures until { (job : Job) (m : Moment) (t : ℕ) → block_of job m t
        ≤ until_allows (task_at job.graph t).until (m.begun t) (task_at job.graph t).block }
    ensures children { (job : Job) (m : Moment) (t c : ℕ) (u : Parent)
        → c < length job.graph.tasks → (task_at job.graph c).parent ≡ Some u → u.task ≡ t
        → m.begun t < u.at → block_of job m t ≤ u.at - m.begun t }
    ensures may_begin { (job : Job) (m : Moment) (t steps : ℕ) → IsGraph job.graph
        → HasRun job m → t < length job.graph.tasks → first_owed job m t ≡ None
        → first_due job m t ≡ None → m.begun t ≤ steps → steps ≤ m.begun t + block_of job m t
        → HasSamples (task_at job.graph t).kind steps (length (samples_at job t))
        → MayBeginTo job m t steps }
{}

/// At a reached moment no turn is refused: a phaser accepts the task's call, or would not take it
/// now, so that each turn has a word of the table. Of the samples it asks that each can be sent, as
/// a job's can.
pub fn no_turn_is_refused()
    ensures answered { (job : Job) (m : Moment) (t : ℕ) → IsGraph job.graph
        → AreSends (samples_at job t) → IsReachable job m → answer_of_turn job m t ≢ is_refused }
    ensures told { (job : Job) (m : Moment) (t : ℕ) (met : Option Where) → IsGraph job.graph
        → AreSends (samples_at job t) → IsReachable job m → IsSome (turn_tells job met m t) }
{}

/// Each graph has an opening: on each phaser its founder, number 0, has registered the tasks
/// without a parent in the order of their lines, as 1, 2, .., and has left. So who opens the
/// phasers in this way is at a moment that is reached.
pub fn runs_begin()
    ensures begun { (job : Job) → IsGraph job.graph → HasBegun job (opening job) }
    ensures reached { (job : Job) → IsGraph job.graph → IsReachable job (opening job) }
{
    turns_stay_reached();
}

/// What the place of a task tells of its registrations: the first that it misses stands behind its
/// numbers, and the first that it has not left behind those that it has. Registration `k` is on
/// input `k`, and that of an output on the output. So whoever keeps a task's numbers in the order
/// of its registrations need not search.
pub fn places_tell()
    ensures missing { (job : Job) (m : Moment) (t : ℕ) (at : TaskPlace) → StandsAt job m t at
        → first_missing job m t ≡ slice_get (registrations_at job t) (length at.numbers) }
    ensures kept { (job : Job) (m : Moment) (t : ℕ) (at : TaskPlace) → StandsAt job m t at
        → length at.numbers ≡ length (registrations_at job t)
        → first_kept job m t ≡ slice_get (registrations_at job t) at.left }
    ensures input { (job : Job) (t k : ℕ) → IsGraph job.graph → t < length job.graph.tasks
        → k < length (task_at job.graph t).inputs
        → (registration_at job t k).phaser ≡ input_at (task_at job.graph t) k }
    ensures output { (job : Job) (t j : ℕ) → IsGraph job.graph → t < length job.graph.tasks
        → j < length (signalled_by (task_at job.graph t))
        → (registration_of_output (task_at job.graph t) j < length (registrations_at job t))
        × ((registration_at job t (registration_of_output (task_at job.graph t) j)).phaser
        ≡ output_at job t j) }
{}

/// The places of the tasks follow a turn's event. Another task stays at its place, `others`, but a
/// child that is registered has one number more, `child`. The task itself goes on to its
/// `own_place`: a parent stays, who leaves a phaser has left one more, and who begins steps,
/// signals or waits owes the rest of the steps. So whoever moves tasks keeps for each of them its
/// place alone.
pub fn places_follow()
    ensures others { (job : Job) (m : Moment) (t u : ℕ) (event : TaskEvent) (at : TaskPlace)
        → IsGraph job.graph → IsReachable job m → answer_of_turn job m t ≡ makes event
        → u < length job.graph.tasks → u ≢ t → child_of event ≢ Some u → StandsAt job m u at
        → StandsAt job (after_turn job event m) u at }
    ensures child { (job : Job) (m : Moment) (t c a : ℕ) (event : TaskEvent) (at : TaskPlace)
        → IsGraph job.graph → IsReachable job m → answer_of_turn job m t ≡ makes event
        → child_of event ≡ Some c → number_given event ≡ Some a → StandsAt job m c at
        → StandsAt job (after_turn job event m) c (child_place a at) }
    ensures parent { (job : Job) (m : Moment) (t c : ℕ) (event : TaskEvent) (at : TaskPlace)
        → IsGraph job.graph → IsReachable job m → answer_of_turn job m t ≡ makes event
        → child_of event ≡ Some c → StandsAt job m t at
        → StandsAt job (after_turn job event m) t (own_place job m event at) }
    ensures leave { (job : Job) (m : Moment) (t p n : ℕ) (at : TaskPlace) → IsGraph job.graph
        → IsReachable job m → answer_of_turn job m t ≡ makes (leave t p n) → StandsAt job m t at
        → StandsAt job (after_turn job (leave t p n) m) t (own_place job m (leave t p n) at) }
    ensures sample { (job : Job) (m : Moment) (t j p n : ℕ) (vs : List ℤ) (at : TaskPlace)
        → IsGraph job.graph → IsReachable job m
        → answer_of_turn job m t ≡ makes (sample t j p n vs) → StandsAt job m t at
        → StandsAt job (after_turn job (sample t j p n vs) m) t
        (own_place job m (sample t j p n vs) at) }
    ensures signal { (job : Job) (m : Moment) (t j p n : ℕ) (vs : List ℤ) (at : TaskPlace)
        → IsGraph job.graph → IsReachable job m
        → answer_of_turn job m t ≡ makes (signal t j p n vs) → StandsAt job m t at
        → StandsAt job (after_turn job (signal t j p n vs) m) t
        (own_place job m (signal t j p n vs) at) }
    ensures first_wait { (job : Job) (m : Moment) (t k p n : ℕ) (outcomes : List Outcome)
        (at : TaskPlace) → IsGraph job.graph → IsReachable job m
        → answer_of_turn job m t ≡ makes (first_wait t k p n outcomes) → StandsAt job m t at
        → StandsAt job (after_turn job (first_wait t k p n outcomes) m) t
        (own_place job m (first_wait t k p n outcomes) at) }
    ensures exchange_wait { (job : Job) (m : Moment) (t p n : ℕ) (outcome : Outcome)
        (at : TaskPlace) → IsGraph job.graph → IsReachable job m
        → answer_of_turn job m t ≡ makes (exchange_wait t p n outcome) → StandsAt job m t at
        → StandsAt job (after_turn job (exchange_wait t p n outcome) m) t
        (own_place job m (exchange_wait t p n outcome) at) }
{
    turns_make_next_events();
}
