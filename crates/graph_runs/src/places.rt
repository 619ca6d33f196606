//! What the place of a task tells who moves the task alone, and how it goes on. Each function here
//! makes no call and has no effect: its contract is the law.
ghost use Rattle.std.specs.Prelude.{◌≡◌, true, ◌+◌, ◌<◌, ◌≤◌, ℕ, ℤ, List, [], ◌∷◌, length, map, take, drop, Some, Ok};
ghost use Rattle.phase_accum.specs.declared.outcome.Outcome.{Outcome};
ghost use Rattle.phase_history.specs.Histories.{History};
ghost use Rattle.graph_base.specs.declared.line.Kind.TheVariants as kind;
ghost use Rattle.graph_base.specs.Graphs.{task_at};
ghost use Rattle.graph_base.specs.TaskLines.{IsGraph};
ghost use Rattle.stream_lists.specs.Jobs.{Job, samples_at};
ghost use Rattle.stream_lists.specs.Lists.{number};
ghost use Rattle.graph_runs.specs.Moments.{Moment, HasEnded, RanOut, input_at, first_input};
ghost use Rattle.graph_runs.specs.Moves.{IsStaying, NoneDue};
ghost use Rattle.graph_runs.specs.Answers.{output_at};
ghost use Rattle.graph_runs.specs.Nexts.{is_cut};
ghost use Rattle.graph_runs.specs.TaskPlaces.{nothing, values, exchange, TaskPlace, StandsUpTo, registration_at, owed_after_wait, owed_after_signal, owed_after_exchange};
ghost use Rattle.graph_runs.specs.Parts.{HasPart, HasSeen, HasPut, HasGot, LeavesPart, AreNextValues, AreNextSamples, BeginsSteps, IsExchange};
ghost use Rattle.graph_runs.specs.Places.{owing, after_steps, after_leaving, HasChildrenBy, MayMake, IsMost};

use phase_history::Event;

/// What a task does next within its steps, or in the next ones, by its place: where it owes values,
/// a signal with those values; where it owes nothing, no child comes first and `until` allows
/// steps, a source's signal with its next samples, or the wait on the input that the steps begin
/// with; a peer that owes its wait on E waits there. So `parts::puts` and `parts::gets` can be had
/// of the place.
pub fn tells_next()
    ensures values { (job : Job) (m : Moment) (t j most : ℕ) (vs : List ℤ) (at : TaskPlace)
        → IsGraph job.graph → t < length job.graph.tasks → HasPart job m t → IsMost job t most
        → StandsUpTo most job m t at → at.left ≡ 0 → at.owed ≡ values j (map (λ v. Ok v) vs)
        → AreNextValues job m t j (output_at job t j) vs }
    ensures samples { (job : Job) (m : Moment) (t most : ℕ) (vs : List ℤ) (at : TaskPlace)
        → IsGraph job.graph → t < length job.graph.tasks → HasPart job m t
        → StandsUpTo most job m t at → at.left ≡ 0 → at.owed ≡ nothing
        → (task_at job.graph t).kind ≡ kind.Source
        → vs ≡ take (length vs) (drop at.begun (samples_at job t))
        → MayMake job t at.begun (length vs) → HasChildrenBy job m t at.begun
        → AreNextSamples job m t 0 (output_at job t 0) vs }
    ensures wait { (job : Job) (m : Moment) (t most allowed steps : ℕ) (at : TaskPlace)
        → IsGraph job.graph → t < length job.graph.tasks → HasPart job m t → IsMost job t most
        → StandsUpTo most job m t at → at.left ≡ 0 → at.owed ≡ nothing
        → ((task_at job.graph t).kind ≡ kind.Source → ⊥)
        → MayMake job t at.begun allowed → HasChildrenBy job m t at.begun
        → 1 ≤ steps → steps ≤ allowed → steps ≤ most
        → BeginsSteps job m t (first_input (task_at job.graph t) at.begun)
        (input_at (task_at job.graph t) (first_input (task_at job.graph t) at.begun)) steps }
    ensures exchange { (job : Job) (m : Moment) (t most : ℕ) (x : ℤ) (at : TaskPlace)
        → IsGraph job.graph → t < length job.graph.tasks → HasPart job m t
        → StandsUpTo most job m t at → at.left ≡ 0 → at.owed ≡ exchange x
        → IsExchange job m t (input_at (task_at job.graph t) 1) }
{}

/// Where a task owes nothing it has come to its end when `until` allows no step, when its samples
/// are used, or when the input that its next step would wait for first has run out. Before it has
/// left a phaser, it stays on all of them; and where the children that come at its boundary have
/// all their numbers, none is due. So a task that is over may leave, by `parts::leaves`.
pub fn tells_end()
    ensures cut { (job : Job) (m : Moment) (t most : ℕ) (at : TaskPlace) → IsGraph job.graph
        → t < length job.graph.tasks → HasPart job m t → StandsUpTo most job m t at
        → at.owed ≡ nothing → is_cut (task_at job.graph t).until at.begun ≡ true
        → HasEnded job m t }
    ensures no_sample { (job : Job) (m : Moment) (t most : ℕ) (at : TaskPlace) → IsGraph job.graph
        → t < length job.graph.tasks → HasPart job m t → StandsUpTo most job m t at
        → at.owed ≡ nothing → (task_at job.graph t).kind ≡ kind.Source
        → length (samples_at job t) ≤ at.begun → HasEnded job m t }
    ensures no_input { (job : Job) (m : Moment) (t most : ℕ) (at : TaskPlace) → IsGraph job.graph
        → t < length job.graph.tasks → HasPart job m t → StandsUpTo most job m t at
        → at.owed ≡ nothing → ((task_at job.graph t).kind ≡ kind.Source → ⊥)
        → RanOut m (task_at job.graph t) t (first_input (task_at job.graph t) at.begun)
        → HasEnded job m t }
    ensures staying { (job : Job) (m : Moment) (t most : ℕ) (at : TaskPlace) → IsGraph job.graph
        → t < length job.graph.tasks → HasPart job m t → StandsUpTo most job m t at → at.left ≡ 0
        → IsStaying m t }
    ensures none_due { (job : Job) (m : Moment) (t p most : ℕ) (at : TaskPlace) → IsGraph job.graph
        → t < length job.graph.tasks → HasPart job m t → StandsUpTo most job m t at
        → HasChildrenBy job m t at.begun → NoneDue job m t p }
{}

/// The place of a task after each of its calls: it stays where others' events were seen; a signal
/// or a wait leaves what the rest of the steps owe, and the first of steps begins as many more;
/// leaving a phaser leaves one more. So who moves one task keeps its place alone.
pub fn follow()
    ensures seen { (job : Job) (m after : Moment) (t p most : ℕ) (at : TaskPlace) (now : History)
        → StandsUpTo most job m t at → HasSeen job m after t p now
        → StandsUpTo most job after t at }
    ensures put { (job : Job) (m after : Moment) (t j p most : ℕ) (vs : List ℤ) (at : TaskPlace)
        (now : History) → IsGraph job.graph → t < length job.graph.tasks → HasPart job m t
        → IsMost job t most → StandsUpTo most job m t at → at.left ≡ 0
        → at.owed ≡ values j (map (λ v. Ok v) vs)
        → HasPut job m after t j p vs (m.begun t) now
        → StandsUpTo most job after t
        (owing (owed_after_signal (task_at job.graph t) j vs) at) }
    ensures samples { (job : Job) (m after : Moment) (t p most : ℕ) (vs : List ℤ) (at : TaskPlace)
        (now : History) → IsGraph job.graph → t < length job.graph.tasks → HasPart job m t
        → StandsUpTo most job m t at → at.left ≡ 0 → at.owed ≡ nothing
        → (task_at job.graph t).kind ≡ kind.Source
        → HasPut job m after t 0 p vs (m.begun t + length vs) now
        → StandsUpTo most job after t (after_steps (length vs) nothing at) }
    ensures first_wait { (job : Job) (m after : Moment) (t k p most : ℕ) (outcomes : List Outcome)
        (at : TaskPlace) (now : History) → IsGraph job.graph → t < length job.graph.tasks
        → HasPart job m t → StandsUpTo most job m t at → at.left ≡ 0 → at.owed ≡ nothing
        → BeginsSteps job m t k p (length outcomes) → 1 ≤ length outcomes
        → length outcomes ≤ most
        → HasGot job m after t k p outcomes (m.begun t + length outcomes) now
        → StandsUpTo most job after t (after_steps (length outcomes)
        (owed_after_wait (task_at job.graph t) at.begun (m.taken t 0) (map number outcomes)) at) }
    ensures exchange { (job : Job) (m after : Moment) (t p most : ℕ) (x : ℤ) (outcome : Outcome)
        (at : TaskPlace) (now : History) → IsGraph job.graph → t < length job.graph.tasks
        → HasPart job m t → IsMost job t most → StandsUpTo most job m t at → at.left ≡ 0
        → at.owed ≡ exchange x
        → HasGot job m after t 1 p (outcome ∷ []) (m.begun t) now
        → StandsUpTo most job after t
        (owing (owed_after_exchange (task_at job.graph t) at.owed (number outcome)) at) }
    ensures left { (job : Job) (m after : Moment) (t p n most : ℕ) (at : TaskPlace)
        (before : History) → IsGraph job.graph → t < length job.graph.tasks
        → StandsUpTo most job m t at → at.left < length at.numbers
        → (registration_at job t at.left).phaser ≡ p → m.number p t ≡ Some n
        → LeavesPart job m after t p (Event.Dropped n ∷ before)
        → StandsUpTo most job after t (after_leaving at) }
{}
