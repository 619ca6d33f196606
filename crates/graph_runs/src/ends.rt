//! What is known at the end of a run of which each task knows its own part. Each function here
//! makes no call and has no effect: its contract is the law.
ghost use Rattle.std.specs.Prelude.{◌≡◌, ◌<◌, ℕ, ℤ, List, [], ◌∷◌, true, false, length, get_or, Some, None};
ghost use Rattle.std.specs.List.{All};
ghost use Rattle.phase_base.specs.declared.mode.Mode.{Mode};
ghost use Rattle.phase_accum.specs.declared.outcome.Outcome.{Outcome};
ghost use Rattle.phase_history.specs.Histories.{History, has_dropped};
ghost use Rattle.phase_history.specs.Others.{OthersCame};
ghost use Rattle.phase_base.specs.Lists.{is_in};
ghost use Rattle.graph_base.specs.Graphs.{task_at};
ghost use Rattle.graph_base.specs.TaskLines.{IsGraph};
ghost use Rattle.stream_lists.specs.Jobs.{Job};
ghost use Rattle.stream_lists.specs.Ranges.{is_too_big};
ghost use Rattle.graph_runs.specs.Moments.{Moment};
ghost use Rattle.graph_runs.specs.Settled.{IsReady};
ghost use Rattle.graph_runs.specs.Parts.{SeesOthers, SeesOwn, HasSeen, HasPut, HasGot, LeavesPart, put_event, IsAnsweredBy};
ghost use Rattle.graph_runs.specs.Places.{IsRootOn, IsFirstMoment, HasNewChild, HasSeenBoth, HasAddedChild, HasAddedNow};
ghost use Rattle.graph_runs.specs.Beginnings.{opening};
ghost use Rattle.graph_runs.specs.Nexts.{registrations_at};
ghost use Rattle.graph_runs.specs.TaskPlaces.{registration_at};
ghost use Rattle.graph_runs.specs.TaskEnds.{HasFounded, HasOwnCalls, IsChildOf};
ghost use Rattle.graph_runs.specs.RunEnds.{Ends, IsRunEnd, HasAnswer};

use phase_history::Event;

/// Where a run is over, the answer of its job is what its sinks have taken, for the starts that
/// came about of those that join now. This is what threads that have run a graph to its end write.
pub fn runs_end()
    ensures { (job : Job) (ends : Ends) → IsReady job → IsRunEnd job ends → HasAnswer job ends }
{}

/// Who made a phaser has founded it, registers tasks under numbers that it keeps, and leaves,
/// whatever the others do meanwhile.
pub fn founders()
    ensures made { (number : ℕ) → HasFounded number [] (Event.Made number ∷ []) }
    ensures registers { (number a : ℕ) (mode : Mode) (gave more : List ℕ) (old before : History)
        → HasFounded number gave old → OthersCame (number ∷ []) old before
        → ((b : ℕ) → is_in b (a ∷ gave) ≡ true → is_in b more ≡ true)
        → HasFounded number more (Event.Registered number a mode ∷ before) }
    ensures leaves { (number : ℕ) (gave : List ℕ) (old before : History)
        → HasFounded number gave old → OthersCame (number ∷ []) old before
        → HasFounded number gave (Event.Dropped number ∷ before)
        × (has_dropped (Event.Dropped number ∷ before) number ≡ true) }
{}

/// A task's own calls are what the end asks for, past others' events and past each of its own:
/// values that it puts, values that it gets and that are in range, and that it leaves. So who moves
/// one task keeps this of it from its first moment to its last.
pub fn own_calls()
    ensures seen { (job : Job) (m after : Moment) (t p n : ℕ) (now : History) → IsGraph job.graph
        → t < length job.graph.tasks → SeesOthers job m t p n now
        → HasSeen job m after t p now → HasOwnCalls job m t → HasOwnCalls job after t }
    ensures put { (job : Job) (m after : Moment) (t p j n begun : ℕ) (vs : List ℤ)
        (before : History) → IsGraph job.graph → t < length job.graph.tasks
        → SeesOwn job m t p n (put_event job p n vs) before
        → HasPut job m after t j p vs begun (put_event job p n vs ∷ before)
        → HasOwnCalls job m t → HasOwnCalls job after t }
    ensures got { (job : Job) (m after : Moment) (t p k n begun : ℕ) (outcomes : List Outcome)
        (before : History) → IsGraph job.graph → t < length job.graph.tasks
        → SeesOwn job m t p n (Event.Waited n (length outcomes)) before
        → IsAnsweredBy job p n outcomes before
        → All (λ outcome. is_too_big outcome ≡ false) outcomes
        → HasGot job m after t k p outcomes begun (Event.Waited n (length outcomes) ∷ before)
        → HasOwnCalls job m t → HasOwnCalls job after t }
    ensures left { (job : Job) (m after : Moment) (t p n : ℕ) (before : History)
        → IsGraph job.graph → t < length job.graph.tasks
        → SeesOwn job m t p n (Event.Dropped n) before
        → LeavesPart job m after t p (Event.Dropped n ∷ before)
        → HasOwnCalls job m t → HasOwnCalls job after t }
{}

/// A task that begins has made no calls, and its parent only the child's registrations: of a root
/// at its first moment, and of a child from where it has no number, past others' events, to each of
/// its numbers.
pub fn first_calls()
    ensures root { (job : Job) (m : Moment) (t : ℕ) (numbers : List ℕ) (seen : ℕ → History)
        → IsGraph job.graph → t < length job.graph.tasks → (task_at job.graph t).parent ≡ None
        → length numbers ≡ length (registrations_at job t)
        → ((i : ℕ) → i < length (registrations_at job t)
        → IsRootOn job (registration_at job t i) (get_or numbers i 0) (seen i))
        → IsFirstMoment job m t numbers seen → HasOwnCalls job m t }
    ensures begins { (job : Job) (m after : Moment) (t c : ℕ) → IsGraph job.graph
        → t < length job.graph.tasks → (child : IsChildOf job c t)
        → HasNewChild job m after t c [] → m.begun t ≡ child.parent.at
        → ((task_at job.graph c).joins_now ≡ false → m.offset c ≡ (opening job).offset c)
        → ((p : ℕ) → m.number p c ≡ None)
        → HasOwnCalls job m t → HasOwnCalls job after t × HasOwnCalls job after c }
    ensures waits { (job : Job) (m after : Moment) (t c : ℕ) → IsGraph job.graph
        → t < length job.graph.tasks → IsChildOf job c t → (p n : ℕ) (numbers : List ℕ)
        (now : History) → SeesOthers job m t p n now → m.number p c ≡ None
        → HasSeenBoth job m after t c p numbers now → HasOwnCalls job m t
        → HasOwnCalls job m c → HasOwnCalls job after t × HasOwnCalls job after c }
    ensures registers { (job : Job) (m after : Moment) (t c : ℕ) → IsGraph job.graph
        → t < length job.graph.tasks → IsChildOf job c t → (p n a : ℕ) (mode : Mode)
        (numbers : List ℕ) (before : History)
        → SeesOwn job m t p n (Event.Registered n a mode) before → m.number p c ≡ None
        → HasAddedChild job m after t c p a numbers (Event.Registered n a mode ∷ before)
        → HasOwnCalls job m t → HasOwnCalls job m c
        → HasOwnCalls job after t × HasOwnCalls job after c }
    ensures registers_now { (job : Job) (m after : Moment) (t c : ℕ) → IsGraph job.graph
        → t < length job.graph.tasks → IsChildOf job c t → (p n a start : ℕ) (before : History)
        → (task_at job.graph c).joins_now ≡ true
        → SeesOwn job m t p n (Event.RegisteredNow n a) before → m.number p c ≡ None
        → HasAddedNow job m after t c p a start (Event.RegisteredNow n a ∷ before)
        → HasOwnCalls job m t → HasOwnCalls job m c
        → HasOwnCalls job after t × HasOwnCalls job after c }
{}
