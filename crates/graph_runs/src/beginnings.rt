//! How a task begins, for who moves it alone: as a root, or as a child while its parent registers
//! it. Each function here makes no call and has no effect: its contract is the law.
ghost use Rattle.std.specs.Prelude.{◌≡◌, ◌<◌, ℕ, List, [], ◌∷◌, length, true, get_or, Some, None};
ghost use Rattle.phase_history.specs.Histories.{History, done_of};
ghost use Rattle.graph_base.specs.declared.line.Parent.{Parent};
ghost use Rattle.graph_base.specs.Graphs.{task_at};
ghost use Rattle.graph_base.specs.TaskLines.{IsGraph};
ghost use Rattle.stream_lists.specs.Jobs.{Job};
ghost use Rattle.graph_runs.specs.Moments.{Moment, OnLine};
ghost use Rattle.graph_runs.specs.Beginnings.{opening};
ghost use Rattle.graph_runs.specs.Nexts.{registrations_at};
ghost use Rattle.graph_runs.specs.TaskPlaces.{nothing, TaskPlace, StandsUpTo, registration_at};
ghost use Rattle.graph_runs.specs.Parts.{HasPart, SeesOthers, SeesOwn, HasMovedOn};
ghost use Rattle.graph_runs.specs.Places.{IsRootOn, IsFirstMoment, IsJoining, HasNewChild, HasSeenBoth, HasAddedChild, HasAddedNow, KnowsOthers};

use phase_history::Event;

/// A root has a first moment of its own as soon as the founders of all its phasers have registered
/// it: there it has done nothing, and stands where the run opens.
pub fn roots_begin()
    ensures { (job : Job) (t : ℕ) (numbers : List ℕ) (seen : ℕ → History) → IsGraph job.graph
        → t < length job.graph.tasks → (task_at job.graph t).parent ≡ None
        → length numbers ≡ length (registrations_at job t)
        → ((i : ℕ) → i < length (registrations_at job t)
        → IsRootOn job (registration_at job t i) (get_or numbers i 0) (seen i))
        → (m : Moment) × IsFirstMoment job m t numbers seen }
{}

/// A parent's moment serves its child as well while it registers it: from where the child has no
/// number, `begins`; past others' events on a phaser where the child has none yet, `waits`; to
/// where the child has all its numbers, one registration of the child after the other, `registers`,
/// or by the one of a sink that joins now, `registers_now`. Then the child goes on alone, from a
/// moment that is the parent's as well.
pub fn children_begin()
    ensures begins { (job : Job) (m : Moment) (t c : ℕ) (u : Parent) → IsGraph job.graph
        → t < length job.graph.tasks → c < length job.graph.tasks → HasPart job m t
        → (task_at job.graph c).parent ≡ Some u → u.task ≡ t
        → ((p : ℕ) → m.number p c ≡ None)
        → (after : Moment) × HasNewChild job m after t c [] }
    ensures waits { (job : Job) (m : Moment) (t c p n : ℕ) (u : Parent) (numbers : List ℕ)
        (now : History) → IsGraph job.graph → t < length job.graph.tasks
        → c < length job.graph.tasks → HasPart job m t → IsJoining job m c numbers
        → (task_at job.graph c).parent ≡ Some u → u.task ≡ t → m.number p c ≡ None
        → SeesOthers job m t p n now
        → (after : Moment) × HasSeenBoth job m after t c p numbers now }
    ensures registers { (job : Job) (m : Moment) (t c n a : ℕ) (u : Parent) (at : TaskPlace)
        (most : ℕ) (numbers : List ℕ) (before : History) → IsGraph job.graph
        → t < length job.graph.tasks
        → c < length job.graph.tasks → HasPart job m t → StandsUpTo most job m t at
        → at.owed ≡ nothing → at.begun ≡ u.at → (task_at job.graph c).parent ≡ Some u
        → u.task ≡ t → m.offset c ≡ (opening job).offset c → m.offset t ≡ (opening job).offset t
        → IsJoining job m c numbers → length numbers < length (registrations_at job c)
        → SeesOwn job m t (registration_at job c (length numbers)).phaser n
        (Event.Registered n a (registration_at job c (length numbers)).mode) before
        → (after : Moment)
        × HasAddedChild job m after t c (registration_at job c (length numbers)).phaser a numbers
        (Event.Registered n a (registration_at job c (length numbers)).mode ∷ before) }
    ensures registers_now { (job : Job) (m : Moment) (t c n a : ℕ) (u : Parent) (at : TaskPlace)
        (most : ℕ) (before : History) → IsGraph job.graph → t < length job.graph.tasks
        → c < length job.graph.tasks → HasPart job m t → StandsUpTo most job m t at
        → at.owed ≡ nothing → at.begun ≡ u.at → (task_at job.graph c).parent ≡ Some u
        → u.task ≡ t → (task_at job.graph c).joins_now ≡ true
        → m.offset t ≡ (opening job).offset t → IsJoining job m c []
        → SeesOwn job m t (registration_at job c 0).phaser n (Event.RegisteredNow n a) before
        → (after : Moment)
        × HasAddedNow job m after t c (registration_at job c 0).phaser a (done_of before)
        (Event.RegisteredNow n a ∷ before) }
{}

/// What a task's own moment says of other tasks stays by each of its calls, and is handed on to a
/// child with the moment. So a child without a number on the phasers of its line has none, and may
/// be registered by `children_begin`.
pub fn others_are_known()
    ensures first { (job : Job) (m : Moment) (t : ℕ) (numbers : List ℕ) (seen : ℕ → History)
        → IsGraph job.graph → IsFirstMoment job m t numbers seen → KnowsOthers job m t }
    ensures moved { (job : Job) (m after : Moment) (t p : ℕ) (now : History)
        → HasMovedOn job m after t p now → KnowsOthers job m t → KnowsOthers job after t }
    ensures begins { (job : Job) (m after : Moment) (t c : ℕ) → HasNewChild job m after t c []
        → KnowsOthers job m t → KnowsOthers job after t }
    ensures registers { (job : Job) (m after : Moment) (t c p a : ℕ) (u : Parent)
        (numbers : List ℕ) (now : History) → (task_at job.graph c).parent ≡ Some u → u.task ≡ t
        → OnLine (task_at job.graph c) p → HasAddedChild job m after t c p a numbers now
        → KnowsOthers job m t → KnowsOthers job after t }
    ensures registers_now { (job : Job) (m after : Moment) (t c p a start : ℕ) (u : Parent)
        (now : History) → (task_at job.graph c).parent ≡ Some u → u.task ≡ t
        → (task_at job.graph c).joins_now ≡ true → OnLine (task_at job.graph c) p
        → HasAddedNow job m after t c p a start now → KnowsOthers job m t
        → KnowsOthers job after t }
    ensures child { (job : Job) (m : Moment) (t c : ℕ) (u : Parent) → IsGraph job.graph
        → c < length job.graph.tasks → (task_at job.graph c).parent ≡ Some u → u.task ≡ t
        → KnowsOthers job m t → KnowsOthers job m c }
    ensures nowhere { (job : Job) (m : Moment) (t c : ℕ) (u : Parent) → IsGraph job.graph
        → c < length job.graph.tasks → (task_at job.graph c).parent ≡ Some u → u.task ≡ t
        → ((i : ℕ) → i < length (registrations_at job c)
        → m.number (registration_at job c i).phaser c ≡ None)
        → KnowsOthers job m t → (p : ℕ) → m.number p c ≡ None }
{}
