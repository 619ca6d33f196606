//! Whose an event can be, and what others' events leave as it was.
ghost use Rattle.std.specs.Prelude.{◌≡◌, ◌≢◌, ◌≤◌, ℕ, ℤ, List, [], ◌∷◌, ◌++◌, Option, Ok, Some, None, true, false};
ghost use Rattle.std.specs.List.{sum_by};
ghost use Rattle.phase_base.specs.Limits.{Limits};
ghost use Rattle.phase_base.specs.Members.{entry_of};
ghost use Rattle.phase_base.specs.declared.entry.Entry.{Entry};
ghost use Rattle.phase_base.specs.declared.mode.Mode.{Mode};
ghost use Rattle.phase_accum.specs.declared.outcome.Outcome.{Outcome};
ghost use Rattle.phase_accum.specs.declared.single.Single.{Single};
ghost use Rattle.phase_history.specs.declared.event.Event.{Event};
ghost use Rattle.phase_history.specs.declared.event.Event.TheVariants.{Made};
ghost use Rattle.phase_history.specs.Histories.{History, IsBeginning, members_of, done_of, wait_phase, start_of, IsAlive, HasNoSignaller, has_dropped, phases_signalled, phases_waited};
ghost use Rattle.phase_history.specs.Phases.{received_by};
ghost use Rattle.phase_history.specs.Legal.{IsLegal};
ghost use Rattle.phase_history.specs.Refusals.{register_refusal, register_now_refusal, signal_refusal, wait_refusal, drop_refusal};
ghost use Rattle.phase_history.specs.Replies.{wait_reply, wait_block_reply};
ghost use Rattle.phase_history.specs.Others.{is_by, events_of, phases_of_signal, phases_of_wait, IsUsed, OnlyUsed, children_in, OthersCame};
ghost use Rattle.phase_base.specs.Lists.{is_in};

use crate::got::{Got, GotBlock};
use crate::refusal::{RegisterRefusal, SignalRefusal, WaitRefusal};

/// A beginning of a legal history is legal, where it has an event.
pub fn beginning_is_legal()
    ensures { (limits : Limits) (h longer : History)
        → h ≢ [] → IsLegal limits longer → IsBeginning h longer → IsLegal limits h }
{}

/// A number that was used stays used, and its task's start stays the same.
pub fn use_stays()
    ensures used { (limits : Limits) (h longer : History) (task : ℕ)
        → IsLegal limits longer → IsBeginning h longer → IsUsed h task → IsUsed longer task }
    ensures start { (limits : Limits) (h longer : History) (task : ℕ) (start : Entry)
        → IsLegal limits longer → IsBeginning h longer → start_of h task ≡ Some start
        → start_of longer task ≡ Some start }
{}

/// The number of a registered task was used.
pub fn member_is_used()
    ensures { (h : History) (task : ℕ) → IsAlive h task → IsUsed h task }
{}

/// There is no stranger: the task of an event was registered when it came, so its number was used
/// before. A number that was never used has no events.
pub fn no_stranger()
    ensures registered { (limits : Limits) (before longer : History) (event : Event) (task : ℕ)
        → IsLegal limits longer → IsBeginning (event ∷ before) longer
        → is_by task event ≡ true → IsAlive before task }
    ensures used { (limits : Limits) (before longer : History) (event : Event) (task : ℕ)
        → IsLegal limits longer → IsBeginning (event ∷ before) longer
        → is_by task event ≡ true → IsUsed before task }
    ensures unused { (limits : Limits) (h : History) (task : ℕ)
        → IsLegal limits h → start_of h task ≡ None → events_of task h ≡ [] }
{}

/// How many phases a task signalled, and for how many it waited, is what its own events add up to.
pub fn events_add_up()
    ensures signalled { (h : History) (task : ℕ)
        → phases_signalled h task ≡ sum_by phases_of_signal (events_of task h) }
    ensures waited { (h : History) (task : ℕ)
        → phases_waited h task ≡ sum_by phases_of_wait (events_of task h) }
{}

/// That others' events came says that the old history is a beginning of the new one. It is true
/// where none came and where one of another task came, adds up, and holds of fewer tasks too.
pub fn others_come()
    ensures beginning { (tasks : List ℕ) (old new : History)
        → OthersCame tasks old new → IsBeginning old new }
    ensures reflexive { (tasks : List ℕ) (h : History) → OthersCame tasks h h }
    ensures event { (tasks : List ℕ) (h : History) (event : Event)
        → ((task : ℕ) → is_in task tasks ≡ true → is_by task event ≡ false)
        → OthersCame tasks h (event ∷ h) }
    ensures transitive { (tasks : List ℕ) (first second third : History)
        → OthersCame tasks first second → OthersCame tasks second third
        → OthersCame tasks first third }
    ensures fewer { (tasks fewer : List ℕ) (old new : History)
        → ((task : ℕ) → is_in task fewer ≡ true → is_in task tasks ≡ true)
        → OthersCame tasks old new → OthersCame fewer old new }
{}

/// Under others' events a registered task stays registered, in its mode and at its phases.
pub fn entry_stays()
    ensures { (limits : Limits) (tasks : List ℕ) (old new : History) (task : ℕ) (entry : Entry)
        → OthersCame tasks old new → is_in task tasks ≡ true → IsLegal limits new
        → entry_of (members_of old) task ≡ Some entry
        → entry_of (members_of new) task ≡ Some entry }
{}

/// Under others' events a task's own part of the history stays: its events, what it received, how
/// many phases it signalled and waited for, and whether it has dropped.
pub fn own_part_stays()
    ensures events { (tasks : List ℕ) (old new : History) (task : ℕ)
        → OthersCame tasks old new → is_in task tasks ≡ true
        → events_of task new ≡ events_of task old }
    ensures received { (value : List ℤ → Outcome) (tasks : List ℕ) (old new : History) (task : ℕ)
        → OthersCame tasks old new → is_in task tasks ≡ true
        → received_by value new task ≡ received_by value old task }
    ensures signalled { (tasks : List ℕ) (old new : History) (task : ℕ)
        → OthersCame tasks old new → is_in task tasks ≡ true
        → phases_signalled new task ≡ phases_signalled old task }
    ensures waited { (tasks : List ℕ) (old new : History) (task : ℕ)
        → OthersCame tasks old new → is_in task tasks ≡ true
        → phases_waited new task ≡ phases_waited old task }
    ensures dropped { (tasks : List ℕ) (old new : History) (task : ℕ)
        → OthersCame tasks old new → is_in task tasks ≡ true
        → has_dropped new task ≡ has_dropped old task }
{}

/// Where no number was used but these, and events of others than these came, no number was used
/// but these: there is nobody else to have come.
pub fn only_used_stays()
    ensures { (limits : Limits) (tasks : List ℕ) (old new : History)
        → old ≢ [] → OthersCame tasks old new → IsLegal limits new
        → OnlyUsed tasks old → OnlyUsed tasks new }
{}

/// Where the founder stands in a list, and with each number those of its children, every number
/// that was used stands in it.
pub fn all_descend()
    ensures { (limits : Limits) (h : History) (founder : ℕ) (tasks : List ℕ)
        → IsLegal limits h → IsBeginning (Made founder ∷ []) h → is_in founder tasks ≡ true
        → ((task child : ℕ) → is_in task tasks ≡ true
        → is_in child (children_in (events_of task h)) ≡ true → is_in child tasks ≡ true)
        → OnlyUsed tasks h }
{}

/// Where a wait, plain or for a block, is answered that the stream has ended, no signaller is
/// registered, and the phase that it asked for is not below done.
pub fn ended()
    ensures quiet { (value : List ℤ → Outcome) (limits : Limits) (h : History) (task : ℕ)
        → wait_reply value limits h task ≡ Ok Got.Ended → HasNoSignaller h }
    ensures got_all { (value : List ℤ → Outcome) (limits : Limits) (h : History) (task : ℕ)
        → wait_reply value limits h task ≡ Ok Got.Ended → done_of h ≤ wait_phase h task }
    ensures block_quiet { (limits : Limits) (h : History) (task n : ℕ)
        → wait_block_reply limits h task n ≡ Ok GotBlock.Ended → HasNoSignaller h }
    ensures block_got_all { (limits : Limits) (h : History) (task n : ℕ)
        → wait_block_reply limits h task n ≡ Ok GotBlock.Ended → done_of h ≤ wait_phase h task }
{}

/// No call of a registered task is refused as that of a task that is not registered.
pub fn member_is_known()
    ensures register { (h : History) (parent child : ℕ) (mode : Mode) → IsAlive h parent
        → register_refusal h parent child mode ≢ Some RegisterRefusal.NoTask }
    ensures register_now { (h : History) (parent child : ℕ) → IsAlive h parent
        → register_now_refusal h parent child ≢ Some RegisterRefusal.NoTask }
    ensures signal { (limits : Limits) (h : History) (task : ℕ) (lists : List (List ℤ))
        (single : Option Single) → IsAlive h task
        → signal_refusal limits h task lists single ≢ Some SignalRefusal.NoTask }
    ensures wait { (limits : Limits) (h : History) (task n : ℕ) → IsAlive h task
        → wait_refusal limits h task n ≢ Some WaitRefusal.NoTask }
    ensures drop { (h : History) (task : ℕ) → IsAlive h task → drop_refusal h task ≡ None }
{}
