//! Who has sent what in which phase, and who holds the phases open.
ghost use Rattle.std.specs.Prelude.{◌≡◌, ◌≢◌, ◌+◌, ◌<◌, ◌≤◌, ℕ, ℤ, List, [], Option, Some, None, IsSome, true, false, length, get_or};
ghost use Rattle.phase_base.specs.Limits.{Limits};
ghost use Rattle.phase_base.specs.Members.{entry_of};
ghost use Rattle.phase_base.specs.Modes.{mode_signals};
ghost use Rattle.phase_base.specs.declared.entry.Entry.{Entry};
ghost use Rattle.phase_accum.specs.Exchanges.{Exchanges};
ghost use Rattle.phase_accum.specs.declared.outcome.Outcome.{Outcome};
ghost use Rattle.phase_accum.specs.declared.single.Single.{Single};
ghost use Rattle.phase_history.specs.Histories.{History, members_of, done_of, top_of, start_of, HasNoSignaller, has_dropped, phases_signalled};
ghost use Rattle.phase_history.specs.Phases.{sends_of_phase, named_in_phase, single_of_phase};
ghost use Rattle.phase_history.specs.Legal.{AreLists, IsLegal};
ghost use Rattle.phase_history.specs.Others.{IsUsed, OthersCame};
ghost use Rattle.phase_base.specs.Lists.{is_distinct, is_in};
ghost use Rattle.phase_history.specs.Sent.{sent_by, sent_in, gathered, OnlySignalled, OneHasSent, NamesAll, IsSilent, ReachesTop};

/// The sends of a phase are those of its tasks put together: whatever is the same in any order is
/// the same of both.
pub fn sends_are_gathered()
    ensures { (value : List ℤ → Outcome) (h : History) (tasks : List ℕ) (p : ℕ)
        → Exchanges value → is_distinct tasks ≡ true → OnlySignalled tasks h
        → value (sends_of_phase h p) ≡ value (gathered h tasks p) }
{}

/// The sends of a phase in which one task alone has sent are what that task has sent in it, in the
/// same order.
pub fn one_sender()
    ensures { (h : History) (task p : ℕ)
        → ((other : ℕ) → other ≢ task → sent_in h other p ≡ [])
        → sends_of_phase h p ≡ sent_in h task p }
{}

/// The sends of a phase in which at most one of some tasks has sent, and nobody else, are those of
/// the tasks put together, in the same order.
pub fn gathered_alone()
    ensures { (h : History) (tasks : List ℕ) (p : ℕ) → is_distinct tasks ≡ true
        → OnlySignalled tasks h → OneHasSent h tasks p
        → sends_of_phase h p ≡ gathered h tasks p }
{}

/// What a task has sent in each phase can be sent, and is no more than a phase may have.
pub fn sent_are_lists()
    ensures { (limits : Limits) (h : History) (task : ℕ) → IsLegal limits h
        → AreLists (sent_by h task) }
{}

/// A task's lists of sends stand in its phases one after another, from its start on, and there are
/// as many as the phases that it signalled.
pub fn sent_in_turn()
    ensures placed { (limits : Limits) (h : History) (task k : ℕ) (start : Entry)
        → IsLegal limits h → start_of h task ≡ Some start
        → sent_in h task (start.signal_phase + k) ≡ get_or (sent_by h task) k [] }
    ensures below { (limits : Limits) (h : History) (task p : ℕ) (start : Entry)
        → IsLegal limits h → start_of h task ≡ Some start
        → p < start.signal_phase → sent_in h task p ≡ [] }
    ensures counted { (h : History) (task : ℕ)
        → length (sent_by h task) ≡ phases_signalled h task }
{}

/// Each phase below the top has a signal. Where all signals name the same, that is its single.
pub fn each_phase_is_named()
    ensures named { (limits : Limits) (h : History) (p : ℕ)
        → IsLegal limits h → p < top_of h → IsSome (named_in_phase h p) }
    ensures single { (limits : Limits) (h : History) (p : ℕ) (single : Option Single)
        → IsLegal limits h → p < top_of h → NamesAll single h → single_of_phase h p ≡ single }
{}

/// A registered task has the mode in which it began.
pub fn mode_stays()
    ensures { (limits : Limits) (h : History) (task : ℕ) (start entry : Entry) → IsLegal limits h
        → start_of h task ≡ Some start → entry_of (members_of h) task ≡ Some entry
        → entry.mode ≡ start.mode }
{}

/// No phase is complete that a task has yet to signal, where it began in a mode that signals and
/// has not dropped.
pub fn holds_open()
    ensures { (limits : Limits) (h : History) (task : ℕ) (start : Entry) → IsLegal limits h
        → start_of h task ≡ Some start → mode_signals start.mode ≡ true
        → has_dropped h task ≡ false → done_of h ≤ start.signal_phase + phases_signalled h task }
{}

/// Where no registered task signals, each that began in a mode that signals has dropped, and every
/// phase that was ever signalled is complete.
pub fn all_dropped()
    ensures dropped { (limits : Limits) (h : History) (task : ℕ) (start : Entry)
        → IsLegal limits h → HasNoSignaller h → start_of h task ≡ Some start
        → mode_signals start.mode ≡ true → has_dropped h task ≡ true }
    ensures done { (h : History) → HasNoSignaller h → done_of h ≡ top_of h }
{}

/// Where each task whose number was used has dropped, no registered task signals.
pub fn all_left()
    ensures { (limits : Limits) (h : History) → IsLegal limits h
        → ((task : ℕ) → IsUsed h task → has_dropped h task ≡ true) → HasNoSignaller h }
{}

/// Some task has signalled up to the top, and none past it.
pub fn top_is_reached()
    ensures reached { (limits : Limits) (h : History) → IsLegal limits h → ReachesTop h }
    ensures below { (limits : Limits) (h : History) (task : ℕ) (start : Entry)
        → IsLegal limits h → start_of h task ≡ Some start
        → start.signal_phase + phases_signalled h task ≤ top_of h }
{}

/// Under others' events what a task has sent stays, as a whole, in each phase, and together with
/// what other such tasks have sent in it.
pub fn sent_stays()
    ensures whole { (tasks : List ℕ) (old new : History) (task : ℕ)
        → OthersCame tasks old new → is_in task tasks ≡ true
        → sent_by new task ≡ sent_by old task }
    ensures phase { (tasks : List ℕ) (old new : History) (task p : ℕ)
        → OthersCame tasks old new → is_in task tasks ≡ true
        → sent_in new task p ≡ sent_in old task p }
    ensures together { (tasks : List ℕ) (old new : History) (p : ℕ)
        → OthersCame tasks old new → gathered new tasks p ≡ gathered old tasks p }
{}

/// A number that was never used is silent.
pub fn unused_is_silent()
    ensures { (limits : Limits) (h : History) (task : ℕ)
        → IsLegal limits h → start_of h task ≡ None → IsSilent h task }
{}
