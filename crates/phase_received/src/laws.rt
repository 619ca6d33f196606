//! What holds of those who receive a stream to its end. Each function here makes no call and has no
//! effect: its contract is a law, which a caller has by calling it.
ghost use Rattle.std.specs.Prelude.{◌≡◌, ℕ, ℤ, List, true};
ghost use Rattle.phase_base.specs.Limits.{Limits};
ghost use Rattle.phase_base.specs.Members.{entry_of};
ghost use Rattle.phase_base.specs.declared.entry.Entry.{Entry};
ghost use Rattle.phase_accum.specs.declared.outcome.Outcome.{Outcome};
ghost use Rattle.phase_history.specs.Histories.{History, members_of};
ghost use Rattle.phase_history.specs.Legal.{IsLegal};
ghost use Rattle.phase_history.specs.Others.{OthersCame};
ghost use Rattle.phase_base.specs.Lists.{is_in};
ghost use Rattle.phase_shared.specs.Calls.{Leaves};
ghost use Rattle.phase_received.specs.Whole.{HasSeenEnd, HasWhole};

/// A registered task that has seen the end has received exactly the stream from its start on. It
/// still has in every longer history that has no more events of its own, or its leaving alone: no
/// later phase can come.
pub fn whole()
    ensures seen { (value : List ℤ → Outcome) (limits : Limits) (h : History) (task : ℕ)
        (entry : Entry) → IsLegal limits h → entry_of (members_of h) task ≡ Some entry
        → HasSeenEnd h task → HasWhole value h task }
    ensures stays { (value : List ℤ → Outcome) (limits : Limits) (tasks : List ℕ)
        (old new : History) (task : ℕ) → IsLegal limits new
        → OthersCame tasks old new → is_in task tasks ≡ true
        → HasWhole value old task → HasWhole value new task }
    ensures leaves { (value : List ℤ → Outcome) (limits : Limits) (old new : History) (task : ℕ)
        → IsLegal limits new → Leaves task old new
        → HasWhole value old task → HasWhole value new task }
{}
