//! What it means to be missing, and to be slowest. The contract of each function is the law.
ghost use Rattle.std.specs.Prelude.{◌≡◌, ◌+◌, ℕ, Some, true, length};
ghost use Rattle.phase_base.specs.Lists.{is_in};
ghost use Rattle.phase_base.specs.Members.{least, wait_phases};
ghost use Rattle.phase_base.specs.declared.entry.Entry.{Entry};
ghost use Rattle.phase_history.specs.Histories.{History, members_of, done_of, IsSignaller, IsWaiter};
ghost use Rattle.phase_core.specs.Standings.{missing_of, slowest_of, standing_after};

/// Each signaller has signalled the first phase that is not complete, or is missing, and not both.
pub fn adds_up()
    ensures { (h : History)
        → (standing_after h).signalled + length (missing_of h) ≡ (standing_after h).signallers }
{}

/// Each signaller that stands at the first phase that is not complete is named, and so is each
/// waiter at the least wait phase.
pub fn names_all()
    ensures missing { (h : History) (task : ℕ) (entry : Entry) → IsSignaller h task entry
        → entry.signal_phase ≡ done_of h → is_in task (missing_of h) ≡ true }
    ensures slowest { (h : History) (task : ℕ) (entry : Entry) → IsWaiter h task entry
        → least (wait_phases (members_of h)) ≡ Some entry.wait_phase
        → is_in task (slowest_of h) ≡ true }
{}
