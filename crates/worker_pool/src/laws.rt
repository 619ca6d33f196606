//! What is so of all counts of events.
ghost use Rattle.std.specs.Prelude.{◌≡◌, ◌≤◌, ◌%◌, ℕ, true, false};
ghost use Rattle.worker_pool.specs.declared.number_set.NumberSet.{NumberSet as Set};
ghost use Rattle.worker_pool.specs.declared.event_counts.EventCounts.{EventCounts as Counts};
ghost use Rattle.worker_pool.specs.NumberSets.{has};
ghost use Rattle.worker_pool.specs.EventCounts.{next_number, had_none_since, HasTold};

/// Where events were told on a phaser since some number was the next one, the counts know it, and
/// still do after whatever events are told later.
pub fn events_are_known()
    ensures told { (events : Set) (old new : Counts) (since p : ℕ) → since ≤ next_number old
        → HasTold events old new → has events (p % 64) ≡ true
        → had_none_since new since p ≡ false }
    ensures kept { (events : Set) (old new : Counts) (since p : ℕ) → since ≤ next_number old
        → HasTold events old new → had_none_since old since p ≡ false
        → had_none_since new since p ≡ false }
{}
