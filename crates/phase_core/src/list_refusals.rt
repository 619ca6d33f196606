//! The refusals that the signals of a block meet in their phases.
ghost use Rattle.std.specs.Prelude.{◌≡◌, ◌+◌, ◌≤◌, ℤ, List, None, IsSome, length, true};
ghost use Rattle.phase_history.specs.Refusals.{phase_rows};
ghost use Rattle.phase_base.specs.Lists.{first_row};
ghost use Rattle.phase_ring.specs.Rings.{slot_at};
ghost use Rattle.phase_core.specs.Blocks.{StandForLists, block_rows, count_at, named_at, IsOpen};
ghost use Rattle.phase_core.specs.Admission.{are_new};

use crate::refusal_rows;
use phase_accum::{Accumulate, Pending, Single};
use phase_base::Entry;
use phase_history::SignalRefusal;
use phase_ring::Board;

/// The first refusal of a signal in the phase of the entry. `slowest` is the least wait phase of
/// the waiters.
pub fn list_refusal<A: Accumulate>(
    board: &Board<A>,
    slowest: Option<u64>,
    entry: Entry,
    pending: &Pending<A>,
    single: &Option<Single>,
) -> Option<SignalRefusal>
    requires { let now = board.now in IsSome slowest
        → IsOpen A.operation now.ring now.limits.bound now.done now.top slowest
        entry.signal_phase }
    ensures { let slot = slot_at board.now.ring entry.signal_phase in
        result ≡ first_row (phase_rows board.now.limits slowest (count_at slot) (named_at slot)
        pending.now.count single.now entry) }
{
    let early = refusal_rows::early_refusal(board.limits, slowest, entry);
    if early.is_some() {
        return early;
    }
    let Some(_slowest) = slowest else {
        return None;
    };
    // No signal has joined a phase from the top on, and no task holds more sends than a phase may
    // have. So the slot is not looked at.
    let held = pending.count();
    if entry.signal_phase >= board.top {
        return None;
    }
    match board.ring.can_merge(entry.signal_phase, held, *single) {
        Ok(()) => None,
        Err(refusal) => Some(refusal_rows::phase_refusal(refusal)),
    }
}

// Whether a task that does not wait may signal so many phases from its own on, none of which any
// signal has joined. Then no phase refuses its signal.
fn are_open<A: Accumulate>(
    board: &Board<A>,
    slowest: Option<u64>,
    entry: Entry,
    phases: u64,
) -> bool
    requires { entry.signal_phase + phases ≤ 9223372036854775808 }
    ensures { result ≡ are_new board.now.limits slowest board.now.top phases entry }
{
    let Some(slowest) = slowest else {
        return false;
    };
    let end = entry.signal_phase + phases;
    !entry.mode.waits()
        && board.top <= entry.signal_phase
        && end <= board.limits.phases_max()
        && end.saturating_sub(slowest) <= board.limits.bound()
}

// Whether sends are held in each of them, which is always so. Only a condition of `prove!` asks it.
fn are_held<A: Accumulate>(lists: &[Pending<A>]) -> bool
    ensures always { result ≡ true }
    ensures held { (sends : List (List ℤ)) × StandForLists A.operation lists.now sends }
{
    for pending in lists {
        let _part = pending.part();
    }
    true
}

/// The first refusal that the signals of a block meet in their phases, the first of which is the
/// entry's.
pub fn lists_refusal<A: Accumulate>(
    board: &Board<A>,
    slowest: Option<u64>,
    entry: Entry,
    lists: &[Pending<A>],
    single: &Option<Single>,
) -> Option<SignalRefusal>
    requires opened { let now = board.now in IsSome slowest
        → IsOpen A.operation now.ring now.limits.bound now.done now.top slowest
        entry.signal_phase }
    requires far { entry.signal_phase + length lists.now ≤ 9223372036854775808 }
    ensures rows { let now = board.now in
        result ≡ first_row (block_rows now.limits slowest now.ring lists.now single.now entry) }
    ensures held { result ≡ None
        → (sends : List (List ℤ)) × StandForLists A.operation lists.now sends }
{
    prove!(are_held(lists));
    let phases = lists.len() as u64;
    if are_open(board, slowest, entry, phases) {
        return None;
    }
    let mut at = entry;
    for pending in lists {
        let refusal = list_refusal(board, slowest, at, pending, single);
        if refusal.is_some() {
            return refusal;
        }
        at.signal_phase += 1;
    }
    None
}
