//! Each law of blocks and of late waiters, used at the histories of one phaser. These functions
//! make no call and have no effect: what a law says of a history is the contract here.
ghost use Rattle.std.specs.Prelude.{◌≡◌, ◌≤◌, ◌++◌, [], ◌∷◌, ℤ, List, None, Some, Ok, pos, take};
ghost use Rattle.phase_accum.specs.Parcels.{Parcel, StandsForSends};
ghost use Rattle.phase_accum.specs.Sums.{sum_operation};
ghost use Rattle.phase_accum.specs.Values.{sum_value};
ghost use Rattle.phase_history.specs.Histories.{HasNoSignaller, done_of, wait_phase, start_of};
ghost use Rattle.phase_history.specs.Phases.{received_by};
ghost use Rattle.phase_core.specs.Blocks.{StandForLists};
ghost use Rattle.phase_shared.specs.Calls.{Signals};
ghost use Rattle.phase_shared.specs.Blocks.{SignalsBlock};
ghost use Rattle.phase_shared.specs.Parts.{PartStays, HasNoPart};
ghost use Rattle.phase_shared.specs.BlockParts.{SendsLists, GetsValues};
ghost use Rattle.thread_tests.specs.Worked.{worked_limits, two_sends, opened, begun, one_signal, one_block, both_got, all_left, late_waiter, late, two_written};

use phase_accum::Sum;
use phase_shared::laws;

/// What a signal of two phases at once adds, and one that is refused.
fn signalled_blocks()
    ensures sent { (parcels : List (Parcel ℤ)) → StandForLists sum_operation parcels two_sends
        → SendsLists sum_operation 1 parcels begun one_block }
    ensures received { (parcels : List (Parcel ℤ)) → StandForLists sum_operation parcels two_sends
        → received_by sum_value one_block 1 ≡ received_by sum_value begun 1 }
    ensures refused { (parcels : List (Parcel ℤ))
        → StandForLists sum_operation parcels two_sends → PartStays 2 opened begun }
{
    laws::signals_block::<Sum>();
}

/// A signal of one phase, and a block of it.
fn blocks_of_one()
    ensures plain { (held : Parcel ℤ) → StandsForSends sum_operation held (pos 7 ∷ [])
        → Signals sum_operation worked_limits 1 held None begun one_signal (Ok 0) }
    ensures block { (held : Parcel ℤ) → StandsForSends sum_operation held (pos 7 ∷ [])
        → SignalsBlock sum_operation worked_limits 1 (held ∷ []) None begun one_signal (Ok 0) }
{
    laws::plain_signals::<Sum>();
}

/// What a wait for as many phases as there are places adds, and one that gets none.
fn waited_blocks()
    ensures got { GetsValues sum_value 2 2 two_written one_block both_got }
    ensures received { received_by sum_value both_got 2
        ≡ received_by sum_value one_block 2 ++ take 2 two_written }
    ensures ended { PartStays 2 both_got all_left }
    ensures closed { HasNoSignaller all_left }
    ensures got_all { done_of all_left ≤ wait_phase all_left 2 }
    ensures refused { PartStays 2 opened begun }
{
    laws::waits_block();
}

/// Where a waiter that joins now starts, and that it has no part yet.
fn late_waiters()
    ensures parent { PartStays 2 one_block late_waiter }
    ensures child { HasNoPart 3 late_waiter }
    ensures start { start_of late_waiter 3 ≡ Some late }
{
    laws::registers_now();
}
