//! A whole run in blocks, with a sink that joins now, and each law of blocks used at it.
ghost use Rattle.std.specs.Prelude.{◌≡◌, [], ◌∷◌, Ok, pos};
ghost use Rattle.phase_accum.specs.declared.outcome.Outcome.TheVariants.{Value};
ghost use Rattle.graph_base.specs.TaskLines.{IsGraph};
ghost use Rattle.stream_lists.specs.Ranges.{answer_of};
ghost use Rattle.graph_runs.specs.Moments.{HasRun, TaskRan, started};
ghost use Rattle.graph_runs.specs.Moves.{Signals, SignalsAll, WaitsAll, RegistersNow, MayBeginTo};
ghost use Rattle.graph_runs.specs.Turned.{after_signal};
ghost use Rattle.graph_runs.specs.NextBlocks.{block_of};
ghost use Rattle.worked_runs.specs.WorkedBlocks.{in_blocks, block_opening, block_end, after_three_samples, after_three_waits, after_three_signals, after_three_taken, after_one_sample, before_join, after_join, by_out_at_3};

use crate::worked_run::turns_lead_on;
use graph_runs::{moments, moves, turns};

/// A source, a filter, a sink, and its child that joins now run to their end in blocks.
fn a_run_in_blocks()
    ensures graph { IsGraph in_blocks.graph }
    ensures opening { HasRun in_blocks block_opening }
    ensures signalled { HasRun in_blocks after_three_samples }
    ensures got { HasRun in_blocks after_three_waits }
    ensures before_join { HasRun in_blocks before_join }
    ensures joined { HasRun in_blocks after_join }
    ensures end { HasRun in_blocks block_end }
{
    moves::opening();
    moves::blocks_keep();
    turns_lead_on();
}

/// Three samples, three waits, three values and what the sink gets of them are one move each, and
/// keep what the run has of their task.
fn a_block_of_three_is_one_move()
    ensures samples { SignalsAll in_blocks block_opening after_three_samples 0 0 0 1
        (pos 1 ∷ pos 2 ∷ pos 3 ∷ []) }
    ensures waits { WaitsAll in_blocks after_three_samples after_three_waits 1 0 0 2
        (Value (pos 1) ∷ Value (pos 2) ∷ Value (pos 3) ∷ []) }
    ensures signals { SignalsAll in_blocks after_three_waits after_three_signals 1 0 1 1
        (pos 1 ∷ pos 3 ∷ pos 5 ∷ []) }
    ensures source { TaskRan in_blocks after_three_samples 0 }
    ensures filter { TaskRan in_blocks after_three_waits 1 }
{
    a_run_in_blocks();
    moves::next_blocks_are_moves();
    moves::own_blocks_keep();
}

/// A block of one is the move of one step, and leads where it does.
fn a_block_of_one_is_one_step()
    ensures moment { after_one_sample
        ≡ after_signal in_blocks 0 0 0 1 (pos 4) 4 after_three_taken }
    ensures signals { Signals in_blocks after_three_taken after_one_sample 0 0 0 1 (pos 4) }
{
    a_run_in_blocks();
    turns_lead_on();
    moves::next_blocks_are_moves();
}

/// Out registers late behind the fourth value of Y: late begins there, though it might have begun
/// at the third.
fn late_joins_now()
    ensures moved { RegistersNow in_blocks before_join after_join 2 1 2 3 3 by_out_at_3 }
    ensures begins { after_join.offset 3 ≡ 4 }
    ensures parent { TaskRan in_blocks after_join 2 }
    ensures child { TaskRan in_blocks after_join 3 }
{
    a_run_in_blocks();
    moves::next_blocks_are_moves();
    moves::own_blocks_keep();
}

/// The sinks have the answer of the job with the phase from which late has joined; with the least
/// one it has a value more.
fn the_end_of_the_run_in_blocks()
    ensures answer { answer_of (started in_blocks block_end)
        ≡ Ok ((2, pos 1 ∷ pos 3 ∷ pos 5 ∷ pos 7 ∷ pos 9 ∷ []) ∷ (3, pos 9 ∷ []) ∷ []) }
    ensures least { answer_of in_blocks
        ≡ Ok ((2, pos 1 ∷ pos 3 ∷ pos 5 ∷ pos 7 ∷ pos 9 ∷ []) ∷ (3, pos 7 ∷ pos 9 ∷ []) ∷ []) }
{
    a_run_in_blocks();
    moments::met_none();
    moments::answers();
}

/// A block is cut at the place of a child that is to come, and none goes past it.
fn no_block_passes_a_child()
    ensures cut { block_of in_blocks block_opening 2 ≡ 3 }
    ensures goes_past { MayBeginTo in_blocks block_opening 2 4 → ⊥ }
{
    turns::blocks_are_cut();
}
