//! Runs with a decimator: one value of three is put, and the laws of runs are used at it.
ghost use Rattle.std.specs.Prelude.{◌≡◌, ℤ, [], ◌∷◌, ◌++◌, None, Some, Ok, map, pos, true, false};
ghost use Rattle.graph_base.specs.Graphs.{task_at};
ghost use Rattle.graph_base.specs.TaskLines.{IsGraph};
ghost use Rattle.stream_lists.specs.Ranges.{answer_of};
ghost use Rattle.graph_runs.specs.Moments.{HasRun, IsOver};
ghost use Rattle.graph_runs.specs.Turned.{IsNextSignal};
ghost use Rattle.graph_runs.specs.Answers.{answers_in_turn, makes, turn_tells, is_stalled, Blocked, Gone};
ghost use Rattle.graph_runs.specs.TaskPlaces.{nothing, owed_after_wait, values};
ghost use Rattle.worked_runs.specs.WorkedDecimator.{after_fourth, after_second, first_turns, five, second_turns, third_turns, thinned, thinned_after, thirds, thirds_end, thirds_graph, thirds_opening, thirds_order};
ghost use Rattle.worked_runs.specs.WorkedTurns.{six};

use crate::worked_run::turns_lead_on;
use graph_runs::{moments, moves};

/// At steps 0 and 3 a decimator owes what it took, and at 1 and 2 nothing.
fn a_decimator_owes_one_of_three()
    ensures first { owed_after_wait (task_at thirds_graph 1) 0 [] (pos 3 ∷ [])
        ≡ values 0 (Ok (pos 3) ∷ []) }
    ensures second { owed_after_wait (task_at thirds_graph 1) 1 (pos 3 ∷ []) (pos 1 ∷ [])
        ≡ nothing }
    ensures third { owed_after_wait (task_at thirds_graph 1) 2 (pos 3 ∷ pos 1 ∷ []) (pos 4 ∷ [])
        ≡ nothing }
    ensures fourth { owed_after_wait (task_at thirds_graph 1) 3 (pos 3 ∷ pos 1 ∷ pos 4 ∷ [])
        (pos 7 ∷ []) ≡ values 0 (Ok (pos 7) ∷ []) }
{}

/// A source, a decimator and a sink run to their end. Of six values the first and the fourth are
/// put.
fn a_decimator_runs()
    ensures graph { IsGraph thirds.graph }
    ensures opening { HasRun thirds thirds_opening }
    ensures after_second { HasRun thirds after_second }
    ensures after_fourth { HasRun thirds after_fourth }
    ensures end { HasRun thirds thirds_end }
{
    moves::opening();
    turns_lead_on();
}

/// By turns of the tasks in this order each turn makes the event that the run has next. When d has
/// taken the second value it waits again, and puts nothing.
fn turns_make_the_run_of_a_decimator()
    ensures run { answers_in_turn thirds thirds_opening thirds_order
        ≡ map makes (first_turns ++ second_turns ++ third_turns) }
    ensures waits { turn_tells thirds None after_second 1 ≡ Some Blocked }
    ensures puts_none { (v : ℤ) → IsNextSignal thirds after_second 1 0 1 1 v → ⊥ }
{}

/// The end of the run: the sink has the answer of the job.
fn the_end_of_the_run_of_a_decimator()
    ensures over { IsOver thirds thirds_end }
    ensures answer { answer_of thirds ≡ Ok ((2, pos 3 ∷ pos 1 ∷ []) ∷ []) }
{
    a_decimator_runs();
    moments::met_none();
    moments::answers();
}

/// A third and the whole of a stream on one phaser of bound 1: five samples go through, and with
/// six each task comes to wait for another.
fn the_sixth_sample_stalls()
    ensures five { (thinned_after five 30).taken 4 0
        ≡ pos 2 ∷ pos 6 ∷ pos 3 ∷ pos 4 ∷ pos 5 ∷ [] }
    ensures gone { turn_tells (thinned five) None (thinned_after five 30) 4 ≡ Some Gone }
    ensures over { is_stalled (thinned five) (thinned_after five 30) ≡ false }
    ensures stalled { is_stalled (thinned six) (thinned_after six 20) ≡ true }
{}
