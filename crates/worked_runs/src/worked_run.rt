//! A whole run of a graph, from its opening to its end, and each law of runs used at it. These
//! functions make no call and have no effect: what a law says of the run is the contract here.
ghost use Rattle.std.specs.Prelude.{◌≡◌, ◌<◌, ℕ, List, [], ◌∷◌, Ok, pos, length};
ghost use mathlib.Core.List.{IsPrefix};
ghost use Rattle.phase_history.specs.Phases.{stream_of};
ghost use Rattle.graph_base.specs.Graphs.{task_at};
ghost use Rattle.graph_base.specs.TaskLines.{IsGraph};
ghost use Rattle.stream_lists.specs.Jobs.{Job};
ghost use Rattle.stream_lists.specs.Lists.{list_of_phaser, numbers_of, taken_from};
ghost use Rattle.stream_lists.specs.Ranges.{answer_of};
ghost use Rattle.stream_lists.specs.Spans.{span_in};
ghost use Rattle.graph_runs.specs.Moments.{Moment, HasRun, IsOver, HasMetNone, value_at, started};
ghost use Rattle.graph_runs.specs.Settled.{Stands, PutsOut};
ghost use Rattle.worked_runs.specs.Runs.{TaskEvent, AreNext, HasRunThrough};
ghost use Rattle.worked_runs.specs.Worked.{worked, worked_opening, worked_turns, worked_end, after_peer, before_late, with_late, before_end};

use graph_runs::{moments, moves};

/// Events of one step or of a block that are each the next one of their task lead from one moment
/// of a run to another.
pub(crate) fn turns_lead_on()
    ensures { (job : Job) (m : Moment) (turns : List TaskEvent) → IsGraph job.graph
        → AreNext job m turns → HasRun job m → HasRunThrough job m turns }
{
    moves::turns_keep();
    moves::blocks_keep();
}

/// A source, a peer, a splitter, a joiner, a sink with `until` and its child run to their end.
pub(crate) fn a_run_from_its_opening_to_its_end()
    ensures graph { IsGraph worked.graph }
    ensures opening { HasRun worked worked_opening }
    ensures through { HasRunThrough worked worked_opening worked_turns }
    ensures after_peer { HasRun worked after_peer }
    ensures before_late { HasRun worked before_late }
    ensures with_late { HasRun worked with_late }
    ensures before_end { HasRun worked before_end }
    ensures end { HasRun worked worked_end }
{
    moves::opening();
    turns_lead_on();
}

/// What the peer, which has still to leave, has taken and put, and what is complete of X.
fn a_moment_on_the_way()
    ensures stream { IsPrefix (stream_of (value_at worked 0) (after_peer.history 0))
        (list_of_phaser worked 0) }
    ensures taken { IsPrefix (after_peer.taken 1 0)
        (taken_from (numbers_of worked) (task_at worked.graph 1) (span_in worked 1) 0) }
    ensures stands { Stands (started worked after_peer) after_peer 1 }
    ensures put { PutsOut (started worked after_peer) after_peer 1 1 }
{
    a_run_from_its_opening_to_its_end();
    moments::streams();
    moments::takes();
    moments::members();
}

/// The end of the run: Z has its whole list, and the sinks have the answer of the job.
fn the_end_of_the_run()
    ensures over { IsOver worked worked_end }
    ensures met_none { HasMetNone worked worked_end }
    ensures stream { stream_of (value_at worked 5) (worked_end.history 5)
        ≡ list_of_phaser worked 5 }
    ensures answer { answer_of worked
        ≡ Ok ((4, pos 10 ∷ []) ∷ (5, pos 14 ∷ []) ∷ []) }
{
    a_run_from_its_opening_to_its_end();
    moments::streams();
    moments::met_none();
    moments::answers();
}
