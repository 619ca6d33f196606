//! A run that is stopped in the midst of a phase, and the laws of stops used at it.
ghost use Rattle.std.specs.Prelude.{◌≡◌, List, ℤ, [], ◌∷◌, Some, pos};
ghost use Rattle.graph_runs.specs.Answers.{turn_tells, Blocked};
ghost use Rattle.graph_runs.specs.Feeds.{IsFed, call_of, hungers};
ghost use Rattle.graph_runs.specs.Moments.{Moment, HasRun};
ghost use Rattle.graph_runs.specs.Settled.{IsReady};
ghost use Rattle.graph_runs.specs.Stops.{IsStop, IsFedStop, IsRightFor};
ghost use Rattle.stream_lists.specs.Jobs.{with_samples};
ghost use Rattle.worked_runs.specs.WorkedStops.{stopped, stopped_ends, as_a_knows, a_saw, a_has_ended, came, unfed};

use graph_runs::{stops, turns};

/// Of two sources on one phaser a has signalled in phase 1 and left, and b, which is hungry, has
/// not; the sink, which has taken phase 0, waits. Each knows another beginning of the phaser's
/// history. By the law what they know is one moment that has run.
fn a_run_is_stopped()
    ensures history { (as_a_knows stopped).history 0 ≡ a_saw }
    ensures hungry { call_of stopped a_has_ended (as_a_knows stopped) 1 ≡ hungers }
    ensures waits { turn_tells stopped None (as_a_knows stopped) 2 ≡ Some Blocked }
    ensures stop { IsStop stopped stopped_ends }
    ensures ran { (m : Moment) × HasRun stopped m }
{
    turns::runs_begin();
    turns::turns_stay_reached();
    stops::stops_have_run();
}

/// Each source knows its own samples alone: a, whose file has ended, 1 and 2, and b 10 so far. By
/// the law the 11 that the sink has taken begins its values, whatever comes to b.
fn what_was_taken_stays_right()
    ensures stop { IsFedStop unfed came a_has_ended stopped_ends }
    ensures right { (more : List (List ℤ)) → IsReady (with_samples more unfed)
        → IsFed (with_samples came unfed) a_has_ended more
        → IsRightFor (with_samples more unfed) stopped_ends }
{
    turns::runs_begin();
    turns::turns_stay_reached();
    stops::stops_are_right();
}
