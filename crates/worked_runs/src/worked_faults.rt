//! A run that meets a value that is too big, and in which a filter makes one.
ghost use Rattle.std.specs.Prelude.{◌≢◌, None};
ghost use Rattle.graph_base.specs.declared.place.Place.TheVariants as place;
ghost use Rattle.stream_lists.specs.Ranges.{first_too_big};
ghost use Rattle.graph_runs.specs.Moments.{HasRun};
ghost use Rattle.graph_runs.specs.Settled.{IsFaultAt};
ghost use Rattle.worked_runs.specs.WorkedFaults.{faulty, faulty_moment};

use crate::worked_run::turns_lead_on;
use graph_runs::{moments, moves};

/// Phase 0 of X, which out has taken, and step 0 of the filter have a value that is too big, by the
/// graph's lines too; so the job does not fit.
fn values_that_are_too_big()
    ensures run { HasRun faulty faulty_moment }
    ensures met { IsFaultAt faulty (place.Phaser 0, 0) }
    ensures made { IsFaultAt faulty (place.Task 4, 0) }
    ensures tells { first_too_big faulty ≢ None }
{
    moves::opening();
    turns_lead_on();
    moments::too_big_is_a_fault();
}
