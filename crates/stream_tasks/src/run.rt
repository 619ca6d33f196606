//! Which run a task belongs to.

use std::marker::Brand;

/// Which run a task belongs to: its job, and which phaser each of the graph's phasers is.
pub trait Run {
    ghost use Rattle.std.specs.Prelude.{ℕ};
    ghost use Rattle.stream_lists.specs.Jobs.{Job};
    ghost use Rattle.stream_members.specs.Members.{Spot};

    ghost job: { Job };

    ghost spots: { ℕ → Spot };
}

impl Run for Brand {
    ghost use Rattle.stream_tasks.specs.Openings.{no_spot};
    ghost use Rattle.stream_tasks.specs.Runs.{no_job};

    ghost job = { no_job };

    ghost spots = { λ p. no_spot };
}
