//! Laws of graphs. The contract of each function is the law.
ghost use Rattle.std.specs.Prelude.{ℕ, ◌≡◌, ◌^◌, ◌++◌, map};
ghost use Rattle.std.specs.List.{All, enumerate_from};
ghost use Rattle.graph_base.specs.Graphs.{Graph, Task};
ghost use Rattle.graph_base.specs.TaskLines.{IsTaskLine};
ghost use Rattle.graph_base.specs.Registrations.{registrations_of, signalled_by, inputs_among, outputs_among, HasItsMode};

use crate::limits::{ENDS_MAX, EVERY_MAX, FACTOR_MAX, PHASERS_MAX, STEPS_MAX, TASKS_MAX};

/// The limits of a graph, as numbers.
pub fn limits_are()
    ensures phasers { PHASERS_MAX ≡ 64 }
    ensures tasks { TASKS_MAX ≡ 64 }
    ensures ends { ENDS_MAX ≡ 8 }
    ensures every { EVERY_MAX ≡ 65536 }
    ensures count { STEPS_MAX ≡ 2 ^ 62 }
    ensures factor { FACTOR_MAX ≡ 2147483647 }
{}

/// The registrations of a task are on its inputs and then its outputs, each once. Its inputs are
/// those where it waits, and its outputs those where it signals: a peer's are E and then Y.
pub fn registrations()
    ensures phasers { (graph : Graph) (t : ℕ) (task : Task) → IsTaskLine graph t task
        → map (λ r. r.phaser) (registrations_of graph task) ≡ task.inputs ++ task.outputs }
    ensures inputs { (graph : Graph) (t : ℕ) (task : Task) → IsTaskLine graph t task
        → inputs_among (registrations_of graph task) ≡ enumerate_from 0 task.inputs }
    ensures outputs { (graph : Graph) (t : ℕ) (task : Task) → IsTaskLine graph t task
        → outputs_among (registrations_of graph task) ≡ enumerate_from 0 (signalled_by task) }
    ensures modes { (graph : Graph) (task : Task) → All HasItsMode (registrations_of graph task) }
{}
