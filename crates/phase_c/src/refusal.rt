//! Why a call was refused.
ghost use Rattle.std.specs.Prelude.{◌≡◌};

use graph_lang::{GraphFault, GraphRefusal, Place};
use std::alloc::AllocError;

/// Why a call was refused.
#[derive(Clone, Copy, Debug, PartialEq, Eq)]
pub enum Refusal {
    /// The first fault of the graph's text, or the first task that meets one of an earlier line on
    /// a phaser with `any`.
    Graph(GraphFault),
    /// What is lent has not the lengths that the graph asks for.
    Counts,
    /// A number is none that a sample may be.
    Sample {
        /// Its place among all that were lent.
        at: usize,
    },
    /// A value is out of range.
    TooBig {
        /// The phaser of the value, or the filter or peer that made it.
        place: Place,
        /// The phase on the phaser, or the step of the task.
        phase: usize,
    },
    /// The values have no room where they were to be written.
    Room,
    /// Memory ran out.
    OutOfMemory,
}

impl From<GraphRefusal> for Refusal {
    ghost use Rattle.std.specs.Prelude.{◌≡◌};
    ghost use Rattle.phase_c.specs.Refusals.{refusal_of_graph};

    ghost from_gives = { λ given why. why ≡ refusal_of_graph given };

    fn from(given: GraphRefusal) -> Refusal {
        match given {
            GraphRefusal::Fault(fault) => Refusal::Graph(fault),
            GraphRefusal::OutOfMemory => Refusal::OutOfMemory,
        }
    }
}

impl From<AllocError> for Refusal {
    ghost use Rattle.std.specs.Prelude.{◌≡◌};
    ghost use Rattle.phase_c.specs.declared.refusal.Refusal.TheVariants.{OutOfMemory};

    ghost from_gives = { λ _ why. why ≡ OutOfMemory };

    fn from(_: AllocError) -> Refusal {
        Refusal::OutOfMemory
    }
}
