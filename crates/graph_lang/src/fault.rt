//! Faults of a graph's text.
ghost use Rattle.std.specs.Prelude.{◌≡◌};

use std::alloc::{AllocError, AllocFailed};
use thiserror::Error;

/// What is wrong with a line of a graph's text, in the order in which the kinds are checked.
#[derive(Clone, Copy, Debug, PartialEq, Eq, Error)]
pub enum FaultKind {
    /// The line is not in the grammar.
    #[error("the line is none that a graph's text may have")]
    Syntax,
    /// A number, a count of taps, inputs or outputs, or the count of phasers or tasks is outside
    /// its limit; or the low end of a clamp is above its high end. A block has 1 to `BOUND_MAX`
    /// steps.
    #[error("a number, or how many of something there are, is outside its limit")]
    Limit,
    /// The name was declared before, or one phaser stands twice on the line.
    #[error("the name was declared before, or one phaser stands twice on the line")]
    Twice,
    /// A name is no phaser declared above, or the parent is no task declared above.
    #[error("no line above declares one of the names")]
    Unknown,
    /// An output stands above an input; a peer wants X, then E, then Y.
    #[error("an output is declared above an input")]
    OutBeforeIn,
    /// The parent is a splitter, a decimator, a joiner, a peer, or a sink that joins now.
    #[error("a splitter, a decimator, a joiner, a peer and a sink that joins now have no children")]
    BadParent,
    /// An output has a single, or the parent does not hold what its child needs.
    #[error("an output has a single, or the parent lacks a phaser of its child")]
    NotHeld,
    /// The steps of a block are more than the bound of a phaser of the line.
    #[error("a block has more steps than the bound of a phaser of its line")]
    OverBound,
    /// On a phaser with `any`, two tasks signal in one phase. It is told once the samples are
    /// known.
    #[error("two tasks signal an `any` phaser in one phase")]
    AnyMeets,
}

/// The first faulty line of a graph's text, and its first kind of fault.
#[derive(Clone, Copy, Debug, PartialEq, Eq, Error)]
#[error("line {line}: {kind}")]
pub struct GraphFault {
    /// The number of the line, from 1 on.
    pub line: u64,
    /// What is wrong with it.
    pub kind: FaultKind,
}

/// Why a text gave no graph.
#[derive(Clone, Copy, Debug, PartialEq, Eq, Error)]
pub enum GraphRefusal {
    /// A line is faulty.
    #[error(transparent)]
    Fault(GraphFault),
    /// There was no memory for the graph.
    #[error("there is no memory for the graph")]
    OutOfMemory,
}

impl From<AllocError> for GraphRefusal {
    ghost use Rattle.std.specs.Prelude.{◌≡◌};
    ghost use Rattle.graph_lang.specs.declared.fault.GraphRefusal.TheVariants.{OutOfMemory};

    ghost from_gives = { λ _ e. e ≡ OutOfMemory };

    fn from(_: AllocError) -> GraphRefusal {
        GraphRefusal::OutOfMemory
    }
}

impl<T: Drop> From<AllocFailed<T>> for GraphRefusal {
    ghost use Rattle.std.specs.Prelude.{◌≡◌};
    ghost use Rattle.graph_lang.specs.declared.fault.GraphRefusal.TheVariants.{OutOfMemory};

    ghost from_gives = { λ _ e. e ≡ OutOfMemory };

    fn from(_: AllocFailed<T>) -> GraphRefusal {
        GraphRefusal::OutOfMemory
    }
}

/// The refusal of a line.
pub(crate) fn fault(line: u64, kind: FaultKind) -> GraphRefusal
    ensures { result ≡ GraphRefusal.Fault (record { line = line; kind = kind }) }
{
    GraphRefusal::Fault(GraphFault { line, kind })
}
