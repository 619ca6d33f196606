//! What is told of a fault of a graph, and of a value out of range.
ghost use Rattle.std.specs.Prelude.{◌≡◌, pos};
ghost use Rattle.graph_numbers.specs.Numbers.{graph_fault, kind_number, too_big_fault};

use crate::fault::PhaseFault;
use graph_lang::{FaultKind, GraphFault, Place};

/// Nothing is told beside the status.
pub const NO_FAULT: PhaseFault = PhaseFault {
    line: 0,
    number: 0,
    at: 0,
    kind: 0,
    place: 0,
};

/// The number of a kind of fault.
fn kind_number(kind: FaultKind) -> i32
    ensures { result ≡ pos (kind_number kind) }
{
    match kind {
        FaultKind::Syntax => 1,
        FaultKind::Limit => 2,
        FaultKind::Twice => 3,
        FaultKind::Unknown => 4,
        FaultKind::OutBeforeIn => 5,
        FaultKind::BadParent => 6,
        FaultKind::NotHeld => 7,
        FaultKind::OverBound => 8,
        FaultKind::AnyMeets => 9,
    }
}

/// What the fault of a graph's text tells: its line, and the number of its kind.
pub fn graph_fault(found: GraphFault) -> PhaseFault
    ensures { result ≡ graph_fault found }
{
    PhaseFault {
        line: found.line,
        kind: kind_number(found.kind),
        ..NO_FAULT
    }
}

/// What a value out of range tells: the phaser or the task, and the phase or the step.
pub fn too_big_fault(place: Place, at: u64) -> PhaseFault
    ensures { result ≡ too_big_fault place at }
{
    match place {
        Place::Phaser(number) => PhaseFault {
            number: number as u64,
            at,
            place: 1,
            ..NO_FAULT
        },
        Place::Task(number) => PhaseFault {
            number: number as u64,
            at,
            place: 2,
            ..NO_FAULT
        },
    }
}
