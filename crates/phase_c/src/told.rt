//! The numbers that a caller is told.
ghost use Rattle.std.specs.Prelude.{◌≡◌};
ghost use Rattle.phase_c.specs.Told.{fault_of, status_of};

use crate::refusal::Refusal;
use graph_numbers::{NO_FAULT, PhaseFault, graph_fault, too_big_fault};

/// The version of the library: 10,000 times its first number, 100 times its second, and its third.
pub const VERSION: u32 = 200;

/// What a refusal tells beside its status.
pub(crate) fn fault_of(why: Refusal) -> PhaseFault
    ensures { result ≡ fault_of why }
{
    match why {
        Refusal::Graph(found) => graph_fault(found),
        Refusal::Sample { at } => PhaseFault {
            at: at as u64,
            ..NO_FAULT
        },
        Refusal::TooBig { place, phase } => too_big_fault(place, phase as u64),
        Refusal::Counts => NO_FAULT,
        Refusal::Room => NO_FAULT,
        Refusal::OutOfMemory => NO_FAULT,
    }
}

/// The status of a refusal.
pub(crate) fn status_of(why: Refusal) -> i32
    ensures { result ≡ status_of why }
{
    match why {
        Refusal::Graph(_) => -1,
        Refusal::Counts => -2,
        Refusal::Sample { .. } => -3,
        Refusal::TooBig { .. } => -4,
        Refusal::Room => -5,
        Refusal::OutOfMemory => -6,
    }
}
