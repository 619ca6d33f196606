//! What the static libraries over graphs share: the numbers by which C is told of kinds of fault
//! and of places, and what crosses to C beside arrays. The first call is `graph_fault`.
#![tactic(auto)]

mod fault;
mod numbers;

pub use fault::{PhaseCounts, PhaseFault};
pub use numbers::{NO_FAULT, graph_fault, too_big_fault};
