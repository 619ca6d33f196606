//! The registered tasks of a phaser: their numbers, which only rise, and their entries. The first
//! calls are `Registry::new` and `Registry::add`.
#![tactic(auto)]

mod refusal;
mod registry;

pub use refusal::AddRefusal;
pub use registry::Registry;
