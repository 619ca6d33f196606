//! A phaser for one thread under any of the five operations, for whoever learns the operation when
//! it runs. The first calls are `AnyPhaser::new`, `AnyPhaser::signal` and `AnyPhaser::wait`.
//! `Parcels` are places for the sends of blocks of phases, and `held` makes the sends of one phase.
#![tactic(auto)]

mod any_phaser;
mod block_sends;
mod joining;
mod parcels;
mod sends;

pub use any_phaser::AnyPhaser;
pub use parcels::Parcels;
pub use sends::held;
