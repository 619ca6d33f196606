//! Tests of the crates of a phaser for one thread, by their public calls: of `phase_base`,
//! `phase_accum`, `phase_registry`, `phase_ring` and `phase_core`. They stand in a crate of their
//! own, since a crate is proved anew with its tests.
#![tactic(auto)]

#[cfg(test)]
mod blocks;
#[cfg(test)]
mod both;
#[cfg(test)]
mod calls;
#[cfg(test)]
mod limits;
#[cfg(test)]
mod members;
#[cfg(test)]
mod phaser;
#[cfg(test)]
mod sends;
#[cfg(test)]
mod sizes;
#[cfg(test)]
mod slots;
#[cfg(test)]
mod standing;
#[cfg(test)]
mod values;
#[cfg(test)]
mod worked_laws;
