//! Tests of scripts and their replays, by public calls: of `phase_script` and `phase_replay`. They
//! stand in a crate of their own, since a crate is proved anew with its tests.
#![tactic(auto)]

#[cfg(test)]
mod longest;
#[cfg(test)]
mod once;
#[cfg(test)]
mod replays;
#[cfg(test)]
mod scripts;
#[cfg(test)]
mod sizes;
