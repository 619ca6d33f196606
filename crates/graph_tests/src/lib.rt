//! Tests of runs of graphs, by their public calls: whole runs on one thread, turn by turn and by
//! pieces of samples, and the phasers of a graph. What is expected was worked out by hand. They
//! stand in a crate of their own, since a crate is proved anew with its tests.
#![tactic(auto)]

#[cfg(test)]
mod faults;
#[cfg(test)]
mod feeds;
#[cfg(test)]
mod jobs;
#[cfg(test)]
mod phasers;
mod ready;
#[cfg(test)]
mod rounds;
#[cfg(test)]
mod runs;
#[cfg(test)]
mod stalls;
#[cfg(test)]
mod stops;
#[cfg(test)]
mod turns;
#[cfg(test)]
mod worlds;
