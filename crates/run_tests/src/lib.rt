//! Tests of runs on worker threads, by their public calls: of `worker_pool` and `stream_workers`;
//! of members of a phaser between threads, of `stream_members`; and of where tasks meet, of
//! `stream_lists`. They stand in a crate of their own, since a crate is proved anew with its tests.
#![tactic(auto)]

#[cfg(test)]
mod after_faults;
#[cfg(test)]
mod any_meets;
#[cfg(test)]
mod blocks;
#[cfg(test)]
mod children;
#[cfg(test)]
mod gates;
#[cfg(test)]
mod jobs;
#[cfg(test)]
mod meeting;
#[cfg(test)]
mod pools;
#[cfg(test)]
mod random_graphs;
#[cfg(test)]
mod refused;
#[cfg(test)]
mod runs;
#[cfg(test)]
mod tasks;
#[cfg(test)]
mod toys;
#[cfg(test)]
mod unheld;
