//! Tests of a lock and of a phaser between threads, by their public calls: of `turn_lock`,
//! `phase_shared`, with blocks of phases and late waiters, and `phase_received`. They stand in a
//! crate of their own, since a crate is proved anew with its tests. `counting` is an example of a
//! lock's rule.
#![tactic(auto)]

#[cfg(test)]
mod asked;
#[cfg(test)]
mod block_tries;
#[cfg(test)]
mod blocks;
#[cfg(test)]
mod calls;
#[cfg(test)]
mod churn;
#[cfg(test)]
mod closing;
pub mod counting;
#[cfg(test)]
mod head;
#[cfg(test)]
mod kept;
#[cfg(test)]
mod locks;
#[cfg(test)]
mod parts;
#[cfg(test)]
mod puts;
#[cfg(test)]
mod received;
#[cfg(test)]
mod receiver_blocks;
#[cfg(test)]
mod receiver_next;
#[cfg(test)]
mod receiver_tries;
#[cfg(test)]
mod standing;
#[cfg(test)]
mod threads;
#[cfg(test)]
mod told;
#[cfg(test)]
mod tries;
#[cfg(test)]
mod worked_laws;
