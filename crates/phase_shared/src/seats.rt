//! A phaser under a lock: what the seats of its lock know, and each call as a step of a seat.

pub mod asked;
pub mod asking;
pub mod block_steps;
pub mod desk;
pub mod ghost_steps;
pub mod hints;
pub mod join_steps;
pub mod lanes;
pub mod locked;
pub mod looks;
pub mod nexts;
pub mod pauses;
pub mod places;
pub mod request;
pub mod serving;
pub mod spins;
pub mod steps;
pub mod turns;
pub mod view;
