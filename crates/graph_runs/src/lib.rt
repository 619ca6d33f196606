//! Runs of a graph: what one has done at a moment, how events change it, what each task knows of it
//! by itself, and how it ends. Nothing of this runs but what a task owes within a step.
//!
//! A caller has a law by calling it, as `moments::streams`: the function does nothing, and its
//! contract is the law. `specs/Moments.antt` is the first page to read: a moment, and `HasRun`.
//!
//! - `moments`: what is complete of a phaser begins the phaser's list, what a task took and put
//!   begins its lists, and in the end they are all of them.
//! - `moves`: the opening has run, and each event of a task that is the task's next one leaves a
//!   moment that has run. `specs/Moves.antt` has one event as a relation of two moments, and
//!   `specs/Turned.antt` as a function of the moment before.
//! - `turns`: which event the order of a task's events gives it next, what its turn answers, and
//!   the moment after: `specs/Nexts.antt`, then `specs/Answers.antt`; `sized`: the same of turns
//!   that make other numbers of steps.
//! - `parts`, `places` and `beginnings`: whoever moves one task alone, as a thread with the task's
//!   registrations does, knows a moment of the task's own, and each call of a registration makes it
//!   a later one: `specs/Parts.antt`, `specs/Places.antt`.
//! - `feeds`: what of a run stays when sources get more samples behind those that they have
//!   signalled: `specs/Feeds.antt`.
//! - `ends`: what each task knew is put together, and the sinks have taken what the graph's lines
//!   say: `specs/TaskEnds.antt`, `specs/RunEnds.antt`.
//! - `stops`: the same of tasks that are stopped wherever they stand, with samples still to come:
//!   what each sink took is right whatever comes: `specs/Stops.antt`.
//!
//! **A step in code.** What the line of a task says, and what the task owes within a step, for all
//! kinds, whoever moves the tasks: `kind_of`, `first_filter` and `owed_after_wait`.
#![tactic(auto)]

pub mod beginnings;
pub mod ends;
pub mod feeds;
mod filters;
mod lines;
pub mod moments;
pub mod moves;
pub mod outcomes;
mod owed;
pub mod parts;
pub mod places;
pub mod sized;
mod steps;
pub mod stops;
mod taken;
pub mod turns;

pub use filters::{filtered, filtered_all, first_filter};
pub use lines::{first_input_of, input_of, is_cut, kind_of, output_of, parent_of, until_of};
pub use owed::Owed;
pub use steps::{owed_after_exchange, owed_after_signal, owed_after_wait};
pub use taken::number_taken;
