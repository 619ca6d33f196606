//! Graphs: phasers and tasks with their names, and what holds of each line and of the whole. The
//! first calls are `Graph::tasks` and `Graph::task`. A text is read by `graph_lang`.
#![tactic(auto)]

mod graph;
pub mod laws;
mod limits;
mod line;
mod place;
mod registration;

pub use graph::Graph;
pub use limits::{ENDS_MAX, EVERY_MAX, FACTOR_MAX, PHASERS_MAX, STEPS_MAX, TASKS_MAX};
pub use line::{Kind, Parent, PhaserLine, TaskLine};
pub use phase_accum::Op;
pub use phase_base::Mode;
pub use place::Place;
pub use registration::Registration;
