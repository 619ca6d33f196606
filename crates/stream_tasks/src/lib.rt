//! A task of a graph with its registrations, as it goes from thread to thread, from how a run
//! between threads begins to how it ends.
//!
//! **Beginning.** The phasers of a run are made, each with its founder; the founders register the
//! tasks without a parent, and leave.
//!
//! ```text
//! let (phasers, regs) = open_phasers(&rt, alloc, &job)?;            // in the order of the lines
//! let mut founders = found(&rt, alloc, &phasers, regs)?;            // who borrow the phasers
//! let lefts = leave_all(&rt, alloc, founders)?;                     // what the founders have seen
//! ```
//!
//! Founders and members cannot be thrown away: where memory is wanting on the way, the founders
//! made so far leave. Each function waits where it says so.
//!
//! **Going on.** Whoever has a task makes its next event: `Task::found`, `Unregistered::new` and
//! `Task::turn`.
//!
//! **Ending.** What the tasks and the founders leave behind is put together, phaser by phaser, and
//! what they say of one another is compared. Where it agrees, what the sinks have taken is the
//! answer of the job.
//!
//! ```text
//! let lines = finish(alloc, &job, founders, &gave, tasks)?;  // None where something differs
//! ```
//!
//! Proved: what the clause of `finish` says. Not promised: that it is not None; of a run whose
//! tasks have all left, none is known where it is.
#![tactic(auto)]

mod blocks;
mod child;
mod children;
mod deal;
mod delivery;
mod ending;
mod gate;
mod held;
mod hold;
mod join;
mod join_block;
mod keep;
mod opening;
mod run;
mod seed;
mod task;
mod task_state;
mod turn;
mod unregistered;
mod went;

pub use child::Child;
pub use ending::run_end::finish;
pub use ending::task_left::{TaskKnowledge, TaskLeft};
pub use gate::{Gate, Open};
pub use opening::founder::{Founder, FounderLeft};
pub use opening::founders::{dismiss_founders, found, leave_all};
pub use opening::phasers::open_phasers;
pub use run::Run;
pub use seed::Seed;
pub use task::Task;
pub use unregistered::Unregistered;
pub use went::Went;
