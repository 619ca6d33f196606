//! A phaser for one thread: tasks join and leave, signal phases with their sends, and wait for the
//! values of the phases. The contracts speak of histories, which are lists of what the calls did.
//! The first calls are `PhaserCore::new`, `PhaserCore::signal` and `PhaserCore::wait`.
#![tactic(auto)]

mod going_on;
mod late_tasks;
mod list_refusals;
mod members;
mod one_sends;
mod passing;
mod phaser_core;
mod refusal_rows;
mod signalling;
mod signalling_plain;
mod slots;
mod standing;
pub mod standing_laws;
mod waiting;

pub use late_tasks::LateTasks;
pub use one_sends::{are_sends, hold_each, one_send};
pub use phase_history::{
    Call, Event, Got, GotBlock, NoTask, RegisterRefusal, Reply, SignalRefusal, WaitRefusal,
};
pub use phaser_core::PhaserCore;
pub use standing::Standing;
