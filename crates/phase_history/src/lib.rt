//! What happens on a phaser, as the list of the events on it, and what holds of every such list. No
//! code keeps one: the contracts of every phaser speak of them. The first page to read is
//! `specs/Histories.antt`, and then the laws in `src/laws.rt`.
#![tactic(auto)]

mod call;
mod event;
mod got;
pub mod laws;
mod refusal;
mod reply;

pub use call::Call;
pub use event::Event;
pub use got::{Got, GotBlock};
pub use refusal::{NoTask, RegisterRefusal, SignalRefusal, WaitRefusal};
pub use reply::Reply;
