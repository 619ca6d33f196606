//! The text of scripts: how a script is cut into lines, the command that a line gives, and the
//! reply lines. A line is read by `read`, and a reply is written by `ReplyLine::write`.
#![tactic(auto)]

mod command;
mod cuts;
pub mod laws;
mod outcomes;
mod refusal;
mod reply;
mod reply_line;
mod script_line;
mod values;

pub use command::Command;
pub use cuts::lf_of;
pub use outcomes::Outcomes;
pub use phase_accum::Op;
pub use phase_base::without_cr;
pub use refusal::Refusal;
pub use reply::Reply;
pub use reply_line::{REPLY_MAX, ReplyLine};
pub use script_line::{LINE_MAX, read};
pub use values::{VALUES_MAX, Values};
