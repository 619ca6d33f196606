//! A graph that is fed, behind a handle, for C: what a static library exports. The handle is a
//! struct that the caller keeps. A call answers `GOOD`, or why it was refused, by a number of
//! `numbers`. The first calls are `phase_stream_new`, `phase_stream_feed`, `phase_stream_run` and
//! `phase_stream_take`.
#![tactic(auto)]

mod calls;
mod exports;
mod feed_exports;
mod handle;
mod making;
mod numbers;
mod place;
mod reading;
mod take_exports;
mod told;

pub use exports::{phase_stream_counts, phase_stream_free, phase_stream_new};
pub use feed_exports::{phase_stream_feed, phase_stream_finish, phase_stream_run};
pub use handle::Handle;
pub use take_exports::{phase_stream_start, phase_stream_take, phase_stream_waits};
pub use told::PhaseStop;
