//! A phaser for one thread behind a handle, for C: what a static library exports. The handle is a
//! struct that the caller keeps. A call answers `GOOD`, or why it was refused, by a number of
//! `handle_numbers`. The first calls are `phase_phaser_new`, `phase_phaser_signal` and
//! `phase_phaser_wait`.
#![tactic(auto)]

mod block_calls;
mod block_exports;
mod calls;
mod exports;
mod handle;
mod member_calls;
mod member_exports;
mod place;

pub use block_exports::{phase_phaser_signal_block, phase_phaser_wait_block};
pub use exports::{phase_phaser_free, phase_phaser_new, phase_phaser_signal, phase_phaser_wait};
pub use handle::Handle;
pub use member_exports::{
    Standing, phase_phaser_drop, phase_phaser_register, phase_phaser_register_now,
    phase_phaser_view,
};
