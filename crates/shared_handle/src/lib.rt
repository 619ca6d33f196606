//! A registration on a phaser between threads behind a handle, for C: what a static library
//! exports. A handle is a struct that the caller keeps; there is none of the phaser, which lives as
//! long as any of its registrations. No call waits. The first calls are `phase_member_new`,
//! `phase_member_register`, `phase_member_signal` and `phase_member_wait`.
//!
//! **What C owes.** A handle is zeroed before its first call and never copied. One call at a time
//! is made with it, by any thread: who hands it on orders that by a lock, by a thread's start or
//! end, or by a sequentially consistent atomic. A pointer is good for the length behind it, and
//! what a call writes overlaps nothing else that it is given; parent and child are two handles. No
//! call is made from a signal handler, nor by the child of a `fork` of several threads. Each
//! registration is left: else no phase that lacks its signal is ever complete.
//!
//! **What is proved** of a call, for any number of threads. There is a legal history that begins
//! with what the registration has seen, goes on by events of others, and ends with the call's own
//! event, where it makes one. The status and what is written are those of the definition's answer
//! there. A refused call leaves the registration where it stands and writes nothing. `BUSY` tells
//! that the turn was another's and nothing changed, and never comes where nobody else was
//! registered.
//!
//! **Only tested:** that a call succeeds where it can and where there is memory.
#![tactic(auto)]

mod any_asked;
mod any_member;
mod ask_calls;
mod ask_exports;
mod asked_member;
mod block_calls;
mod block_exports;
mod calls;
mod exports;
mod handle;
mod kept;
mod member;
mod member_calls;
mod member_exports;
mod place;
mod standing_calls;
mod standing_exports;
mod told;
mod words;

pub use ask_exports::{
    phase_member_ask, phase_member_look, phase_member_serve, phase_member_take_back,
};
pub use block_exports::{phase_member_signal_block, phase_member_wait_block};
pub use exports::{phase_member_new, phase_member_next, phase_member_signal, phase_member_wait};
pub use handle::Handle;
pub use member_exports::{
    Standing, phase_member_leave, phase_member_register, phase_member_register_now,
    phase_member_told, phase_member_view,
};
pub use standing_exports::{Counts, phase_member_close, phase_member_closed, phase_member_missing};
