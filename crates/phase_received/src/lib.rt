//! What registrations of a phaser between threads receive, kept beside them: for whoever writes the
//! threads, and wants to say what each got.
//!
//! A `Receiver` is a registration with the values that it got. `Receipts` are a past with what each
//! registration that went into it got. In contracts they are the registration and the past
//! themselves, so a program's own clauses speak of `received_of` and `HasWhole` alone.
//!
//! ```text
//! let mut taker = Receiver::new(reg, Vec::new(alloc));    // a registration that got nothing yet
//! let got = taker.wait(rt, &phaser);                      // a value, kept in the list, or the end
//! let receipts = taker.leave(rt, alloc, &phaser);         // its past, with its list
//! ```
//!
//! Proved: that what is kept is what was received by the history that was seen; of who saw the end
//! of a stream, that this is exactly the stream from its start on. Not promised: that a waiting
//! call comes back.
#![tactic(auto)]

mod fault;
pub mod laws;
mod receipts;
mod receiver;

pub use fault::ReceiveFault;
pub use receipts::Receipts;
pub use receiver::Receiver;
