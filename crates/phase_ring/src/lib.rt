//! The phases of a phaser that can still be asked for: in a ring of slots whose number never
//! changes, a board that keeps the ring with the first phase that is not complete, and a store that
//! keeps either such slots or, while each phase has one send, the sends alone. The first calls are
//! `SlotRing::with_bound` and `SlotRing::merge`.
#![tactic(auto)]

mod board;
mod choice;
mod role;
mod slot;
mod slot_ring;
mod store;
mod values;

pub use board::Board;
pub use role::Role;
pub use slot::{MergeRefusal, Slot};
pub use slot_ring::SlotRing;
pub use store::Store;
pub use values::Values;
