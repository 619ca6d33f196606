//! The arithmetic of streams: filters over samples, peers, and the turns of splitters and joiners.
//!
//! It is for a scheduler that moves the samples itself: make a `Fir` with `Fir::new` or
//! `Fir::with_form`, and give it one sample after the other with `Fir::step`. `filter_list` filters
//! a whole list, and faster.
#![tactic(auto)]

mod blocks;
mod fault;
mod fir;
mod form;
pub mod laws;
mod peer;
mod range;
mod recursive;
mod sums;
mod turns;
mod weigher;
mod whole_list;

pub use fault::{FilterFault, FirFault, TooBigValue};
pub use fir::{AGAIN_MAX, DELAY_MAX, FEW_TAPS_MAX, Fir, PLUS_MAX, SHIFT_MAX, TAP_MAX, TAPS_MAX};
pub use form::Form;
pub use peer::Peer;
pub use range::{VALUE_MAX, VALUE_MIN};
pub use turns::{Join, RoundRobin, Split};
pub use whole_list::filter_list;
