//! Values of a phase: how sends become a value, the single that is applied to it, and the sends
//! that a task holds until its next signal. The first calls are `Pending::new` and `Pending::send`.
#![tactic(auto)]

mod accumulate;
mod any;
mod applied;
mod greatest;
pub mod laws;
mod least;
mod outcome;
mod pending;
mod product;
mod range;
mod single;
mod sum;

pub use accumulate::{Accumulate, Exact};
pub use any::Any;
pub use applied::apply;
pub use greatest::Greatest;
pub use least::Least;
pub use outcome::{MAGNITUDE_MAX, NO_VALUE, Outcome, VALUE_MAX};
pub use pending::{Pending, SendFault};
pub use phase_base::Op;
pub use product::Product;
pub use range::{BadClamp, Range};
pub use single::Single;
pub use sum::Sum;
