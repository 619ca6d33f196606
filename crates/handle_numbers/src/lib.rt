//! What the static libraries with handles share: the numbers by which C names operations, modes and
//! singles, those of what calls on phasers answer, and places for what waits for blocks get. The
//! first calls are `op_of`, `single_of` and `value_code`.
#![tactic(auto)]

mod block_places;
mod codes;
pub mod numbers;

pub use block_places::{places, write_numbers};
pub use codes::{
    mode_code, mode_of, op_code, op_of, register_code, signal_code, single_of, value_code,
    wait_code,
};
