//! The faults of the filters.
use crate::fir::{DELAY_MAX, PLUS_MAX, SHIFT_MAX, TAP_MAX, TAPS_MAX};
use crate::range::{VALUE_MAX, VALUE_MIN};
use thiserror::Error;

/// A value is out of range: below `VALUE_MIN` or above `VALUE_MAX`.
#[derive(Clone, Copy, Debug, PartialEq, Eq, Error)]
#[error("a value is not from {VALUE_MIN} to {VALUE_MAX}")]
pub struct TooBigValue;

/// Why no filter was made.
#[derive(Clone, Copy, Debug, PartialEq, Eq, Error)]
pub enum FirFault {
    /// There is no tap, there are more than `TAPS_MAX`, a tap's magnitude is above `TAP_MAX`, the
    /// shift is above `SHIFT_MAX`, what is added above `PLUS_MAX`, or the delay above `DELAY_MAX`.
    #[error("a filter has 1 to {TAPS_MAX} taps up to {TAP_MAX}, a shift up to {SHIFT_MAX}, adds up to \
         {PLUS_MAX}, and has a delay up to {DELAY_MAX}")]
    BadTaps,
    /// There was no memory for the taps or for the window.
    #[error("there was no memory for a filter")]
    OutOfMemory,
}

/// Why a list was not filtered.
#[derive(Clone, Copy, Debug, PartialEq, Eq, Error)]
pub enum FilterFault {
    /// There is no tap, there are more than `TAPS_MAX`, a tap's magnitude is above `TAP_MAX`, the
    /// shift is above `SHIFT_MAX`, what is added above `PLUS_MAX`, or the delay above `DELAY_MAX`.
    #[error("a filter has 1 to {TAPS_MAX} taps up to {TAP_MAX}, a shift up to {SHIFT_MAX}, adds up to \
         {PLUS_MAX}, and has a delay up to {DELAY_MAX}")]
    BadTaps,
    /// The output at this step is out of range, and no earlier one.
    #[error("the output at step {0} is not from {VALUE_MIN} to {VALUE_MAX}")]
    TooBig(usize),
    /// There was no memory for the outputs.
    #[error("there was no memory for the outputs")]
    OutOfMemory,
}
