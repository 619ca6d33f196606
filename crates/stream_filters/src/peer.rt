//! The filter that scales a value and takes another away.
ghost use Rattle.std.specs.Prelude.{◌≡◌, ◌*ℤ◌, ◌-ℤ◌};
ghost use Rattle.stream_filters.specs.Range.{ranged};

use crate::fault::TooBigValue;
use crate::range::in_range;
use crate::sums::product;

/// A peer: it answers its input times a constant, less what another stream brought.
#[derive(Clone, Copy, Debug, PartialEq, Eq)]
pub struct Peer;

impl Peer {
    /// Returns `mul * x - e`, or `TooBigValue` where that is out of range. It takes no memory.
    pub fn mix(mul: i64, x: i64, e: i64) -> Result<i64, TooBigValue>
        ensures { result ≡ ranged ((mul *ℤ x) -ℤ e) }
    {
        in_range(product(mul, x) - i128::from(e))
    }
}
