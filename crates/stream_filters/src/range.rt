//! The range of the values on a stream.
ghost use Rattle.std.specs.Prelude.{◌≡◌};
ghost use Rattle.stream_filters.specs.Range.{ranged};

use crate::fault::TooBigValue;

/// The least value on a stream.
pub const VALUE_MIN: i64 = -9_223_372_036_854_775_807;
/// The greatest value on a stream.
pub const VALUE_MAX: i64 = 9_223_372_036_854_775_807;

/// The value, if it is in the range of a stream's values.
pub(crate) fn in_range(value: i128) -> Result<i64, TooBigValue>
    ensures { result ≡ ranged value }
{
    if value < VALUE_MIN as i128 || value > VALUE_MAX as i128 {
        return Err(TooBigValue);
    }
    Ok(value as i64)
}
