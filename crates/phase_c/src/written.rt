//! The values of the sinks, written where a caller lends room.
ghost use Rattle.std.specs.Prelude.{◌≡◌, ◌≤◌, ◌+◌, ◌++◌, length, take, drop};
ghost use Rattle.std.specs.List.{flat_map, sum_by};
ghost use Rattle.phase_c.specs.SinkValues.{items_in, count_in};

use stream_eval::Lines;

/// Writes these values from a place on.
fn put(out: &mut [i64], at: usize, values: &[i64])
    requires { at + length values.now ≤ length out.old }
    ensures { out.new
        ≡ take at out.old ++ values.now ++ drop (at + length values.now) out.old }
{
    out[at..at + values.len()].copy_from_slice(values);
}

/// Writes the values of all sinks, one sink behind the other. What stands behind them stays.
pub(crate) fn write_values(lines: &[Lines], out: &mut [i64])
    requires { sum_by count_in lines.now ≤ length out.old }
    ensures { out.new ≡ flat_map items_in lines.now
        ++ drop (length (flat_map items_in lines.now)) out.old }
{
    let mut at = 0;
    for line in lines {
        put(out, at, &line.values);
        at += line.values.len();
    }
}
