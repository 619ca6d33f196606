//! Outputs of filters that weigh what they put, and of those with a single.
ghost use Rattle.std.specs.Prelude.{◌≡◌, ◌+◌, ◌^◌, ◌≤◌, ◌+ℤ◌, unsigned_abs, length};
ghost use Rattle.phase_accum.specs.Values.{clamped, single_of};
ghost use Rattle.stream_filters.specs.Filter.{AreTaps, output_behind, with_single};
ghost use Rattle.stream_filters.specs.Sums.{back, shifted_down, weight, weighted};

use crate::fir::SHIFT_MAX;
use crate::form::Form;
use crate::sums::{earlier, wide_shifted, wide_sum, wide_sum_back};
use phase_accum::{Range, Single};

/// The nearest number of the range to this one.
fn clamped(range: Range, number: i128) -> i128
    ensures { result ≡ clamped range number }
{
    let low = i128::from(range.low());
    low.max(number.min(i128::from(range.high())))
}

/// A single's number for a number.
fn single_of(single: Single, number: i128) -> i128
    requires { unsigned_abs number ≤ 2 ^ 110 }
    ensures { result ≡ single_of single number }
{
    match single {
        Single::Neg => -number,
        Single::Abs => number.abs(),
        Single::Halve => number.div_euclid(2),
        Single::Clamp(range) => clamped(range, number),
    }
}

/// The number with a single applied, where there is one.
fn with_single(single: Option<Single>, number: i128) -> i128
    requires { unsigned_abs number ≤ 2 ^ 110 }
    ensures { result ≡ with_single single number }
{
    match single {
        Some(single) => single_of(single, number),
        None => number,
    }
}

/// The output of a filter whose taps for samples come to this sum, before its range is checked.
pub(crate) fn output_for(form: &Form, sum: i128, again: &[i64], puts: &[i64]) -> i128
    requires shift { form.now.shift ≤ SHIFT_MAX }
    requires small { unsigned_abs sum ≤ 2 ^ 105 }
    requires light { weight again.now ≤ 2 ^ 41 }
    ensures { result ≡ with_single form.now.single (shifted_down
        (sum +ℤ weighted (back puts.now) again.now) form.now.shift) }
{
    let whole = sum + wide_sum_back(again, puts);
    with_single(form.single, wide_shifted(whole, form.shift))
}

/// The output at the last of these samples, where these values were put before.
pub(crate) fn output_behind(taps: &[i64], form: &Form, samples: &[i64], puts: &[i64]) -> i128
    requires { AreTaps taps.now form.now }
    ensures { result ≡ output_behind taps.now form.now samples.now puts.now }
{
    let ahead = taps.len() - form.again;
    let sum = wide_sum(&taps[..ahead], form, earlier(samples, form.delay));
    output_for(form, sum, &taps[ahead..], puts)
}
