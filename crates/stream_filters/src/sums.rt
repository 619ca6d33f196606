//! The sums of products that the filters answer.
ghost use Rattle.std.specs.Prelude.{◌≡◌, ◌+◌, ◌*◌, ◌^◌, ◌<◌, ◌≤◌, ◌++◌, length, ◌+ℤ◌, ◌*ℤ◌, unsigned_abs, pos, Ok, ℕ};
ghost use Rattle.stream_filters.specs.Sums.{back, shifted_down, weight, weighted};
ghost use Rattle.stream_filters.specs.Weighing.{AreAhead};
ghost use Rattle.stream_filters.specs.WeigherFields.{IsNarrowBack};
ghost use Rattle.stream_filters.specs.Range.{ranged};

use crate::fir::{PLUS_MAX, SHIFT_MAX};
use crate::form::Form;

/// The product of two values, which always fits 128 bits.
pub(crate) fn product(x: i64, y: i64) -> i128
    ensures value { result ≡ x *ℤ y }
    ensures small { unsigned_abs result ≤ 2 ^ 126 }
{
    i128::from(x) * i128::from(y)
}

/// The sum of each tap times the sample that it weighs, of any size, where the newest sample is the
/// last.
pub(crate) fn wide_sum_back(taps: &[i64], samples: &[i64]) -> i128
    requires { weight taps.now ≤ 2 ^ 41 }
    ensures sum { result ≡ weighted (back samples.now) taps.now }
    ensures small { unsigned_abs result ≤ 2 ^ 104 }
{
    let mut sum = 0;
    for j in 0..taps.len().min(samples.len()) {
        sum += product(taps[j], samples[samples.len() - 1 - j]);
    }
    sum
}

/// The sum divided by 2 to the power `shift`, rounded down.
pub(crate) fn wide_shifted(wide: i128, shift: u32) -> i128
    requires { shift ≤ SHIFT_MAX }
    ensures { result ≡ shifted_down wide shift }
{
    wide >> shift
}

/// The product of two values of 32 bits, which a processor multiplies faster than longer ones.
fn short_product(x: i64, y: i64) -> i64
    requires x { unsigned_abs x < 2 ^ 31 }
    requires y { unsigned_abs y < 2 ^ 31 }
    ensures { result ≡ x *ℤ y }
{
    i64::from(x as i32) * i64::from(y as i32)
}

/// The sum of each tap times the sample that it weighs, where 64 bits hold it and the newest sample
/// is the last.
// Inlined, its loops would take the registers of a step that does not run them.
#[inline(never)]
fn narrow_sum_back(taps: &[i64], samples: &[i64]) -> i64
    requires { IsNarrowBack taps.now (pos 0) samples.now }
    ensures { result ≡ weighted (back samples.now) taps.now }
{
    let mut sum = 0;
    for j in 0..taps.len().min(samples.len()) {
        sum += short_product(taps[j], samples[samples.len() - 1 - j]);
    }
    sum
}

/// The sum divided by 2 to the power `shift`, rounded down.
fn narrow_shifted(narrow: i64, shift: u32) -> i64
    requires { shift ≤ SHIFT_MAX }
    ensures { result ≡ shifted_down narrow shift }
{
    narrow >> shift
}

/// The sum at the last of these samples with what is added to it, where 64 bits hold it.
pub(crate) fn narrow_sum(taps: &[i64], form: &Form, samples: &[i64]) -> i64
    requires { IsNarrowBack taps.now form.now.plus samples.now }
    ensures { result ≡ weighted (back samples.now) taps.now +ℤ form.now.plus }
{
    narrow_sum_back(taps, samples) + form.plus
}

/// The output at the last of these samples, where 64 bits hold the sum.
pub(crate) fn narrow_output(taps: &[i64], form: &Form, samples: &[i64]) -> i64
    requires narrow { IsNarrowBack taps.now form.now.plus samples.now }
    requires shift { form.now.shift ≤ SHIFT_MAX }
    ensures { Ok result ≡ ranged (shifted_down
        (weighted (back samples.now) taps.now +ℤ form.now.plus) form.now.shift) }
{
    narrow_shifted(narrow_sum(taps, form, samples), form.shift)
}

/// The sum at the last of these samples with what is added to it, of any size.
pub(crate) fn wide_sum(taps: &[i64], form: &Form, samples: &[i64]) -> i128
    requires { AreAhead taps.now form.now }
    ensures sum { result ≡ weighted (back samples.now) taps.now +ℤ form.now.plus }
    ensures small { unsigned_abs result ≤ 2 ^ 105 }
{
    wide_sum_back(taps, samples) + i128::from(form.plus)
}

/// The number at the last of these samples, of any size.
pub(crate) fn wide_output(taps: &[i64], form: &Form, samples: &[i64]) -> i128
    requires { AreAhead taps.now form.now }
    ensures { result ≡ shifted_down
        (weighted (back samples.now) taps.now +ℤ form.now.plus) form.now.shift }
{
    wide_shifted(wide_sum(taps, form, samples), form.shift)
}

/// The samples up to the one that stands so many before the last.
pub(crate) fn earlier(samples: &[i64], delay: usize) -> &[i64]
    ensures { (j : ℕ) → back result.now j ≡ back samples.now (delay + j) }
{
    &samples[..samples.len().saturating_sub(delay)]
}

/// The sum of the taps' magnitudes.
pub(crate) fn weight_of(taps: &[i64]) -> u64
    requires { weight taps.now ≤ 2 ^ 41 }
    ensures { result ≡ weight taps.now }
{
    taps.iter().map(|tap| tap.unsigned_abs()).sum()
}

/// The greatest magnitude of samples of 32 bits at which 64 bits hold each sum, for taps of this
/// weight and with so much added to each.
pub(crate) fn narrow_limit(weight: u64, plus: i64) -> u64
    requires { unsigned_abs plus ≤ PLUS_MAX }
    ensures light { weight * result + unsigned_abs plus < 2 ^ 63 }
    ensures short { result < 2 ^ 31 }
{
    ((0x7fff_ffff_ffff_ffff - plus.unsigned_abs()) / weight.max(1)).min(0x7fff_ffff)
}
