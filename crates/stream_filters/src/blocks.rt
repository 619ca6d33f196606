//! The outputs at many samples at once.
ghost use Rattle.std.specs.Prelude.{◌≡◌, ◌+◌, ◌^◌, ◌<◌, ◌≤◌, length, map, take, replicate, ◌+ℤ◌, ◌*ℤ◌, unsigned_abs};
ghost use Rattle.std.specs.List.{range_with_len};
ghost use Rattle.std.specs.Simd.Lanes.{zip2, Each1, Each2};
ghost use Rattle.stream_filters.specs.Sums.{shifted_down};
ghost use Rattle.stream_filters.specs.WeigherFields.{IsNarrow};
ghost use Rattle.stream_filters.specs.Lanes.{output_shown, sum_shown, IsShort, AddsUp};

use crate::fir::SHIFT_MAX;
use crate::form::Form;
use std::simd::prelude::*;

/// How many outputs are made at once, where the samples are small enough for the taps.
pub(crate) const BLOCK: usize = 16;

/// The first 16 of these samples, which have 32 bits each.
fn short_lanes(samples: &[i64]) -> i64x16
    requires enough { 16 ≤ length samples.now }
    requires short { Each1 IsShort (take 16 samples.now) }
    ensures { result ≡ take 16 samples.now }
{
    i64x16::from_slice(samples).cast::<i32>().cast::<i64>()
}

/// Each sample times the tap, all of 32 bits.
fn scaled(samples: i64x16, tap: i64) -> i64x16
    requires tap { IsShort tap }
    requires short { Each1 IsShort samples }
    ensures { result ≡ zip2 (λ x tap. tap *ℤ x) samples (replicate 16 tap) }
{
    samples.strict_mul(i64x16::splat(i64::from(tap as i32)))
}

/// The sums, lane by lane.
fn added(sums: i64x16, products: i64x16) -> i64x16
    requires { Each2 AddsUp sums products }
    ensures { result ≡ zip2 (λ sum product. sum +ℤ product) sums products }
{
    sums.strict_add(products)
}

/// Each sum with so much added to it.
fn with_added(sums: i64x16, plus: i64) -> i64x16
    requires lanes { length sums ≡ 16 }
    requires fits { Each1 (λ sum. unsigned_abs sum + unsigned_abs plus < 2 ^ 63) sums }
    ensures { result ≡ map (λ sum. sum +ℤ plus) sums }
{
    sums.strict_add(i64x16::splat(plus))
}

/// Each sum divided by 2 to the power `shift`, rounded down.
fn lanes_shifted(sums: i64x16, shift: u32) -> i64x16
    requires shift { shift ≤ SHIFT_MAX }
    requires lanes { length sums ≡ 16 }
    requires fits { Each1 (λ sum. unsigned_abs sum < 2 ^ 63) sums }
    ensures { result ≡ map (λ sum. shifted_down sum shift) sums }
{
    sums >> i64x16::splat(i64::from(shift))
}

/// The outputs at 16 samples one after the other, from the samples in their windows, where 64 bits
/// hold the sums.
pub(crate) fn block_outputs(taps: &[i64], form: &Form, samples: &[i64]) -> [i64; 16]
    requires shift { form.now.shift ≤ SHIFT_MAX }
    requires enough { length samples.now ≡ length taps.now + 15 }
    requires narrow { IsNarrow taps.now form.now.plus samples.now }
    ensures { result ≡ map (output_shown taps.now form.now samples.now) (range_with_len 0 16) }
{
    let mut sums = i64x16::splat(0);
    for j in 0..taps.len() {
        let lanes = short_lanes(&samples[taps.len() - 1 - j..]);
        sums = added(sums, scaled(lanes, taps[j]));
    }
    lanes_shifted(with_added(sums, form.plus), form.shift).to_array()
}

/// The sums at 16 samples one after the other with what is added to each, from the samples in their
/// windows, where 64 bits hold them.
pub(crate) fn block_sums(taps: &[i64], form: &Form, samples: &[i64]) -> [i64; 16]
    requires enough { length samples.now ≡ length taps.now + 15 }
    requires narrow { IsNarrow taps.now form.now.plus samples.now }
    ensures { result ≡ map (sum_shown taps.now form.now samples.now) (range_with_len 0 16) }
{
    let mut unshifted = *form;
    unshifted.shift = 0;
    block_outputs(taps, &unshifted, samples)
}
