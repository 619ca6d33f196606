//! A filter over a whole list of samples.
ghost use Rattle.std.specs.Prelude.{◌≡◌, ◌↔◌, ◌+◌, ◌-◌, ◌≤◌, ℕ, [], length, IfOk, OnOk, IsTrue, None, Some, Err, unsigned_abs};
ghost use Rattle.std.specs.List.{All, position_from};
ghost use Rattle.stream_filters.specs.Filter.{AreTaps, outputs, reach, taps_ahead};
ghost use Rattle.stream_filters.specs.Weighing.{AreAhead, span, weighed, weighed_after};
ghost use Rattle.stream_filters.specs.WeigherFields.{AreSmall, AreSmallAt};
ghost use Rattle.stream_filters.specs.FilterFields.{MadeSoFar, PutSoFar};
ghost use Rattle.stream_filters.specs.Range.{is_out_of_range, ranged};

use crate::blocks::{BLOCK, block_outputs, block_sums};
use crate::fault::{FilterFault, TooBigValue};
use crate::fir::are_taps;
use crate::form::{Form, is_plain};
use crate::range::in_range;
use crate::recursive::{output_behind, output_for};
use crate::sums::{earlier, narrow_limit, weight_of, wide_output};
use std::alloc::{AllocError, Global};

/// Whether the magnitude of each of these samples is at most `limit`.
pub(crate) fn are_within(samples: &[i64], limit: u64) -> bool
    ensures { IsTrue result ↔ All (λ x. unsigned_abs x ≤ limit) samples.now }
{
    samples.iter().all(|x| x.unsigned_abs() <= limit)
}

/// The answer at the last of these samples, where they alone are weighed.
pub(crate) fn last_weighed(taps: &[i64], form: &Form, samples: &[i64]) -> Result<i64, TooBigValue>
    requires { AreAhead taps.now form.now }
    ensures { result ≡ ranged (weighed_after taps.now form.now samples.now) }
{
    in_range(wide_output(taps, form, earlier(samples, form.delay)))
}

/// Adds the outputs at the samples from number `at` to the one before number `end`, which may be of
/// any size.
fn add_each(
    list: &mut Vec<i64>,
    taps: &[i64],
    form: &Form,
    samples: &[i64],
    at: usize,
    end: usize,
) -> Result<(), FilterFault>
    requires taps { AreAhead taps.now form.now }
    requires within { (at ≤ end) × (end ≤ length samples.now) }
    requires made { MadeSoFar (weighed taps.now form.now samples.now) list.old.items at }
    ensures made { OnOk result
        (MadeSoFar (weighed taps.now form.now samples.now) list.new.items end) }
    ensures too_big { (step : ℕ) → result ≡ Err (FilterFault.TooBig step)
        → position_from is_out_of_range 0 (weighed taps.now form.now samples.now) ≡ Some step }
    ensures taps_stand { result ≡ Err FilterFault.BadTaps → ⊥ }
{
    for n in at..end {
        let Ok(y) = last_weighed(taps, form, &samples[..n + 1]) else {
            return Err(FilterFault::TooBig(n));
        };
        let Ok(()) = list.push(y) else {
            return Err(FilterFault::OutOfMemory);
        };
    }
    Ok(())
}

/// Adds the outputs at 16 samples from number `at` on. They and the samples that are still in the
/// first one's window are small.
fn add_block(
    list: &mut Vec<i64>,
    taps: &[i64],
    form: &Form,
    samples: &[i64],
    at: usize,
) -> Result<(), AllocError>
    requires taps { AreAhead taps.now form.now }
    requires within { (span taps.now form.now ≤ at + 1) × (at + 16 ≤ length samples.now) }
    requires small { AreSmallAt taps.now form.now.plus samples.now (at - form.now.delay) }
    requires made { MadeSoFar (weighed taps.now form.now samples.now) list.old.items at }
    ensures made { OnOk result
        (MadeSoFar (weighed taps.now form.now samples.now) list.new.items (at + 16)) }
{
    let first = at - form.delay;
    let shown = &samples[first + 1 - taps.len()..first + BLOCK];
    let outputs = block_outputs(taps, form, shown);
    list.extend_from_slice(&outputs)
}

/// From which sample on those before number `end` are within the limit, where those before number
/// `at` are so from number `since` on.
fn small_since(samples: &[i64], limit: u64, since: usize, at: usize, end: usize) -> usize
    requires within { (since ≤ at) × (at ≤ end) × (end ≤ length samples.now) }
    ensures small { AreSmall limit samples.now since at → AreSmall limit samples.now result end }
    ensures within { result ≤ end }
{
    if are_within(&samples[at..end], limit) {
        since
    } else {
        end
    }
}

/// Makes the outputs at all samples, where they alone are weighed, or finds the first step at which
/// one is out of range.
fn add_all(
    list: &mut Vec<i64>,
    taps: &[i64],
    form: &Form,
    samples: &[i64],
) -> Result<(), FilterFault>
    requires taps { AreAhead taps.now form.now }
    requires empty { list.old.items ≡ [] }
    ensures ok { OnOk result (list.new.items ≡ weighed taps.now form.now samples.now) }
    ensures in_range { OnOk result
        (position_from is_out_of_range 0 (weighed taps.now form.now samples.now) ≡ None) }
    ensures too_big { (step : ℕ) → result ≡ Err (FilterFault.TooBig step)
        → position_from is_out_of_range 0 (weighed taps.now form.now samples.now) ≡ Some step }
    ensures taps_stand { result ≡ Err FilterFault.BadTaps → ⊥ }
{
    let limit = narrow_limit(weight_of(taps), form.plus);
    let mut small_from = 0;
    let mut at = 0;
    while at < samples.len() {
        let end = samples.len().min(at + BLOCK);
        small_from = small_since(samples, limit, small_from, at, end);
        if end == at + BLOCK && small_from + form.delay + taps.len() <= at + 1 {
            let Ok(()) = add_block(list, taps, form, samples, at) else {
                return Err(FilterFault::OutOfMemory);
            };
        } else {
            add_each(list, taps, form, samples, at, end)?;
        }
        at = end;
    }
    Ok(())
}

/// Adds the outputs at the samples from number `at` to the one before number `end`, one by one. The
/// list has what was put so far.
fn add_each_in_turn(
    list: &mut Vec<i64>,
    taps: &[i64],
    form: &Form,
    samples: &[i64],
    at: usize,
    end: usize,
) -> Result<(), FilterFault>
    requires taps { AreTaps taps.now form.now }
    requires within { (at ≤ end) × (end ≤ length samples.now) }
    requires put { PutSoFar (outputs taps.now form.now samples.now) list.old.items at }
    ensures put { OnOk result
        (PutSoFar (outputs taps.now form.now samples.now) list.new.items end) }
    ensures too_big { (step : ℕ) → result ≡ Err (FilterFault.TooBig step)
        → position_from is_out_of_range 0 (outputs taps.now form.now samples.now) ≡ Some step }
    ensures taps_stand { result ≡ Err FilterFault.BadTaps → ⊥ }
{
    for n in at..end {
        let Ok(y) = in_range(output_behind(taps, form, &samples[..n + 1], list)) else {
            return Err(FilterFault::TooBig(n));
        };
        let Ok(()) = list.push(y) else {
            return Err(FilterFault::OutOfMemory);
        };
    }
    Ok(())
}

/// Adds the outputs at 16 samples from number `at` on, one by one, where their sums are made at
/// once: they and the samples that are still in the first one's window are small. The list has what
/// was put so far.
fn add_block_in_turn(
    list: &mut Vec<i64>,
    taps: &[i64],
    form: &Form,
    samples: &[i64],
    at: usize,
) -> Result<(), FilterFault>
    requires taps { AreTaps taps.now form.now }
    requires within { (reach taps.now form.now ≤ at + 1) × (at + 16 ≤ length samples.now) }
    requires small { AreSmallAt (taps_ahead taps.now form.now) form.now.plus samples.now
        (at - form.now.delay) }
    requires put { PutSoFar (outputs taps.now form.now samples.now) list.old.items at }
    ensures put { OnOk result
        (PutSoFar (outputs taps.now form.now samples.now) list.new.items (at + 16)) }
    ensures too_big { (step : ℕ) → result ≡ Err (FilterFault.TooBig step)
        → position_from is_out_of_range 0 (outputs taps.now form.now samples.now) ≡ Some step }
    ensures taps_stand { result ≡ Err FilterFault.BadTaps → ⊥ }
{
    let ahead = taps.len() - form.again;
    let first = at - form.delay;
    let shown = &samples[first + 1 - ahead..first + BLOCK];
    let sums = block_sums(&taps[..ahead], form, shown);
    for k in 0..BLOCK {
        let sum = i128::from(sums[k]);
        let Ok(y) = in_range(output_for(form, sum, &taps[ahead..], list)) else {
            return Err(FilterFault::TooBig(at + k));
        };
        let Ok(()) = list.push(y) else {
            return Err(FilterFault::OutOfMemory);
        };
    }
    Ok(())
}

/// Makes the outputs at all samples one by one, or finds the first step at which one is out of
/// range.
fn add_in_turn(
    list: &mut Vec<i64>,
    taps: &[i64],
    form: &Form,
    samples: &[i64],
) -> Result<(), FilterFault>
    requires taps { AreTaps taps.now form.now }
    requires empty { list.old.items ≡ [] }
    ensures ok { OnOk result (list.new.items ≡ outputs taps.now form.now samples.now) }
    ensures in_range { OnOk result
        (position_from is_out_of_range 0 (outputs taps.now form.now samples.now) ≡ None) }
    ensures too_big { (step : ℕ) → result ≡ Err (FilterFault.TooBig step)
        → position_from is_out_of_range 0 (outputs taps.now form.now samples.now) ≡ Some step }
    ensures taps_stand { result ≡ Err FilterFault.BadTaps → ⊥ }
{
    let ahead = taps.len() - form.again;
    let limit = narrow_limit(weight_of(&taps[..ahead]), form.plus);
    let mut small_from = 0;
    let mut at = 0;
    while at < samples.len() {
        let end = samples.len().min(at + BLOCK);
        small_from = small_since(samples, limit, small_from, at, end);
        if end == at + BLOCK && small_from + form.delay + ahead <= at + 1 {
            add_block_in_turn(list, taps, form, samples, at)?;
        } else {
            add_each_in_turn(list, taps, form, samples, at, end)?;
        }
        at = end;
    }
    Ok(())
}

/// Makes the outputs at all samples, or finds the first step at which one is out of range.
fn add_outputs(
    list: &mut Vec<i64>,
    taps: &[i64],
    form: &Form,
    samples: &[i64],
) -> Result<(), FilterFault>
    requires taps { AreTaps taps.now form.now }
    requires empty { list.old.items ≡ [] }
    ensures ok { OnOk result (list.new.items ≡ outputs taps.now form.now samples.now) }
    ensures in_range { OnOk result
        (position_from is_out_of_range 0 (outputs taps.now form.now samples.now) ≡ None) }
    ensures too_big { (step : ℕ) → result ≡ Err (FilterFault.TooBig step)
        → position_from is_out_of_range 0 (outputs taps.now form.now samples.now) ≡ Some step }
    ensures taps_stand { result ≡ Err FilterFault.BadTaps → ⊥ }
{
    if is_plain(form) {
        return add_all(list, taps, form, samples);
    }
    add_in_turn(list, taps, form, samples)
}

/// Makes the outputs of a filter with these taps and this form at each of these samples, or finds
/// the first step at which one is out of range.
///
/// The answers are those of a `Fir` that is stepped over the samples. It takes memory for the list
/// that it returns, and no other. `BadTaps` comes first.
///
/// **Speed.** Outputs are made 16 at once where the samples are small enough for the taps that 64
/// bits hold each sum; where a filter also weighs what it puts, or applies a single, its sums are.
pub fn filter_list(
    alloc: Global,
    taps: &[i64],
    form: Form,
    samples: &[i64],
) -> Result<Vec<i64>, FilterFault>
    ensures ok { IfOk result (λ list. list.items ≡ outputs taps.now form samples.now) }
    ensures in_range { IfOk result (λ list.
        position_from is_out_of_range 0 (outputs taps.now form samples.now) ≡ None) }

    ensures bad_taps { (result ≡ Err FilterFault.BadTaps) ↔ ¬ (AreTaps taps.now form) }
    ensures too_big { (step : ℕ) → result ≡ Err (FilterFault.TooBig step)
        → position_from is_out_of_range 0 (outputs taps.now form samples.now) ≡ Some step }
{
    if !are_taps(taps, &form) {
        return Err(FilterFault::BadTaps);
    }
    let Ok(mut list) = Vec::with_capacity(alloc, samples.len()) else {
        return Err(FilterFault::OutOfMemory);
    };
    add_outputs(&mut list, taps, &form, samples)?;
    Ok(list)
}
