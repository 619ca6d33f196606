//! Weighted sums of the last samples.
ghost use Rattle.std.specs.Prelude.{◌≡◌, ◌+◌, ◌^◌, ◌≤◌, ℕ, List, [], ◌∷◌, ◌++◌, ℤ, pos, length, reverse, vec_capacity, unsigned_abs, IsTrue, IfOk, false};
ghost use Rattle.stream_filters.specs.Sums.{at_place, summed};
ghost use Rattle.stream_filters.specs.Weighing.{AreAhead, ShowsSamples, after_weighed, span};
ghost use Rattle.stream_filters.specs.WeigherFields.{window_of};

use crate::blocks::{BLOCK, block_outputs};
use crate::fault::TooBigValue;
use crate::form::Form;
use crate::sums::{earlier, narrow_limit, narrow_output, narrow_sum, weight_of, wide_sum};
use crate::whole_list::{are_within, last_weighed};
use std::alloc::{AllocError, Global};
use std::marker::Model;

/// How many samples there is room for behind those of a window, so that they move rarely.
const ROOM: usize = 1024;

/// From how many taps on a single sum is made faster in 64 bits than in 128.
const NARROW_TAPS: usize = 8;

/// Makes room for so many more samples of a line, of which the last `kept` stay.
pub(crate) fn make_room(line: &mut Vec<i64>, kept: usize, count: usize)
    requires held { kept ≤ length line.old.items }
    requires room { kept + count ≤ vec_capacity line.old }
    ensures last { window_of kept line.new.items ≡ window_of kept line.old.items }
    ensures held { kept ≤ length line.new.items }
    ensures room { length line.new.items + count ≤ vec_capacity line.new }
    ensures capacity { vec_capacity line.new ≡ vec_capacity line.old }
{
    if line.capacity() - line.len() < count {
        let start = line.len() - kept;
        line.copy_within(start.., 0);
        line.truncate(kept);
    }
}

/// Puts these values behind the others, where there is room.
pub(crate) fn put_all(list: &mut Vec<i64>, values: &[i64])
    requires room { length list.old.items + length values.now ≤ vec_capacity list.old }
    ensures items { list.new.items ≡ list.old.items ++ values.now }
    ensures capacity { vec_capacity list.new ≡ vec_capacity list.old }
{
    for value in values {
        list.push_reserved(*value);
    }
}

/// Zeros in a line, as many as a window has places, with room for more.
pub(crate) fn zeros(alloc: Global, count: usize) -> Result<Vec<i64>, AllocError>
    requires few { count ≤ 2 ^ 20 }
    ensures held { IfOk result (λ line. length line.items ≡ count) }
    ensures zeros { IfOk result (λ line.
        (j : ℕ) → at_place (window_of count line.items) j ≡ pos 0) }
    ensures room { IfOk result (λ line. count + 1024 ≤ vec_capacity line) }
{
    let mut line = Vec::with_capacity(alloc, 2 * count + ROOM)?;
    line.resize(count, 0)?;
    Ok(line)
}

/// The last samples in a window (a delay line), each of which is weighed by a tap.
///
/// While each sample in the window is small enough for the taps, sums are accumulated in 64 bits,
/// and else in 128. The answers are the same.
#[derive(Drop)]
pub(crate) struct Weigher {
    taps: Vec<i64>,
    form: Form,
    // the last samples, the newest last, behind zeros at first
    line: Vec<i64>,
    // the greatest magnitude of samples at which 64 bits hold each sum
    limit: u64,
    // after so many more samples within the limit, the window holds no other
    wide_steps_left: usize,
}

impl Model for Weigher {
    ghost use Rattle.stream_filters.specs.Weighing.{WeigherState};

    ghost Value = { WeigherState };

    ghost use Rattle.stream_filters.specs.WeigherFields.{weigher_view, IsWeigher};

    ghost view = { weigher_view };

    ghost invariant = { IsWeigher };
}

impl Weigher {
    ghost use Rattle.stream_filters.specs.WeigherFields.{HasWeighed, answer_at};

    /// Makes a weigher with these taps, before its first sample.
    pub(crate) fn new(alloc: Global, taps: &[i64], form: &Form) -> Result<Weigher, AllocError>
        requires { AreAhead taps.now form.now }
        ensures shows { IfOk result (λ weigher. ShowsSamples weigher []) }
        ensures taps { IfOk result (λ weigher. weigher.taps ≡ taps.now) }
        ensures form { IfOk result (λ weigher. weigher.form ≡ form.now) }
    {
        let limit = narrow_limit(weight_of(taps), form.plus);
        let line = zeros(alloc, form.delay + taps.len())?;
        let taps = Vec::from_slice(alloc, taps)?;
        Ok(Weigher {
            taps,
            form: *form,
            line,
            limit,
            wide_steps_left: 0,
        })
    }

    /// The form.
    pub(crate) fn form(&self) -> &Form
        ensures form { result.now ≡ self.now.form }
        ensures ahead { AreAhead self.now.taps self.now.form }
    {
        &self.form
    }

    /// Takes the sample `x` into the window, which gives up its oldest one where it is full.
    pub(crate) fn take(&mut self, x: i64)
        ensures window { self.new ≡ after_weighed self.old x }
        ensures shows { (samples : List ℤ) → ShowsSamples self.old samples
            → ShowsSamples self.new (samples ++ x ∷ []) }

        ensures taps { self.new.taps ≡ self.old.taps }
        ensures form { self.new.form ≡ self.old.form }
    {
        let kept = self.form.delay + self.taps.len();
        make_room(&mut self.line, kept, 1);
        self.line.push_reserved(x);
        self.wide_steps_left = if x.unsigned_abs() > self.limit {
            kept
        } else {
            self.wide_steps_left.saturating_sub(1)
        };
    }

    /// Has the window hold these samples, the oldest first, and no other.
    pub(crate) fn resume(&mut self, samples: &[i64])
        requires many { length samples.now ≡ span self.old.taps self.old.form }
        ensures { self.new ≡ record self.old { window = reverse samples.now } }
    {
        self.line.truncate(0);
        put_all(&mut self.line, samples);
        self.wide_steps_left = if are_within(samples, self.limit) {
            0
        } else {
            samples.len()
        };
    }

    /// Takes 16 samples and makes their answers at once, where 64 bits hold each sum, and tells
    /// whether it did. Else all stays as it was.
    pub(crate) fn makes_at_once(&mut self, samples: &[i64], made: &mut Vec<i64>) -> bool
        requires many { length samples.now ≡ 16 }
        requires room { length made.old.items + length samples.now ≤ vec_capacity made.old }
        ensures all { IsTrue result
            → HasWeighed self.old self.new samples.now made.old.items made.new.items }
        ensures same { result ≡ false → (self.new ≡ self.old) × (made.new ≡ made.old) }
        ensures capacity { vec_capacity made.new ≡ vec_capacity made.old }
    {
        if self.wide_steps_left > 0 || !are_within(samples, self.limit) {
            return false;
        }
        let kept = self.form.delay + self.taps.len();
        make_room(&mut self.line, kept, BLOCK);
        put_all(&mut self.line, samples);
        let end = self.line.len() - self.form.delay;
        let shown = &self.line[end + 1 - BLOCK - self.taps.len()..end];
        let outputs = block_outputs(&self.taps, &self.form, shown);
        put_all(made, &outputs);
        true
    }

    /// The answer at the samples in the window.
    pub(crate) fn answer(&self) -> Result<i64, TooBigValue>
        ensures { result ≡ answer_at self.now.taps self.now.form self.now.window }
    {
        if self.wide_steps_left > 0 {
            return last_weighed(&self.taps, &self.form, &self.line);
        }
        let samples = earlier(&self.line, self.form.delay);
        Ok(narrow_output(&self.taps, &self.form, samples))
    }

    /// The sum at the samples in the window, with what the form adds, of any size.
    pub(crate) fn sum(&self) -> i128
        ensures sum { result ≡ summed (at_place self.now.window) self.now.taps self.now.form }
        ensures small { unsigned_abs result ≤ 2 ^ 105 }
    {
        let samples = earlier(&self.line, self.form.delay);
        if self.wide_steps_left > 0 || self.taps.len() < NARROW_TAPS {
            return wide_sum(&self.taps, &self.form, samples);
        }
        i128::from(narrow_sum(&self.taps, &self.form, samples))
    }
}
