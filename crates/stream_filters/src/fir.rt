//! The filter.
ghost use Rattle.std.specs.Prelude.{◌≡◌, ◌↔◌, ◌+◌, ◌-◌, ◌^◌, ◌<◌, ◌≤◌, List, [], ◌∷◌, ◌++◌, ℤ, length, take, reverse, vec_capacity, IsTrue, IsOk, IfOk, false};
ghost use Rattle.stream_filters.specs.Filter.{AreFewTaps, AreTaps, StandsFor, after_sample, by_shift, output_after, output_of, outputs_of_block, put_of, reach, resumed, with_put};
ghost use Rattle.stream_filters.specs.Range.{before_out_of_range, ranged};

use crate::blocks::BLOCK;
use crate::fault::{FirFault, TooBigValue};
use crate::form::{Form, is_plain};
use crate::range::in_range;
use crate::recursive::output_for;
use crate::weigher::{Weigher, make_room, put_all, zeros};
use std::alloc::Global;
use std::marker::Model;

/// The most taps for samples.
pub const TAPS_MAX: usize = 1024;
/// The most taps of a filter that is made by its taps and its shift alone.
pub const FEW_TAPS_MAX: usize = 64;
/// The most taps for what a filter put.
pub const AGAIN_MAX: usize = 64;
/// The greatest magnitude of a tap.
pub const TAP_MAX: u64 = 2_147_483_647;
/// The greatest shift, in bits.
pub const SHIFT_MAX: u32 = 62;
/// The greatest magnitude of what is added to each sum.
pub const PLUS_MAX: u64 = 4_611_686_018_427_387_904;
/// The greatest delay, in samples.
pub const DELAY_MAX: usize = 65_536;

/// Whether a filter may have these taps and this form.
pub(crate) fn are_taps(taps: &[i64], form: &Form) -> bool
    ensures { IsTrue result ↔ AreTaps taps.now form.now }
{
    let ahead = taps.len().saturating_sub(form.again);
    ahead > 0
        && ahead <= TAPS_MAX
        && form.again <= AGAIN_MAX
        && form.shift <= SHIFT_MAX
        && form.plus.unsigned_abs() <= PLUS_MAX
        && form.delay <= DELAY_MAX
        && taps.iter().all(|tap| tap.unsigned_abs() <= TAP_MAX)
}

/// A filter with a finite impulse response: each answer is a weighted sum of the last samples,
/// which stand in a window (a delay line).
///
/// **Samples.** The first tap weighs the newest sample, or the one that came so many samples before
/// it as the delay says, the next tap the one before that, and so on. Before the first sample there
/// are zeros.
///
/// **Answers.** What the form adds is added to the sum, which is then divided by 2 to the power of
/// the shift and rounded down, so -1 shifted by one bit is -1. Where that is out of range the
/// answer is `TooBigValue`, and the window has taken the sample all the same.
///
/// **Speed.** While each sample in the window is small enough for the taps, sums are accumulated in
/// 64 bits, and else in 128. The answers are the same.
///
/// **Example.** With the taps 1, 2 and 1 and a shift of 2, the samples -1, -1 and 0 give -1 each,
/// and 0, -1 and -1 where 2 is added, which rounds to the nearest.
#[derive(Drop)]
pub struct Fir {
    // weighs the samples
    weigher: Weigher,
    // the taps that weigh what was put
    again: Vec<i64>,
    // what was put, the newest last, behind zeros at first
    puts: Vec<i64>,
}

impl Model for Fir {
    ghost use Rattle.stream_filters.specs.Filter.{FirState};

    ghost Value = { FirState };

    ghost use Rattle.stream_filters.specs.FilterFields.{fir_view, IsFir};

    ghost view = { fir_view };

    ghost invariant = { IsFir };
}

impl Fir {
    ghost use Rattle.stream_filters.specs.FilterFields.{HasStepped};

    /// Makes a filter with these taps and this shift, before its first sample: it adds nothing, has
    /// no delay, and looks at samples alone.
    ///
    /// It takes memory as `with_form` does. `BadTaps` comes first, also where there are more than
    /// `FEW_TAPS_MAX`.
    pub fn new(alloc: Global, taps: &[i64], shift: u32) -> Result<Fir, FirFault>
        ensures stands { IfOk result (λ fir. StandsFor fir []) }
        ensures taps { IfOk result (λ fir. fir.taps ≡ taps.now) }
        ensures form { IfOk result (λ fir. fir.form ≡ by_shift shift) }

        ensures bad_taps { (result ≡ Err FirFault.BadTaps)
            ↔ ¬ (AreFewTaps taps.now (by_shift shift)) }
    {
        if taps.len() > FEW_TAPS_MAX {
            return Err(FirFault::BadTaps);
        }
        let form = Form {
            shift,
            plus: 0,
            delay: 0,
            again: 0,
            single: None,
        };
        Fir::with_form(alloc, taps, form)
    }

    /// Makes a filter with these taps and this form, before its first sample.
    ///
    /// It takes memory for the taps, and for twice as many values as it looks back to and 1,024
    /// more, of samples and of what it put. `BadTaps` comes first.
    pub fn with_form(alloc: Global, taps: &[i64], form: Form) -> Result<Fir, FirFault>
        ensures stands { IfOk result (λ fir. StandsFor fir []) }
        ensures taps { IfOk result (λ fir. fir.taps ≡ taps.now) }
        ensures form { IfOk result (λ fir. fir.form ≡ form) }

        ensures bad_taps { (result ≡ Err FirFault.BadTaps) ↔ ¬ (AreTaps taps.now form) }
    {
        if !are_taps(taps, &form) {
            return Err(FirFault::BadTaps);
        }
        let ahead = taps.len() - form.again;
        let Ok(weigher) = Weigher::new(alloc, &taps[..ahead], &form) else {
            return Err(FirFault::OutOfMemory);
        };
        let Ok(again) = Vec::from_slice(alloc, &taps[ahead..]) else {
            return Err(FirFault::OutOfMemory);
        };
        let Ok(puts) = zeros(alloc, form.again) else {
            return Err(FirFault::OutOfMemory);
        };
        Ok(Fir {
            weigher,
            again,
            puts,
        })
    }

    /// Takes the sample `x` into the window, and answers the weighted sum of the last samples, or
    /// `TooBigValue` where that is out of range. `x` may be any number. It takes no memory.
    pub fn step(&mut self, x: i64) -> Result<i64, TooBigValue>
        ensures answer { (samples : List ℤ) → StandsFor self.old samples
            → result ≡ ranged (output_after self.old.taps self.old.form (samples ++ x ∷ [])) }
        ensures stands { (samples : List ℤ) → StandsFor self.old samples
            → StandsFor self.new (samples ++ x ∷ []) }

        ensures taps { self.new.taps ≡ self.old.taps }
        ensures form { self.new.form ≡ self.old.form }
    {
        self.weigher.take(x);
        let answer = self.answer();
        self.put(answer);
        answer
    }

    /// Takes the sample `x` into the window, which gives up its oldest one where it is full, and
    /// answers nothing: less work than `step`, for samples whose sums nobody wants. It takes no
    /// memory.
    pub fn take(&mut self, x: i64)
        ensures window { self.new ≡ after_sample self.old x }
        ensures stands { (samples : List ℤ) → StandsFor self.old samples
            → StandsFor self.new (samples ++ x ∷ []) }

        ensures taps { self.new.taps ≡ self.old.taps }
        ensures form { self.new.form ≡ self.old.form }
    {
        self.weigher.take(x);
        if !self.again.is_empty() {
            self.put(self.answer());
        }
    }

    /// Has it stand where a filter stood whose last samples and last puts these are, the oldest
    /// first. It takes no memory.
    ///
    /// What it put is what it answered, and 0 where that was out of range. Where it was not yet
    /// given so many samples, zeros stand in front.
    pub fn resume(&mut self, samples: &[i64], puts: &[i64])
        requires samples { length samples.now ≡ reach self.old.taps self.old.form }
        requires puts { length puts.now ≡ self.old.form.again }
        ensures { self.new ≡ resumed self.old samples.now puts.now }
    {
        self.weigher.resume(samples);
        self.puts.truncate(0);
        put_all(&mut self.puts, puts);
    }

    /// Takes these samples one after the other, and puts their answers behind `made`, where there
    /// is room for all of them. Where an answer is out of range it ends with that sample, which the
    /// window has taken all the same. It takes no memory.
    ///
    /// **Speed.** Answers are made 16 at once where 64 bits hold each sum.
    pub fn steps(&mut self, samples: &[i64], made: &mut Vec<i64>) -> Result<(), TooBigValue>
        requires room { length made.old.items + length samples.now ≤ vec_capacity made.old }
        ensures made { (taken : List ℤ) → StandsFor self.old taken
            → let outputs = outputs_of_block self.old.taps self.old.form taken samples.now in
            made.new.items ≡ made.old.items ++ before_out_of_range outputs }
        ensures stands { (taken : List ℤ) → StandsFor self.old taken
            → let count = length made.new.items - length made.old.items in
            StandsFor self.new (taken ++ take (count + 1) samples.now) }
        ensures ok { IsOk result
            ↔ (length made.new.items ≡ length made.old.items + length samples.now) }

        ensures capacity { vec_capacity made.new ≡ vec_capacity made.old }
        ensures taps { self.new.taps ≡ self.old.taps }
        ensures form { self.new.form ≡ self.old.form }
    {
        let mut at = 0;
        while samples.len() - at >= BLOCK {
            self.block(&samples[at..at + BLOCK], made)?;
            at += BLOCK;
        }
        self.each(&samples[at..], made)
    }

    /// Takes 16 samples.
    fn block(&mut self, samples: &[i64], made: &mut Vec<i64>) -> Result<(), TooBigValue>
        requires many { length samples.now ≡ 16 }
        requires room { length made.old.items + length samples.now ≤ vec_capacity made.old }
        ensures steps { HasStepped self.old self.new samples.now made.old.items made.new.items }
        ensures ok { IsOk result
            ↔ (length made.new.items ≡ length made.old.items + length samples.now) }
        ensures capacity { vec_capacity made.new ≡ vec_capacity made.old }
    {
        if is_plain(self.weigher.form()) && self.weigher.makes_at_once(samples, made) {
            return Ok(());
        }
        self.each(samples, made)
    }

    /// Takes these samples one by one.
    fn each(&mut self, samples: &[i64], made: &mut Vec<i64>) -> Result<(), TooBigValue>
        requires room { length made.old.items + length samples.now ≤ vec_capacity made.old }
        ensures steps { HasStepped self.old self.new samples.now made.old.items made.new.items }
        ensures ok { IsOk result
            ↔ (length made.new.items ≡ length made.old.items + length samples.now) }
        ensures capacity { vec_capacity made.new ≡ vec_capacity made.old }
    {
        for x in samples {
            made.push_reserved(self.step(*x)?);
        }
        Ok(())
    }

    /// The answer behind the windows.
    fn answer(&self) -> Result<i64, TooBigValue>
        ensures { result ≡ ranged (output_of self.now) }
    {
        let form = self.weigher.form();
        if is_plain(form) {
            return self.weigher.answer();
        }
        in_range(output_for(form, self.weigher.sum(), &self.again, &self.puts))
    }

    /// Puts an answer, where it weighs what it puts.
    fn put(&mut self, answer: Result<i64, TooBigValue>)
        ensures { (z : ℤ) → answer ≡ ranged z → self.new ≡ with_put self.old (put_of z) }
    {
        let kept = self.again.len();
        if kept > 0 {
            make_room(&mut self.puts, kept, 1);
            self.puts.push_reserved(answer.unwrap_or(0));
        }
    }
}
