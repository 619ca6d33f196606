//! A filter of any form over a block of samples, which goes on where the block before it ended, and
//! one whose values take the places of the samples.
ghost use Rattle.std.specs.Prelude.{◌≡◌, ◌↔◌, ◌≤◌, ℤ, List, length, IsTrue, IfSome, Some, OnOk, OnErr, IfOk, IfErr};
ghost use Rattle.stream_filters.specs.Filter.{AreTaps, StandsFor};
ghost use Rattle.stream_filters.specs.declared.form.Form.{Form as FormValue};
ghost use Rattle.phase_c.specs.Formed.{AreOfForm, AreReached, FiltersAllFormed, NamesSome, NamesForm, RefusesFormed, ShowsStream, StateStays};

use crate::filter::{FilterRefusal, keep, steps};
use crate::in_place::steps_in_place;
use handle_numbers::single_of;
use std::alloc::Global;
use stream_filters::{Fir, FirFault, Form};

/// The form of a filter, in numbers of C.
#[repr(C)]
#[derive(Clone, Copy, Debug, PartialEq, Eq)]
pub struct PhaseFirForm {
    /// By how many bits each sum is shifted down.
    pub shift: u32,
    /// The number of the single that is applied behind the shift, or of none.
    pub single: u32,
    /// What is added to each sum before it is shifted.
    pub plus: i64,
    /// How many samples before the newest one the first tap weighs.
    pub delay: usize,
    /// How many of the taps, the last ones, weigh what the filter put.
    pub again: usize,
    /// The low end of a clamp.
    pub low: i64,
    /// The high end of a clamp.
    pub high: i64,
}

/// The form that these numbers name.
fn form_of(lent: &PhaseFirForm) -> Option<Form>
    ensures names { IfSome result (λ form. NamesForm lent.now form) }
    ensures only { (form : FormValue) → NamesForm lent.now form → result ≡ Some form }
{
    match single_of(lent.single, lent.low, lent.high) {
        Some(single) => Some(Form {
            shift: lent.shift,
            plus: lent.plus,
            delay: lent.delay,
            again: lent.again,
            single,
        }),
        None => None,
    }
}

/// Whether a filter with these taps and this form looks back to so many samples and puts.
fn are_reached(taps: &[i64], form: &Form, state: &[i64], puts: &[i64]) -> bool
    requires { AreTaps taps.now form.now }
    ensures { IsTrue result ↔ AreReached taps.now form.now state.now puts.now }
{
    state.len() == form.delay + (taps.len() - form.again) && puts.len() == form.again
}

/// A filter that stands where state and puts say, where they are of its, and where so many samples
/// have room for their values. Whether there is memory is told last.
fn formed_behind(
    alloc: Global,
    taps: &[i64],
    lent: &PhaseFirForm,
    state: &[i64],
    puts: &[i64],
    samples: usize,
    room: usize,
) -> Result<Fir, FilterRefusal>
    ensures stands { (before : List ℤ) → IfOk result (λ fir.
        ShowsStream taps.now fir.form state.now puts.now before → StandsFor fir before) }
    ensures taps { IfOk result (λ fir. fir.taps ≡ taps.now) }
    ensures form { IfOk result (λ fir. NamesForm lent.now fir.form) }
    ensures of_form { IfOk result (λ fir. AreOfForm taps.now fir.form state.now puts.now) }
    ensures room { OnOk result (samples ≤ room) }
    ensures refused { (block old : List ℤ) → length block ≡ samples → length old ≡ room
        → IfErr result (λ why.
        RefusesFormed taps.now lent.now state.now puts.now block old old 0 why) }
{
    let form = match form_of(lent) {
        Some(form) => form,
        None => return Err(FilterRefusal::Taps),
    };
    let made = match Fir::with_form(alloc, taps, form) {
        Ok(fir) => Some(fir),
        Err(FirFault::BadTaps) => return Err(FilterRefusal::Taps),
        Err(FirFault::OutOfMemory) => None,
    };
    if !are_reached(taps, &form, state, puts) {
        return Err(FilterRefusal::Counts);
    }
    if room < samples {
        return Err(FilterRefusal::Room);
    }
    let Some(mut fir) = made else {
        return Err(FilterRefusal::OutOfMemory);
    };
    fir.resume(state, puts);
    Ok(fir)
}

/// Filters a block behind what a state and puts show, and keeps the last samples and the last puts
/// where all values are right. Returns how many are, and why no more.
pub(crate) fn filter_formed(
    alloc: Global,
    taps: &[i64],
    lent: &PhaseFirForm,
    state: &mut [i64],
    puts: &mut [i64],
    block: &[i64],
    out: &mut [i64],
) -> (usize, Result<(), FilterRefusal>)
    ensures done { OnOk result.1 (NamesSome lent.now (λ form. FiltersAllFormed taps.now form
        state.old state.new puts.old puts.new block.now out.old out.new result.0)) }
    ensures refused { IfErr result.1 (λ why. RefusesFormed taps.now lent.now state.old puts.old
        block.now out.old out.new result.0 why) }
    ensures same { OnErr result.1 (StateStays state.old state.new puts.old puts.new) }
{
    let mut fir = match formed_behind(alloc, taps, lent, state, puts, block.len(), out.len()) {
        Ok(fir) => fir,
        Err(why) => return (0, Err(why)),
    };
    let done = steps(&mut fir, block, out);
    if done < block.len() {
        return (done, Err(FilterRefusal::TooBig));
    }
    keep(state, block);
    keep(puts, &out[..block.len()]);
    (done, Ok(()))
}

/// Filters a block behind what a state and puts show, each value over its sample, writes how many
/// values are right, and keeps the last samples and the last puts where all are.
pub(crate) fn formed_in_place(
    alloc: Global,
    taps: &[i64],
    lent: &PhaseFirForm,
    state: &mut [i64],
    puts: &mut [i64],
    block: &mut [i64],
    done: &mut usize,
) -> Result<(), FilterRefusal>
    ensures done { OnOk result (NamesSome lent.now (λ form. FiltersAllFormed taps.now form
        state.old state.new puts.old puts.new block.old block.old block.new done.new)) }
    ensures refused { IfErr result (λ why. RefusesFormed taps.now lent.now state.old puts.old
        block.old block.old block.new done.new why) }
    ensures same { OnErr result (StateStays state.old state.new puts.old puts.new) }
{
    *done = 0;
    let mut fir = match formed_behind(alloc, taps, lent, state, puts, block.len(), block.len()) {
        Ok(fir) => fir,
        Err(why) => return Err(why),
    };
    // The last samples are kept before values take their places.
    let mut last = match Vec::from_slice(alloc, state) {
        Ok(last) => last,
        Err(_) => return Err(FilterRefusal::OutOfMemory),
    };
    keep(&mut last, block);
    *done = steps_in_place(&mut fir, block);
    if *done < block.len() {
        return Err(FilterRefusal::TooBig);
    }
    state.copy_from_slice(&last);
    keep(puts, block);
    Ok(())
}
