//! A filter over a block of samples, which goes on where the block before it ended.
ghost use Rattle.std.specs.Prelude.{◌≡◌, ◌≤◌, ◌<◌, ◌+◌, ◌++◌, ℤ, List, length, take, drop, OnOk, OnErr, IfOk, IfErr};
ghost use Rattle.phase_accum.specs.Sends.{AreSends, IsSend};
ghost use Rattle.stream_filters.specs.Filter.{StandsFor, by_shift};
ghost use Rattle.phase_c.specs.Filtered.{AreOfFilter, FiltersAll, RefusesBlock, filter_status_of, first_outputs, output_in_block};

use std::alloc::Global;
use stream_filters::{Fir, FirFault};

/// Why a block was not filtered, or not to its end.
#[derive(Clone, Copy, Debug, PartialEq, Eq)]
pub enum FilterRefusal {
    /// No filter has these taps and this form.
    Taps,
    /// The state, or what was put, is not as long as the filter looks back.
    Counts,
    /// The values have no room where they were to be written.
    Room,
    /// A value is out of range.
    TooBig,
    /// Memory ran out.
    OutOfMemory,
}

/// The status of a refusal.
pub(crate) fn filter_status_of(why: FilterRefusal) -> i32
    ensures { result ≡ filter_status_of why }
{
    match why {
        FilterRefusal::Counts => -2,
        FilterRefusal::TooBig => -4,
        FilterRefusal::Room => -5,
        FilterRefusal::OutOfMemory => -6,
        FilterRefusal::Taps => -7,
    }
}

/// Has a filter take these samples.
fn take_in(fir: &mut Fir, samples: &[i64])
    ensures stands { (before : List ℤ) → StandsFor fir.old before
        → StandsFor fir.new (before ++ samples.now) }
    ensures taps { fir.new.taps ≡ fir.old.taps }
    ensures form { fir.new.form ≡ fir.old.form }
{
    for x in samples {
        fir.take(*x);
    }
}

/// Writes what a filter answers at each sample of a block, up to the first value that is out of
/// range, and returns how many it wrote.
pub(crate) fn steps(fir: &mut Fir, block: &[i64], out: &mut [i64]) -> usize
    requires room { length block.now ≤ length out.old }
    ensures few { result ≤ length block.now }
    ensures written { (before : List ℤ) → StandsFor fir.old before → take result out.new
        ≡ first_outputs fir.old.taps fir.old.form before block.now result }
    ensures fits { (before : List ℤ) → StandsFor fir.old before
        → AreSends (take result out.new) }
    ensures behind { drop result out.new ≡ drop result out.old }
    ensures too_big { (before : List ℤ) → StandsFor fir.old before → result < length block.now
        → ¬ (IsSend (output_in_block fir.old.taps fir.old.form before block.now result)) }
{
    for n in 0..block.len() {
        match fir.step(block[n]) {
            Ok(value) => out[n] = value,
            Err(_) => return n,
        }
    }
    block.len()
}

/// Keeps the last samples, as many as there were.
pub(crate) fn keep(state: &mut [i64], block: &[i64])
    ensures { state.new ≡ drop (length block.now) (state.old ++ block.now) }
{
    let kept = state.len();
    let count = block.len();
    if count >= kept {
        state.copy_from_slice(&block[count - kept..]);
        return;
    }
    state.rotate_left(count);
    state[kept - count..].copy_from_slice(block);
}

/// A filter that has taken the samples of a state, where the state is one of its, and where so many
/// samples have room for their values. Whether there is memory is told last.
pub(crate) fn filter_behind(
    alloc: Global,
    taps: &[i64],
    shift: u32,
    state: &[i64],
    samples: usize,
    room: usize,
) -> Result<Fir, FilterRefusal>
    ensures stands { IfOk result (λ fir. StandsFor fir state.now) }
    ensures taps { IfOk result (λ fir. fir.taps ≡ taps.now) }
    ensures form { IfOk result (λ fir. fir.form ≡ by_shift shift) }
    ensures of_filter { OnOk result (AreOfFilter taps.now (by_shift shift) state.now) }
    ensures room { OnOk result (samples ≤ room) }
    ensures refused { (block old : List ℤ) → length block ≡ samples → length old ≡ room
        → IfErr result (λ why.
        RefusesBlock taps.now (by_shift shift) state.now block old old 0 why) }
{
    let made = match Fir::new(alloc, taps, shift) {
        Ok(fir) => Some(fir),
        Err(FirFault::BadTaps) => return Err(FilterRefusal::Taps),
        Err(FirFault::OutOfMemory) => None,
    };
    if state.len() + 1 != taps.len() {
        return Err(FilterRefusal::Counts);
    }
    if room < samples {
        return Err(FilterRefusal::Room);
    }
    let Some(mut fir) = made else {
        return Err(FilterRefusal::OutOfMemory);
    };
    take_in(&mut fir, state);
    Ok(fir)
}

/// Filters a block behind the samples of a state, writes how many values are right, and keeps the
/// last samples in the state where all are.
pub(crate) fn filter_block(
    alloc: Global,
    taps: &[i64],
    shift: u32,
    state: &mut [i64],
    block: &[i64],
    out: &mut [i64],
    done: &mut usize,
) -> Result<(), FilterRefusal>
    ensures done { OnOk result (FiltersAll taps.now (by_shift shift) state.old state.new
        block.now out.old out.new done.new) }
    ensures refused { IfErr result (λ why. RefusesBlock taps.now (by_shift shift) state.old
        block.now out.old out.new done.new why) }
    ensures same { OnErr result (state.new ≡ state.old) }
{
    *done = 0;
    let mut fir = match filter_behind(alloc, taps, shift, state, block.len(), out.len()) {
        Ok(fir) => fir,
        Err(why) => return Err(why),
    };
    *done = steps(&mut fir, block, out);
    if *done < block.len() {
        return Err(FilterRefusal::TooBig);
    }
    keep(state, block);
    Ok(())
}
