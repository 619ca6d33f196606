//! A filter over a block of samples, whose values take the places of the samples.
ghost use Rattle.std.specs.Prelude.{◌≡◌, ◌≤◌, ◌<◌, ℤ, List, length, take, drop, OnOk, OnErr, IfErr};
ghost use Rattle.phase_accum.specs.Sends.{AreSends, IsSend};
ghost use Rattle.stream_filters.specs.Filter.{StandsFor, by_shift};
ghost use Rattle.phase_c.specs.Filtered.{FiltersAll, RefusesBlock, first_outputs, output_in_block};

use crate::filter::{FilterRefusal, filter_behind, keep};
use std::alloc::Global;
use stream_filters::{FEW_TAPS_MAX, Fir};

/// Writes what a filter answers at each sample of a block over the sample, up to the first value
/// that is out of range, and returns how many it wrote.
pub(crate) fn steps_in_place(fir: &mut Fir, block: &mut [i64]) -> usize
    ensures few { result ≤ length block.old }
    ensures written { (before : List ℤ) → StandsFor fir.old before → take result block.new
        ≡ first_outputs fir.old.taps fir.old.form before block.old result }
    ensures fits { (before : List ℤ) → StandsFor fir.old before
        → AreSends (take result block.new) }
    ensures behind { drop result block.new ≡ drop result block.old }
    ensures too_big { (before : List ℤ) → StandsFor fir.old before → result < length block.old
        → ¬ (IsSend (output_in_block fir.old.taps fir.old.form before block.old result)) }
{
    for n in 0..block.len() {
        match fir.step(block[n]) {
            Ok(value) => block[n] = value,
            Err(_) => return n,
        }
    }
    block.len()
}

/// Filters a block behind the samples of a state, each value over its sample, writes how many
/// values are right, and keeps the last samples in the state where all are.
pub(crate) fn filter_in_place(
    alloc: Global,
    taps: &[i64],
    shift: u32,
    state: &mut [i64],
    block: &mut [i64],
    done: &mut usize,
) -> Result<(), FilterRefusal>
    ensures done { OnOk result (FiltersAll taps.now (by_shift shift) state.old state.new
        block.old block.old block.new done.new) }
    ensures refused { IfErr result (λ why. RefusesBlock taps.now (by_shift shift) state.old
        block.old block.old block.new done.new why) }
    ensures same { OnErr result (state.new ≡ state.old) }
{
    *done = 0;
    let mut fir = match filter_behind(alloc, taps, shift, state, block.len(), block.len()) {
        Ok(fir) => fir,
        Err(why) => return Err(why),
    };
    // The last samples are kept before values take their places.
    let mut room = [0; FEW_TAPS_MAX];
    let last = &mut room[..state.len()];
    last.copy_from_slice(state);
    keep(last, block);
    *done = steps_in_place(&mut fir, block);
    if *done < block.len() {
        return Err(FilterRefusal::TooBig);
    }
    state.copy_from_slice(last);
    Ok(())
}
