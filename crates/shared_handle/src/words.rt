//! What a signal names, read before the phaser is asked.
ghost use Rattle.std.specs.Prelude.{◌≡◌, ◌≤◌, ℤ, Option, Ok, Err, IfOk, length};
ghost use Rattle.phase_base.specs.declared.limits.TheConstants.{SENDS_MAX};
ghost use Rattle.phase_accum.specs.Sends.{AreSends};
ghost use Rattle.phase_accum.specs.declared.single.Single.{Single};
ghost use Rattle.handle_numbers.specs.Numbers.{Names};
ghost use Rattle.shared_handle.specs.Told.{IsBadBlock, IsBadSignal};

use handle_numbers::numbers::*;
use handle_numbers::single_of;
use phase_accum::Single;
use phase_base::SENDS_MAX;
use phase_core::are_sends;

/// Returns the single or none that is named beside a block of values, or the status of why it is
/// refused.
pub fn block_words(values: &[i64], single: u32, low: i64, high: i64) -> Result<Option<Single>, i32>
    ensures sends { IfOk result (λ named. AreSends values.now) }
    ensures good { (named : Option Single) → Names single low high named → AreSends values.now
        → result ≡ Ok named }
    ensures bad { (status : ℤ) → IsBadBlock values.now single low high status
        → result ≡ Err status }
{
    let Some(named) = single_of(single, low, high) else {
        return Err(BAD_SINGLE);
    };
    if !are_sends(values) {
        return Err(BAD_VALUE);
    }
    Ok(named)
}

/// Returns the single or none that is named beside the values of one phase, or the status of why
/// they are refused.
pub fn signal_words(values: &[i64], single: u32, low: i64, high: i64) -> Result<Option<Single>, i32>
    ensures sends { IfOk result (λ named. AreSends values.now) }
    ensures few { IfOk result (λ named. length values.now ≤ SENDS_MAX) }
    ensures good { (named : Option Single) → Names single low high named → AreSends values.now
        → length values.now ≤ SENDS_MAX → result ≡ Ok named }
    ensures bad { (status : ℤ) → IsBadSignal values.now single low high status
        → result ≡ Err status }
{
    let Some(named) = single_of(single, low, high) else {
        return Err(BAD_SINGLE);
    };
    if values.len() as u64 > SENDS_MAX {
        return Err(TOO_MANY_SENDS);
    }
    if !are_sends(values) {
        return Err(BAD_VALUE);
    }
    Ok(named)
}
