//! The sends of a block of phases, one a phase.
ghost use Rattle.std.specs.Prelude.{◌≡◌, ◌↔◌, ◌≤◌, [], ◌∷◌, true, length, take, unsigned_abs};
ghost use Rattle.std.specs.List.{All};
ghost use Rattle.phase_accum.specs.Parcels.{StandsForSends};
ghost use Rattle.phase_accum.specs.Sends.{AreSends, IsSend, value_max};
ghost use Rattle.phase_core.specs.Blocks.{StandForLists, one_each};

use phase_accum::{Accumulate, Pending, VALUE_MAX};

// Whether the magnitude of each number is one of a value.
fn are_small(values: &[i64]) -> bool
    ensures { (result ≡ true) ↔ All (λ v. unsigned_abs v ≤ value_max) values.now }
{
    values
        .iter()
        .all(|value| value.unsigned_abs() <= VALUE_MAX as u64)
}

/// Returns whether each of the values can be sent.
pub fn are_sends(values: &[i64]) -> bool
    ensures { (result ≡ true) ↔ AreSends values.now }
{
    are_small(values)
}

/// Makes the pending sends of a task that holds this one alone.
pub fn one_send<A: Accumulate>(value: i64) -> Pending<A>
    requires { IsSend value }
    ensures { StandsForSends A.operation result (value ∷ []) }
{
    let mut pending = Pending::new();
    let Ok(()) = pending.send(value) else {
        unreachable!()
    };
    pending
}

/// Puts each value into a place as the one send that is held there, the first into the first place.
pub fn hold_each<A: Accumulate>(places: &mut [Pending<A>], values: &[i64])
    requires sends { AreSends values.now }
    requires room { length values.now ≤ length places.old }
    ensures stand { StandForLists A.operation (take (length values.now) places.new)
        (one_each values.now) }
    ensures places { length places.new ≡ length places.old }
{
    for k in 0..values.len() {
        places[k] = one_send(values[k]);
    }
}
