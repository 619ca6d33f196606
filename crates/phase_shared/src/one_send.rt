//! A rule as an example: every signal has exactly one send.
ghost use Rattle.std.specs.Prelude.{◌≡◌, ◌≢◌, [], ◌∷◌, true, None, OnOk, OnErr};
ghost use Rattle.phase_base.specs.Modes.{mode_signals};
ghost use Rattle.phase_accum.specs.declared.outcome.TheConstants.{NO_VALUE};
ghost use Rattle.phase_accum.specs.Parcels.{StandsForSends};
ghost use Rattle.phase_shared.specs.Calls.{IsTry, Tries};
ghost use Rattle.phase_shared.specs.Entries.{entry_after_signal};
ghost use Rattle.phase_shared.specs.OneSends.{allows_one_send};
ghost use Rattle.phase_shared.specs.Puts.{SignalsValue};
ghost use Rattle.phase_shared.specs.Regs.{phaser_lock, phaser_terms, phaser_limits};

use crate::phaser::Phaser;
use crate::reg::Reg;
use crate::rule::SignalRule;
use crate::tried::Tried;
use phase_accum::Accumulate;
use phase_core::SignalRefusal;

/// The rule that allows the signals of one send.
#[derive(Clone, Copy, Debug, PartialEq, Eq)]
pub struct OneSend;

impl SignalRule for OneSend {
    ghost allows = { allows_one_send };
}

/// Sends a value and signals with it, and answers the phase. A refused signal leaves the value
/// held.
pub fn try_signal_value<A: Accumulate>(
    phaser: &Phaser<A, OneSend>,
    reg: &mut Reg<A, OneSend>,
    value: i64,
) -> Result<u64, Tried<SignalRefusal>>
    requires at { reg.old.at ≡ phaser_lock phaser.now }
    requires signals { mode_signals reg.old.entry.mode ≡ true }
    requires value { value ≢ NO_VALUE }
    requires none_held { reg.old.held.count ≡ 0 }

    // Every signal that it has seen, of whichever task, had one send.
    ensures call { let old = reg.old in
        IsTry allows_one_send (phaser_terms phaser.now) SignalRefusal.NoTask entry_after_signal
        (Tries (reg.new.seen ≡ old.seen) (SignalsValue (phaser_limits phaser.now) old.number value
        None old.seen reg.new.seen) result) old reg.new result }
    ensures none_held { OnOk result
        (StandsForSends A.operation reg.new.held [] × (reg.new.held.count ≡ 0)) }
    ensures held { OnErr result (StandsForSends A.operation reg.new.held (value ∷ [])) }
{
    reg.try_put(phaser, value, None)
}
