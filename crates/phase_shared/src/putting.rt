//! A signal of a registration with one value, by one call.
ghost use Rattle.std.specs.Prelude.{◌≡◌, ◌≢◌, [], ◌∷◌, true, false, OnOk, OnErr};
ghost use Rattle.phase_base.specs.Modes.{mode_signals};
ghost use Rattle.phase_accum.specs.declared.outcome.TheConstants.{NO_VALUE};
ghost use Rattle.phase_accum.specs.Parcels.{StandsForSends};
ghost use Rattle.phase_shared.specs.Regs.{phaser_lock, phaser_terms, phaser_limits};
ghost use Rattle.phase_shared.specs.Calls.{IsTry, Tries};
ghost use Rattle.phase_shared.specs.Entries.{entry_after_signal};
ghost use Rattle.phase_shared.specs.Puts.{SignalsValue, IsFreeFor, MayPut};

use crate::phaser::Phaser;
use crate::refusal::SendRefusal;
use crate::reg::Reg;
use crate::rule::SignalRule;
use crate::tried::Tried;
use phase_accum::{Accumulate, Single};
use phase_core::SignalRefusal;

impl<A: Accumulate, K: SignalRule> Reg<A, K> {
    /// Signals its phase with this value as its one send, and a single or none, and answers that
    /// phase. It takes no memory.
    ///
    /// Nothing else may be held. A value that is refused stays held and may be put again, where the
    /// mode signals. A mode that does not signal is refused as `NoSignal`, without a turn.
    pub fn try_put(
        &mut self,
        phaser: &Phaser<A, K>,
        value: i64,
        single: Option<Single>,
    ) -> Result<u64, Tried<SignalRefusal>>
        requires at { self.old.at ≡ phaser_lock phaser.now }
        requires value { value ≢ NO_VALUE }
        requires free { IsFreeFor A.operation self.old.held value }
        requires rule { MayPut K.allows (phaser_terms phaser.now) self.old value single }

        ensures call { let old = self.old in
            IsTry K.allows (phaser_terms phaser.now) SignalRefusal.NoTask entry_after_signal
            (Tries (self.new.seen ≡ old.seen) (SignalsValue (phaser_limits phaser.now) old.number
            value single old.seen self.new.seen) result) old self.new result }
        ensures none_held { OnOk result
            (StandsForSends A.operation self.new.held [] × (self.new.held.count ≡ 0)) }
        ensures held { OnErr result (mode_signals self.old.entry.mode ≡ true
            → StandsForSends A.operation self.new.held (value ∷ [])) }
        ensures free { OnErr result (IsFreeFor A.operation self.new.held value) }
    {
        let Ok(()) = self.hold(value) else {
            self.look();
            return Err(Tried::Refused(SignalRefusal::NoSignal));
        };
        self.try_signal(phaser, single)
    }

    // Holds the value, where it is not held already.
    fn hold(&mut self, value: i64) -> Result<(), SendRefusal>
        requires value { value ≢ NO_VALUE }
        requires free { IsFreeFor A.operation self.old.held value }
        ensures held { OnOk result (StandsForSends A.operation self.new.held (value ∷ [])) }
        ensures same { (self.new.at ≡ self.old.at) × (self.new.number ≡ self.old.number)
            × (self.new.entry ≡ self.old.entry) × (self.new.seen ≡ self.old.seen) }
        ensures err { OnErr result
            ((self.new ≡ self.old) × (mode_signals self.old.entry.mode ≡ false)) }
    {
        if self.pending() > 0 {
            return Ok(());
        }
        self.send(value)
    }
}
