//! The calls of a receiver that wait for nobody.
ghost use Rattle.std.specs.Prelude.{◌≡◌, ◌≢◌, [], ◌∷◌, Err, IfOk, IfErr, IsOk, OnOk, OnErr};
ghost use Rattle.phase_accum.specs.Parcels.{StandsForSends};
ghost use Rattle.phase_history.specs.Others.{OnlyUsed};
ghost use Rattle.phase_history.specs.Phases.{received_by};
ghost use Rattle.phase_shared.specs.Rule.{IsGoodAt};
ghost use Rattle.phase_shared.specs.Regs.{phaser_lock, phaser_terms, phaser_limits};
ghost use Rattle.phase_shared.specs.Calls.{IsTry, IsCall, Tries, Signals, Waits, Registers, MaySignal, Leaves};
ghost use Rattle.phase_shared.specs.Entries.{entry_stays, entry_after_signal, entry_after_wait};
ghost use Rattle.phase_shared.specs.Parts.{with_got};
ghost use Rattle.phase_received.specs.Received.{received_of, IsPastOf, Receives};
ghost use Rattle.phase_received.specs.Whole.{HasSeenEnd, HasWhole};

use super::{Receiver, put};
use crate::fault::ReceiveFault;
use crate::laws;
use crate::receipts::Receipts;
use phase_accum::{Accumulate, Single};
use phase_base::Mode;
use phase_core::{Got, RegisterRefusal, SignalRefusal, WaitRefusal};
use phase_shared::{Phaser, SignalRule, Tried};
use std::alloc::Global;

impl<A: Accumulate, K: SignalRule> Receiver<A, K> {
    /// Signals its phase, with the sends that it holds and a single or none, and answers that
    /// phase. A refused signal leaves the sends held. It takes no memory.
    pub fn try_signal(
        &mut self,
        phaser: &Phaser<A, K>,
        single: Option<Single>,
    ) -> Result<u64, Tried<SignalRefusal>>
        requires at { self.old.at ≡ phaser_lock phaser.now }
        requires rule { MaySignal A.operation K.allows (phaser_terms phaser.now) self.old single }

        ensures call { let old = self.old in
            IsTry K.allows (phaser_terms phaser.now) SignalRefusal.NoTask entry_after_signal
            (Tries (self.new ≡ old) (Signals A.operation (phaser_limits phaser.now) old.number
            old.held single old.seen self.new.seen) result) old self.new result }
        ensures received { received_of A.operation self.new ≡ received_of A.operation self.old }
        ensures none_held { OnOk result
            (StandsForSends A.operation self.new.held [] × (self.new.held.count ≡ 0)) }
        ensures held { OnErr result (self.new.held ≡ self.old.held) }
    {
        phase_shared::laws::signals::<A>();
        self.reg.try_signal(phaser, single)
    }

    /// Waits for its phase, and keeps the value that it got, or learns that no more will come. It
    /// may take memory.
    pub fn try_wait(
        &mut self,
        phaser: &Phaser<A, K>,
    ) -> Result<Got, ReceiveFault<Tried<WaitRefusal>>>
        requires at { self.old.at ≡ phaser_lock phaser.now }

        ensures call { let old = self.old in
            IsCall K.allows (phaser_terms phaser.now)
            (ReceiveFault.Refused (Tried.Refused WaitRefusal.NoTask)) entry_after_wait
            (Receives (self.new ≡ old) (Tries (self.new ≡ old) (Waits A.operation.value
            (phaser_limits phaser.now) old.number old.seen self.new.seen)) result) old self.new
            result }
        // Where it is the only one that it has seen, nobody is in its way.
        ensures alone { OnlyUsed (self.old.number ∷ []) self.old.seen
            → result ≢ Err (ReceiveFault.Refused Tried.Busy) }
        ensures got { IfOk result (λ got. received_of A.operation self.new
            ≡ with_got (received_of A.operation self.old) got) }
        ensures ended { IfOk result (λ got. got ≡ Got.Ended
            → HasSeenEnd self.new.seen self.new.number) }
        ensures held { self.new.held ≡ self.old.held }
    {
        phase_shared::laws::waits();
        if self.values.reserve(1).is_err() {
            self.reg.look();
            return Err(ReceiveFault::OutOfMemory);
        }
        let got = match self.reg.try_wait(phaser) {
            Ok(got) => got,
            Err(tried) => return Err(ReceiveFault::Refused(tried)),
        };
        put(&mut self.values, got);
        Ok(got)
    }

    /// Registers a child in a mode that its own mode holds, at both of its phases. The child has
    /// seen what its parent has, holds no sends, and has received nothing. It may take memory.
    pub fn try_register(
        &mut self,
        alloc: Global,
        phaser: &Phaser<A, K>,
        mode: Mode,
    ) -> Result<Receiver<A, K>, Tried<RegisterRefusal>>
        requires at { self.old.at ≡ phaser_lock phaser.now }

        ensures call { let old = self.old in
            IsTry K.allows (phaser_terms phaser.now) RegisterRefusal.NoTask entry_stays
            (Tries (self.new ≡ old) (Registers A.operation mode old self.new) result) old self.new
            result }
        ensures child { IfOk result (λ child. received_of A.operation child ≡ []) }
        ensures received { received_of A.operation self.new ≡ received_of A.operation self.old }
        ensures held { self.new.held ≡ self.old.held }
    {
        phase_shared::laws::registers();
        let reg = match self.reg.try_register(phaser, mode) {
            Ok(reg) => reg,
            Err(tried) => return Err(tried),
        };
        Ok(Receiver {
            reg,
            values: Vec::new(alloc),
        })
    }

    /// Ends the registration: the sends that it holds are in no phase. Where another is in the
    /// middle of a call it comes back as it was. It takes no memory.
    ///
    /// Who has seen the end of the stream has received exactly the stream from its start on.
    pub fn try_leave(
        self,
        alloc: Global,
        phaser: &Phaser<A, K>,
    ) -> Result<Receipts<A, K>, Receiver<A, K>>
        requires at { self.at ≡ phaser_lock phaser.now }

        ensures ok { IfOk result (λ left. Leaves self.number self.seen left.seen) }
        ensures received { IfOk result (λ left. received_of A.operation self
            ≡ received_by A.operation.value left.seen self.number) }
        ensures past { IfOk result (λ left. IsPastOf self left) }
        ensures good { IfOk result (λ left.
            IsGoodAt K.allows (phaser_terms phaser.now) left.seen) }
        ensures whole { IfOk result (λ left. HasSeenEnd self.seen self.number
            → HasWhole A.operation.value left.seen self.number) }

        ensures err { IfErr result (λ back. back ≡ self) }
        // Where it is the only one that it has seen, nobody is in its way.
        ensures alone { OnlyUsed (self.number ∷ []) self.seen → IsOk result }
    {
        laws::whole();
        phase_shared::laws::leaves();
        let Receiver { reg, values } = self;
        let _mode = reg.mode();
        match reg.try_leave(phaser) {
            Ok(past) => Ok(Receipts::of(alloc, past, values)),
            Err(reg) => Err(Receiver { reg, values }),
        }
    }
}
