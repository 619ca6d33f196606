//! The calls of a receiver on blocks of phases.
ghost use Rattle.std.specs.Prelude.{◌≡◌, ◌≢◌, ◌+◌, ◌≤◌, [], ◌∷◌, Err, IfOk, length};
ghost use Rattle.std.specs.Vec.{vec_len, vec_capacity};
ghost use Rattle.phase_history.specs.Others.{OnlyUsed};
ghost use Rattle.phase_shared.specs.Regs.{phaser_lock, phaser_terms, phaser_limits};
ghost use Rattle.phase_shared.specs.Calls.{IsCall, Tries};
ghost use Rattle.phase_shared.specs.Blocks.{WaitsBlock, entry_after_values};
ghost use Rattle.phase_received.specs.Received.{received_of, with_values, CountFits, Receives};
ghost use Rattle.phase_received.specs.Whole.{HasSeenEnd};

use super::Receiver;
use crate::fault::ReceiveFault;
use phase_accum::{Accumulate, Outcome};
use phase_core::{GotBlock, WaitRefusal};
use phase_shared::{Phaser, SignalRule, Tried};
use std::sync::Wait;

// Puts the values that stand in the first places, where there are any, behind the others.
fn put_block(values: &mut Vec<Outcome>, places: &[Outcome], got: GotBlock)
    requires room { vec_len values.old + length places.now ≤ vec_capacity values.old }
    requires fits { CountFits (length places.now) got }
    ensures { values.new.items ≡ with_values values.old.items places.now got }
{
    if let GotBlock::Values { phase: _, count } = got {
        let Ok(()) = values.extend_from_slice(&places[..count as usize]) else {
            unreachable!()
        };
    }
}

impl<A: Accumulate, K: SignalRule> Receiver<A, K> {
    /// Waits for its phase and those behind it that are complete, as many as there are places,
    /// writes their values and keeps them; or learns that no more will come. The places behind the
    /// values stay. It waits until its phase is complete, or no signaller is registered. It may
    /// take memory.
    ///
    /// No places, or more than the bound, are refused as `BadBlock` at once.
    pub fn wait_block<W: Wait>(
        &mut self,
        rt: &W,
        phaser: &Phaser<A, K>,
        out: &mut [Outcome],
    ) -> Result<GotBlock, ReceiveFault<WaitRefusal>>
        requires at { self.old.at ≡ phaser_lock phaser.now }

        ensures call { let old = self.old in
            IsCall K.allows (phaser_terms phaser.now) (ReceiveFault.Refused WaitRefusal.NoTask)
            entry_after_values (Receives ((self.new ≡ old) × (out.new ≡ out.old))
            (WaitsBlock A.operation.value (phaser_limits phaser.now) old.number old.seen
            self.new.seen out.old out.new) result) old self.new result }
        ensures waited { result ≢ Err (ReceiveFault.Refused WaitRefusal.NotYet) }
        ensures got { IfOk result (λ got. received_of A.operation self.new
            ≡ with_values (received_of A.operation self.old) out.new got) }
        ensures ended { IfOk result (λ got. got ≡ GotBlock.Ended
            → HasSeenEnd self.new.seen self.new.number) }
        ensures held { self.new.held ≡ self.old.held }
    {
        phase_shared::laws::waits_block();
        if self.values.reserve(out.len()).is_err() {
            self.reg.look();
            return Err(ReceiveFault::OutOfMemory);
        }
        let got = match self.reg.wait_block(rt, phaser, out) {
            Ok(got) => got,
            Err(refusal) => return Err(ReceiveFault::Refused(refusal)),
        };
        put_block(&mut self.values, out, got);
        Ok(got)
    }

    /// Waits for its phase and those behind it that are complete, as many as there are places,
    /// writes their values and keeps them; or learns that no more will come. The places behind the
    /// values stay. It may take memory.
    pub fn try_wait_block(
        &mut self,
        phaser: &Phaser<A, K>,
        out: &mut [Outcome],
    ) -> Result<GotBlock, ReceiveFault<Tried<WaitRefusal>>>
        requires at { self.old.at ≡ phaser_lock phaser.now }

        ensures call { let old = self.old in
            IsCall K.allows (phaser_terms phaser.now)
            (ReceiveFault.Refused (Tried.Refused WaitRefusal.NoTask)) entry_after_values
            (Receives ((self.new ≡ old) × (out.new ≡ out.old))
            (Tries ((self.new ≡ old) × (out.new ≡ out.old)) (WaitsBlock A.operation.value
            (phaser_limits phaser.now) old.number old.seen self.new.seen out.old out.new)) result)
            old self.new result }
        // Where it is the only one that it has seen, nobody is in its way.
        ensures alone { OnlyUsed (self.old.number ∷ []) self.old.seen
            → result ≢ Err (ReceiveFault.Refused Tried.Busy) }
        ensures got { IfOk result (λ got. received_of A.operation self.new
            ≡ with_values (received_of A.operation self.old) out.new got) }
        ensures ended { IfOk result (λ got. got ≡ GotBlock.Ended
            → HasSeenEnd self.new.seen self.new.number) }
        ensures held { self.new.held ≡ self.old.held }
    {
        phase_shared::laws::waits_block();
        if self.values.reserve(out.len()).is_err() {
            self.reg.look();
            return Err(ReceiveFault::OutOfMemory);
        }
        let got = match self.reg.try_wait_block(phaser, out) {
            Ok(got) => got,
            Err(tried) => return Err(ReceiveFault::Refused(tried)),
        };
        put_block(&mut self.values, out, got);
        Ok(got)
    }
}
