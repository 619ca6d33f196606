//! The calls of a receiver that register a waiter that joins now.
ghost use Rattle.std.specs.Prelude.{◌≡◌, [], IfOk};
ghost use Rattle.phase_shared.specs.Regs.{phaser_lock, phaser_terms};
ghost use Rattle.phase_shared.specs.Calls.{IsCall, IsTry, Tries};
ghost use Rattle.phase_shared.specs.Entries.{entry_stays};
ghost use Rattle.phase_shared.specs.Joins.{RegistersNow};
ghost use Rattle.phase_received.specs.Received.{received_of};

use super::Receiver;
use phase_accum::Accumulate;
use phase_core::RegisterRefusal;
use phase_shared::{Phaser, SignalRule, Tried};
use std::alloc::Global;
use std::sync::Wait;

impl<A: Accumulate, K: SignalRule> Receiver<A, K> {
    /// Registers a child as a waiter at the first phase that is not complete. The child has seen
    /// what its parent has, holds no sends, and has received nothing: it gets the stream from
    /// where it begins. It may take memory, and waits for its turn.
    pub fn register_now<W: Wait>(
        &mut self,
        rt: &W,
        alloc: Global,
        phaser: &Phaser<A, K>,
    ) -> Result<Receiver<A, K>, RegisterRefusal>
        requires at { self.old.at ≡ phaser_lock phaser.now }

        ensures call { let old = self.old in
            IsCall K.allows (phaser_terms phaser.now) RegisterRefusal.NoTask entry_stays
            (RegistersNow A.operation old self.new result) old self.new result }
        ensures child { IfOk result (λ child. received_of A.operation child ≡ []) }
        ensures received { received_of A.operation self.new ≡ received_of A.operation self.old }
        ensures held { self.new.held ≡ self.old.held }
    {
        phase_shared::laws::registers_now();
        let reg = match self.reg.register_now(rt, phaser) {
            Ok(reg) => reg,
            Err(refusal) => return Err(refusal),
        };
        Ok(Receiver {
            reg,
            values: Vec::new(alloc),
        })
    }

    /// Registers a child as a waiter at the first phase that is not complete. The child has seen
    /// what its parent has, holds no sends, and has received nothing: it gets the stream from
    /// where it begins. It may take memory.
    pub fn try_register_now(
        &mut self,
        alloc: Global,
        phaser: &Phaser<A, K>,
    ) -> Result<Receiver<A, K>, Tried<RegisterRefusal>>
        requires at { self.old.at ≡ phaser_lock phaser.now }

        ensures call { let old = self.old in
            IsTry K.allows (phaser_terms phaser.now) RegisterRefusal.NoTask entry_stays
            (Tries (self.new ≡ old) (RegistersNow A.operation old self.new) result) old self.new
            result }
        ensures child { IfOk result (λ child. received_of A.operation child ≡ []) }
        ensures received { received_of A.operation self.new ≡ received_of A.operation self.old }
        ensures held { self.new.held ≡ self.old.held }
    {
        phase_shared::laws::registers_now();
        let reg = match self.reg.try_register_now(phaser) {
            Ok(reg) => reg,
            Err(tried) => return Err(tried),
        };
        Ok(Receiver {
            reg,
            values: Vec::new(alloc),
        })
    }
}
