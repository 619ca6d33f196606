//! A registration with all that it got.
ghost use Rattle.std.specs.Prelude.{◌≡◌, ◌≢◌, ◌↔◌, ◌<◌, ◌+◌, ℤ, List, [], ◌∷◌, ◌++◌, Some, Err, IfOk, OnOk, OnErr, true, false, is_ok, ◌&&◌};
ghost use Rattle.std.specs.Vec.{vec_len, vec_capacity};
ghost use Rattle.phase_base.specs.Modes.{mode_signals};
ghost use Rattle.phase_base.specs.declared.limits.TheConstants.{SENDS_MAX};
ghost use Rattle.phase_accum.specs.declared.outcome.TheConstants.{NO_VALUE};
ghost use Rattle.phase_accum.specs.Parcels.{StandsForSends};
ghost use Rattle.phase_history.specs.Phases.{received_by};
ghost use Rattle.phase_shared.specs.Rule.{IsGoodAt};
ghost use Rattle.phase_shared.specs.Regs.{phaser_lock, phaser_terms, phaser_limits};
ghost use Rattle.phase_shared.specs.Calls.{IsCall, Signals, Waits, Registers, MaySignal, Leaves, HeldAfter};
ghost use Rattle.phase_shared.specs.Entries.{entry_stays, entry_after_signal, entry_after_wait, entry_after_next};
ghost use Rattle.phase_shared.specs.Nexts.{GoesOrRefuses};
ghost use Rattle.phase_shared.specs.Parts.{with_got, with_any};
ghost use Rattle.phase_received.specs.Received.{received_of, IsPastOf, Receives};
ghost use Rattle.phase_received.specs.Whole.{HasSeenEnd, HasWhole};

mod blocks;
mod joining;
mod standing;
mod trying;

use crate::fault::ReceiveFault;
use crate::laws;
use crate::receipts::Receipts;
use phase_accum::{Accumulate, Outcome, Single};
use phase_base::Mode;
use phase_core::{Got, RegisterRefusal, SignalRefusal, WaitRefusal};
use phase_shared::{Next, Phaser, Reg, SendRefusal, SignalRule};
use std::alloc::Global;
use std::marker::Model;
use std::sync::Wait;

/// A registration with all that it got, the first value first.
///
/// In contracts it is its registration: `received_of` says what a registration has received, by the
/// history that it has seen, and `values` that this is what is kept here. Each call is the one of
/// `Reg` of the same name.
///
/// **End.** It cannot be thrown away. `leave` ends its registration, and gives `Receipts`.
pub struct Receiver<A: Accumulate, K: SignalRule> {
    reg: Reg<A, K>,
    values: Vec<Outcome>,
}

impl<A: Accumulate, K: SignalRule> Model for Receiver<A, K> {
    ghost use Rattle.std.specs.Prelude.{◌≡◌};
    ghost use Rattle.phase_shared.specs.Regs.{RegState};

    ghost Value = { RegState A K };

    ghost use Rattle.phase_received.specs.Received.{received_of};

    ghost view = { λ r. r.reg };

    ghost invariant = { λ r. r.values.items ≡ received_of A.operation r.reg };
}

// Puts the value that was got, where it is one, behind the others.
fn put(values: &mut Vec<Outcome>, got: Got)
    requires { vec_len values.old < vec_capacity values.old }
    ensures { values.new.items ≡ with_got values.old.items got }
{
    if let Got::Value { phase: _, outcome } = got {
        values.push_reserved(outcome);
    }
}

impl<A: Accumulate, K: SignalRule> Receiver<A, K> {
    /// Makes one of a registration and what it got so far, which is nothing for a new one.
    pub fn new(reg: Reg<A, K>, values: Vec<Outcome>) -> Receiver<A, K>
        requires { values.items ≡ received_of A.operation reg }
        ensures { result ≡ reg }
    {
        Receiver { reg, values }
    }

    /// Returns the registration and what it got.
    pub fn into_parts(self) -> (Reg<A, K>, Vec<Outcome>)
        ensures reg { result.0 ≡ self }
        ensures values { result.1.items ≡ received_of A.operation self }
    {
        let Receiver { reg, values } = self;
        (reg, values)
    }

    /// Returns what it got.
    pub fn values(&self) -> &[Outcome]
        ensures { result.now ≡ received_of A.operation self.now }
    {
        self.values.as_slice()
    }

    /// Returns its registration, to be read alone.
    pub fn reg(&self) -> &Reg<A, K>
        ensures { result.now ≡ self.now }
    {
        &self.reg
    }

    /// Holds one more send, behind the others, until the next signal. It takes no turn and no
    /// memory.
    pub fn send(&mut self, value: i64) -> Result<(), SendRefusal>
        ensures stands { OnOk result ((sends : List ℤ)
            → StandsForSends A.operation self.old.held sends
            → StandsForSends A.operation self.new.held (sends ++ value ∷ [])) }
        ensures count { OnOk result (self.new.held.count ≡ self.old.held.count + 1) }
        ensures same { (self.new.at ≡ self.old.at) × (self.new.number ≡ self.old.number)
            × (self.new.entry ≡ self.old.entry) × (self.new.seen ≡ self.old.seen) }

        ensures no_signal { (result ≡ Err SendRefusal.NoSignal)
            ↔ (mode_signals self.old.entry.mode ≡ false) }
        ensures bad_value { (result ≡ Err SendRefusal.BadValue)
            ↔ ((mode_signals self.old.entry.mode ≡ true) × (value ≡ NO_VALUE)) }
        ensures too_many { (result ≡ Err SendRefusal.TooManySends)
            ↔ ((mode_signals self.old.entry.mode ≡ true) × (value ≢ NO_VALUE)
            × (self.old.held.count ≡ SENDS_MAX)) }
        ensures err { OnErr result (self.new ≡ self.old) }
    {
        self.reg.send(value)
    }

    /// Signals its phase, with the sends that it holds and a single or none, and answers that
    /// phase. It waits while it is ahead of the slowest waiter. A refused signal leaves the sends
    /// held. It takes no memory.
    pub fn signal<W: Wait>(
        &mut self,
        rt: &W,
        phaser: &Phaser<A, K>,
        single: Option<Single>,
    ) -> Result<u64, SignalRefusal>
        requires at { self.old.at ≡ phaser_lock phaser.now }
        requires rule { MaySignal A.operation K.allows (phaser_terms phaser.now) self.old single }

        ensures call { let old = self.old in
            IsCall K.allows (phaser_terms phaser.now) SignalRefusal.NoTask entry_after_signal
            (Signals A.operation (phaser_limits phaser.now) old.number old.held single old.seen
            self.new.seen result) old self.new result }
        ensures waited { result ≢ Err SignalRefusal.Ahead }
        ensures received { received_of A.operation self.new ≡ received_of A.operation self.old }
        ensures none_held { OnOk result
            (StandsForSends A.operation self.new.held [] × (self.new.held.count ≡ 0)) }
        ensures held { OnErr result (self.new.held ≡ self.old.held) }
    {
        phase_shared::laws::signals::<A>();
        self.reg.signal(rt, phaser, single)
    }

    /// Waits for its phase, and keeps the value that it got, or learns that no more will come. It
    /// waits until the phase is complete, or no signaller is registered. It may take memory.
    pub fn wait<W: Wait>(
        &mut self,
        rt: &W,
        phaser: &Phaser<A, K>,
    ) -> Result<Got, ReceiveFault<WaitRefusal>>
        requires at { self.old.at ≡ phaser_lock phaser.now }

        ensures call { let old = self.old in
            IsCall K.allows (phaser_terms phaser.now) (ReceiveFault.Refused WaitRefusal.NoTask)
            entry_after_wait (Receives (self.new ≡ old) (Waits A.operation.value
            (phaser_limits phaser.now) old.number old.seen self.new.seen) result) old self.new
            result }
        ensures waited { result ≢ Err (ReceiveFault.Refused WaitRefusal.NotYet) }
        ensures got { IfOk result (λ got. received_of A.operation self.new
            ≡ with_got (received_of A.operation self.old) got) }
        ensures ended { IfOk result (λ got. got ≡ Got.Ended
            → HasSeenEnd self.new.seen self.new.number) }
        ensures held { self.new.held ≡ self.old.held }
    {
        phase_shared::laws::waits();
        if self.values.reserve(1).is_err() {
            self.reg.look();
            return Err(ReceiveFault::OutOfMemory);
        }
        let got = match self.reg.wait(rt, phaser) {
            Ok(got) => got,
            Err(refusal) => return Err(ReceiveFault::Refused(refusal)),
        };
        put(&mut self.values, got);
        Ok(got)
    }

    /// Signals where its mode signals, as `signal` does, and then waits where its mode waits, as
    /// `wait` does. It may take memory.
    ///
    /// It is refused as `signal` is, and then signalled nothing. In the mode `Wait` it is refused
    /// where a single is named, as `NotSingle`.
    pub fn next<W: Wait>(
        &mut self,
        rt: &W,
        phaser: &Phaser<A, K>,
        single: Option<Single>,
    ) -> Result<Next, ReceiveFault<SignalRefusal>>
        requires at { self.old.at ≡ phaser_lock phaser.now }
        requires rule { mode_signals self.old.entry.mode ≡ true
            → MaySignal A.operation K.allows (phaser_terms phaser.now) self.old single }

        ensures call { let old = self.old in
            IsCall K.allows (phaser_terms phaser.now) (ReceiveFault.Refused SignalRefusal.NoTask)
            entry_after_next (Receives (self.new ≡ old) (GoesOrRefuses A.operation
            (phaser_limits phaser.now) single old self.new.seen) result) old self.new result }
        ensures waited { result ≢ Err (ReceiveFault.Refused SignalRefusal.Ahead) }
        ensures got { IfOk result (λ next. received_of A.operation self.new
            ≡ with_any (received_of A.operation self.old) next.got) }
        ensures ended { IfOk result (λ next. next.got ≡ Some Got.Ended
            → HasSeenEnd self.new.seen self.new.number) }
        // A registration that does not signal keeps what it holds.
        ensures held { HeldAfter A.operation (is_ok result && mode_signals self.old.entry.mode)
            self.old.held self.new.held }
    {
        phase_shared::laws::goes_next::<A, K>();
        if self.values.reserve(1).is_err() {
            self.reg.look();
            return Err(ReceiveFault::OutOfMemory);
        }
        let next = match self.reg.next(rt, phaser, single) {
            Ok(next) => next,
            Err(refusal) => return Err(ReceiveFault::Refused(refusal)),
        };
        if let Some(got) = next.got {
            put(&mut self.values, got);
        }
        Ok(next)
    }

    /// Registers a child of a plain registration, as `Reg::register` does: the child has received
    /// nothing.
    pub fn child_of<W: Wait>(
        rt: &W,
        alloc: Global,
        phaser: &Phaser<A, K>,
        parent: &mut Reg<A, K>,
        mode: Mode,
    ) -> Result<Receiver<A, K>, RegisterRefusal>
        requires at { parent.old.at ≡ phaser_lock phaser.now }

        ensures call { let old = parent.old in
            IsCall K.allows (phaser_terms phaser.now) RegisterRefusal.NoTask entry_stays
            (Registers A.operation mode old parent.new result) old parent.new result }
        ensures child { IfOk result (λ child. received_of A.operation child ≡ []) }
        ensures held { parent.new.held ≡ parent.old.held }
    {
        phase_shared::laws::registers();
        let reg = match parent.register(rt, phaser, mode) {
            Ok(reg) => reg,
            Err(refusal) => return Err(refusal),
        };
        Ok(Receiver {
            reg,
            values: Vec::new(alloc),
        })
    }

    /// Registers a child in a mode that its own mode holds, at both of its phases. The child has
    /// seen what its parent has, holds no sends, and has received nothing. It may take memory, and
    /// waits for its turn.
    pub fn register<W: Wait>(
        &mut self,
        rt: &W,
        alloc: Global,
        phaser: &Phaser<A, K>,
        mode: Mode,
    ) -> Result<Receiver<A, K>, RegisterRefusal>
        requires at { self.old.at ≡ phaser_lock phaser.now }

        ensures call { let old = self.old in
            IsCall K.allows (phaser_terms phaser.now) RegisterRefusal.NoTask entry_stays
            (Registers A.operation mode old self.new result) old self.new result }
        ensures child { IfOk result (λ child. received_of A.operation child ≡ []) }
        ensures received { received_of A.operation self.new ≡ received_of A.operation self.old }
        ensures held { self.new.held ≡ self.old.held }
    {
        phase_shared::laws::registers();
        Receiver::child_of(rt, alloc, phaser, &mut self.reg, mode)
    }

    /// Ends the registration: the sends that it holds are in no phase. It waits for its turn, and
    /// takes no memory.
    ///
    /// Who has seen the end of the stream has received exactly the stream from its start on.
    pub fn leave<W: Wait>(self, rt: &W, alloc: Global, phaser: &Phaser<A, K>) -> Receipts<A, K>
        requires at { self.at ≡ phaser_lock phaser.now }

        ensures call { Leaves self.number self.seen result.seen }
        ensures received { received_of A.operation self
            ≡ received_by A.operation.value result.seen self.number }
        ensures past { IsPastOf self result }
        ensures good { IsGoodAt K.allows (phaser_terms phaser.now) result.seen }
        ensures whole { HasSeenEnd self.seen self.number
            → HasWhole A.operation.value result.seen self.number }
    {
        laws::whole();
        phase_shared::laws::leaves();
        let Receiver { reg, values } = self;
        let _mode = reg.mode();
        let past = reg.leave(rt, phaser);
        Receipts::of(alloc, past, values)
    }
}
