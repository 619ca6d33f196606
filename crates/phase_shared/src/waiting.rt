//! The calls of a registration that may wait.
ghost use Rattle.std.specs.Prelude.{◌≡◌, ◌≢◌, [], ◌∷◌, Err, OnOk, OnErr};
ghost use Rattle.std.specs.Result.{result_ok};
ghost use Rattle.phase_accum.specs.Parcels.{StandsForSends};
ghost use Rattle.phase_shared.specs.Rule.{IsGoodAt};
ghost use Rattle.phase_shared.specs.Regs.{phaser_lock, phaser_terms, phaser_limits};
ghost use Rattle.phase_shared.specs.Calls.{IsCall, Signals, Waits, Registers, MaySignal, Leaves};
ghost use Rattle.phase_shared.specs.Closings.{unclosed};
ghost use Rattle.phase_shared.specs.Entries.{entry_stays, entry_after_signal, entry_after_wait, entry_after_both};
ghost use Rattle.phase_shared.specs.Nexts.{SignalsAndMayWait};

use crate::past::Past;
use crate::patience::Patience;
use crate::phaser::Phaser;
use crate::reg::Reg;
use crate::rule::SignalRule;
use crate::stopped::{self, Stopped};
use crate::tried::Tried;
use crate::until::Until;
use phase_accum::{Accumulate, Single};
use phase_base::Mode;
use phase_core::{Got, RegisterRefusal, SignalRefusal, WaitRefusal};
use std::sync::Wait;

impl<A: Accumulate, K: SignalRule> Reg<A, K> {
    /// Signals its phase, with the sends that it holds and a single or none, and answers that
    /// phase. It waits while it is ahead of the slowest waiter. A refused signal leaves the sends
    /// held. It takes no memory.
    pub fn signal<W: Wait>(
        &mut self,
        rt: &W,
        phaser: &Phaser<A, K>,
        single: Option<Single>,
    ) -> Result<u64, SignalRefusal>
        requires at { self.old.at ≡ phaser_lock phaser.now }
        requires rule { MaySignal A.operation K.allows (phaser_terms phaser.now) self.old single }

        ensures call { let old = self.old in
            IsCall K.allows (phaser_terms phaser.now) SignalRefusal.NoTask entry_after_signal
            (Signals A.operation (phaser_limits phaser.now) old.number old.held single old.seen
            self.new.seen result) old self.new result }
        ensures waited { result ≢ Err SignalRefusal.Ahead }
        ensures none_held { OnOk result
            (StandsForSends A.operation self.new.held [] × (self.new.held.count ≡ 0)) }
        ensures held { OnErr result (self.new.held ≡ self.old.held) }
    {
        match self.signal_and_wait(rt, phaser, single, false) {
            Ok(answer) => Ok(answer.0),
            Err(refusal) => Err(refusal),
        }
    }

    // Signals, as `signal` does, and then waits where that is asked for and answers at once: both
    // under one turn.
    pub(crate) fn signal_and_wait<W: Wait>(
        &mut self,
        rt: &W,
        phaser: &Phaser<A, K>,
        single: Option<Single>,
        waits: bool,
    ) -> Result<(u64, Option<Got>), SignalRefusal>
        requires at { self.old.at ≡ phaser_lock phaser.now }
        requires rule { MaySignal A.operation K.allows (phaser_terms phaser.now) self.old single }

        ensures call { let old = self.old in
            IsCall K.allows (phaser_terms phaser.now) SignalRefusal.NoTask entry_after_both
            (SignalsAndMayWait waits A.operation (phaser_limits phaser.now) old.number old.held
            single old.seen self.new.seen result) old self.new result }
        ensures waited { result ≢ Err SignalRefusal.Ahead }
        ensures none_held { OnOk result
            (StandsForSends A.operation self.new.held [] × (self.new.held.count ≡ 0)) }
        ensures held { OnErr result (self.new.held ≡ self.old.held) }
    {
        stopped::answered(self.signal_until(rt, phaser, single, waits, Until::Answered))
    }

    // The same, where it waits until then.
    pub(crate) fn signal_until<W: Wait>(
        &mut self,
        rt: &W,
        phaser: &Phaser<A, K>,
        single: Option<Single>,
        waits: bool,
        until: Until,
    ) -> Result<(u64, Option<Got>), Stopped<SignalRefusal>>
        requires at { self.old.at ≡ phaser_lock phaser.now }
        requires rule { MaySignal A.operation K.allows (phaser_terms phaser.now) self.old single }

        ensures call { let old = self.old in
            let answer = unclosed SignalRefusal.Ahead result in
            IsCall K.allows (phaser_terms phaser.now) SignalRefusal.NoTask entry_after_both
            (SignalsAndMayWait waits A.operation (phaser_limits phaser.now) old.number old.held
            single old.seen self.new.seen answer) old self.new answer }
        ensures waited { result ≢ Err (Stopped.Refused SignalRefusal.Ahead) }
        ensures closed { until ≡ Until.Answered → result ≢ Err Stopped.Closed }
        ensures none_held { OnOk result
            (StandsForSends A.operation self.new.held [] × (self.new.held.count ≡ 0)) }
        ensures held { OnErr result (self.new.held ≡ self.old.held) }
    {
        let patience = Patience::new();
        let named = &single;
        for _ in rt.forever() {
            let is_past = until.is_past(phaser);
            let tried = match self.try_signal_and_wait(phaser, *named, waits) {
                Ok(answer) => return Ok(answer),
                Err(tried) => tried,
            };
            if let Some(stopped) = stopped::ends_signal(tried, is_past) {
                return Err(stopped);
            }
            self.pause_for_room(rt, phaser, 1, &patience, tried);
        }
        unreachable!()
    }

    // Pauses after a signal of so many phases whose turn was another's, or which was ahead.
    pub(crate) fn pause_for_room<W: Wait>(
        &self,
        rt: &W,
        phaser: &Phaser<A, K>,
        phases: u64,
        patience: &Patience,
        tried: Tried<SignalRefusal>,
    ) {
        if let Tried::Refused(_) = tried {
            let phase = self.entry.signal_phase;
            phaser
                .locked
                .pause_for_room(rt, phase, phases, patience.is_first());
        }
        patience.snooze_if_busy(rt, &tried);
    }

    /// Waits for its phase, and answers it with its value, or that no more will come. It waits
    /// until the phase is complete, or no signaller is registered. It takes no memory.
    pub fn wait<W: Wait>(&mut self, rt: &W, phaser: &Phaser<A, K>) -> Result<Got, WaitRefusal>
        requires at { self.old.at ≡ phaser_lock phaser.now }

        ensures call { let old = self.old in
            IsCall K.allows (phaser_terms phaser.now) WaitRefusal.NoTask entry_after_wait
            (Waits A.operation.value (phaser_limits phaser.now) old.number old.seen self.new.seen
            result) old self.new result }
        ensures waited { result ≢ Err WaitRefusal.NotYet }
        ensures held { self.new.held ≡ self.old.held }
    {
        stopped::answered(self.wait_until(rt, phaser, Until::Answered))
    }

    // The same, where it waits until then.
    pub(crate) fn wait_until<W: Wait>(
        &mut self,
        rt: &W,
        phaser: &Phaser<A, K>,
        until: Until,
    ) -> Result<Got, Stopped<WaitRefusal>>
        requires at { self.old.at ≡ phaser_lock phaser.now }

        ensures call { let old = self.old in
            let answer = unclosed WaitRefusal.NotYet result in
            IsCall K.allows (phaser_terms phaser.now) WaitRefusal.NoTask entry_after_wait
            (Waits A.operation.value (phaser_limits phaser.now) old.number old.seen self.new.seen
            answer) old self.new answer }
        ensures waited { result ≢ Err (Stopped.Refused WaitRefusal.NotYet) }
        ensures closed { until ≡ Until.Answered → result ≢ Err Stopped.Closed }
        ensures held { self.new.held ≡ self.old.held }
    {
        let patience = Patience::new();
        for _ in rt.forever() {
            let is_past = until.is_past(phaser);
            if !is_past {
                self.pause_for_phase(rt, phaser, 1);
            }
            let tried = match self.try_wait(phaser) {
                Ok(got) => return Ok(got),
                Err(tried) => tried,
            };
            if let Some(stopped) = stopped::ends_wait(tried, is_past) {
                return Err(stopped);
            }
            patience.snooze_if_busy(rt, &tried);
        }
        unreachable!()
    }

    // Pauses while the phase of its next wait is not complete. A wait that will be refused, by its
    // mode, before its signal, or as a bad block of so many phases, does not pause.
    pub(crate) fn pause_for_phase<W: Wait>(&self, rt: &W, phaser: &Phaser<A, K>, phases: u64) {
        let entry = self.entry;
        let signals_first = entry.mode.signals() && entry.signal_phase == entry.wait_phase;
        if entry.mode.waits() && !signals_first {
            phaser.locked.pause_for_phase(rt, entry.wait_phase, phases);
        }
    }

    /// Registers a child in a mode that its own mode holds, at both of its phases. The child has
    /// seen what its parent has, and holds no sends. It may take memory, and waits for its turn.
    ///
    /// A registration that was refused as `OutOfMemory` can be made again.
    pub fn register<W: Wait>(
        &mut self,
        rt: &W,
        phaser: &Phaser<A, K>,
        mode: Mode,
    ) -> Result<Reg<A, K>, RegisterRefusal>
        requires at { self.old.at ≡ phaser_lock phaser.now }

        ensures call { let old = self.old in
            IsCall K.allows (phaser_terms phaser.now) RegisterRefusal.NoTask entry_stays
            (Registers A.operation mode old self.new result) old self.new result }
        ensures held { self.new.held ≡ self.old.held }
    {
        let patience = Patience::new();
        for _ in rt.forever() {
            let tried = match self.try_register(phaser, mode) {
                Ok(child) => return Ok(child),
                Err(tried) => tried,
            };
            if let Tried::Refused(refusal) = tried {
                return Err(refusal);
            }
            patience.snooze(rt);
        }
        unreachable!()
    }

    /// Ends the registration: the sends that it holds are in no phase. It waits for its turn, and
    /// takes no memory.
    pub fn leave<W: Wait>(self, rt: &W, phaser: &Phaser<A, K>) -> Past<A, K>
        requires at { self.at ≡ phaser_lock phaser.now }

        ensures call { Leaves self.number self.seen result.seen }
        ensures numbers { result.numbers ≡ self.number ∷ [] }
        ensures at { result.at ≡ self.at }
        ensures good { IsGoodAt K.allows (phaser_terms phaser.now) result.seen }
    {
        let patience = Patience::new();
        let mut reg = self;
        for _ in rt.forever() {
            match reg.try_leave(phaser) {
                Ok(past) => return past,
                Err(back) => reg = back,
            }
            patience.snooze(rt);
        }
        unreachable!()
    }
}
