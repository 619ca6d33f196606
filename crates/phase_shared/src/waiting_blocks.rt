//! The calls of a registration on blocks of phases, and on a waiter that joins now, that may wait.
ghost use Rattle.std.specs.Prelude.{◌≡◌, ◌≢◌, Err, IfErr, length};
ghost use Rattle.phase_shared.specs.Regs.{phaser_lock, phaser_terms, phaser_limits};
ghost use Rattle.phase_shared.specs.Calls.{IsCall};
ghost use Rattle.phase_shared.specs.Entries.{entry_stays};
ghost use Rattle.phase_shared.specs.Blocks.{SignalsBlock, WaitsBlock, MaySignalBlock, entry_after_block, entry_after_values, without_lists};
ghost use Rattle.phase_shared.specs.Closings.{unclosed};
ghost use Rattle.phase_shared.specs.Joins.{RegistersNow};

use crate::patience::Patience;
use crate::phaser::Phaser;
use crate::reg::Reg;
use crate::rule::SignalRule;
use crate::stopped::{self, Stopped};
use crate::tried::Tried;
use crate::until::Until;
use phase_accum::{Accumulate, Outcome, Pending, Single};
use phase_core::{GotBlock, RegisterRefusal, SignalRefusal, WaitRefusal};
use std::sync::Wait;

impl<A: Accumulate, K: SignalRule> Reg<A, K> {
    /// Signals as many phases in a row as there are lists of sends, the first its own, a list each,
    /// with a single for all of them or none, and answers the first phase. It waits while a phase
    /// of the block is ahead of the slowest waiter. A refused block signals nothing, and hands all
    /// its sends back in their order. It takes no memory.
    ///
    /// Nothing may be held. A block as long as the bound waits until every phase before it was got.
    pub fn signal_block<W: Wait>(
        &mut self,
        rt: &W,
        phaser: &Phaser<A, K>,
        lists: Vec<Pending<A>>,
        single: Option<Single>,
    ) -> Result<u64, (SignalRefusal, Vec<Pending<A>>)>
        requires at { self.old.at ≡ phaser_lock phaser.now }
        requires none_held { self.old.held.count ≡ 0 }
        requires rule { MaySignalBlock A.operation K.allows (phaser_terms phaser.now) self.old
            lists.items single }

        ensures call { let old = self.old in
            IsCall K.allows (phaser_terms phaser.now) SignalRefusal.NoTask
            (entry_after_block (length lists.items)) (SignalsBlock A.operation
            (phaser_limits phaser.now) old.number lists.items single old.seen self.new.seen
            (without_lists result)) old self.new (without_lists result) }
        ensures waited { without_lists result ≢ Err SignalRefusal.Ahead }
        ensures held { self.new.held ≡ self.old.held }
        ensures lists { IfErr result (λ refused. refused.1 ≡ lists) }
    {
        match self.signal_lists(rt, phaser, &lists, single) {
            Ok(phase) => Ok(phase),
            Err(refusal) => Err((refusal, lists)),
        }
    }

    /// The same as `signal_block`, where the sends are lent.
    pub fn signal_lists<W: Wait>(
        &mut self,
        rt: &W,
        phaser: &Phaser<A, K>,
        lists: &[Pending<A>],
        single: Option<Single>,
    ) -> Result<u64, SignalRefusal>
        requires at { self.old.at ≡ phaser_lock phaser.now }
        requires none_held { self.old.held.count ≡ 0 }
        requires rule { MaySignalBlock A.operation K.allows (phaser_terms phaser.now) self.old
            lists.now single }

        ensures call { let old = self.old in
            IsCall K.allows (phaser_terms phaser.now) SignalRefusal.NoTask
            (entry_after_block (length lists.now)) (SignalsBlock A.operation
            (phaser_limits phaser.now) old.number lists.now single old.seen self.new.seen result)
            old self.new result }
        ensures waited { result ≢ Err SignalRefusal.Ahead }
        ensures held { self.new.held ≡ self.old.held }
    {
        stopped::answered(self.signal_lists_until(rt, phaser, lists, single, Until::Answered))
    }

    // The same, where it waits until then.
    pub(crate) fn signal_lists_until<W: Wait>(
        &mut self,
        rt: &W,
        phaser: &Phaser<A, K>,
        lists: &[Pending<A>],
        single: Option<Single>,
        until: Until,
    ) -> Result<u64, Stopped<SignalRefusal>>
        requires at { self.old.at ≡ phaser_lock phaser.now }
        requires none_held { self.old.held.count ≡ 0 }
        requires rule { MaySignalBlock A.operation K.allows (phaser_terms phaser.now) self.old
            lists.now single }

        ensures call { let old = self.old in
            let answer = unclosed SignalRefusal.Ahead result in
            IsCall K.allows (phaser_terms phaser.now) SignalRefusal.NoTask
            (entry_after_block (length lists.now)) (SignalsBlock A.operation
            (phaser_limits phaser.now) old.number lists.now single old.seen self.new.seen answer)
            old self.new answer }
        ensures waited { result ≢ Err (Stopped.Refused SignalRefusal.Ahead) }
        ensures closed { until ≡ Until.Answered → result ≢ Err Stopped.Closed }
        ensures held { self.new.held ≡ self.old.held }
    {
        let patience = Patience::new();
        let named = &single;
        for _ in rt.forever() {
            let is_past = until.is_past(phaser);
            let tried = match self.try_signal_lists(phaser, lists, *named) {
                Ok(phase) => return Ok(phase),
                Err(tried) => tried,
            };
            if let Some(stopped) = stopped::ends_signal(tried, is_past) {
                return Err(stopped);
            }
            self.pause_for_room(rt, phaser, lists.len() as u64, &patience, tried);
        }
        unreachable!()
    }

    /// Waits for its phase and those behind it that are complete, as many as there are places, and
    /// writes their values; or answers that no more will come. The places behind the values stay.
    /// It waits until its phase is complete, or no signaller is registered. It takes no memory.
    ///
    /// No places, or more than the bound, are refused as `BadBlock` at once.
    pub fn wait_block<W: Wait>(
        &mut self,
        rt: &W,
        phaser: &Phaser<A, K>,
        out: &mut [Outcome],
    ) -> Result<GotBlock, WaitRefusal>
        requires at { self.old.at ≡ phaser_lock phaser.now }

        ensures call { let old = self.old in
            IsCall K.allows (phaser_terms phaser.now) WaitRefusal.NoTask entry_after_values
            (WaitsBlock A.operation.value (phaser_limits phaser.now) old.number old.seen
            self.new.seen out.old out.new result) old self.new result }
        ensures waited { result ≢ Err WaitRefusal.NotYet }
        ensures held { self.new.held ≡ self.old.held }
    {
        stopped::answered(self.wait_block_until(rt, phaser, out, Until::Answered))
    }

    // The same, where it waits until then.
    pub(crate) fn wait_block_until<W: Wait>(
        &mut self,
        rt: &W,
        phaser: &Phaser<A, K>,
        out: &mut [Outcome],
        until: Until,
    ) -> Result<GotBlock, Stopped<WaitRefusal>>
        requires at { self.old.at ≡ phaser_lock phaser.now }

        ensures call { let old = self.old in
            let answer = unclosed WaitRefusal.NotYet result in
            IsCall K.allows (phaser_terms phaser.now) WaitRefusal.NoTask entry_after_values
            (WaitsBlock A.operation.value (phaser_limits phaser.now) old.number old.seen
            self.new.seen out.old out.new answer) old self.new answer }
        ensures waited { result ≢ Err (Stopped.Refused WaitRefusal.NotYet) }
        ensures closed { until ≡ Until.Answered → result ≢ Err Stopped.Closed }
        ensures held { self.new.held ≡ self.old.held }
    {
        let patience = Patience::new();
        for _ in rt.forever() {
            let is_past = until.is_past(phaser);
            if !is_past {
                self.pause_for_phase(rt, phaser, out.len() as u64);
            }
            let tried = match self.try_wait_block(phaser, out) {
                Ok(got) => return Ok(got),
                Err(tried) => tried,
            };
            if let Some(stopped) = stopped::ends_wait(tried, is_past) {
                return Err(stopped);
            }
            patience.snooze_if_busy(rt, &tried);
        }
        unreachable!()
    }

    /// Registers a child as a waiter at the first phase that is not complete. The child has seen
    /// what its parent has, and holds no sends. Its refusals are those of `register` in the mode
    /// `Wait`. It may take memory, and waits for its turn.
    pub fn register_now<W: Wait>(
        &mut self,
        rt: &W,
        phaser: &Phaser<A, K>,
    ) -> Result<Reg<A, K>, RegisterRefusal>
        requires at { self.old.at ≡ phaser_lock phaser.now }

        ensures call { let old = self.old in
            IsCall K.allows (phaser_terms phaser.now) RegisterRefusal.NoTask entry_stays
            (RegistersNow A.operation old self.new result) old self.new result }
        ensures held { self.new.held ≡ self.old.held }
    {
        let patience = Patience::new();
        for _ in rt.forever() {
            let tried = match self.try_register_now(phaser) {
                Ok(child) => return Ok(child),
                Err(tried) => tried,
            };
            if let Tried::Refused(refusal) = tried {
                return Err(refusal);
            }
            patience.snooze(rt);
        }
        unreachable!()
    }
}
