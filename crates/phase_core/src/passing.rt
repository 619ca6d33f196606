//! A signal and a wait in one.
ghost use Rattle.std.specs.Prelude.{◌≡◌, ◌≢◌, ℤ, List, [], ◌∷◌, OnErr, IfOk, IfErr, Ok, Err, None};
ghost use Rattle.phase_accum.specs.Parcels.{StandsForSends};
ghost use Rattle.phase_history.specs.declared.event.Event.TheVariants.{Signalled};
ghost use Rattle.phase_history.specs.Histories.{History};
ghost use Rattle.phase_history.specs.Replies.{signal_reply, wait_reply};
ghost use Rattle.phase_core.specs.Cores.{StandsFor};
ghost use Rattle.phase_core.specs.Passes.{after_both, PassedAt};

use crate::phaser_core::PhaserCore;
use crate::refusal_rows;
use crate::signalling::check_single;
use crate::slots::use_slots;
use phase_accum::{Accumulate, Outcome, Pending, Single};
use phase_history::{Got, SignalRefusal, WaitRefusal};

impl<A: Accumulate> PhaserCore<A> {
    // Signals and waits for the only task, where its signal and its wait both are for a phase that
    // no signal has joined and neither is refused. Else it does nothing. It touches no slot.
    fn pass(
        &mut self,
        task: u64,
        pending: &Pending<A>,
        single: &Option<Single>,
    ) -> Option<(u64, Outcome)>
        ensures passed { PassedAt A.operation self.old self.new task pending.now single.now result }
        ensures limits { self.new.limits ≡ self.old.limits }
        ensures none { result ≡ None → self.new ≡ self.old }
    {
        use_slots(&mut self.store, &self.registry);
        if self.registry.tasks() != 1 {
            return None;
        }
        let entry = self.registry.get(task)?;
        let phase = entry.signal_phase;
        if !entry.mode.waits() || entry.wait_phase != phase || self.store.board.top != phase {
            return None;
        }
        let limits = self.store.board.limits;
        if refusal_rows::block_refusal(limits, 1, single, entry).is_some() {
            return None;
        }
        if phase >= limits.phases_max() {
            return None;
        }
        check_single(single);
        let _part = pending.part();
        let outcome = self.store.board.pass(pending, single);
        self.registry.signalled(task, 1);
        self.registry.waited(task, 1);
        Some((phase, outcome))
    }

    /// Signals, as `signal` does, and then waits, as `wait` does: the answer is the phase that was
    /// signalled, and the wait's reply. Where the signal is refused, nothing is waited for. It
    /// takes no memory.
    ///
    /// It is one short step where the task is the only one.
    pub fn signal_and_wait(
        &mut self,
        task: u64,
        pending: Pending<A>,
        single: Option<Single>,
    ) -> Result<(u64, Result<Got, WaitRefusal>), (SignalRefusal, Pending<A>)>
        ensures signalled { IfOk result (λ answer. (h : History) (sends : List ℤ)
            → StandsFor A.operation self.old h → StandsForSends A.operation pending sends
            → signal_reply self.old.limits h task (sends ∷ []) single ≡ Ok answer.0) }
        ensures waited { IfOk result (λ answer. (h : History) (sends : List ℤ)
            → StandsFor A.operation self.old h → StandsForSends A.operation pending sends
            → let middle = Signalled task (sends ∷ []) single ∷ h in
            wait_reply A.operation.value self.old.limits middle task ≡ answer.1) }
        ensures refused { IfErr result (λ e. (h : History) (sends : List ℤ)
            → StandsFor A.operation self.old h → StandsForSends A.operation pending sends
            → signal_reply self.old.limits h task (sends ∷ []) single ≡ Err e.0) }
        ensures after { (h : History) (sends : List ℤ)
            → StandsFor A.operation self.old h → StandsForSends A.operation pending sends
            → StandsFor A.operation self.new (after_both result task (sends ∷ []) single h) }

        ensures limits { self.new.limits ≡ self.old.limits }
        ensures err { OnErr result (self.new ≡ self.old) }
        ensures pending { IfErr result (λ e. e.1 ≡ pending) }
    {
        if let Some((phase, outcome)) = self.pass(task, &pending, &single) {
            return Ok((phase, Ok(Got::Value { phase, outcome })));
        }
        match self.signal(task, pending, single) {
            Ok(phase) => Ok((phase, self.wait(task))),
            Err(refused) => Err(refused),
        }
    }
}
