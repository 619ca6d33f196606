//! Signals on a phaser, of one phase and of phases in a row.
ghost use Rattle.std.specs.Prelude.{◌≡◌, ℕ, ℤ, List, [], ◌∷◌, OnErr, IfOk, IfErr, Ok, Err};
ghost use Rattle.phase_accum.specs.Parcels.{StandsForSends};
ghost use Rattle.phase_accum.specs.Singles.{CanBeNamed};
ghost use Rattle.phase_history.specs.Histories.{History};
ghost use Rattle.phase_history.specs.Replies.{signal_reply, after_signal};
ghost use Rattle.phase_core.specs.Cores.{StandsFor};
ghost use Rattle.phase_core.specs.Blocks.{StandForLists};

use crate::list_refusals::{list_refusal, lists_refusal};
use crate::phaser_core::PhaserCore;
use crate::refusal_rows;
use crate::slots::use_slots;
use phase_accum::{Accumulate, Pending, Single};
use phase_history::SignalRefusal;

/// Reads a clamp's range, which says that its ends are one. It does nothing.
pub(crate) fn check_single(single: &Option<Single>)
    ensures { CanBeNamed single.now }
{
    if let Some(Single::Clamp(range)) = single {
        let _low = range.low();
    }
}

impl<A: Accumulate> PhaserCore<A> {
    /// Signals the task's phase, with the sends that it held and a single or none, and answers that
    /// phase. A refused signal hands the sends back. It takes no memory.
    pub fn signal(
        &mut self,
        task: u64,
        pending: Pending<A>,
        single: Option<Single>,
    ) -> Result<u64, (SignalRefusal, Pending<A>)>
        ensures ok { IfOk result (λ phase. (h : History) (sends : List ℤ)
            → StandsFor A.operation self.old h → StandsForSends A.operation pending sends
            → signal_reply self.old.limits h task (sends ∷ []) single ≡ Ok phase) }
        ensures refused { IfErr result (λ e. (h : History) (sends : List ℤ)
            → StandsFor A.operation self.old h → StandsForSends A.operation pending sends
            → signal_reply self.old.limits h task (sends ∷ []) single ≡ Err e.0) }
        ensures after { (h : History) (sends : List ℤ)
            → StandsFor A.operation self.old h → StandsForSends A.operation pending sends
            → StandsFor A.operation self.new (after_signal result task (sends ∷ []) single h) }

        ensures limits { self.new.limits ≡ self.old.limits }
        ensures err { OnErr result (self.new ≡ self.old) }
        ensures pending { IfErr result (λ e. e.1 ≡ pending) }
    {
        use_slots(&mut self.store, &self.registry);
        let Some(entry) = self.registry.get(task) else {
            return Err((SignalRefusal::NoTask, pending));
        };
        let limits = self.store.board.limits;
        if let Some(refusal) = refusal_rows::block_refusal(limits, 1, &single, entry) {
            return Err((refusal, pending));
        }
        let slowest = self.least_wait();
        if let Some(refusal) = list_refusal(&self.store.board, slowest, entry, &pending, &single) {
            return Err((refusal, pending));
        }
        check_single(&single);
        let _part = pending.part();
        let phase = entry.signal_phase;
        if self.registry.waiters() == 0 {
            self.store.board.raise_top(phase + 1);
            self.registry.signalled(task, 1);
            return Ok(phase);
        }
        self.store.board.signal(phase, &pending, &single);
        self.registry.signalled(task, 1);
        Ok(phase)
    }

    /// Signals as many phases in a row as there are lists of sends, the first the task's, a list
    /// each, with a single for all of them or none, and answers the first phase. A refused block
    /// signals nothing, and hands all its sends back in their order. It takes no memory.
    pub fn signal_block(
        &mut self,
        task: u64,
        lists: Vec<Pending<A>>,
        single: Option<Single>,
    ) -> Result<u64, (SignalRefusal, Vec<Pending<A>>)>
        ensures ok { IfOk result (λ phase. (h : History) (sends : List (List ℤ))
            → StandsFor A.operation self.old h → StandForLists A.operation lists.items sends
            → signal_reply self.old.limits h task sends single ≡ Ok phase) }
        ensures refused { IfErr result (λ e. (h : History) (sends : List (List ℤ))
            → StandsFor A.operation self.old h → StandForLists A.operation lists.items sends
            → signal_reply self.old.limits h task sends single ≡ Err e.0) }
        ensures after { (h : History) (sends : List (List ℤ))
            → StandsFor A.operation self.old h → StandForLists A.operation lists.items sends
            → StandsFor A.operation self.new (after_signal result task sends single h) }

        ensures limits { self.new.limits ≡ self.old.limits }
        ensures err { OnErr result (self.new ≡ self.old) }
        ensures lists { IfErr result (λ e. e.1 ≡ lists) }
    {
        match self.signal_lists(task, &lists, single) {
            Ok(phase) => Ok(phase),
            Err(refusal) => Err((refusal, lists)),
        }
    }

    /// The same as `signal_block`, where the sends are lent.
    pub fn signal_lists(
        &mut self,
        task: u64,
        lists: &[Pending<A>],
        single: Option<Single>,
    ) -> Result<u64, SignalRefusal>
        ensures ok { IfOk result (λ phase. (h : History) (sends : List (List ℤ))
            → StandsFor A.operation self.old h → StandForLists A.operation lists.now sends
            → signal_reply self.old.limits h task sends single ≡ Ok phase) }
        ensures refused { IfErr result (λ e. (h : History) (sends : List (List ℤ))
            → StandsFor A.operation self.old h → StandForLists A.operation lists.now sends
            → signal_reply self.old.limits h task sends single ≡ Err e) }
        ensures after { (h : History) (sends : List (List ℤ))
            → StandsFor A.operation self.old h → StandForLists A.operation lists.now sends
            → StandsFor A.operation self.new (after_signal result task sends single h) }

        ensures limits { self.new.limits ≡ self.old.limits }
        ensures err { OnErr result (self.new ≡ self.old) }
    {
        use_slots(&mut self.store, &self.registry);
        let Some(entry) = self.registry.get(task) else {
            return Err(SignalRefusal::NoTask);
        };
        let phases = lists.len() as u64;
        let limits = self.store.board.limits;
        if let Some(refusal) = refusal_rows::block_refusal(limits, phases, &single, entry) {
            return Err(refusal);
        }
        let slowest = self.least_wait();
        let refusal = lists_refusal(&self.store.board, slowest, entry, lists, &single);
        if let Some(refusal) = refusal {
            return Err(refusal);
        }
        check_single(&single);
        let phase = entry.signal_phase;
        if self.registry.waiters() == 0 {
            self.store.board.raise_top(phase + phases);
            self.registry.signalled(task, phases);
            return Ok(phase);
        }
        self.store.board.signal_block(phase, lists, &single);
        self.registry.signalled(task, phases);
        Ok(phase)
    }
}
