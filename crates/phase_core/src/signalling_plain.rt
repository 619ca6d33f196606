//! Signals of a phaser that keeps values alone.
ghost use Rattle.std.specs.Prelude.{◌≡◌, ℕ, ◌∷◌, None, Some, Ok, Err, true, ◌<◌, ◌≤◌, IfSome, OnErr, length};
ghost use Rattle.phase_accum.specs.Sends.{AreSends};
ghost use Rattle.phase_history.specs.Histories.{History};
ghost use Rattle.phase_history.specs.Replies.{signal_reply, after_signal};
ghost use Rattle.phase_history.specs.declared.event.Event.TheVariants.{Signalled};
ghost use Rattle.phase_accum.specs.declared.single.Single.{Single};
ghost use Rattle.phase_base.specs.Members.{entry_of, signal_phases, wait_phases};
ghost use Rattle.phase_base.specs.Modes.{mode_signals};
ghost use Rattle.phase_core.specs.Blocks.{one_each};
ghost use Rattle.phase_core.specs.Cores.{StandsFor};

use crate::one_sends::hold_each;
use crate::phaser_core::PhaserCore;
use phase_accum::{Accumulate, Pending, Single};
use phase_base::Entry;
use phase_history::SignalRefusal;
use phase_registry::Registry;
use phase_ring::Board;

/// So many waiters at most: a wait for values looks at each of them.
const WAITERS_MAX: u64 = 16;

/// Whether one task alone signals, its next signal joins this phase, and it is the first phase that
/// is kept. Then no signal has joined any phase that is kept.
fn is_bare<A: Accumulate>(registry: &Registry, board: &Board<A>, phase: u64) -> bool
    ensures signaller { result ≡ true → length (signal_phases registry.now.members) ≡ 1 }
    ensures waiter { result ≡ true → 0 < length (wait_phases registry.now.members) }
    ensures top { result ≡ true → board.now.top ≡ phase }
    ensures base { result ≡ true → board.now.ring.base ≡ phase }
{
    let waiters = registry.waiters();
    if registry.signallers() != 1 || waiters == 0 || waiters > WAITERS_MAX {
        return false;
    }
    board.top == phase && board.ring.base() == phase
}

impl<A: Accumulate> PhaserCore<A> {
    // Keeps the values alone from now on, where no phase is kept and the task with this entry is
    // the only one that signals.
    fn enter_plain(&mut self, entry: Entry)
        requires member { (task : ℕ) × (entry_of self.old.members task ≡ Some entry) }
        requires signals { mode_signals entry.mode ≡ true }
        ensures { self.new ≡ self.old }
    {
        if self.store.is_plain {
            return;
        }
        let phase = entry.signal_phase;
        if !is_bare(&self.registry, &self.store.board, phase) {
            return;
        }
        let bound = self.store.board.limits.bound();
        if self.store.values.queue.capacity() as u64 != bound {
            return;
        }
        self.store.values.base = phase;
        self.store.values.queue.clear();
        self.store.is_plain = true;
    }

    // Signals as many phases in a row as there are values, with one send each and no single, where
    // the values are kept alone and none is refused. Else it does nothing.
    fn signal_plain(&mut self, task: u64, values: &[i64]) -> Option<u64>
        requires { AreSends values.now }
        ensures ok { IfSome result (λ phase. (h : History) → StandsFor A.operation self.old h
            → signal_reply self.old.limits h task (one_each values.now) None ≡ Ok phase) }
        ensures after { IfSome result (λ phase. (h : History) → StandsFor A.operation self.old h
            → StandsFor A.operation self.new (Signalled task (one_each values.now) None ∷ h)) }
        ensures none { result ≡ None → self.new ≡ self.old }
        ensures limits { self.new.limits ≡ self.old.limits }
    {
        if !self.store.is_plain || values.is_empty() {
            return None;
        }
        let entry = self.registry.get(task)?;
        if !entry.mode.signals() || entry.mode.waits() {
            return None;
        }
        let room = self.store.values.queue.capacity() - self.store.values.queue.len();
        if values.len() > room {
            return None;
        }
        let phases = values.len() as u64;
        let end = entry.signal_phase + phases;
        if end > self.store.board.limits.phases_max() {
            return None;
        }
        let _ = self.store.values.queue.fill_from_slice(values);
        self.store.board.done = end;
        self.store.board.top = end;
        self.registry.signalled(task, phases);
        Some(entry.signal_phase)
    }

    // Keeps the values alone from now on, where no phase is kept and the task is the only one that
    // signals, and does not wait. Setting the slots anew costs as much as the bound, so it is done
    // at most once in so many phases.
    fn enter_for(&mut self, task: u64)
        ensures { self.new ≡ self.old }
    {
        if self.store.is_plain {
            return;
        }
        let Some(entry) = self.view(task) else {
            return;
        };
        let signals_alone = entry.mode.signals() && !entry.mode.waits();
        if signals_alone && entry.signal_phase >= self.store.values.again {
            self.enter_plain(entry);
        }
    }

    // The same as `signal_plain`, where the phaser keeps the values alone from now on if it can.
    fn signal_alone(&mut self, task: u64, values: &[i64]) -> Option<u64>
        requires { AreSends values.now }
        ensures ok { IfSome result (λ phase. (h : History) → StandsFor A.operation self.old h
            → signal_reply self.old.limits h task (one_each values.now) None ≡ Ok phase) }
        ensures after { IfSome result (λ phase. (h : History) → StandsFor A.operation self.old h
            → StandsFor A.operation self.new (Signalled task (one_each values.now) None ∷ h)) }
        ensures none { result ≡ None → self.new ≡ self.old }
        ensures limits { self.new.limits ≡ self.old.limits }
    {
        self.enter_for(task);
        self.signal_plain(task, values)
    }

    // Why the same signal is refused that `signal_plain` did not do, where the values are kept
    // alone and its phases refuse it: the first of them that is past the last, or too far ahead.
    fn refusal_plain(&self, task: u64, values: &[i64]) -> Option<SignalRefusal>
        ensures { IfSome result (λ refusal. (h : History) → StandsFor A.operation self.now h
            → signal_reply self.now.limits h task (one_each values.now) None ≡ Err refusal) }
    {
        let limits = self.store.board.limits;
        let phases = values.len() as u64;
        if !self.store.is_plain || phases == 0 || phases > limits.bound() {
            return None;
        }
        let entry = self.registry.get(task)?;
        if !entry.mode.signals() || entry.mode.waits() {
            return None;
        }
        let near = self.store.values.base + limits.bound();
        let last = limits.phases_max();
        if entry.signal_phase + phases <= near.min(last) {
            return None;
        }
        if last <= near {
            Some(SignalRefusal::Spent)
        } else {
            Some(SignalRefusal::Ahead)
        }
    }

    /// Signals as many phases in a row as there are values, the first the task's, with one send
    /// each and a single for all of them or none, and answers the first phase. A refused block
    /// signals nothing. It takes no memory: the sends are held in the places where needed.
    pub fn signal_values(
        &mut self,
        task: u64,
        values: &[i64],
        single: Option<Single>,
        places: &mut [Pending<A>],
    ) -> Result<u64, SignalRefusal>
        requires sends { AreSends values.now }
        requires room { length values.now ≤ length places.old }
        ensures reply { (h : History) → StandsFor A.operation self.old h
            → signal_reply self.old.limits h task (one_each values.now) single ≡ result }
        ensures after { (h : History) → StandsFor A.operation self.old h
            → StandsFor A.operation self.new
            (after_signal result task (one_each values.now) single h) }

        ensures limits { self.new.limits ≡ self.old.limits }
        ensures err { OnErr result (self.new ≡ self.old) }
        ensures places { length places.new ≡ length places.old }
    {
        if single.is_none() {
            if let Some(phase) = self.signal_alone(task, values) {
                return Ok(phase);
            }
            if let Some(refusal) = self.refusal_plain(task, values) {
                return Err(refusal);
            }
        }
        hold_each(places, values);
        self.signal_lists(task, &places[..values.len()], single)
    }
}
