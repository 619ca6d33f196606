//! Tasks that join a phaser and leave it.
ghost use Rattle.std.specs.Prelude.{◌≡◌, ◌≢◌, ◌↔◌, ◌∷◌, Some, None, Err, IsOk, IsSome, OnOk, OnErr, IfOk, IfErr};
ghost use Rattle.phase_base.specs.Members.{entry_of};
ghost use Rattle.phase_history.specs.declared.event.Event.TheVariants.{Registered, RegisteredNow, Dropped};
ghost use Rattle.phase_history.specs.Histories.{History, done_of};
ghost use Rattle.phase_history.specs.Refusals.{register_refusal, register_now_refusal};
ghost use Rattle.phase_core.specs.Cores.{StandsFor};
ghost use Rattle.phase_core.specs.Admission.{refusal_of_add};

use crate::phaser_core::PhaserCore;
use crate::slots::use_slots;
use phase_accum::Accumulate;
use phase_base::{Entry, Mode};
use phase_history::{NoTask, RegisterRefusal};
use phase_registry::AddRefusal;

/// The refusal of a registration whose child was not added.
fn register_refusal_of(refusal: AddRefusal) -> RegisterRefusal
    ensures { result ≡ refusal_of_add refusal }
{
    match refusal {
        AddRefusal::NotNew => RegisterRefusal::NotNew,
        AddRefusal::TooManyTasks => RegisterRefusal::TooManyTasks,
        AddRefusal::OutOfMemory => RegisterRefusal::OutOfMemory,
    }
}

impl<A: Accumulate> PhaserCore<A> {
    /// Registers the task `child`, in a mode that the mode of `parent` holds and at both phases of
    /// `parent`. The child's number is above every number that was ever used on the phaser.
    ///
    /// It may take memory, which it asks for last, so that a registration that was refused as
    /// `OutOfMemory` can be made again.
    pub fn register(&mut self, parent: u64, child: u64, mode: Mode) -> Result<(), RegisterRefusal>
        ensures ok { OnOk result ((h : History) → StandsFor A.operation self.old h
            → register_refusal h parent child mode ≡ None) }
        ensures refused { IfErr result (λ e. e ≢ RegisterRefusal.OutOfMemory
            → (h : History) → StandsFor A.operation self.old h
            → register_refusal h parent child mode ≡ Some e) }
        // Want of memory is answered last: only where the registration is accepted.
        ensures out_of_memory { IfErr result (λ e. e ≡ RegisterRefusal.OutOfMemory
            → (h : History) → StandsFor A.operation self.old h
            → register_refusal h parent child mode ≡ None) }
        ensures after { OnOk result ((h : History) → StandsFor A.operation self.old h
            → StandsFor A.operation self.new (Registered parent child mode ∷ h)) }

        ensures limits { self.new.limits ≡ self.old.limits }
        ensures err { OnErr result (self.new ≡ self.old) }
    {
        use_slots(&mut self.store, &self.registry);
        let Some(entry) = self.registry.get(parent) else {
            return Err(RegisterRefusal::NoTask);
        };
        if !entry.mode.holds(mode) {
            return Err(RegisterRefusal::NotAllowed);
        }
        let waiters = self.registry.waiters();
        let added = self
            .registry
            .add(child, mode, entry.signal_phase, entry.wait_phase);
        if let Err(refusal) = added {
            return Err(register_refusal_of(refusal));
        }
        if waiters == 0 {
            return Ok(());
        }
        self.store.board.register(Entry { mode, ..entry });
        Ok(())
    }

    /// Registers the task `child` as a waiter at the first phase that is not complete, and answers
    /// that phase. Its refusals are those of `register` for the mode `Wait`.
    ///
    /// It may take memory, which it asks for last.
    pub fn register_now(&mut self, parent: u64, child: u64) -> Result<u64, RegisterRefusal>
        ensures ok { IfOk result (λ phase. (h : History) → StandsFor A.operation self.old h
            → (register_now_refusal h parent child ≡ None) × (phase ≡ done_of h)) }
        ensures refused { IfErr result (λ e. e ≢ RegisterRefusal.OutOfMemory
            → (h : History) → StandsFor A.operation self.old h
            → register_now_refusal h parent child ≡ Some e) }
        // Want of memory is answered last: only where the registration is accepted.
        ensures out_of_memory { IfErr result (λ e. e ≡ RegisterRefusal.OutOfMemory
            → (h : History) → StandsFor A.operation self.old h
            → register_now_refusal h parent child ≡ None) }
        ensures after { OnOk result ((h : History) → StandsFor A.operation self.old h
            → StandsFor A.operation self.new (RegisteredNow parent child ∷ h)) }

        ensures limits { self.new.limits ≡ self.old.limits }
        ensures err { OnErr result (self.new ≡ self.old) }
    {
        use_slots(&mut self.store, &self.registry);
        let Some(entry) = self.registry.get(parent) else {
            return Err(RegisterRefusal::NoTask);
        };
        if !entry.mode.waits() {
            return Err(RegisterRefusal::NotAllowed);
        }
        let done = self.store.board.done;
        let added = self
            .registry
            .add(child, Mode::Wait, entry.signal_phase, done);
        if let Err(refusal) = added {
            return Err(register_refusal_of(refusal));
        }
        self.store.board.join_now();
        Ok(done)
    }

    /// Ends a task's registration. What it held and never signalled is in no phase.
    ///
    /// Phases below the top that the task alone had still to signal are complete then. It takes no
    /// memory.
    pub fn drop_task(&mut self, task: u64) -> Result<(), NoTask>
        ensures ok { IsOk result ↔ IsSome (entry_of self.old.members task) }
        ensures after { OnOk result ((h : History) → StandsFor A.operation self.old h
            → StandsFor A.operation self.new (Dropped task ∷ h)) }

        ensures limits { self.new.limits ≡ self.old.limits }
        ensures err { OnErr result (self.new ≡ self.old) }
    {
        use_slots(&mut self.store, &self.registry);
        let Some(entry) = self.registry.get(task) else {
            return Err(NoTask);
        };
        let waiters = self.registry.waiters();
        let _ = self.registry.remove(task);
        if waiters == 0 {
            return Ok(());
        }
        if self.registry.waiters() == 0 {
            self.store.board.clear();
            return Ok(());
        }
        self.store.board.leave(entry);
        Ok(())
    }
}
