//! Calls of the phaser of a handle by which tasks join and leave it.
ghost use Rattle.std.specs.Prelude.{◌≡◌, ◌≢◌, ◌∷◌, Some, None, IsSome, OnOk, OnErr, IfOk, IfErr};
ghost use Rattle.phase_base.specs.Limits.{Limits};
ghost use Rattle.phase_base.specs.Members.{entry_of};
ghost use Rattle.phase_history.specs.declared.event.Event.TheVariants.{Registered, RegisteredNow, Dropped};
ghost use Rattle.phase_history.specs.Histories.{History, members_of, done_of};
ghost use Rattle.phase_history.specs.Refusals.{register_refusal, register_now_refusal, drop_refusal};
ghost use Rattle.phase_any.specs.Phasers.{next_task};
ghost use Rattle.phase_handle.specs.Phasers.{Holds};

use crate::handle::Handle;
use phase_accum::Op;
use phase_base::{Entry, Mode};
use phase_core::{NoTask, RegisterRefusal};
use std::alloc::Global;

impl Handle {
    /// Registers a task in a mode that the mode of `parent` holds, at both phases of `parent`, and
    /// answers its number.
    pub fn register(
        &mut self,
        alloc: Global,
        parent: u64,
        mode: Mode,
    ) -> Result<u64, RegisterRefusal>
        requires { IsSome self.old.place.phaser }
        ensures ok { IfOk result (λ child. (op : Op) (limits : Limits) (h : History)
            → Holds self.old.place.phaser op limits h
            → (child ≡ next_task h) × (register_refusal h parent (next_task h) mode ≡ None)
            × Holds self.new.place.phaser op limits (Registered parent child mode ∷ h)) }
        ensures refused { IfErr result (λ e. e ≢ RegisterRefusal.OutOfMemory
            → (op : Op) (limits : Limits) (h : History)
            → Holds self.old.place.phaser op limits h
            → register_refusal h parent (next_task h) mode ≡ Some e) }
        ensures out_of_memory { IfErr result (λ e. e ≡ RegisterRefusal.OutOfMemory
            → (op : Op) (limits : Limits) (h : History)
            → Holds self.old.place.phaser op limits h
            → register_refusal h parent (next_task h) mode ≡ None) }
        ensures err { OnErr result (self.new.place.phaser ≡ self.old.place.phaser) }
    {
        let mut phaser = self.take(alloc);
        let answer = phaser.join(parent, mode);
        self.put(phaser);
        match answer {
            Ok(child) => Ok(child),
            Err(refusal) => Err(refusal),
        }
    }

    /// Registers a task as a waiter at the first phase that is not complete, and answers its number
    /// and that phase.
    pub fn register_now(
        &mut self,
        alloc: Global,
        parent: u64,
    ) -> Result<(u64, u64), RegisterRefusal>
        requires { IsSome self.old.place.phaser }
        ensures ok { IfOk result (λ joined. (op : Op) (limits : Limits) (h : History)
            → Holds self.old.place.phaser op limits h
            → (joined.0 ≡ next_task h) × (joined.1 ≡ done_of h)
            × (register_now_refusal h parent (next_task h) ≡ None)
            × Holds self.new.place.phaser op limits (RegisteredNow parent joined.0 ∷ h)) }
        ensures refused { IfErr result (λ e. e ≢ RegisterRefusal.OutOfMemory
            → (op : Op) (limits : Limits) (h : History)
            → Holds self.old.place.phaser op limits h
            → register_now_refusal h parent (next_task h) ≡ Some e) }
        ensures out_of_memory { IfErr result (λ e. e ≡ RegisterRefusal.OutOfMemory
            → (op : Op) (limits : Limits) (h : History)
            → Holds self.old.place.phaser op limits h
            → register_now_refusal h parent (next_task h) ≡ None) }
        ensures err { OnErr result (self.new.place.phaser ≡ self.old.place.phaser) }
    {
        let mut phaser = self.take(alloc);
        let answer = phaser.join_now(parent);
        self.put(phaser);
        match answer {
            Ok(joined) => Ok(joined),
            Err(refusal) => Err(refusal),
        }
    }

    /// Ends a task's registration.
    pub fn drop_task(&mut self, alloc: Global, task: u64) -> Result<(), NoTask>
        requires { IsSome self.old.place.phaser }
        ensures ok { OnOk result ((op : Op) (limits : Limits) (h : History)
            → Holds self.old.place.phaser op limits h
            → drop_refusal h task ≡ None) }
        ensures refused { IfErr result (λ e. (op : Op) (limits : Limits) (h : History)
            → Holds self.old.place.phaser op limits h
            → drop_refusal h task ≡ Some e) }
        ensures after { OnOk result ((op : Op) (limits : Limits) (h : History)
            → Holds self.old.place.phaser op limits h
            → Holds self.new.place.phaser op limits (Dropped task ∷ h)) }
        ensures err { OnErr result (self.new.place.phaser ≡ self.old.place.phaser) }
    {
        let mut phaser = self.take(alloc);
        let answer = phaser.drop_task(task);
        self.put(phaser);
        match answer {
            Ok(()) => Ok(()),
            Err(refusal) => Err(refusal),
        }
    }

    /// Returns a task's mode and phases, where it is registered.
    pub fn view(&mut self, alloc: Global, task: u64) -> Option<Entry>
        requires { IsSome self.old.place.phaser }
        ensures entry { (op : Op) (limits : Limits) (h : History)
            → Holds self.old.place.phaser op limits h
            → result ≡ entry_of (members_of h) task }
        ensures same { self.new.place.phaser ≡ self.old.place.phaser }
    {
        let phaser = self.take(alloc);
        let entry = phaser.view(task);
        self.put(phaser);
        entry
    }
}
