//! Tasks that join a phaser, under the number that is next.
ghost use Rattle.std.specs.Prelude.{◌≡◌, ◌≢◌, ◌∷◌, Some, None, OnErr, IfOk, IfErr};
ghost use Rattle.phase_base.specs.Limits.{Limits};
ghost use Rattle.phase_history.specs.declared.event.Event.TheVariants.{Registered, RegisteredNow};
ghost use Rattle.phase_history.specs.Histories.{History, done_of};
ghost use Rattle.phase_history.specs.Refusals.{register_refusal, register_now_refusal};
ghost use Rattle.phase_any.specs.Phasers.{PhaserStandsFor, next_task};

use crate::any_phaser::AnyPhaser;
use phase_accum::Op;
use phase_base::Mode;
use phase_core::RegisterRefusal;

impl AnyPhaser {
    /// Registers the next task, in a mode that the mode of `parent` holds and at both phases of
    /// `parent`, and answers its number. It may take memory, which it asks for last.
    pub fn join(&mut self, parent: u64, mode: Mode) -> Result<u64, RegisterRefusal>
        ensures ok { IfOk result (λ child. (op : Op) (limits : Limits) (h : History)
            → PhaserStandsFor self.old op limits h
            → (child ≡ next_task h) × (register_refusal h parent (next_task h) mode ≡ None)
            × PhaserStandsFor self.new op limits (Registered parent child mode ∷ h)) }
        ensures refused { IfErr result (λ e. e ≢ RegisterRefusal.OutOfMemory
            → (op : Op) (limits : Limits) (h : History)
            → PhaserStandsFor self.old op limits h
            → register_refusal h parent (next_task h) mode ≡ Some e) }
        ensures out_of_memory { IfErr result (λ e. e ≡ RegisterRefusal.OutOfMemory
            → (op : Op) (limits : Limits) (h : History)
            → PhaserStandsFor self.old op limits h
            → register_refusal h parent (next_task h) mode ≡ None) }
        ensures err { OnErr result (self.new ≡ self.old) }
    {
        let child = self.next_task();
        match self.register(parent, child, mode) {
            Ok(()) => Ok(child),
            Err(refusal) => Err(refusal),
        }
    }

    /// Registers the next task as a waiter at the first phase that is not complete, and answers its
    /// number and that phase. It may take memory, which it asks for last.
    pub fn join_now(&mut self, parent: u64) -> Result<(u64, u64), RegisterRefusal>
        ensures ok { IfOk result (λ joined. (op : Op) (limits : Limits) (h : History)
            → PhaserStandsFor self.old op limits h
            → (joined.0 ≡ next_task h) × (joined.1 ≡ done_of h)
            × (register_now_refusal h parent (next_task h) ≡ None)
            × PhaserStandsFor self.new op limits (RegisteredNow parent joined.0 ∷ h)) }
        ensures refused { IfErr result (λ e. e ≢ RegisterRefusal.OutOfMemory
            → (op : Op) (limits : Limits) (h : History)
            → PhaserStandsFor self.old op limits h
            → register_now_refusal h parent (next_task h) ≡ Some e) }
        ensures out_of_memory { IfErr result (λ e. e ≡ RegisterRefusal.OutOfMemory
            → (op : Op) (limits : Limits) (h : History)
            → PhaserStandsFor self.old op limits h
            → register_now_refusal h parent (next_task h) ≡ None) }
        ensures err { OnErr result (self.new ≡ self.old) }
    {
        let child = self.next_task();
        match self.register_now(parent, child) {
            Ok(phase) => Ok((child, phase)),
            Err(refusal) => Err(refusal),
        }
    }
}
