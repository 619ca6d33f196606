//! Calls of the phaser of a handle.
ghost use Rattle.std.specs.Prelude.{◌≡◌, ◌≢◌, ◌≤◌, [], ◌∷◌, Some, None, IsSome, length, OnOk, OnErr, IfOk, IfErr};
ghost use Rattle.phase_base.specs.Limits.{Limits};
ghost use Rattle.phase_base.specs.declared.limits.TheConstants.{SENDS_MAX};
ghost use Rattle.phase_accum.specs.Sends.{AreSends};
ghost use Rattle.phase_accum.specs.Values.{value_by};
ghost use Rattle.phase_history.specs.Histories.{History};
ghost use Rattle.phase_history.specs.Replies.{signal_reply, after_signal, wait_reply, after_wait};
ghost use Rattle.phase_handle.specs.Phasers.{Holds};

use crate::handle::Handle;
use phase_accum::{Op, Single};
use phase_core::{Got, SignalRefusal, WaitRefusal};
use std::alloc::Global;

impl Handle {
    /// Signals the task's phase with these sends and a single or none, and answers that phase.
    pub fn signal(
        &mut self,
        alloc: Global,
        task: u64,
        values: &[i64],
        single: Option<Single>,
    ) -> Result<u64, SignalRefusal>
        requires there { IsSome self.old.place.phaser }
        requires sends { AreSends values.now }
        requires few { length values.now ≤ SENDS_MAX }
        ensures reply { (op : Op) (limits : Limits) (h : History)
            → Holds self.old.place.phaser op limits h
            → signal_reply limits h task (values.now ∷ []) single ≡ result }
        ensures after { (op : Op) (limits : Limits) (h : History)
            → Holds self.old.place.phaser op limits h
            → Holds self.new.place.phaser op limits
            (after_signal result task (values.now ∷ []) single h) }
        ensures err { OnErr result (self.new.place.phaser ≡ self.old.place.phaser) }
    {
        let mut phaser = self.take(alloc);
        let answer = phaser.signal(task, values, single);
        self.put(phaser);
        answer
    }

    /// Waits for the task's phase, and answers it with its value, or that no more will come.
    pub fn wait(&mut self, alloc: Global, task: u64) -> Result<Got, WaitRefusal>
        requires { IsSome self.old.place.phaser }
        ensures reply { (op : Op) (limits : Limits) (h : History)
            → Holds self.old.place.phaser op limits h
            → wait_reply (value_by op) limits h task ≡ result }
        ensures after { (op : Op) (limits : Limits) (h : History)
            → Holds self.old.place.phaser op limits h
            → Holds self.new.place.phaser op limits (after_wait result task h) }
        ensures err { OnErr result (self.new.place.phaser ≡ self.old.place.phaser) }
    {
        let mut phaser = self.take(alloc);
        let answer = phaser.wait(task);
        self.put(phaser);
        answer
    }
}
