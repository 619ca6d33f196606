//! Calls of the phaser of a handle on blocks of phases.
ghost use Rattle.std.specs.Prelude.{◌≡◌, ◌≤◌, ℕ, Ok, IsSome, length, IfOk, OnErr};
ghost use Rattle.phase_base.specs.Limits.{Limits};
ghost use Rattle.phase_accum.specs.Sends.{AreSends};
ghost use Rattle.phase_accum.specs.Values.{value_by};
ghost use Rattle.phase_history.specs.Histories.{History};
ghost use Rattle.phase_history.specs.Phases.{stream_of};
ghost use Rattle.phase_history.specs.Replies.{signal_reply, after_signal, wait_block_reply, after_wait_block};
ghost use Rattle.phase_core.specs.Blocks.{one_each, written};
ghost use Rattle.handle_numbers.specs.Blocks.{numbers_written};
ghost use Rattle.phase_handle.specs.Phasers.{Holds};

use crate::handle::Handle;
use handle_numbers::{places, write_numbers};
use phase_accum::{Op, Outcome, Single};
use phase_core::{GotBlock, SignalRefusal, WaitRefusal};
use std::alloc::{AllocError, Global};

impl Handle {
    /// Signals as many phases in a row as there are values, with one send each and a single for all
    /// of them or none, and answers the first phase. It takes memory for the sends, and gives it
    /// back.
    pub fn signal_block(
        &mut self,
        alloc: Global,
        task: u64,
        values: &[i64],
        single: Option<Single>,
    ) -> Result<Result<u64, SignalRefusal>, AllocError>
        requires there { IsSome self.old.place.phaser }
        requires sends { AreSends values.now }
        ensures reply { IfOk result (λ answer. (op : Op) (limits : Limits) (h : History)
            → Holds self.old.place.phaser op limits h
            → signal_reply limits h task (one_each values.now) single ≡ answer) }
        ensures after { IfOk result (λ answer. (op : Op) (limits : Limits) (h : History)
            → Holds self.old.place.phaser op limits h
            → Holds self.new.place.phaser op limits
            (after_signal answer task (one_each values.now) single h)) }
        ensures refused { IfOk result (λ answer.
            OnErr answer (self.new.place.phaser ≡ self.old.place.phaser)) }
        ensures out_of_memory { OnErr result (self.new.place.phaser ≡ self.old.place.phaser) }
    {
        let mut phaser = self.take(alloc);
        let answer = phaser.signal_block(alloc, task, values, single);
        self.put(phaser);
        match answer {
            Ok(told) => Ok(told),
            Err(fault) => Err(fault),
        }
    }

    /// Waits for the task's phase and those behind it that are complete, as many as there are
    /// places, and writes their values in the first places; or answers that no more will come.
    fn wait_block(
        &mut self,
        alloc: Global,
        task: u64,
        out: &mut [Outcome],
    ) -> Result<GotBlock, WaitRefusal>
        requires { IsSome self.old.place.phaser }
        ensures reply { (op : Op) (limits : Limits) (h : History)
            → Holds self.old.place.phaser op limits h
            → wait_block_reply limits h task (length out.old) ≡ result }
        ensures after { (op : Op) (limits : Limits) (h : History)
            → Holds self.old.place.phaser op limits h
            → Holds self.new.place.phaser op limits (after_wait_block result task h) }
        ensures out { (op : Op) (limits : Limits) (h : History)
            → Holds self.old.place.phaser op limits h
            → out.new ≡ written result (stream_of (value_by op) h) out.old }
        ensures few { (phase count : ℕ) → result ≡ Ok (GotBlock.Values phase count)
            → count ≤ length out.old }
        ensures err { OnErr result (self.new.place.phaser ≡ self.old.place.phaser) }
    {
        let mut phaser = self.take(alloc);
        let answer = phaser.wait_block(task, out);
        self.put(phaser);
        answer
    }

    /// The same, with the number of each value in the first places of `values`, where they are as
    /// many as `out` at least.
    fn wait_into(
        &mut self,
        alloc: Global,
        task: u64,
        out: &mut [Outcome],
        values: &mut [i64],
    ) -> Result<GotBlock, WaitRefusal>
        requires there { IsSome self.old.place.phaser }
        requires room { length out.old ≤ length values.old }
        ensures reply { (op : Op) (limits : Limits) (h : History)
            → Holds self.old.place.phaser op limits h
            → wait_block_reply limits h task (length out.old) ≡ result }
        ensures after { (op : Op) (limits : Limits) (h : History)
            → Holds self.old.place.phaser op limits h
            → Holds self.new.place.phaser op limits (after_wait_block result task h) }
        ensures got { (op : Op) (limits : Limits) (h : History) (first many : ℕ)
            → Holds self.old.place.phaser op limits h
            → result ≡ Ok (GotBlock.Values first many)
            → values.new ≡ numbers_written first many (stream_of (value_by op) h) values.old }
        ensures few { (first many : ℕ) → result ≡ Ok (GotBlock.Values first many)
            → many ≤ length out.old }
        ensures ended { result ≡ Ok GotBlock.Ended → values.new ≡ values.old }
        ensures err { OnErr result ((self.new.place.phaser ≡ self.old.place.phaser)
            × (values.new ≡ values.old)) }
    {
        match self.wait_block(alloc, task, out) {
            Ok(GotBlock::Values { phase, count }) => {
                write_numbers(values, &out[..count as usize]);
                Ok(GotBlock::Values { phase, count })
            }
            Ok(GotBlock::Ended) => Ok(GotBlock::Ended),
            Err(refusal) => Err(refusal),
        }
    }

    /// Waits for the task's phase and those behind it that are complete, at most as many as there
    /// are places, and writes the number of each one's value in the first places; or answers that
    /// no more will come. It takes memory for the values, and gives it back.
    pub fn wait_numbers(
        &mut self,
        alloc: Global,
        task: u64,
        values: &mut [i64],
    ) -> Result<Result<GotBlock, WaitRefusal>, AllocError>
        requires { IsSome self.old.place.phaser }
        ensures reply { IfOk result (λ answer. (op : Op) (limits : Limits) (h : History)
            → Holds self.old.place.phaser op limits h
            → wait_block_reply limits h task (length values.old) ≡ answer) }
        ensures after { IfOk result (λ answer. (op : Op) (limits : Limits) (h : History)
            → Holds self.old.place.phaser op limits h
            → Holds self.new.place.phaser op limits (after_wait_block answer task h)) }
        ensures got { IfOk result (λ answer. (op : Op) (limits : Limits) (h : History)
            (first many : ℕ) → Holds self.old.place.phaser op limits h
            → answer ≡ Ok (GotBlock.Values first many)
            → values.new ≡ numbers_written first many (stream_of (value_by op) h) values.old) }
        ensures few { IfOk result (λ answer. (first many : ℕ)
            → answer ≡ Ok (GotBlock.Values first many) → many ≤ length values.old) }
        ensures ended { IfOk result (λ answer. answer ≡ Ok GotBlock.Ended
            → values.new ≡ values.old) }
        ensures refused { IfOk result (λ answer. OnErr answer
            ((self.new.place.phaser ≡ self.old.place.phaser) × (values.new ≡ values.old))) }
        ensures out_of_memory { OnErr result ((self.new.place.phaser ≡ self.old.place.phaser)
            × (values.new ≡ values.old)) }
    {
        let mut out = places(alloc, values.len())?;
        Ok(self.wait_into(alloc, task, &mut out, values))
    }
}
