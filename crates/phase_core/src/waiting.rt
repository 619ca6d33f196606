//! Waits on a phaser, for one phase and for phases in a row.
ghost use Rattle.std.specs.Prelude.{◌≡◌, ℕ, ◌≤◌, OnErr, Ok, length, take};
ghost use Rattle.std.specs.List.{All};
ghost use Rattle.phase_accum.specs.declared.outcome.Outcome.{Outcome};
ghost use Rattle.phase_accum.specs.Values.{IsInRange};
ghost use Rattle.phase_history.specs.Histories.{History};
ghost use Rattle.phase_history.specs.Phases.{stream_of};
ghost use Rattle.phase_history.specs.Replies.{wait_reply, after_wait, wait_block_reply, after_wait_block};
ghost use Rattle.phase_core.specs.Cores.{StandsFor};
ghost use Rattle.phase_core.specs.Blocks.{written, before_too_big};

use crate::going_on::go_on;
use crate::phaser_core::PhaserCore;
use crate::refusal_rows;
use phase_accum::{Accumulate, Outcome};
use phase_history::{Got, GotBlock, WaitRefusal};

impl<A: Accumulate> PhaserCore<A> {
    /// Waits for the task's phase, and answers it with its value, or that no more will come. It
    /// never blocks, and takes no memory.
    pub fn wait(&mut self, task: u64) -> Result<Got, WaitRefusal>
        ensures reply { (h : History) → StandsFor A.operation self.old h
            → wait_reply A.operation.value self.old.limits h task ≡ result }
        ensures after { (h : History) → StandsFor A.operation self.old h
            → StandsFor A.operation self.new (after_wait result task h) }
        ensures range { (phase : ℕ) (outcome : Outcome) → result ≡ Ok (Got.Value phase outcome)
            → IsInRange outcome }

        ensures limits { self.new.limits ≡ self.old.limits }
        ensures err { OnErr result (self.new ≡ self.old) }
    {
        let Some(entry) = self.registry.get(task) else {
            return Err(WaitRefusal::NoTask);
        };
        if !entry.mode.waits() {
            return Err(WaitRefusal::NoWait);
        }
        let done = self.store.board.done;
        let has_signaller = self.has_signaller();
        let limits = self.store.board.limits;
        if let Some(refusal) = refusal_rows::wait_refusal(limits, done, has_signaller, 1, entry) {
            return Err(refusal);
        }
        let phase = entry.wait_phase;
        if done <= phase {
            return Ok(Got::Ended);
        }
        let outcome = self.store.wait(phase);
        go_on(&mut self.registry, &mut self.store, task, entry, 1);
        Ok(Got::Value { phase, outcome })
    }

    /// Waits for the task's phase and those behind it that are complete, as many as there are
    /// places, and writes their values; or answers that no more will come. The places behind the
    /// values stay. It never blocks, and takes no memory.
    pub fn wait_block(&mut self, task: u64, out: &mut [Outcome]) -> Result<GotBlock, WaitRefusal>
        ensures reply { (h : History) → StandsFor A.operation self.old h
            → wait_block_reply self.old.limits h task (length out.old) ≡ result }
        ensures after { (h : History) → StandsFor A.operation self.old h
            → StandsFor A.operation self.new (after_wait_block result task h) }
        ensures out { (h : History) → StandsFor A.operation self.old h
            → out.new ≡ written result (stream_of A.operation.value h) out.old }
        // What was got stands in the first places, and each value is in range.
        ensures range { (phase count : ℕ) → result ≡ Ok (GotBlock.Values phase count)
            → (count ≤ length out.old) × All IsInRange (take count out.new) }

        ensures limits { self.new.limits ≡ self.old.limits }
        ensures err { OnErr result (self.new ≡ self.old) }
    {
        let Some(entry) = self.registry.get(task) else {
            return Err(WaitRefusal::NoTask);
        };
        if !entry.mode.waits() {
            return Err(WaitRefusal::NoWait);
        }
        let done = self.store.board.done;
        let has_signaller = self.has_signaller();
        let limits = self.store.board.limits;
        let asked = out.len();
        let refusal = refusal_rows::wait_refusal(limits, done, has_signaller, asked as u64, entry);
        if let Some(refusal) = refusal {
            return Err(refusal);
        }
        let phase = entry.wait_phase;
        if done <= phase {
            return Ok(GotBlock::Ended);
        }
        let count = asked.min((done - phase) as usize);
        self.store.wait_block(phase, count, out);
        let count = count as u64;
        go_on(&mut self.registry, &mut self.store, task, entry, count);
        Ok(GotBlock::Values { phase, count })
    }

    /// Answers how many complete phases in range come next for a task, of at most so many: those
    /// before the first whose value is too big, and none where the task's own phase has it; or that
    /// no more will come, or the refusal that a wait for so many would get.
    ///
    /// It changes nothing, takes no memory and never blocks. A wait for as many as it answers, if
    /// there are some, gets just these.
    pub fn good_ahead(&self, task: u64, most: usize) -> Result<GotBlock, WaitRefusal>
        ensures { (h : History) → StandsFor A.operation self.now h
            → before_too_big (stream_of A.operation.value h)
            (wait_block_reply self.now.limits h task most) ≡ result }
    {
        let Some(entry) = self.registry.get(task) else {
            return Err(WaitRefusal::NoTask);
        };
        if !entry.mode.waits() {
            return Err(WaitRefusal::NoWait);
        }
        let done = self.store.board.done;
        let has_signaller = self.has_signaller();
        let limits = self.store.board.limits;
        let refusal = refusal_rows::wait_refusal(limits, done, has_signaller, most as u64, entry);
        if let Some(refusal) = refusal {
            return Err(refusal);
        }
        let phase = entry.wait_phase;
        if done <= phase {
            return Ok(GotBlock::Ended);
        }
        let complete = most.min((done - phase) as usize);
        let count = self.store.good_ahead(phase, complete) as u64;
        Ok(GotBlock::Values { phase, count })
    }
}
