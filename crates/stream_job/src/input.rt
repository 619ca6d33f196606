//! The samples of a source that are still to be signalled.
ghost use Rattle.std.specs.Prelude.{◌≡◌, ◌≤◌, ◌-◌, ◌+◌, ◌++◌, ℤ, List, [], length, take, drop, vec_capacity, IfOk, false, true};
ghost use Rattle.phase_accum.specs.Sends.{AreSends};
ghost use Rattle.stream_job.specs.Streams.{InputKeeps, feed_takes};

use std::alloc::{AllocError, Global};
use stream_lists::COUNT_MAX;

/// How many samples of a source may wait to be signalled.
pub const INPUT_ROOM: usize = 4096;

/// Of all samples that a source was fed so far, the last ones: those from number `from` on.
#[derive(Drop)]
pub struct Input {
    /// The number of the source among the tasks.
    pub task: usize,
    /// How many are not kept any more.
    pub from: u64,
    /// The others.
    pub values: Vec<i64>,
    /// Whether no more will come.
    pub ended: bool,
}

impl Input {
    /// An input to which nothing came. It takes memory for twice the samples that may wait.
    pub fn new(alloc: Global, task: usize) -> Result<Input, AllocError>
        ensures task { IfOk result (λ input. input.task ≡ task) }
        ensures kept { IfOk result (λ input. InputKeeps input 0 []) }
        ensures open { IfOk result (λ input. input.ended ≡ false) }
        ensures room { IfOk result (λ input.
            INPUT_ROOM + INPUT_ROOM ≤ vec_capacity input.values) }
    {
        Ok(Input {
            task,
            from: 0,
            values: Vec::with_capacity(alloc, 2 * INPUT_ROOM)?,
            ended: false,
        })
    }

    /// The samples that come after so many.
    pub fn awaits(&self, begun: u64) -> &[i64]
        ensures { (xs : List ℤ) → InputKeeps self.now begun xs → result.now ≡ drop begun xs }
    {
        let gone = begun.saturating_sub(self.from);
        if gone >= self.values.len() as u64 {
            return &[];
        }
        &self.values[gone as usize..]
    }

    /// Takes as many of these samples as may wait, where so many were signalled, and answers how
    /// many it took.
    pub fn take(&mut self, begun: u64, samples: &[i64]) -> usize
        requires sends { AreSends samples.now }
        requires kept { (xs : List ℤ) × InputKeeps self.old begun xs }
        requires room { INPUT_ROOM + INPUT_ROOM ≤ vec_capacity self.old.values }
        ensures took { (xs : List ℤ) → InputKeeps self.old begun xs
            → result ≡ feed_takes (length xs) begun (length samples.now) }
        ensures kept { (xs : List ℤ) → InputKeeps self.old begun xs
            → InputKeeps self.new begun (xs ++ take result samples.now) }
        ensures ended { (self.new.ended ≡ self.old.ended) × (self.new.task ≡ self.old.task) }
        ensures room { INPUT_ROOM + INPUT_ROOM ≤ vec_capacity self.new.values }
    {
        self.forget(begun);
        let came = self.from + self.values.len() as u64;
        let waits = (came - begun) as usize;
        let left = (COUNT_MAX - came) as usize;
        let many = samples
            .len()
            .min(INPUT_ROOM.saturating_sub(waits))
            .min(left);
        for sample in &samples[..many] {
            self.values.push_reserved(*sample);
        }
        many
    }

    /// Lets go of the samples that were signalled, where they are as many as may wait.
    fn forget(&mut self, begun: u64)
        requires { (xs : List ℤ) × InputKeeps self.old begun xs }
        ensures kept { (xs : List ℤ) → InputKeeps self.old begun xs → InputKeeps self.new begun xs }
        ensures ended { (self.new.ended ≡ self.old.ended) × (self.new.task ≡ self.old.task) }
        ensures room { vec_capacity self.new.values ≡ vec_capacity self.old.values }
        ensures few { begun - self.new.from ≤ INPUT_ROOM }
    {
        let gone = (begun - self.from) as usize;
        if gone < INPUT_ROOM {
            return;
        }
        self.values.copy_within(gone.., 0);
        self.values.truncate(self.values.len() - gone);
        self.from = begun;
    }
}
