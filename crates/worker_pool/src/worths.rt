//! How much a take of each task is worth. It costs time alone, and no contract speaks of it.
use crate::number_set::NumberSet;

// A take of less effort, some two microseconds, is short: a change of workers costs as much.
const SHORT: u64 = 4096;

// A mean has its last so many takes.
const TAKES: u64 = 8;

/// The mean effort of the last takes of each task. Of a greater number than 63 it keeps the
/// remainder by 64.
#[derive(Drop)]
pub struct Worths {
    // the mean of each, times `TAKES`, and those whose mean is short
    sums: [u64; 64],
    short: NumberSet,
}

impl Worths {
    /// Makes those of tasks that were not taken: all are short.
    pub fn new() -> Worths {
        Worths {
            sums: [0; 64],
            short: NumberSet::from_bits(u64::MAX),
        }
    }

    /// Returns the tasks whose takes are short.
    pub fn short(&self) -> NumberSet {
        self.short
    }

    /// Notes a take of so much effort.
    pub fn note(&mut self, task: usize, effort: u64) {
        let sum = self.sums[task % 64];
        let sum = (sum - sum / TAKES).saturating_add(effort);
        self.sums[task % 64] = sum;
        if sum < SHORT * TAKES {
            self.short.insert(task);
        } else {
            self.short.remove(task);
        }
    }
}
