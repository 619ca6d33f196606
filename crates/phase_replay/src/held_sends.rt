//! The sends that the tasks of a phaser hold.
ghost use Rattle.std.specs.Prelude.{◌≡◌, ℕ, [], OnOk, OnErr, if◌then◌else◌, ◌==◌};
ghost use Rattle.phase_replay.specs.HeldSends.{held_at, nothing};

use phase_accum::{Accumulate, Pending};
use std::alloc::{AllocError, Global};
use std::collections::HashMap;
use std::marker::Model;

/// The pending sends of each task that holds some.
#[derive(Drop)]
pub struct HeldSends<A: Accumulate> {
    pending: HashMap<u64, Pending<A>>,
}

impl<A: Accumulate> Model for HeldSends<A> {
    ghost use Rattle.phase_replay.specs.HeldSends.{Parcels};

    ghost Value = { Parcels A };

    ghost view = { λ h. h.pending.entries };
}

impl<A: Accumulate> HeldSends<A> {
    /// Makes the held sends of tasks of which none holds any. It takes no memory.
    pub fn new(alloc: Global) -> HeldSends<A>
        ensures { result ≡ [] }
    {
        HeldSends {
            pending: HashMap::new(alloc),
        }
    }

    /// Returns what the task holds.
    pub fn of(&self, task: u64) -> Pending<A>
        ensures { result ≡ held_at A.operation self.now task }
    {
        match self.pending.get(&task) {
            Some(pending) => *pending,
            None => Pending::new(),
        }
    }

    /// Lets the task hold just this. It may take memory.
    pub fn put(&mut self, task: u64, pending: Pending<A>) -> Result<(), AllocError>
        ensures ok { OnOk result ((other : ℕ) → held_at A.operation self.new other
            ≡ (if task == other then pending else held_at A.operation self.old other)) }
        ensures err { OnErr result (self.new ≡ self.old) }
    {
        self.pending.insert(task, pending)?;
        Ok(())
    }

    /// Lets the task hold nothing. It takes no memory.
    pub fn clear(&mut self, task: u64)
        ensures { (other : ℕ) → held_at A.operation self.new other
            ≡ (if task == other then nothing A.operation else held_at A.operation self.old other) }
    {
        let _ = self.pending.remove(&task);
    }
}
