//! Which phasers had events since a task was taken.
ghost use Rattle.std.specs.Prelude.{◌≡◌};
ghost use Rattle.worker_pool.specs.EventCounts.{next_number, last_of, had_none_since, HasTold, IsFresh};

use crate::number_set::NumberSet;

/// How often events were told, and for each phaser when it had the last. Times are numbered from 1
/// on, up to `u64::MAX`, which stands for all from there on.
#[derive(Drop)]
pub struct EventCounts {
    // the number of the next time, and for each phaser that of its last, 0 for none
    next: u64,
    last: [u64; 64],
}

impl EventCounts {
    /// Makes the counts of no event.
    pub fn new() -> EventCounts
        ensures { IsFresh result }
    {
        EventCounts {
            next: 1,
            last: [0; 64],
        }
    }

    /// Returns the number of the time at which events are told next.
    pub fn next(&self) -> u64
        ensures { result ≡ next_number self.now }
    {
        self.next
    }

    /// Returns whether the phaser had no event since this number was the next.
    pub fn had_none_since(&self, since: u64, phaser: usize) -> bool
        ensures { result ≡ had_none_since self.now since phaser }
    {
        self.last[phaser % 64] < since
    }

    /// Tells of events on these phasers.
    pub fn tell(&mut self, events: NumberSet)
        ensures { HasTold events self.old self.new }
    {
        let mut rest = events;
        while let Some(phaser) = rest.first_from(0) {
            self.last[phaser] = self.next;
            rest.remove(phaser);
        }
        self.next = self.next.saturating_add(1);
    }
}
