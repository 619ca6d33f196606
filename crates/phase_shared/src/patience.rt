//! What a waiting call did so far.
use crate::tried::Tried;
use crossbeam_utils::Backoff;
use std::cell::Cell;
use std::sync::Wait;
use std::sync::atomic::AtomicU64;
use std::time::Duration;

// How many microseconds a call naps where the turn stays another's: who has it may be off its
// processor.
const NAP: u64 = 50;

// How often the turn was another's, and whether the call waited for room.
#[derive(Drop)]
pub(crate) struct Patience {
    backoff: Backoff,
    has_waited: Cell<bool>,
    bed: AtomicU64,
}

impl Patience {
    pub(crate) fn new() -> Patience {
        Patience {
            backoff: Backoff::new(),
            has_waited: Cell::new(false),
            bed: AtomicU64::new(0),
        }
    }

    // Pauses after a try whose turn was another's, longer each time: it spins, then yields, then
    // naps.
    pub(crate) fn snooze<W: Wait>(&self, rt: &W) {
        if self.backoff.is_completed() {
            self.bed.park_timeout(rt, 0, Duration::from_micros(NAP));
        } else {
            self.backoff.snooze();
        }
    }

    // The same, and begins anew after another try.
    pub(crate) fn snooze_if_busy<W: Wait, R>(&self, rt: &W, tried: &Tried<R>) {
        match tried {
            Tried::Busy => self.snooze(rt),
            Tried::Refused(_) => self.backoff.reset(),
        }
    }

    // Whether the call waits for room for the first time.
    pub(crate) fn is_first(&self) -> bool {
        let has_waited = self.has_waited.get();
        self.has_waited.set(true);
        !has_waited
    }
}
