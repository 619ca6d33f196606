//! How workers sleep, and how they are called. A call that is lost costs a millisecond.
use std::sync::Wait;
use std::sync::atomic::AtomicU64;
use std::sync::atomic::Ordering::SeqCst;
use std::time::Duration;

// How many milliseconds a worker sleeps, at most.
const SLEEP: u64 = 1;

/// What workers with nothing to do look at.
#[derive(Drop)]
pub struct Bell {
    // how often it rang
    rings: AtomicU64,
    // 1 where there is a task to take
    work: AtomicU64,
    // how many look whether there is one
    watchers: AtomicU64,
}

impl Bell {
    /// Makes one that has not rung.
    pub fn new() -> Bell {
        Bell {
            rings: AtomicU64::new(0),
            work: AtomicU64::new(0),
            watchers: AtomicU64::new(0),
        }
    }

    /// Notes that a worker looks from now on.
    pub fn begin_watch(&self) {
        self.watchers.fetch_add(1, SeqCst);
    }

    /// Notes that a worker looks no more.
    pub fn end_watch(&self) {
        self.watchers.fetch_sub(1, SeqCst);
    }

    /// Returns whether a worker looks.
    pub fn is_watched(&self) -> bool {
        self.watchers.load(SeqCst) != 0
    }

    /// Tells those who look whether there is a task to take.
    pub fn show(&self, has_work: bool) {
        let work = u64::from(has_work);
        if self.work.load(SeqCst) != work {
            self.work.store(work, SeqCst);
        }
    }

    /// Returns whether there is a task to take.
    pub fn has_work(&self) -> bool {
        self.work.load(SeqCst) != 0
    }

    /// Returns how often it rang.
    pub fn rings(&self) -> u64 {
        self.rings.load(SeqCst)
    }

    /// Sleeps, unless it rang since it had rung so often.
    pub fn sleep<W: Wait>(&self, rt: &W, rings: u64) {
        let word = (rings & 0xffff_ffff) as u32;
        self.rings
            .park_timeout(rt, word, Duration::from_millis(SLEEP));
    }

    /// Wakes one that sleeps.
    pub fn ring(&self) {
        self.rings.fetch_add(1, SeqCst);
        self.rings.wake_one();
    }

    /// Wakes all that sleep.
    pub fn ring_all(&self) {
        self.rings.fetch_add(1, SeqCst);
        self.rings.wake_all();
    }
}
