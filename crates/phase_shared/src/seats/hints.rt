//! When a waiting call tries again. No contract speaks of it: a wrong number costs time alone.
ghost use Rattle.std.specs.Prelude.{◌<◌, ◌≤◌, ◌^◌};

use crate::lane_words::LANES;
use crate::rule::SignalRule;
use crossbeam_utils::CachePadded;
use phase_accum::Accumulate;
use phase_core::{PhaserCore, SignalRefusal};
use std::sync::Wait;
use std::sync::atomic::AtomicU64;
use std::sync::atomic::Ordering::SeqCst;
use std::time::Duration;

// Above every number that a task waits for.
const ENDED: u64 = u64::MAX;

// The greatest number that a lock tells. It stands for all above it.
const TOLD_MAX: u64 = u64::MAX >> 2;

// How many milliseconds a pause sleeps, at most. So a wake that is lost costs these, and no more.
const SLEEP: u64 = 10;

// For how many phases a signal that was ahead waits at first, at most half the bound.
const MORE: u64 = 32;

// What is wanted where nobody wants room, and where each number has to be told.
const NONE: u64 = u64::MAX;

const EACH: u64 = 0;

// A number at which threads sleep until it is higher, and how many do.
#[derive(Drop)]
pub struct Bell {
    number: AtomicU64,
    sleepers: AtomicU64,
}

impl Bell {
    fn new() -> Bell {
        Bell {
            number: AtomicU64::new(0),
            sleepers: AtomicU64::new(0),
        }
    }

    // Raises the number, where it is lower, and wakes those that sleep.
    fn raise<K: SignalRule>(&self, number: u64) {
        if self.number.load(SeqCst) >= number {
            return;
        }
        let _ = self.number.fetch_max(number, SeqCst);
        if self.sleepers.load(SeqCst) != 0 {
            K::wake(&self.number);
        }
    }

    // Makes the number one higher, and wakes those that sleep. Where nobody does, it does nothing.
    fn ring<K: SignalRule>(&self) {
        if self.sleepers.load(SeqCst) != 0 {
            let _ = self.number.fetch_add(1, SeqCst);
            K::wake(&self.number);
        }
    }

    // Wakes those that sleep, and leaves the number. Who is about to sleep sleeps for its time.
    fn wake<K: SignalRule>(&self) {
        if self.sleepers.load(SeqCst) != 0 {
            K::wake(&self.number);
        }
    }

    // Counts a sleeper, and returns the number. Whoever tells something looks for sleepers behind
    // it. So it sees this one, or this one sees what was told, where it looks from now on.
    pub fn lie_down(&self) -> u64 {
        let _ = self.sleepers.fetch_add(1, SeqCst);
        self.number.load(SeqCst)
    }

    // Sleeps, at most for some time, unless the number is another than was found.
    pub fn sleep<R: Wait>(&self, rt: &R, found: u64) {
        let word = (found & 0xffff_ffff) as u32;
        self.number
            .park_timeout(rt, word, Duration::from_millis(SLEEP));
    }

    pub fn get_up(&self) {
        let _ = self.sleepers.fetch_sub(1, SeqCst);
    }
}

// How far a phaser is.
#[derive(Clone, Copy)]
pub struct Reached {
    // The phases below it are complete.
    done: u64,
    // Every waiter got the phases below it.
    base: u64,
}

// What a give tells: by the lock, and after it.
#[derive(Clone, Copy)]
pub struct News {
    // How many phases are complete.
    pub done: u64,
    // Whether these are more than before.
    is_more: bool,
    // How many every waiter got, where that is wanted.
    base: Option<u64>,
}

// How many phases every waiter has to have got: for a signal, and for several.
#[derive(Clone, Copy)]
pub struct Wants {
    pub own: u64,
    pub more: u64,
}

// What is told beside the lock, and where threads sleep. What was told never falls.
#[derive(Drop)]
pub struct Hints {
    // Where threads sleep until phases are complete. The lock tells how many are.
    pub phases: CachePadded<Bell>,
    // Where threads sleep until there is room: how many phases every waiter got, as far as it was
    // wanted.
    pub room: CachePadded<Bell>,
    // How many phases every waiter has to have got before that is told. A signal that was ahead
    // writes it under the turn.
    wanted: CachePadded<AtomicU64>,
    // How many tasks are registered, and a bit for each lane that is taken.
    tasks: CachePadded<(AtomicU64, AtomicU64)>,
    // Whether the phaser was closed: 1, and else 0.
    closed: CachePadded<AtomicU64>,
    bound: u64,
}

impl Hints {
    pub fn new<K: SignalRule>(bound: u64) -> Hints {
        let wanted = if K::tells_each() { EACH } else { NONE };
        Hints {
            phases: CachePadded::new(Bell::new()),
            room: CachePadded::new(Bell::new()),
            wanted: CachePadded::new(AtomicU64::new(wanted)),
            tasks: CachePadded::new((AtomicU64::new(1), AtomicU64::new(0))),
            closed: CachePadded::new(AtomicU64::new(0)),
            bound,
        }
    }

    pub fn bound(&self) -> u64 {
        self.bound
    }

    // Closes the phaser, and wakes those that sleep: each looks behind its sleep whether it is.
    pub fn close<K: SignalRule>(&self) {
        self.closed.store(1, SeqCst);
        self.phases.ring::<K>();
        self.room.wake::<K>();
    }

    // Whether the phaser was closed.
    pub fn is_closed(&self) -> bool {
        self.closed.load(SeqCst) != 0
    }

    // A task was registered.
    pub fn came(&self) {
        let _ = self.tasks.0.fetch_add(1, SeqCst);
    }

    // A task has left.
    pub fn left(&self) {
        let _ = self.tasks.0.fetch_sub(1, SeqCst);
    }

    // A lane was taken.
    pub fn lane_taken(&self, lane: u64)
        requires { lane < LANES }
    {
        let _ = self.tasks.1.fetch_or(1 << lane, SeqCst);
    }

    // A lane is to be given back.
    pub fn lane_left(&self, lane: u64)
        requires { lane < LANES }
    {
        let _ = self.tasks.1.fetch_and(!(1 << lane), SeqCst);
    }

    // The lanes that are taken are below it.
    pub fn lanes(&self) -> u64
        ensures { result ≤ LANES }
    {
        let free = self.tasks.1.load(SeqCst).leading_zeros() as u64;
        64u64.saturating_sub(free).min(LANES)
    }

    // Whether one task is registered, or none.
    pub fn is_alone(&self) -> bool {
        self.tasks.0.load(SeqCst) <= 1
    }

    // Tells how far the phaser is, under the turn.
    pub fn look<A: Accumulate>(core: &PhaserCore<A>) -> Reached {
        let Some(base) = core.least_wait() else {
            return Reached {
                done: 0,
                base: ENDED,
            };
        };
        let done = if core.has_signaller() {
            core.done()
        } else {
            ENDED
        };
        Reached { done, base }
    }

    // What there is to tell, under the turn, where the lock tells `told`.
    pub fn news(&self, reached: Reached, told: u64) -> News
        requires { told < 2 ^ 62 }
        ensures { result.done < 2 ^ 62 }
    {
        let done = reached.done.min(TOLD_MAX);
        let is_wanted = reached.base >= self.wanted.load(SeqCst);
        News {
            done: done.max(told),
            is_more: told < done,
            base: is_wanted.then_some(reached.base),
        }
    }

    // Tells the others, after the turn: who hears of it while another has the turn would try in
    // vain.
    pub fn tell<K: SignalRule>(&self, news: News) {
        if news.is_more {
            self.phases.ring::<K>();
        }
        if let Some(base) = news.base {
            self.room.raise::<K>(base);
        }
    }

    // What a signal of so many phases from this one on wants.
    pub fn wants(&self, phase: u64, phases: u64) -> Wants {
        let most = phases.max(MORE.min(self.bound / 2));
        Wants {
            own: phase.saturating_add(phases).saturating_sub(self.bound),
            more: phase.saturating_add(most).saturating_sub(self.bound),
        }
    }

    // Wants room, under the turn, where a signal was ahead: at first for several phases, and where
    // no more than that is wanted already, for itself alone. Of two wants the least is kept.
    pub fn want(&self, refusal: Option<SignalRefusal>, wants: Wants, reached: Reached) {
        if refusal != Some(SignalRefusal::Ahead) {
            return;
        }
        let wanted = self.wanted.load(SeqCst);
        let is_open = reached.base < wanted;
        let least = if is_open && wanted <= wants.more {
            wants.own
        } else {
            wants.more
        };
        if wanted != EACH && (!is_open || least < wanted) {
            self.wanted.store(least, SeqCst);
        }
    }

    // Whether who sleeps since this room was found is woken when there is so much, at the latest.
    pub fn is_wanted(&self, found: u64, least: u64) -> bool {
        let wanted = self.wanted.load(SeqCst);
        wanted == EACH || (found < wanted && wanted <= least)
    }

    // How many phases every waiter got, as far as was told.
    pub fn told_base(&self) -> u64 {
        self.room.number.load(SeqCst)
    }

    // Returns both numbers, as far as was told, where the lock tells the first. From now on each
    // turn tells the second.
    pub fn told(&self, done: u64) -> (u64, u64) {
        self.want_each();
        let done = if done == TOLD_MAX { ENDED } else { done };
        (done, self.told_base())
    }

    fn want_each(&self) {
        if self.wanted.load(SeqCst) != EACH {
            self.wanted.store(EACH, SeqCst);
        }
    }

    // Returns how many phases from this one on may be signalled, as far as was told. From now on
    // each turn tells it.
    pub fn room(&self, phase: u64) -> u64 {
        self.want_each();
        let base = self.told_base();
        base.saturating_add(self.bound).saturating_sub(phase)
    }
}
