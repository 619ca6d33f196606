//! How a waiting call pauses: it looks, then yields, then sleeps.
use crate::rule::SignalRule;
use crate::seats::hints::Bell;
use crate::seats::locked::LockedPhaser;
use phase_accum::Accumulate;
use std::sync::Wait;
use std::{hint, thread};

// How often a pause looks while it spins, and how often it then yields.
const LOOKS: u32 = 15;

const YIELDS: u32 = 60;

// What a pause is for: so many complete phases, or so many phases that every waiter got.
#[derive(Clone, Copy)]
enum Aim {
    Phases(u64),
    Room(u64),
}

impl<A: Accumulate, K: SignalRule> LockedPhaser<A, K> {
    fn is_reached(&self, aim: Aim) -> bool {
        match aim {
            Aim::Phases(least) => self.told() >= least,
            Aim::Room(least) => self.hints.told_base() >= least,
        }
    }

    // Whether it is seen while the thread spins.
    fn is_seen(&self, aim: Aim) -> bool {
        for _ in 0..LOOKS {
            if self.is_reached(aim) {
                return true;
            }
            hint::spin_loop();
        }
        false
    }

    // Whether it is seen soon, while the thread spins and then yields.
    fn comes_soon(&self, aim: Aim) -> bool {
        if self.is_seen(aim) {
            return true;
        }
        for _ in 0..YIELDS {
            if self.is_reached(aim) {
                return true;
            }
            thread::yield_now();
        }
        false
    }

    // Sleeps for some time, or until others went on, if these wake who sleeps for that.
    fn sleep<W: Wait>(&self, rt: &W, aim: Aim) {
        let bell: &Bell = match aim {
            Aim::Phases(_) => &self.hints.phases,
            Aim::Room(_) => &self.hints.room,
        };
        let found = bell.lie_down();
        let is_woken = match aim {
            Aim::Phases(_) => true,
            Aim::Room(least) => self.hints.is_wanted(found, least),
        };
        if is_woken && !self.is_reached(aim) {
            bell.sleep(rt, found);
        }
        bell.get_up();
    }

    /// Pauses while the phase is not complete, or for some time, before a wait for so many phases.
    /// A wait for none, or for more than the bound, is refused, and does not pause.
    pub fn pause_for_phase<W: Wait>(&self, rt: &W, phase: u64, phases: u64) {
        let aim = Aim::Phases(phase.saturating_add(1));
        if phases != 0 && phases <= self.hints.bound() && !self.comes_soon(aim) {
            self.sleep(rt, aim);
        }
    }

    /// Pauses while a signal of so many phases from this one on is ahead, or for some time. At
    /// first it is for room for several, and then it does not sleep.
    pub fn pause_for_room<W: Wait>(&self, rt: &W, phase: u64, phases: u64, is_first: bool) {
        let wants = self.hints.wants(phase, phases);
        let is_over = is_first && self.comes_soon(Aim::Room(wants.more));
        if is_over || (is_first && wants.own < wants.more) {
            return;
        }
        self.sleep(rt, Aim::Room(wants.own));
    }
}
