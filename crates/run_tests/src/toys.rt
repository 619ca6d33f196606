//! Tasks without a graph.
use std::sync::atomic::AtomicU64;
use std::sync::atomic::Ordering::SeqCst;
use std::thread;
use worker_pool::{Fault, Progress, Work};

// How often a task that is held looks whether it may go on.
const LOOKS: u32 = 100_000;

/// A phaser of one task that puts and one that takes: how many it has of each.
#[derive(Drop)]
pub struct Place {
    number: usize,
    bound: u64,
    put: AtomicU64,
    taken: AtomicU64,
    turns: AtomicU64,
}

impl Place {
    pub fn new(number: usize, bound: u64) -> Place {
        Place {
            number,
            bound,
            put: AtomicU64::new(0),
            taken: AtomicU64::new(0),
            turns: AtomicU64::new(0),
        }
    }

    /// How many were taken.
    pub fn taken(&self) -> u64 {
        self.taken.load(SeqCst)
    }

    /// How often a task tried.
    pub fn turns(&self) -> u64 {
        self.turns.load(SeqCst)
    }

    fn is_full(&self) -> bool {
        self.put.load(SeqCst).saturating_sub(self.taken()) >= self.bound
    }

    // Puts one, where there is room.
    fn put(&self) -> Progress {
        self.turns.fetch_add(1, SeqCst);
        if self.is_full() {
            return Progress::Blocked(self.number);
        }
        self.put.fetch_add(1, SeqCst);
        Progress::Moved(self.number)
    }

    // Takes one, where there is one.
    fn take(&self) -> Progress {
        self.turns.fetch_add(1, SeqCst);
        if self.put.load(SeqCst) <= self.taken() {
            return Progress::Blocked(self.number);
        }
        self.taken.fetch_add(1, SeqCst);
        Progress::Moved(self.number)
    }

    /// Waits until so many were put. Tells whether it saw them.
    fn sees_put(&self, count: u64) -> bool {
        for _ in 0..LOOKS {
            if self.put.load(SeqCst) >= count {
                return true;
            }
            thread::yield_now();
        }
        false
    }
}

/// What a task of the tests does.
#[derive(Drop)]
pub enum Toy<'a> {
    /// Puts so many.
    Source {
        at: &'a Place,
        left: u64,
    },
    /// Takes so many.
    Sink {
        at: &'a Place,
        left: u64,
    },
    /// Takes one, and is held until so many were put.
    Held {
        at: &'a Place,
        until: u64,
    },
    /// Puts one, which makes no other wait, and is held until so many were put.
    Meets {
        at: &'a Place,
        has_put: bool,
        until: u64,
    },
    /// Is held until one was put at the second place, and then waits at the first. It is done when
    /// it is taken again.
    Late {
        at: &'a Place,
        go: &'a Place,
        has_looked: bool,
    },
    /// Puts one at the first place and waits at the second. When it is taken again, it puts one
    /// there.
    Tells {
        at: &'a Place,
        go: &'a Place,
        turns: u64,
    },
    /// Waits at the first place. When it is taken again, it puts one there and is held until one
    /// was put at the second.
    Tried {
        at: &'a Place,
        go: &'a Place,
        turns: u64,
    },
    /// Goes on for so many turns, and then its child of this number comes.
    Parent {
        child: usize,
        left: u64,
    },
    /// Has not come yet. Then it goes on as a sink.
    Child {
        at: &'a Place,
        left: u64,
    },
    /// Never ends by itself.
    Endless,
    /// Fails after so many turns.
    Fails {
        fault: Fault,
        left: u64,
    },
    /// Is done.
    Done,
}

impl<'a> Toy<'a> {
    // One less to do; done where none is left.
    fn moved(&mut self, turned: Progress) -> Progress {
        if let Progress::Moved(_) = turned {
            match self {
                Toy::Source { left, .. } | Toy::Sink { left, .. } => {
                    *left = left.saturating_sub(1);
                }
                _ => {}
            }
        }
        turned
    }

    // Takes one, and is then held until so many were put.
    fn held(&mut self, at: &'a Place, until: u64) -> Progress {
        if at.taken() == 0 {
            return at.take();
        }
        *self = Toy::Done;
        seen_by(at, until)
    }

    // Puts one, and is then held until so many were put.
    fn meets(&mut self, at: &'a Place, has_put: bool, until: u64) -> Progress {
        if has_put {
            *self = Toy::Done;
            return seen_by(at, until);
        }
        *self = Toy::Meets {
            at,
            has_put: true,
            until,
        };
        at.put()
    }

    // Waits at one place once it has seen what was put at the other.
    fn late(&mut self, at: &'a Place, go: &'a Place, has_looked: bool) -> Progress {
        if has_looked {
            *self = Toy::Done;
            return Progress::Gone;
        }
        *self = Toy::Late {
            at,
            go,
            has_looked: true,
        };
        match seen_by(go, 1) {
            Progress::Ready => Progress::Blocked(at.number),
            turned => turned,
        }
    }

    // Puts one at one place, waits, and puts one at the other.
    fn tells(&mut self, at: &'a Place, go: &'a Place, turns: u64) -> Progress {
        *self = match turns {
            0 | 1 => Toy::Tells {
                at,
                go,
                turns: turns.wrapping_add(1),
            },
            _ => Toy::Done,
        };
        match turns {
            0 => at.put(),
            1 => Progress::Blocked(go.number),
            _ => go.put(),
        }
    }

    // Waits at one place, puts one there, and is held until one was put at the other.
    fn tried(&mut self, at: &'a Place, go: &'a Place, turns: u64) -> Progress {
        *self = match turns {
            0 | 1 => Toy::Tried {
                at,
                go,
                turns: turns.wrapping_add(1),
            },
            _ => Toy::Done,
        };
        match turns {
            0 => Progress::Blocked(at.number),
            1 => at.put(),
            _ => seen_by(go, 1),
        }
    }

    fn parent(&mut self, child: usize, left: u64) -> Progress {
        if left == 0 {
            *self = Toy::Done;
            return Progress::Child(child);
        }
        *self = Toy::Parent {
            child,
            left: left.wrapping_sub(1),
        };
        Progress::Ready
    }

    fn fails(&mut self, fault: Fault, left: u64) -> Progress {
        if left == 0 {
            return Progress::Failed(fault);
        }
        *self = Toy::Fails {
            fault,
            left: left.wrapping_sub(1),
        };
        Progress::Ready
    }
}

// Fails as a value too big would, where it has waited for too long.
fn seen_by(at: &Place, until: u64) -> Progress {
    if at.sees_put(until) {
        Progress::Ready
    } else {
        Progress::Failed(Fault::TooBig)
    }
}

impl<'a> Work for Toy<'a> {
    fn phasers(&self) -> u64 {
        match self {
            Toy::Source { at, .. }
            | Toy::Sink { at, .. }
            | Toy::Held { at, .. }
            | Toy::Meets { at, .. }
            | Toy::Late { at, .. }
            | Toy::Tells { go: at, .. }
            | Toy::Tried { go: at, .. }
            | Toy::Child { at, .. } => 1u64.wrapping_shl((at.number & 63) as u32),
            _ => 0,
        }
    }

    fn turn(&mut self) -> Progress {
        match *self {
            Toy::Source { left: 0, .. } | Toy::Sink { left: 0, .. } | Toy::Done => Progress::Gone,
            Toy::Source { at, .. } => self.moved(at.put()),
            Toy::Sink { at, .. } => self.moved(at.take()),
            Toy::Held { at, until } => self.held(at, until),
            Toy::Meets { at, has_put, until } => self.meets(at, has_put, until),
            Toy::Late { at, go, has_looked } => self.late(at, go, has_looked),
            Toy::Tells { at, go, turns } => self.tells(at, go, turns),
            Toy::Tried { at, go, turns } => self.tried(at, go, turns),
            Toy::Parent { child, left } => self.parent(child, left),
            Toy::Child { .. } => Progress::Failed(Fault::OutOfMemory),
            Toy::Endless => Progress::Ready,
            Toy::Fails { fault, left } => self.fails(fault, left),
        }
    }

    fn effort(&self) -> u64 {
        0
    }

    fn bring(&mut self, child: &mut Toy<'a>) -> bool {
        let Toy::Child { at, left } = *child else {
            return false;
        };
        *child = Toy::Sink { at, left };
        true
    }
}
