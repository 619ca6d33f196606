//! Gates that hold workers, and what they see of a run.
use crate::children::SECOND_FILTER;
use crate::jobs::{WORKERS, job_of, told};
use std::sync::atomic::AtomicU64;
use std::sync::atomic::Ordering::SeqCst;
use std::test::Fail;
use std::thread;
use std::time::{Clock, Duration};
use stream_workers::Gate;

// How often a worker that is held looks whether it may go on.
const LOOKS: u32 = 100_000;

// Whether the count comes to this while a worker looks.
fn comes_to(count: &AtomicU64, wanted: u64) -> bool {
    for _ in 0..LOOKS {
        if count.load(SeqCst) >= wanted {
            return true;
        }
        thread::yield_now();
    }
    false
}

/// Holds two sources in their first step until both have entered it.
#[derive(Drop)]
struct Together {
    entered: AtomicU64,
    missed: AtomicU64,
}

impl Together {
    fn new() -> Together {
        Together {
            entered: AtomicU64::new(0),
            missed: AtomicU64::new(0),
        }
    }

    // Holds the first of two until the second has come.
    fn hold(&self) {
        self.entered.fetch_add(1, SeqCst);
        if !comes_to(&self.entered, 2) {
            self.missed.store(1, SeqCst);
        }
    }

    // How many have come, and whether the second has not for too long.
    fn seen(&self) -> (u64, u64) {
        (self.entered.load(SeqCst), self.missed.load(SeqCst))
    }
}

impl Gate for Together {
    fn at(&self, task: usize, step: u64) {
        if task < 2 && step == 0 {
            self.hold();
        }
    }

    fn is_open(&self) -> bool {
        false
    }
}

const BUS: &str = "phaser X sum 2\nsource a a.csv -> X\nsource b b.csv -> X\nsink out X\n";

#[test]
fn two_sources_enter_their_first_step_together(rt: HostRuntime) -> Result<(), Fail> {
    let job = job_of(rt.alloc(), BUS, &["1\n2\n", "10\n20\n"])?;
    for workers in [2, 16] {
        let gate = Together::new();
        let told = told(&rt, rt.alloc(), &job, workers, &gate)?;
        assert_eq!(rt; (told.as_str(), gate.seen()), ("out 2\n11\n22\n", (2, 0)));
    }
    Ok(())
}

/// Sleeps in the first step of task 0 for two seconds, in which no other is there. Then it holds
/// task 0 in its step 2 and task 1 in its first until both are entered.
#[derive(Drop)]
struct Slow<'a, C> {
    rt: &'a C,
    together: Together,
}

impl<'a, C: Clock> Gate for Slow<'a, C> {
    fn at(&self, task: usize, step: u64) {
        match (task, step) {
            (0, 0) => thread::sleep(self.rt, Duration::from_secs(2)),
            (0, 2) | (1, 0) => self.together.hold(),
            _ => {}
        }
    }

    fn is_open(&self) -> bool {
        false
    }
}

#[test]
fn workers_that_slept_for_long_go_on(rt: HostRuntime) -> Result<(), Fail> {
    let graph = "phaser X sum 4\nsource s s.csv -> X\nsource c c.csv -> X by s at 1\n";
    let job = job_of(rt.alloc(), graph, &["1\n2\n3\n", "10\n"])?;
    for workers in [2, 16] {
        let gate = Slow {
            rt: &rt,
            together: Together::new(),
        };
        let told = told(&rt, rt.alloc(), &job, workers, &gate)?;
        assert_eq!(rt;
            (told.as_str(), gate.together.seen()),
            ("", (2, 0)),
            "by {workers} workers"
        );
    }
    Ok(())
}

/// Holds task 1 in its step 2 until task 0 has entered its step 3.
#[derive(Drop)]
struct Behind {
    ahead: AtomicU64,
    missed: AtomicU64,
}

impl Gate for Behind {
    fn at(&self, task: usize, step: u64) {
        match (task, step) {
            (0, 3) => self.ahead.store(1, SeqCst),
            (1, 2) if !comes_to(&self.ahead, 1) => self.missed.store(1, SeqCst),
            _ => {}
        }
    }

    fn is_open(&self) -> bool {
        false
    }
}

const FIR: &str = "phaser X sum 4\nphaser Y sum 4\nsource s s.csv -> X\n\
    fir f X -> Y shift 0 taps 1 1\nsink out Y\n";

/// A graph whose task 1 is held in its step 2 until task 0 is in its last, which is step 3, and
/// what its run ends with.
struct Held {
    name: &'static str,
    graph: &'static str,
    wanted: &'static str,
}

static HELD: [Held; 2] = [
    Held {
        name: "a filter is held",
        graph: FIR,
        wanted: "out 4\n1\n3\n5\n7\n",
    },
    Held {
        name: "a parent is held where it has just registered its child",
        graph: SECOND_FILTER,
        wanted: "out 4\n1\n3\n8\n7\n",
    },
];

#[test]
fn a_task_is_held_until_its_source_is_at_its_last_step(rt: HostRuntime) -> Result<(), Fail> {
    for case in &HELD {
        let job = job_of(rt.alloc(), case.graph, &["1\n2\n3\n4\n"])?;
        for workers in [2, 16] {
            let gate = Behind {
                ahead: AtomicU64::new(0),
                missed: AtomicU64::new(0),
            };
            let told = told(&rt, rt.alloc(), &job, workers, &gate)?;
            let seen = (gate.ahead.load(SeqCst), gate.missed.load(SeqCst));
            assert_eq!(rt;
                (told.as_str(), seen),
                (case.wanted, (1, 0)),
                "{}: by {workers} workers",
                case.name
            );
        }
    }
    Ok(())
}

/// Counts the entries of eight tasks, and those to another step than is next: by blocks of so many
/// steps, but none past the end.
#[derive(Drop)]
struct Counted {
    steps: [AtomicU64; 8],
    wrong: AtomicU64,
    block: u64,
    end: u64,
}

impl Counted {
    fn new(block: u64, end: u64) -> Counted {
        Counted {
            block,
            end,
            steps: [
                AtomicU64::new(0),
                AtomicU64::new(0),
                AtomicU64::new(0),
                AtomicU64::new(0),
                AtomicU64::new(0),
                AtomicU64::new(0),
                AtomicU64::new(0),
                AtomicU64::new(0),
            ],
            wrong: AtomicU64::new(0),
        }
    }

    // How often each task entered.
    fn entered(&self) -> [u64; 8] {
        let mut entered = [0; 8];
        for task in 0..8 {
            entered[task] = self.steps[task].load(SeqCst);
        }
        entered
    }
}

impl Gate for Counted {
    fn at(&self, task: usize, step: u64) {
        let entered = match self.steps.get(task) {
            Some(steps) => steps.fetch_add(1, SeqCst),
            None => u64::MAX,
        };
        if entered.saturating_mul(self.block).min(self.end) != step {
            self.wrong.fetch_add(1, SeqCst);
        }
    }

    fn is_open(&self) -> bool {
        false
    }
}

/// A graph, the samples of its sources, the block of its tasks, the step behind their last, what
/// its run ends with, and how often each task enters.
struct Entries {
    name: &'static str,
    graph: &'static str,
    samples: &'static [&'static str],
    block: u64,
    end: u64,
    wanted: &'static str,
    entered: [u64; 8],
}

// A source enters a step for each sample. Another task enters one more than it makes, in which it
// is told that no value comes, unless `until` ends it before. A step is entered once, also where it
// waits twice, and where the task is refused and comes again; and a block once, with its first.
static ENTRIES: [Entries; 8] = [
    // The source enters 0, 3 and 6, and the sink also 7.
    Entries {
        name: "blocks of three",
        graph: "graph 2\nphaser X sum 4\nsource s s.csv -> X block=3\nsink out X block=3\n",
        samples: &["1\n2\n3\n4\n5\n6\n7\n"],
        block: 3,
        end: 7,
        wanted: "out 7\n1\n2\n3\n4\n5\n6\n7\n",
        entered: [3, 4, 0, 0, 0, 0, 0, 0],
    },
    Entries {
        name: "a filter",
        graph: FIR,
        samples: &["1\n2\n3\n4\n"],
        block: 1,
        end: 4,
        wanted: "out 4\n1\n3\n5\n7\n",
        entered: [4, 5, 5, 0, 0, 0, 0, 0],
    },
    Entries {
        name: "a splitter and a joiner",
        graph: "phaser X sum 1\nphaser A sum 1\nphaser B sum 1\nphaser Y sum 1\n\
            source s s.csv -> X\nsplit d X -> A B\njoin j A B -> Y\nsink out Y\n",
        samples: &["1\n2\n3\n4\n5\n"],
        block: 1,
        end: 5,
        wanted: "out 5\n1\n2\n3\n4\n5\n",
        entered: [5, 6, 6, 6, 0, 0, 0, 0],
    },
    Entries {
        name: "a decimator",
        graph: "graph 3\nphaser X sum 1\nphaser Y sum 1\nsource s s.csv -> X\n\
            decimate d X -> Y every 3\nsink out Y\n",
        samples: &["3\n1\n4\n1\n5\n9\n2\n"],
        block: 1,
        end: 7,
        wanted: "out 3\n3\n1\n2\n",
        entered: [7, 8, 4, 0, 0, 0, 0, 0],
    },
    Entries {
        name: "two peers",
        graph: "phaser X sum 2\nphaser Z sum 2\nphaser E sum 2\nphaser P sum 2\nphaser Q sum 2\n\
            source a a.csv -> X\nsource b b.csv -> Z\npeer p X <-> E -> P mul 2\n\
            peer q Z <-> E -> Q mul 2\nsink outp P\nsink outq Q\n",
        samples: &["1\n2\n", "10\n20\n30\n"],
        block: 1,
        end: 3,
        wanted: "outp 2\n-9\n-18\noutq 3\n9\n18\n30\n",
        entered: [2, 3, 3, 4, 3, 4, 0, 0],
    },
    // The children begin at their own step 0, and `g` and `none` end by `until`.
    Entries {
        name: "children",
        graph: "phaser X sum 4\nphaser Y sum 4\nsource s s.csv -> X\n\
            fir f X -> Y shift 0 taps 1 1\nfir g X -> Y shift 0 taps 1 1 by f at 2 until 1\n\
            sink out Y\nsink late Y by out at 1\nsink never Y by late at 4\nsink none Y until 0\n",
        samples: &["1\n2\n3\n4\n"],
        block: 1,
        end: 4,
        wanted: "out 4\n1\n3\n8\n7\nlate 3\n3\n8\n7\nnever 0\nnone 0\n",
        entered: [4, 5, 1, 5, 4, 0, 0, 0],
    },
    Entries {
        name: "tasks that end early",
        graph: "phaser X sum 1\nsource s s.csv -> X until 3\nsink early X until 2\nsink out X\n",
        samples: &["1\n2\n3\n4\n5\n"],
        block: 1,
        end: 5,
        wanted: "early 2\n1\n2\nout 3\n1\n2\n3\n",
        entered: [3, 2, 4, 0, 0, 0, 0, 0],
    },
    // The source stands in its seventh step: `g` has one sample too many for the bounds of 1.
    Entries {
        name: "a splitter and a filter stand still",
        graph: "phaser X sum 1\nphaser A sum 1\nphaser B sum 1\nphaser S sum 1\n\
            source s s.csv -> X\nsplit d X -> A B\nfir f A -> S shift 0 taps 1\n\
            fir g X -> S shift 0 taps 1\nsink out S\n",
        samples: &["1\n2\n3\n4\n5\n6\n7\n"],
        block: 1,
        end: 7,
        wanted: "stalled\n",
        entered: [7, 7, 4, 5, 4, 0, 0, 0],
    },
];

#[test]
fn each_step_is_entered_once_and_in_order(rt: HostRuntime) -> Result<(), Fail> {
    for case in &ENTRIES {
        let job = job_of(rt.alloc(), case.graph, case.samples)?;
        for workers in WORKERS {
            let gate = Counted::new(case.block, case.end);
            let told = told(&rt, rt.alloc(), &job, workers, &gate)?;
            assert_eq!(rt;
                (told.as_str(), gate.entered(), gate.wrong.load(SeqCst)),
                (case.wanted, case.entered, 0),
                "{}: by {workers} workers",
                case.name
            );
        }
    }
    Ok(())
}
