//! Tasks without a graph as plain values, and runs of them in a pool.
use crate::toys::{Place, Toy};
use std::alloc::Global;
use std::sync::Wait;
use std::thread::Threads;
use worker_pool::{Fault, Pool};

/// The places at which the tasks of a pool meet.
#[derive(Drop)]
pub struct Places {
    pub at: Place,
    go: Place,
    other: Place,
}

/// One of the places.
#[derive(Clone, Copy)]
pub enum Spot {
    At,
    Go,
    Other,
}

impl Places {
    /// The first has this number and this bound.
    pub fn new(number: usize, bound: u64) -> Places {
        Places {
            at: Place::new(number, bound),
            go: Place::new(3, 1),
            other: Place::new(5, 1),
        }
    }

    fn spot(&self, spot: Spot) -> &Place {
        match spot {
            Spot::At => &self.at,
            Spot::Go => &self.go,
            Spot::Other => &self.other,
        }
    }
}

/// A toy, at the first place unless it names one.
#[derive(Clone, Copy)]
pub enum Task {
    Source(u64),
    Sink(u64),
    Held(u64),
    Meets(u64),
    /// Looks at a place.
    Late(Spot),
    /// Puts at a place, and then at `go`.
    Tells(Spot),
    Tried,
    Parent(usize, u64),
    Child(u64),
    Endless,
    Fails(Fault, u64),
    Done,
}

fn toy<'a>(places: &'a Places, task: Task) -> Toy<'a> {
    let (at, go) = (&places.at, &places.go);
    match task {
        Task::Source(left) => Toy::Source { at, left },
        Task::Sink(left) => Toy::Sink { at, left },
        Task::Held(until) => Toy::Held { at, until },
        Task::Meets(until) => Toy::Meets {
            at,
            has_put: false,
            until,
        },
        Task::Late(spot) => Toy::Late {
            at,
            go: places.spot(spot),
            has_looked: false,
        },
        Task::Tells(spot) => Toy::Tells {
            at: places.spot(spot),
            go,
            turns: 0,
        },
        Task::Tried => Toy::Tried { at, go, turns: 0 },
        Task::Parent(child, left) => Toy::Parent { child, left },
        Task::Child(left) => Toy::Child { at, left },
        Task::Endless => Toy::Endless,
        Task::Fails(fault, left) => Toy::Fails { fault, left },
        Task::Done => Toy::Done,
    }
}

/// Runs tasks, children not from the start. None where there was no memory.
pub fn run_all<R: Threads + Wait + Sync>(
    rt: &R,
    alloc: Global,
    places: &Places,
    tasks: &[Task],
    workers: usize,
) -> Option<Option<Fault>> {
    let mut pool = Pool::with_room(alloc, tasks.len()).ok()?;
    for task in tasks {
        match toy(places, *task) {
            Toy::Child { at, left } => pool.push_child(Toy::Child { at, left }).ok()?,
            other => pool.push(other).ok()?,
        }
    }
    Some(pool.run(rt, workers))
}
