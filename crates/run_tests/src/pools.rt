//! Pools of tasks without a graph.
use crate::tasks::{Places, Spot, Task, run_all};
use crate::toys::Toy;
use std::alloc::Global;
use std::sync::Wait;
use std::test::Fail;
use std::thread::Threads;
use worker_pool::{Fault, Pool};

/// Tasks that meet at a first place of this number and bound, by each number of workers: how their
/// run ends, and how many were taken at that place.
struct Case {
    name: &'static str,
    number: usize,
    bound: u64,
    tasks: &'static [Task],
    workers: &'static [usize],
    end: Option<Fault>,
    taken: u64,
}

static CASES: [Case; 16] = [
    Case {
        name: "a chain of bound 1 is done",
        number: 7,
        bound: 1,
        tasks: &[Task::Sink(1000), Task::Source(1000)],
        workers: &[1, 2, 16],
        end: None,
        taken: 1000,
    },
    Case {
        name: "a chain of bound 64 is done",
        number: 7,
        bound: 64,
        tasks: &[Task::Sink(1000), Task::Source(1000)],
        workers: &[1, 2, 16],
        end: None,
        taken: 1000,
    },
    Case {
        name: "a chain of bound 1000 is done",
        number: 7,
        bound: 1000,
        tasks: &[Task::Sink(1000), Task::Source(1000)],
        workers: &[1, 2, 16],
        end: None,
        taken: 1000,
    },
    // The source is put back after as many turns as a worker makes in a row, and is full then.
    Case {
        name: "what was put by the last turn in a row is told",
        number: 7,
        bound: 1024,
        tasks: &[Task::Sink(2000), Task::Source(2000)],
        workers: &[1, 2, 16],
        end: None,
        taken: 2000,
    },
    Case {
        name: "a sink without a source stands still",
        number: 0,
        bound: 1,
        tasks: &[Task::Sink(1), Task::Sink(1)],
        workers: &[1, 2, 16],
        end: Some(Fault::Stalled),
        taken: 0,
    },
    // Each is held until both have put, though they meet on one phaser.
    Case {
        name: "two that are held until both came",
        number: 63,
        bound: 2,
        tasks: &[Task::Meets(2), Task::Meets(2)],
        workers: &[2, 16],
        end: None,
        taken: 0,
    },
    // The one that is held has taken what the other waits for, and its worker has not told it.
    Case {
        name: "one that is held lets the other go on",
        number: 5,
        bound: 1,
        tasks: &[Task::Source(2), Task::Held(2)],
        workers: &[2, 16],
        end: None,
        taken: 1,
    },
    // One waits at a place at which the other has put, and told it, since the one was taken: it is
    // not left to wait.
    Case {
        name: "one that waits too late goes on",
        number: 1,
        bound: 1,
        tasks: &[Task::Late(Spot::Go), Task::Tells(Spot::At)],
        workers: &[2, 16],
        end: None,
        taken: 0,
    },
    // The first is held until the second goes on, though nothing was told at its place, and the
    // second then until the third does.
    Case {
        name: "one that was tried and is held",
        number: 2,
        bound: 1,
        tasks: &[Task::Late(Spot::At), Task::Tried, Task::Tells(Spot::Other)],
        workers: &[2, 16],
        end: None,
        taken: 0,
    },
    Case {
        name: "a child comes",
        number: 1,
        bound: 1,
        tasks: &[Task::Parent(1, 3), Task::Child(0)],
        workers: &[1, 2, 16],
        end: None,
        taken: 0,
    },
    Case {
        name: "a child that does not come is not gone on with",
        number: 1,
        bound: 1,
        tasks: &[Task::Done, Task::Child(0)],
        workers: &[1, 2, 16],
        end: None,
        taken: 0,
    },
    Case {
        name: "a task that is its own child is a fault",
        number: 1,
        bound: 1,
        tasks: &[Task::Parent(0, 3), Task::Done],
        workers: &[1, 2, 16],
        end: Some(Fault::Stalled),
        taken: 0,
    },
    Case {
        name: "a child that there is not is a fault",
        number: 1,
        bound: 1,
        tasks: &[Task::Parent(2, 3), Task::Done],
        workers: &[1, 2, 16],
        end: Some(Fault::Stalled),
        taken: 0,
    },
    Case {
        name: "a value too big ends the others",
        number: 1,
        bound: 1,
        tasks: &[Task::Endless, Task::Fails(Fault::TooBig, 5000)],
        workers: &[1, 2, 16],
        end: Some(Fault::TooBig),
        taken: 0,
    },
    Case {
        name: "a want of memory ends the others",
        number: 1,
        bound: 1,
        tasks: &[Task::Endless, Task::Fails(Fault::OutOfMemory, 5000)],
        workers: &[1, 2, 16],
        end: Some(Fault::OutOfMemory),
        taken: 0,
    },
    Case {
        name: "a stall ends the others",
        number: 1,
        bound: 1,
        tasks: &[Task::Endless, Task::Fails(Fault::Stalled, 5000)],
        workers: &[1, 2, 16],
        end: Some(Fault::Stalled),
        taken: 0,
    },
];

#[test]
fn pools_run_to_their_ends(rt: HostRuntime) -> Result<(), Fail> {
    for case in &CASES {
        for workers in case.workers {
            let places = Places::new(case.number, case.bound);
            let end = run_all(&rt, rt.alloc(), &places, case.tasks, *workers);
            assert_eq!(rt;
                (end, places.at.taken()),
                (Some(case.end), case.taken),
                "{}: by {workers} workers",
                case.name
            );
        }
    }
    Ok(())
}

// A chain of a thousand by one worker: how it ended, and how often its tasks tried.
fn run_chain<R: Threads + Wait + Sync>(
    rt: &R,
    alloc: Global,
    bound: u64,
) -> (Option<Option<Fault>>, u64) {
    let places = Places::new(7, bound);
    let end = run_all(
        rt,
        alloc,
        &places,
        &[Task::Sink(1000), Task::Source(1000)],
        1,
    );
    (end, places.at.turns())
}

// A task that waits is not taken again before something happens where it waits.
#[test]
fn a_task_that_waits_is_left_alone(rt: HostRuntime) -> Result<(), Fail> {
    // the sink tries once in vain
    assert_eq!(rt; run_chain(&rt, rt.alloc(), 1000), (Some(None), 2001));
    let (_, turns) = run_chain(&rt, rt.alloc(), 1);
    // with room for one each tries in vain before each but its first or last
    assert!(rt; turns <= 4000);
    Ok(())
}

// Puts in as many as it takes. How many were taken.
fn fill<'a>(pool: &mut Pool<Toy<'a>>) -> usize {
    for count in 0..100 {
        if pool.push(Toy::Done).is_err() {
            return count;
        }
    }
    100
}

// Takes out all. How many there were.
fn take_all<'a>(pool: &mut Pool<Toy<'a>>) -> usize {
    for count in 0..100 {
        let Some(_) = pool.pop() else {
            return count;
        };
    }
    100
}

#[test]
fn a_pool_has_64_tasks_at_most(rt: HostRuntime) -> Result<(), Fail> {
    let mut pool = Pool::with_room(rt.alloc(), 64)?;
    assert_eq!(rt; fill(&mut pool), 64);
    assert!(rt; pool.push_child(Toy::Done).is_err());
    assert_eq!(rt; pool.run(&rt, 3), None);
    assert_eq!(rt; take_all(&mut pool), 64);
    Ok(())
}
