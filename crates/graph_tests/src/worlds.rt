//! Runs of a graph at their opening: what each task does next, and what the sinks have. What is
//! expected was worked out by hand.
use crate::jobs::job_of;
use crate::rounds::text_of;
use std::alloc::{AllocError, Global};
use std::test::Fail;
use stream_job::{Job, Turned, World};

/// A graph with one source and its samples; and at its opening what each task does next, a line
/// each, also of a number past them, and the sinks with their values.
struct Case {
    name: &'static str,
    graph: &'static str,
    samples: &'static str,
    opening: &'static str,
}

static CASES: [Case; 4] = [
    // late comes after a step of out
    Case {
        name: "a source signals, and others wait",
        graph: "phaser X sum 2\nphaser E sum 2\nphaser Y sum 2\nphaser A sum 2\n\
            phaser B sum 2\nphaser Z sum 2\nsource s s.csv -> X\npeer p X <-> E -> Y mul 3\n\
            split d Y -> A B\njoin j A B -> Z\nsink out Z until 1\nsink late Z by out at 1\n",
        samples: "5\n7\n",
        opening: "Sample\nWait { input: 0 }\nWait { input: 0 }\nWait { input: 0 }\n\
            Wait { input: 0 }\nNotLive\nNotLive\n4:\n5:\n",
    },
    Case {
        name: "tasks that make no step leave at once, and one registers its child first",
        graph: "phaser X sum 1\nsource s s.csv -> X until 0\nsink out X\n\
            sink first X by out at 0\nsink none X until 0\n",
        samples: "5\n",
        opening: "Leave\nRegister { child: 2 }\nNotLive\nLeave\nNotLive\n1:\n2:\n3:\n",
    },
    Case {
        name: "a source without samples leaves",
        graph: "phaser X any 64\nphaser Y least 1\nsource s s.csv -> X\n\
            fir f X -> Y shift 0 taps 1\nsink out Y\n",
        samples: "",
        opening: "Leave\nWait { input: 0 }\nWait { input: 0 }\nNotLive\n2:\n",
    },
    Case {
        name: "task eleven registers its child",
        graph: MANY,
        samples: "5\n",
        opening: "Sample\nWait { input: 0 }\nWait { input: 0 }\nWait { input: 0 }\n\
            Wait { input: 0 }\nWait { input: 0 }\nWait { input: 0 }\nWait { input: 0 }\n\
            Wait { input: 0 }\nWait { input: 0 }\nWait { input: 0 }\nRegister { child: 12 }\n\
            NotLive\nNotLive\n1:\n2:\n3:\n4:\n5:\n6:\n7:\n8:\n9:\n10:\n11:\n12:\n",
    },
];

/// A source, eleven sinks, and a child of the last of them that comes before its first step.
const MANY: &str = "phaser X sum 1\nsource s s.csv -> X\nsink a X\nsink b X\nsink c X\n\
    sink d X\nsink e X\nsink f X\nsink g X\nsink h X\nsink i X\nsink j X\nsink k X\n\
    sink late X by k at 0\n";

/// What each task below this number does next, a line each.
fn nexts_of(alloc: Global, world: &World<'_>, tasks: usize) -> Result<String, Fail> {
    let mut text = String::new(alloc);
    for task in 0..tasks {
        text.push_str(&format!(in alloc; "{:?}\n", world.next(task))?)?;
    }
    Ok(text)
}

/// What a world has at its opening.
fn opening_of(alloc: Global, world: &World<'_>, tasks: usize) -> Result<String, Fail> {
    let mut text = nexts_of(alloc, world, tasks.saturating_add(1))?;
    text.push_str(&text_of(alloc, world.lines())?)?;
    Ok(text)
}

fn job_opening(alloc: Global, job: &Job) -> Result<String, Fail> {
    let world = World::new(alloc, job)?;
    opening_of(alloc, &world, job.graph().tasks())
}

fn case_opening(alloc: Global, case: &Case) -> Result<String, Fail> {
    let job = job_of(alloc, case.graph, &[case.samples])?;
    job_opening(alloc, &job)
}

#[test]
fn tasks_stand_at_the_opening(rt: HostRuntime) -> Result<(), Fail> {
    for case in &CASES {
        let opening = case_opening(rt.alloc(), case)?;
        assert_eq!(rt; opening.as_str(), case.opening, "{}", case.name);
    }
    Ok(())
}

/// Two phasers of a level, and joiners of the two phasers above it onto each of them.
fn joined_twice(alloc: Global, level: u32) -> Result<String, AllocError> {
    let above = level.saturating_sub(1);
    format!(in alloc;
        "phaser A{level} sum 1\nphaser B{level} sum 1\n\
        join jA{level} A{above} B{above} -> A{level}\n\
        join jB{level} A{above} B{above} -> B{level}\n"
    )
}

/// Two sources, joiners on so many levels, whose lists are twice as long as those above
/// them, and a sink of the last one.
fn joined_often(alloc: Global, levels: u32) -> Result<String, Fail> {
    let mut graph = String::new(alloc);
    graph.push_str(
        "phaser A0 sum 1\nphaser B0 sum 1\nsource a a.csv -> A0\nsource b b.csv -> B0\n",
    )?;
    for level in 0..levels {
        graph.push_str(&joined_twice(alloc, level.saturating_add(1))?)?;
    }
    graph.push_str(&format!(in alloc; "sink out A{levels}\n")?)?;
    Ok(graph)
}

/// What the sink of a job has at the opening, and what the first turns of two tasks come to.
fn first_turns(
    alloc: Global,
    job: &Job,
    tasks: (usize, usize),
) -> Result<(String, Turned, Turned), Fail> {
    let mut world = World::new(alloc, job)?;
    let lines = text_of(alloc, world.lines())?;
    Ok((lines, world.turn(tasks.0)?, world.turn(tasks.1)?))
}

// The sink gets 2^20 values, and has room for them at the opening.
#[test]
fn a_sink_of_more_than_a_million_values_has_room(rt: HostRuntime) -> Result<(), Fail> {
    let graph = joined_often(rt.alloc(), 20)?;
    let job = job_of(rt.alloc(), &graph, &["5\n", "7\n"])?;
    let (lines, first, last) = first_turns(rt.alloc(), &job, (0, 42))?;
    let told = (lines.as_str(), first, last);
    assert_eq!(rt; told, ("42:\n", Turned::Moved, Turned::Blocked));
    Ok(())
}
