//! Where tasks meet on a phaser with `any`. What is expected was worked out by hand.
ghost use Rattle.std.specs.Prelude.{◌≡◌, ◌≤◌, length, IfOk};

use graph_lang::read_graph;
use std::alloc::{AllocError, Global};
use std::test::Fail;
use stream_lists::{Meeting, meeting_on};

/// On X each begins where A does, or so many phases behind: A at 0, B at 2 and C at 1. D and E are
/// alone on a phaser that adds up.
const GRAPH: &str = "phaser X any 2\nphaser Y sum 2\nsource A a.csv -> X\n\
    source B b.csv -> X by A at 2\nsource C c.csv -> X by A at 1\n\
    source D a.csv -> Y\nsource E b.csv -> Y\nsink out X\nsink sum Y\n";

const SAMPLES: [i64; 4] = [5, -3, 0, 9];

/// The first so many samples.
fn samples(alloc: Global, count: usize) -> Result<Vec<i64>, AllocError>
    ensures { IfOk result (λ list. length list.items ≤ 4) }
{
    Vec::from_slice(alloc, &SAMPLES[..count.min(4)])
}

/// Where a task meets one of an earlier line on a phaser, in that graph with so many samples of A,
/// two of B and four of C.
fn met(alloc: Global, count: usize, t: usize, p: usize) -> Result<Option<Meeting>, Fail> {
    let graph = read_graph(alloc, GRAPH.as_bytes())?;
    if t >= graph.tasks() || p >= graph.phasers() {
        return Ok(None);
    }
    let lists = [
        samples(alloc, count)?,
        samples(alloc, 2)?,
        samples(alloc, 4)?,
        samples(alloc, 3)?,
        samples(alloc, 3)?,
    ];
    Ok(meeting_on(alloc, &graph, &lists, t, p)?)
}

/// A meeting with a task at a phase.
fn with(task: usize, phase: u128) -> Option<Meeting> {
    Some(Meeting { task, phase })
}

#[test]
fn tasks_meet_in_the_first_phase_of_both(rt: HostRuntime) -> Result<(), Fail> {
    let alloc = rt.alloc();
    // A signals phases 0 to 2, B 2 and 3, C 1 to 4.
    assert_eq!(rt; met(alloc, 3, 0, 0)?, None);
    assert_eq!(rt; met(alloc, 3, 1, 0)?, with(0, 2));
    assert_eq!(rt; met(alloc, 3, 2, 0)?, with(0, 1));
    // A signals 0 and 1, and C still meets it before it meets B.
    assert_eq!(rt; met(alloc, 2, 1, 0)?, None);
    assert_eq!(rt; met(alloc, 2, 2, 0)?, with(0, 1));
    // A signals 0 alone: C meets nobody, and B, which A never adds, signals nothing.
    assert_eq!(rt; met(alloc, 1, 1, 0)?, None);
    assert_eq!(rt; met(alloc, 1, 2, 0)?, None);
    assert_eq!(rt; met(alloc, 3, 4, 1)?, None);
    Ok(())
}
