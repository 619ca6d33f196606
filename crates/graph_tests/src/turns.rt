//! Turns in a given order.
use crate::jobs::{at_bound, job_of};
use crate::rounds::{in_rotation, one_round, text_of};
use graph_base::Place;
use std::alloc::{AllocError, Global};
use std::test::Fail;
use stream_job::{Job, Turned, World, run_turns};

/// A graph with a `?` for the bound of each phaser, the samples of its source, how many rounds of
/// turns its tasks have first, turns of them with what each comes to, and what the sink has after
/// them. The run is not stalled then.
struct Case {
    name: &'static str,
    graph: &'static str,
    samples: &'static str,
    rounds: usize,
    turns: &'static [(usize, Turned)],
    lines: &'static str,
}

const BOUNDS: [u64; 3] = [1, 4, 64];

const TOLD: Turned = Turned::TooBig {
    place: Place::Task(1),
    phase: 0,
};

const SECOND: Turned = Turned::TooBig {
    place: Place::Task(1),
    phase: 1,
};

static CASES: [Case; 8] = [
    Case {
        name: "each turn makes one event",
        graph: "phaser X sum ?\nphaser Y sum ?\nsource s s.csv -> X\n\
            fir f X -> Y shift 2 taps 1 2 1\nsink out Y\n",
        samples: "-4\n",
        rounds: 0,
        turns: &[
            (1, Turned::Blocked),
            (0, Turned::Moved),
            (2, Turned::Blocked),
            (1, Turned::Moved),
            (1, Turned::Moved),
            (2, Turned::Moved),
            (0, Turned::Ended),
            (0, Turned::Gone),
            (1, Turned::Moved),
            (1, Turned::Ended),
            (2, Turned::Ended),
            (2, Turned::Gone),
        ],
        lines: "2: -1\n",
    },
    Case {
        name: "a task that is not there is gone",
        graph: "phaser X sum ?\nphaser Y sum ?\nsource s s.csv -> X\n\
            fir f X -> Y shift 0 taps 2\nsink out Y\n",
        samples: "1\n",
        rounds: 0,
        turns: &[
            (3, Turned::Gone),
            (4, Turned::Gone),
            (64, Turned::Gone),
            (18446744073709551615, Turned::Gone),
            (0, Turned::Moved),
        ],
        lines: "2:\n",
    },
    Case {
        name: "after a value out of range each turn tells it",
        graph: "phaser X sum ?\nphaser Y sum ?\nsource s s.csv -> X\n\
            fir f X -> Y shift 0 taps 2\nsink out Y\n",
        samples: "9223372036854775807\n3\n",
        rounds: 10,
        turns: &[
            (0, TOLD),
            (1, TOLD),
            (2, TOLD),
            (3, TOLD),
            (18446744073709551615, TOLD),
        ],
        lines: "2:\n",
    },
    Case {
        name: "a child of task eleven registers",
        graph: "phaser X sum 1\nsource s s.csv -> X\nsink a X\nsink b X\nsink c X\n\
            sink d X\nsink e X\nsink f X\nsink g X\nsink h X\nsink i X\nsink j X\n\
            sink k X\nsink late X by k at 0\n",
        samples: "5\n",
        rounds: 0,
        turns: &[
            (12, Turned::Gone),
            (11, Turned::Moved),
            (12, Turned::Blocked),
            (0, Turned::Moved),
            (12, Turned::Moved),
        ],
        lines: "1:\n2:\n3:\n4:\n5:\n6:\n7:\n8:\n9:\n10:\n11:\n12: 5\n",
    },
    Case {
        name: "a sink joins now where the stream stands",
        graph: "graph 2\nphaser X sum 4\nsource s s.csv -> X block=4\nsink out X block=2\n\
            sink late X by out at 2 now\n",
        samples: "1\n2\n3\n4\n",
        rounds: 0,
        turns: &[
            (0, Turned::Moved),
            (1, Turned::Moved),
            (1, Turned::Moved),
            (0, Turned::Ended),
            (1, Turned::Moved),
            (1, Turned::Ended),
            (2, Turned::Ended),
            (2, Turned::Gone),
        ],
        lines: "1: 1 2 3 4\n2 from 4:\n",
    },
    Case {
        name: "a block goes no further than a child's place or until",
        graph: "graph 2\nphaser X sum 4\nsource s s.csv -> X block=4\nsink out X block=4\n\
            sink late X by out at 2\nsink early X until 2 block=4\n",
        samples: "1\n2\n3\n4\n",
        rounds: 0,
        turns: &[
            (0, Turned::Moved),
            (1, Turned::Moved),
            (1, Turned::Moved),
            (1, Turned::Moved),
            (3, Turned::Moved),
            (3, Turned::Ended),
            (0, Turned::Ended),
            (1, Turned::Ended),
            (2, Turned::Moved),
            (2, Turned::Moved),
            (2, Turned::Ended),
        ],
        lines: "1: 1 2 3 4\n2: 3 4\n3: 1 2\n",
    },
    Case {
        name: "a block that does not fit whole is not signalled",
        graph: "graph 2\nphaser X sum 4\nsource s s.csv -> X block=3\nsink out X\n",
        samples: "1\n2\n3\n4\n5\n6\n",
        rounds: 0,
        turns: &[
            (0, Turned::Moved),
            (0, Turned::Blocked),
            (1, Turned::Moved),
            (0, Turned::Blocked),
            (1, Turned::Moved),
            (0, Turned::Moved),
            (0, Turned::Ended),
        ],
        lines: "1: 1 2\n",
    },
    Case {
        name: "the first value of a block that is out of range is told",
        graph: "graph 2\nphaser X sum 4\nphaser Y sum 4\nsource s s.csv -> X block=3\n\
            fir f X -> Y shift 0 taps 2 block=3\nsink out Y\n",
        samples: "1\n9223372036854775807\n3\n",
        rounds: 0,
        turns: &[
            (2, Turned::Blocked),
            (0, Turned::Moved),
            (1, Turned::Moved),
            (1, SECOND),
            (2, SECOND),
        ],
        lines: "2:\n",
    },
];

/// The first of these turns that comes to something else, by its place among them.
fn first_wrong(
    world: &mut World<'_>,
    turns: &[(usize, Turned)],
) -> Result<Option<usize>, AllocError> {
    for (place, (task, expected)) in turns.iter().enumerate() {
        if world.turn(*task)? != *expected {
            return Ok(Some(place));
        }
    }
    Ok(None)
}

/// The first turn of a case that comes to something else, what the sink has then, and whether the
/// run is stalled.
type Turns = (Option<usize>, String, bool);

fn turned_world(
    alloc: Global,
    case: &Case,
    world: &mut World<'_>,
    tasks: usize,
) -> Result<Turns, Fail> {
    for _ in 0..case.rounds {
        one_round(world, tasks)?;
    }
    let wrong = first_wrong(world, case.turns)?;
    Ok((wrong, text_of(alloc, world.lines())?, world.stalled()))
}

fn turned_job(alloc: Global, case: &Case, job: &Job) -> Result<Turns, Fail> {
    let mut world = World::new(alloc, job)?;
    turned_world(alloc, case, &mut world, job.graph().tasks())
}

fn turned(alloc: Global, case: &Case, bound: u64) -> Result<Turns, Fail> {
    let graph = at_bound(alloc, case.graph, bound)?;
    let job = job_of(alloc, &graph, &[case.samples])?;
    turned_job(alloc, case, &job)
}

#[test]
fn each_turn_comes_to_what_its_task_can_do(rt: HostRuntime) -> Result<(), Fail> {
    for case in &CASES {
        for bound in BOUNDS {
            let (wrong, lines, is_stalled) = turned(rt.alloc(), case, bound)?;
            assert_eq!(rt;
                (wrong, lines.as_str(), is_stalled),
                (None, case.lines, false),
                "{}: bound {bound}",
                case.name
            );
        }
    }
    Ok(())
}

/// A filter.
const FILTER: &str = "phaser X sum ?\nphaser Y sum ?\nsource s s.csv -> X\n\
    fir f X -> Y shift 2 taps 1 2 1\nsink out Y\n";

/// What the sinks have after these turns, and whether the run is stalled then.
fn given_turns(alloc: Global, job: &Job, turns: &[usize]) -> Result<(String, bool), Fail> {
    match run_turns(alloc, job, turns) {
        Ok(world) => Ok((text_of(alloc, world.lines())?, world.stalled())),
        Err(_) => Err(Fail::from(AllocError)),
    }
}

/// The same after so many turns of each task.
fn given(alloc: Global, job: &Job, rounds: usize) -> Result<(String, bool), Fail> {
    let turns = in_rotation(alloc, job.graph().tasks(), rounds)?;
    given_turns(alloc, job, &turns)
}

#[test]
fn given_turns_move_blocks_and_tell_where_a_sink_joined(rt: HostRuntime) -> Result<(), Fail> {
    let graph = "graph 2\nphaser X sum 4\nsource s s.csv -> X block=4\nsink out X block=2\n\
        sink late X by out at 2 now\n";
    let job = job_of(rt.alloc(), graph, &["1\n2\n3\n4\n"])?;
    let (left, _) = given_turns(rt.alloc(), &job, &[0, 1, 1, 0, 1, 1, 2])?;
    assert_eq!(rt; left.as_str(), "1: 1 2 3 4\n2 from 4:\n");
    Ok(())
}

/// What the sink of the filter has under this bound.
fn filtered(
    alloc: Global,
    bound: u64,
    samples: &str,
    rounds: usize,
) -> Result<(String, bool), Fail> {
    let graph = at_bound(alloc, FILTER, bound)?;
    let job = job_of(alloc, &graph, &[samples])?;
    given(alloc, &job, rounds)
}

#[test]
fn turns_in_rotation_end_a_run_and_no_turns_leave_it_at_its_opening(
    rt: HostRuntime,
) -> Result<(), Fail> {
    for (rounds, samples, lines) in [(10, "-1\n-1\n0\n", "2: -1 -1 -1\n"), (0, "-4\n", "2:\n")] {
        for bound in BOUNDS {
            let (left, is_stalled) = filtered(rt.alloc(), bound, samples, rounds)?;
            assert_eq!(rt;
                (left.as_str(), is_stalled),
                (lines, false),
                "{rounds} turns of each, bound {bound}"
            );
        }
    }
    Ok(())
}
