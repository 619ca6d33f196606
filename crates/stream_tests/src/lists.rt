//! What a job tells of its tasks: their inputs and outputs by phaser, what their steps take, and
//! the samples of a source. What is expected was worked out by hand.
use graph_lang::{read_graph, samples_of};
use phase_accum::Outcome;
use std::alloc::{AllocError, Global};
use std::test::Fail;
use stream_job::{Job, input_number, number_of, output_number, taken_count};

/// A source of three samples and one of two, joined in turn, and a peer behind them. The phasers X,
/// W, J, E and Y have the numbers 0 to 4.
const JOINED: &str = "phaser X sum 2\nphaser W sum 2\nphaser J sum 2\nphaser E sum 2\n\
    phaser Y sum 2\nsource a a.csv -> X\nsink seen X\nsource b b.csv -> W\njoin j X W -> J\n\
    peer q J <-> E -> Y mul 2\nsink out Y\n";

const SECOND_SOURCE: usize = 2;

const JOINER: usize = 3;

const PEER: usize = 4;

/// The job of that graph.
fn joined(alloc: Global) -> Result<Job, Fail> {
    let graph = read_graph(alloc, JOINED.as_bytes())?;
    let mut lists = Vec::new(alloc);
    lists.push(samples_of(alloc, b"1\n2\n3\n")?)?;
    lists.push(samples_of(alloc, b"10\n20\n")?)?;
    if lists.len() != graph.sources() {
        return Err(Fail::from(AllocError));
    }
    Ok(Job::new(alloc, graph, lists)?)
}

/// What a job tells of one of its tasks, by number.
#[derive(Clone, Copy, Debug)]
enum Fact {
    Tasks(usize),
    /// Which input of the task a phaser is.
    Input(usize, usize, Option<usize>),
    /// Which of its outputs a phaser is.
    Output(usize, usize, Option<usize>),
    /// How many values seven of its steps take from one of its inputs.
    TakenInSeven(usize, usize, u128),
    Samples(usize, &'static [i64]),
}

fn holds(job: &Job, fact: Fact) -> bool {
    let graph = job.graph();
    match fact {
        Fact::Tasks(count) => graph.tasks() == count,
        Fact::Input(t, p, number) => {
            t < graph.tasks() && input_number(graph.task(t), p) == number
        }
        Fact::Output(t, p, number) => {
            t < graph.tasks() && output_number(graph.task(t), p) == number
        }
        Fact::TakenInSeven(t, k, count) => {
            t < graph.tasks() && taken_count(graph.task(t), 7, k) == count
        }
        Fact::Samples(t, samples) => t < graph.tasks() && job.samples_of(t) == samples,
    }
}

/// The first that does not hold of a job.
fn first_wrong(job: &Job, facts: &[Fact]) -> Option<Fact> {
    for fact in facts {
        if !holds(job, *fact) {
            return Some(*fact);
        }
    }
    None
}

struct Case {
    name: &'static str,
    facts: &'static [Fact],
}

static CASES: [Case; 3] = [
    Case {
        name: "a peer signals its second input first",
        facts: &[
            Fact::Output(PEER, 3, Some(0)),
            Fact::Output(PEER, 4, Some(1)),
            Fact::Output(PEER, 2, None),
            Fact::Input(PEER, 3, Some(1)),
            Fact::Input(PEER, 4, None),
            Fact::Input(JOINER, 1, Some(1)),
        ],
    },
    Case {
        name: "a joiner takes from its inputs in turn",
        facts: &[
            Fact::TakenInSeven(JOINER, 0, 4),
            Fact::TakenInSeven(JOINER, 1, 3),
            Fact::TakenInSeven(PEER, 1, 7),
        ],
    },
    Case {
        name: "a source has its samples by its number among the tasks",
        facts: &[Fact::Samples(SECOND_SOURCE, &[10, 20]), Fact::Tasks(6)],
    },
];

#[test]
fn a_job_tells_of_its_tasks(rt: HostRuntime) -> Result<(), Fail> {
    let job = joined(rt.alloc())?;
    for case in &CASES {
        let wrong = first_wrong(&job, case.facts);
        assert!(rt; wrong.is_none(), "{}: {wrong:?}", case.name);
    }
    Ok(())
}

#[test]
fn what_is_no_value_has_the_number_0(rt: HostRuntime) -> Result<(), Fail> {
    assert_eq!(rt; number_of(Outcome::Value(-5)), -5);
    assert_eq!(rt; number_of(Outcome::Empty), 0);
    assert_eq!(rt; number_of(Outcome::TooBig), 0);
    Ok(())
}
