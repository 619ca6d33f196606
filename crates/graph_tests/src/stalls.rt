//! Runs in which no task can move.
ghost use Rattle.std.specs.Prelude.{◌≡◌};

use crate::jobs::{at_bound, job_of};
use crate::rounds::{Round, last_round};
use std::alloc::Global;
use std::test::Fail;
use stream_job::{Job, World};

/// A splitter, of whose outputs one has a filter that signals with a filter of the splitter's
/// input, and the other nobody that takes.
const TO_ONE_BUS: &str = "phaser X sum ?\nphaser A sum ?\nphaser B sum ?\nphaser S sum ?\n\
    source s s.csv -> X\nsplit d X -> A B\nfir f A -> S shift 0 taps 1\n\
    fir g X -> S shift 0 taps 1\nsink out S\n";

/// The same on so many samples, all of them 1.
fn to_one_bus(alloc: Global, bound: u64, samples: u64) -> Result<Job, Fail> {
    let mut text = String::new(alloc);
    for _ in 0..samples {
        text.push_str("1\n")?;
    }
    let graph = at_bound(alloc, TO_ONE_BUS, bound)?;
    job_of(alloc, &graph, &[text.as_str()])
}

/// A bound, how many samples, what the last round comes to, and who is blocked on each phaser then,
/// each phaser's tasks before a semicolon. Where all have left, nobody is.
struct Case {
    name: &'static str,
    bound: u64,
    samples: u64,
    round: Round,
    parked: &'static str,
}

/// The fewest samples on which the graph comes to a stand, and one less. Where the sink has taken
/// `k` values, the filter of the input has signalled `k + bound` and holds one more; so the source
/// has signalled `k + 2 * bound + 1`, of which the other filter has every second one, `k` in all.
/// So `k` is `2 * bound + 1`, and sample `4 * bound + 3` cannot be signalled.
static CASES: [Case; 4] = [
    Case {
        name: "six samples of bound 1 come to an end",
        bound: 1,
        samples: 6,
        round: Round::Gone,
        parked: ";;;;",
    },
    Case {
        name: "seven samples of bound 1 come to a stand",
        bound: 1,
        samples: 7,
        round: Round::Blocked,
        parked: "0 1 ;2 ;;3 4 ;",
    },
    Case {
        name: "258 samples of bound 64 come to an end",
        bound: 64,
        samples: 258,
        round: Round::Gone,
        parked: ";;;;",
    },
    Case {
        name: "259 samples of bound 64 come to a stand",
        bound: 64,
        samples: 259,
        round: Round::Blocked,
        parked: "0 1 ;2 ;;3 4 ;",
    },
];

/// The tasks that were blocked on a phaser, in the order of their lines, each as its number and a
/// space.
fn parked_on(alloc: Global, job: &Job, world: &World<'_>, phaser: usize) -> Result<String, Fail>
    requires { world.now.job ≡ job.now }
{
    let mut text = String::new(alloc);
    if phaser < job.graph().phasers() {
        for task in 0..job.graph().tasks() {
            if world.parked(phaser).contains(&task) {
                text.push_str(&format!(in alloc; "{task} ")?)?;
            }
        }
    }
    Ok(text)
}

/// The tasks that were blocked on each phaser, those of a phaser before a semicolon.
fn all_parked(alloc: Global, job: &Job, world: &World<'_>) -> Result<String, Fail>
    requires { world.now.job ≡ job.now }
{
    let mut text = String::new(alloc);
    for phaser in 0..job.graph().phasers() {
        text.push_str(&parked_on(alloc, job, world, phaser)?)?;
        text.push_str(";")?;
    }
    Ok(text)
}

/// Whether a run is stalled at its opening, what its last round comes to, whether it is stalled
/// then, and who is blocked.
type Stand = (bool, Round, bool, String);

fn stand_of(alloc: Global, job: &Job, world: &mut World<'_>) -> Result<Stand, Fail>
    requires { world.old.job ≡ job.now }
{
    let at_first = world.stalled();
    let round = last_round(world, job.graph().tasks())?;
    Ok((
        at_first,
        round,
        world.stalled(),
        all_parked(alloc, job, world)?,
    ))
}

fn job_stand(alloc: Global, job: &Job) -> Result<Stand, Fail> {
    let mut world = World::new(alloc, job)?;
    stand_of(alloc, job, &mut world)
}

fn case_stand(alloc: Global, case: &Case) -> Result<Stand, Fail> {
    let job = to_one_bus(alloc, case.bound, case.samples)?;
    job_stand(alloc, &job)
}

#[test]
fn a_run_stalls_where_each_task_is_blocked(rt: HostRuntime) -> Result<(), Fail> {
    for case in &CASES {
        let (at_first, round, is_stalled, parked) = case_stand(rt.alloc(), case)?;
        assert_eq!(rt;
            (at_first, round, is_stalled, parked.as_str()),
            (false, case.round, case.round == Round::Blocked, case.parked),
            "{}",
            case.name
        );
    }
    Ok(())
}

/// A source and a sink.
const ALONE: &str = "phaser X sum 1\nsource s s.csv -> X\nsink out X\n";

/// Who is blocked on the first phaser after each of these turns.
fn parked_after(
    alloc: Global,
    job: &Job,
    world: &mut World<'_>,
    turns: &[usize],
) -> Result<String, Fail>
    requires { world.old.job ≡ job.now }
{
    let mut text = String::new(alloc);
    for task in turns {
        let _turned = world.turn(*task)?;
        text.push_str(&parked_on(alloc, job, world, 0)?)?;
        text.push_str(";")?;
    }
    Ok(text)
}

fn job_parked_after(alloc: Global, job: &Job, turns: &[usize]) -> Result<String, Fail> {
    let mut world = World::new(alloc, job)?;
    parked_after(alloc, job, &mut world, turns)
}

#[test]
fn an_event_empties_the_list_of_its_phaser(rt: HostRuntime) -> Result<(), Fail> {
    let job = job_of(rt.alloc(), ALONE, &["1\n2\n"])?;
    let parked = job_parked_after(rt.alloc(), &job, &[1, 1, 0, 0, 1, 1])?;
    assert_eq!(rt; parked.as_str(), "1 ;1 ;;0 ;;1 ;");
    Ok(())
}
