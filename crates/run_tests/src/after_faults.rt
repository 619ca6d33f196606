//! What a run answers where a worker met a value out of range: what `eval` answers, also `Ok`.
use crate::jobs::job_of;
use graph_base::Place;
use std::alloc::Global;
use std::test::Fail;
use stream_job::Lines;
use stream_workers::{RunFault, after_fault};
use worker_pool::Fault;

/// Two sources, a sink that takes no value, and one that joins it now and takes one.
const GRAPH: &str = "graph 2\nphaser X sum 8\nsource a a.csv -> X\nsource b b.csv -> X\n\
    sink out X until 0\nsink late X by out at 0 now until 1\n";

/// What a sink got.
fn line(alloc: Global, task: usize, start: Option<u64>, values: &[i64]) -> Result<Lines, Fail> {
    let values = Vec::from_slice(alloc, values)?;
    Ok(Lines {
        task,
        start,
        values,
    })
}

#[test]
fn a_value_that_eval_does_not_take_is_no_fault(rt: HostRuntime) -> Result<(), Fail> {
    let samples = "1\n1\n1\n9223372036854775807\n";
    let job = job_of(rt.alloc(), GRAPH, &[samples, samples])?;
    let lines = after_fault(rt.alloc(), &job, Fault::TooBig)?;
    let out = line(rt.alloc(), 2, None, &[])?;
    let late = line(rt.alloc(), 3, Some(0), &[2])?;
    assert_eq!(rt; lines.as_slice(), &[out, late][..]);
    Ok(())
}

#[test]
fn a_value_that_eval_takes_is_named(rt: HostRuntime) -> Result<(), Fail> {
    let samples = "9223372036854775807\n";
    let job = job_of(rt.alloc(), GRAPH, &[samples, samples])?;
    let named = RunFault::TooBig {
        place: Place::Phaser(0),
        phase: 0,
    };
    assert_eq!(rt; after_fault(rt.alloc(), &job, Fault::TooBig), Err(named));
    Ok(())
}
