//! A job with lists of any length. What is expected was worked out by hand.
use std::alloc::{AllocError, Global};
use std::test::Fail;
use stream_job::{Job, job_of};

/// Three phasers.
fn phasers_at(alloc: Global, level: u32) -> Result<String, AllocError> {
    format!(in alloc; "phaser A{level} sum 2\nphaser B{level} sum 2\nphaser C{level} sum 2\n")
}

/// Three joiners, each of all three phasers of a level and onto one of the next.
fn joiners_at(alloc: Global, level: u32) -> Result<String, AllocError> {
    let below = level.saturating_add(1);
    format!(in alloc;
        "join jA{below} A{level} B{level} C{level} -> A{below}\n\
        join jB{below} A{level} B{level} C{level} -> B{below}\n\
        join jC{below} A{level} B{level} C{level} -> C{below}\n"
    )
}

/// Three joiners of all three phasers above them, twenty times over, below three sources.
fn joiners_of_joiners(alloc: Global) -> Result<String, Fail> {
    let mut graph = String::new(alloc);
    for level in 0..21 {
        graph.push_str(&phasers_at(alloc, level)?)?;
    }
    graph.push_str("source sA s.csv -> A0\nsource sB s.csv -> B0\nsource sC s.csv -> C0\n")?;
    for level in 0..20 {
        graph.push_str(&joiners_at(alloc, level)?)?;
    }
    Ok(graph)
}

/// How long the list of phaser number `p` is, where there is one.
fn length_of(job: &Job, p: usize) -> Option<u128> {
    if p < job.graph().phasers() {
        return Some(job.length(p));
    }
    None
}

/// How many steps task number `t` makes, where there is one.
fn steps_of(job: &Job, t: usize) -> Option<u128> {
    if t < job.graph().tasks() {
        return Some(job.span(t).steps);
    }
    None
}

/// The job of that graph, with a thousand samples for each source.
fn large_job(alloc: Global) -> Result<Job, Fail> {
    let graph = joiners_of_joiners(alloc)?;
    let mut samples = String::new(alloc);
    for _ in 0..1000 {
        samples.push_str("1\n")?;
    }
    let list = samples.as_str();
    Ok(job_of(alloc, graph.as_str(), &[list, list, list])??)
}

#[test]
fn a_job_is_made_of_lists_that_no_memory_holds(rt: HostRuntime) -> Result<(), Fail> {
    let job = large_job(rt.alloc())?;
    let counts = (job.graph().phasers(), job.graph().tasks());
    let lengths = (length_of(&job, 2), length_of(&job, 3), length_of(&job, 62));
    let steps = steps_of(&job, 62);
    drop(job);
    assert_eq!(rt; counts, (63, 63));
    assert_eq!(rt; lengths, (Some(1000), Some(3000), Some(3_486_784_401_000)));
    assert_eq!(rt; steps, Some(3_486_784_401_000));
    Ok(())
}
