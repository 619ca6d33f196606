//! Jobs of graphs and samples that are written as text.
use std::alloc::Global;
use std::test::Fail;
use stream_job::Job;

/// The job of a graph, on samples of these texts, one for each source.
pub fn job_of(alloc: Global, graph: &str, samples: &[&str]) -> Result<Job, Fail> {
    let job = stream_job::job_of(alloc, graph, samples)?;
    Ok(job?)
}

/// A graph's text, with this bound for each `?`.
pub fn at_bound(alloc: Global, graph: &str, bound: u64) -> Result<String, Fail> {
    let bound = format!(in alloc; "{bound}")?;
    let mut text = String::new(alloc);
    for letter in graph.chars() {
        if letter == '?' {
            text.push_str(&bound)?;
        } else {
            text.push(letter)?;
        }
    }
    Ok(text)
}
