//! Jobs of graphs and samples that are written as text, for small programs and tests.

ghost use Rattle.std.specs.Prelude.{◌≤◌, length, IfOk};
ghost use Rattle.std.specs.List.{All};
ghost use Rattle.phase_accum.specs.Sends.{AreSends};

use graph_lang::{TEXT_MAX, read_graph, samples_of};
use std::alloc::{AllocError, Global};
use std::test::Fail;
use stream_lists::{Job, JobRefusal};

/// The job of a graph, on samples of these texts, one for each source, or why there is none.
///
/// A text that is none fails the test.
pub fn job_of(
    alloc: Global,
    graph: &str,
    samples: &[&str],
) -> Result<Result<Job, JobRefusal>, Fail> {
    let lists = lists_of(alloc, samples)?;
    let graph = read_graph(alloc, graph.as_bytes())?;
    if lists.len() != graph.sources() {
        return Err(Fail::from(AllocError));
    }
    Ok(Job::new(alloc, graph, lists))
}

/// The samples of these texts.
fn lists_of(alloc: Global, texts: &[&str]) -> Result<Vec<Vec<i64>>, Fail>
    ensures sends { IfOk result (λ lists. All (λ list. AreSends list.items) lists.items) }
    ensures few { IfOk result (λ lists. All (λ list. length list.items ≤ TEXT_MAX) lists.items) }
{
    let mut lists = Vec::new(alloc);
    for text in texts {
        if text.len() > TEXT_MAX {
            return Err(Fail::from(AllocError));
        }
        lists.push(samples_of(alloc, text.as_bytes())?)?;
    }
    Ok(lists)
}
