//! The job of a graph's file.
ghost use Rattle.std.specs.Prelude.{◌≡◌, ℕ, List, IfOk, IfErr};
ghost use Rattle.graph_commands.specs.Explained.{IsTextOf};
ghost use Rattle.graph_commands.specs.Failures.{IsUnread};
ghost use Rattle.graph_commands.specs.FileJobs.{Explains, IsGraphOf, IsJobOf};

use crate::sources::read_sources;
use crate::{Failure, GRAPH_MAX, JobFault};
use graph_lang::{FaultKind, Graph, GraphFault, SampleTexts, read_graph};
use std::alloc::Global;
use stream_lists::{Job, JobRefusal};
use watched_io::Files;

/// Makes the job of a graph's file: reads the graph, of at most `GRAPH_MAX` bytes, then the samples
/// of each source in the order of the lines, live or not, each read and checked before the next.
///
/// `AnyMeets` is told once all samples were read. `OutOfMemory` comes where memory was refused.
pub fn read_job<'a, F: Files, T: SampleTexts>(
    alloc: Global,
    files: &mut F,
    texts: &T,
    name: &str,
) -> Result<Job, Failure<'a>>
    requires { T.may_read texts.now }
    ensures ok { IfOk result (λ job. IsJobOf (F.file files.old) name.now job) }
    ensures failed { IfErr result (λ found. IsUnread (F.file files.old) name.now found) }
    ensures same { (other : List ℕ) → F.file files.new other ≡ F.file files.old other }
{
    match files.read(alloc, name, GRAPH_MAX) {
        Ok(text) => match job_of_text(alloc, files, texts, &text) {
            Ok(job) => Ok(job),
            Err(fault) => Err(Failure::Graph { fault, text }),
        },
        Err(fault) => Err(Failure::Graph {
            fault: JobFault::from(fault),
            text: Vec::new(alloc),
        }),
    }
}

/// Makes the job of a graph's text.
fn job_of_text<F: Files, T: SampleTexts>(
    alloc: Global,
    files: &mut F,
    texts: &T,
    text: &[u8],
) -> Result<Job, JobFault>
    requires { T.may_read texts.now }
    ensures ok { IfOk result (λ job. (name : List ℕ)
        → IsTextOf (F.file files.old) name text.now → IsJobOf (F.file files.old) name job) }
    ensures fault { IfErr result (λ fault. (name : List ℕ)
        → IsTextOf (F.file files.old) name text.now → Explains (F.file files.old) name fault) }
    ensures same { (other : List ℕ) → F.file files.new other ≡ F.file files.old other }
{
    let graph = read_graph(alloc, text)?;
    job_of_graph(alloc, files, texts, graph)
}

/// Makes the job of a graph that was read: reads the samples of its sources, each read and checked
/// before the next.
fn job_of_graph<F: Files, T: SampleTexts>(
    alloc: Global,
    files: &mut F,
    texts: &T,
    graph: Graph,
) -> Result<Job, JobFault>
    requires { T.may_read texts.now }
    ensures ok { IfOk result (λ job. (name : List ℕ)
        → IsGraphOf (F.file files.old) name graph → IsJobOf (F.file files.old) name job) }
    ensures fault { IfErr result (λ fault. (name : List ℕ)
        → IsGraphOf (F.file files.old) name graph → Explains (F.file files.old) name fault) }
    ensures same { (other : List ℕ) → F.file files.new other ≡ F.file files.old other }
{
    let samples = read_sources(alloc, files, texts, &graph)?;
    match Job::new(alloc, graph, samples) {
        Ok(job) => {
            let _graph = job.graph();
            Ok(job)
        }
        Err(JobRefusal::AnyMeets { line }) => Err(JobFault::Graph(GraphFault {
            line,
            kind: FaultKind::AnyMeets,
        })),
        Err(JobRefusal::OutOfMemory) => Err(JobFault::OutOfMemory),
    }
}
