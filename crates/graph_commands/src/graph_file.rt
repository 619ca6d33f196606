//! The graph of a file.
ghost use Rattle.std.specs.Prelude.{◌≡◌, ℕ, List, IfOk, IfErr};
ghost use Rattle.graph_commands.specs.Explained.{IsTextOf};
ghost use Rattle.graph_commands.specs.Failures.{IsUndrawn};
ghost use Rattle.graph_commands.specs.FileJobs.{IsGraphOf, Known};
ghost use Rattle.graph_commands.specs.GraphDrawings.{ExplainsNoGraph};

use crate::{Failure, JobFault};
use graph_lang::{Graph, read_graph};
use std::alloc::Global;
use watched_io::Files;

/// The longest text of a graph that is read, in bytes.
pub const GRAPH_MAX: usize = 1_048_576;

/// Reads the graph in the file of this name, of at most `GRAPH_MAX` bytes, the whole file before
/// the first line.
pub fn read_graph_file<'a, F: Files>(
    alloc: Global,
    files: &mut F,
    name: &str,
) -> Result<Graph, Failure<'a>>
    ensures ok { IfOk result (λ graph. IsGraphOf (F.file files.old) name.now graph) }
    ensures failed { IfErr result (λ found. IsUndrawn (F.file files.old) name.now found) }
    ensures same { (other : List ℕ) → F.file files.new other ≡ F.file files.old other }
{
    match files.read(alloc, name, GRAPH_MAX) {
        Ok(text) => match graph_of_text(alloc, &text) {
            Ok(graph) => Ok(graph),
            Err(fault) => Err(Failure::Graph { fault, text }),
        },
        Err(fault) => Err(Failure::Graph {
            fault: JobFault::from(fault),
            text: Vec::new(alloc),
        }),
    }
}

/// Reads the graph of a text.
fn graph_of_text(alloc: Global, text: &[u8]) -> Result<Graph, JobFault>
    ensures ok { IfOk result (λ graph. (known : Known) (name : List ℕ)
        → IsTextOf known name text.now → IsGraphOf known name graph) }
    ensures fault { IfErr result (λ fault. (known : Known) (name : List ℕ)
        → IsTextOf known name text.now → ExplainsNoGraph known name fault) }
{
    Ok(read_graph(alloc, text)?)
}
