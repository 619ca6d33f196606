//! A drawing of a graph.
ghost use Rattle.std.specs.Prelude.{◌≡◌, ℕ, List, OnOk, IfErr};
ghost use Rattle.graph_commands.specs.Ends.{DrawFails};
ghost use Rattle.graph_commands.specs.GraphDrawings.{Draws};
ghost use Rattle.watched_io.specs.States.{writer_state};

use crate::{Failure, read_graph_file};
use graph_show::write_drawing;
use std::alloc::Global;
use std::io::Write;
use watched_io::{Files, Watched};

/// Reads a graph, and no samples of its sources, and writes its drawing, as text for Graphviz.
///
/// Tasks that meet on a phaser with `any` are drawn, since only their samples tell whether they do.
pub fn draw<'a, W: Write, F: Files>(
    alloc: Global,
    name: &str,
    output: &mut Watched<W>,
    files: &mut F,
) -> Result<(), Failure<'a>>
    ensures done { OnOk result (Draws (F.file files.old) name.now
        (writer_state W.contents output.old) (writer_state W.contents output.new)) }
    ensures failed { IfErr result (λ found.
        DrawFails (F.file files.old) name.now W.contents output.old output.new found) }
    ensures same { (other : List ℕ) → F.file files.new other ≡ F.file files.old other }
{
    let graph = match read_graph_file(alloc, files, name) {
        Ok(graph) => graph,
        Err(failure) => return Err(failure),
    };
    match write_drawing(alloc, output, &graph) {
        Ok(()) => Ok(()),
        Err(fault) => Err(Failure::Io(fault)),
    }
}
