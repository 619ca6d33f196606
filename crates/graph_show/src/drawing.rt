//! The drawing of a graph.
ghost use Rattle.std.specs.Prelude.{◌≡◌, IfOk, OnOk, Err, true};
ghost use Rattle.std.specs.Io.KnownBytes.{Appends};
ghost use Rattle.graph_show.specs.Drawings.{drawing};
ghost use Rattle.watched_io.specs.Prefix.{AppendsPrefix};
ghost use Rattle.watched_io.specs.Watched.{has_failed_of, inner_of};
ghost use Rattle.watched_io.specs.declared.fault.IoFault.TheVariants.{OutOfMemory, ReadFault, WriteFault};

use crate::arrows::put_arrows;
use crate::nodes::{put_phasers, put_tasks};
use crate::parts::put;
use graph_lang::Graph;
use std::alloc::{AllocError, Global};
use std::io::Write;
use watched_io::{IoFault, Watched};

/// Makes the drawing of a graph, as text for Graphviz. It takes memory for the text.
pub fn drawing_text(alloc: Global, graph: &Graph) -> Result<Vec<u8>, AllocError>
    ensures { IfOk result (λ text. text.items ≡ drawing graph.now) }
{
    let mut text = Vec::new(alloc);
    put(&mut text, ["digraph {\n    rankdir=LR;\n"].as_slice())?;
    put_phasers(&mut text, graph)?;
    put_tasks(&mut text, graph)?;
    put_arrows(&mut text, graph)?;
    put(&mut text, ["}\n"].as_slice())?;
    Ok(text)
}

/// Writes the drawing of a graph, as text for Graphviz, and flushes it. It takes memory for the
/// text, and where there is none, nothing is written. After a failed write the writer has a prefix
/// of the text.
pub fn write_drawing<W: Write>(
    alloc: Global,
    writer: &mut Watched<W>,
    graph: &Graph,
) -> Result<(), IoFault>
    ensures ok { OnOk result (Appends (W.contents (inner_of writer.old))
        (W.contents (inner_of writer.new)) (drawing graph.now)) }
    ensures same { OnOk result (has_failed_of writer.new ≡ has_failed_of writer.old) }
    ensures write { result ≡ Err WriteFault → (has_failed_of writer.new ≡ true)
        × AppendsPrefix (W.contents (inner_of writer.old)) (W.contents (inner_of writer.new))
        (drawing graph.now) }
    ensures memory { result ≡ Err OutOfMemory → writer.new ≡ writer.old }
    ensures read { result ≡ Err ReadFault → ⊥ }
{
    let Ok(text) = drawing_text(alloc, graph) else {
        return Err(IoFault::OutOfMemory);
    };
    match writer.send(&text) {
        Ok(()) => Ok(()),
        Err(_) => Err(IoFault::WriteFault),
    }
}
