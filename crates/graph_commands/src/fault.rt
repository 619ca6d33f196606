//! Why no job was made of a graph's file.
ghost use Rattle.std.specs.Prelude.{◌≡◌};
ghost use Rattle.graph_commands.specs.Faults.{of_file, of_graph};

use graph_lang::{GraphFault, GraphRefusal};
use watched_io::FileFault;

/// Why no job was made of a graph's file.
#[derive(Debug, Drop)]
pub enum JobFault {
    /// The first fault of the graph's text, or the first task that meets one of an earlier line on
    /// a phaser with `any`.
    Graph(GraphFault),
    /// A record of a source's samples is not one whole number from -(2^63 - 1) to 2^63 - 1.
    BadSample {
        /// The name of the source.
        name: String,
        /// The number of the first such record, counted from 1.
        number: usize,
        /// Where it stands and why it is none, as lines for a person; nothing where memory ran out
        /// over them.
        told: Option<Vec<u8>>,
    },
    /// A file could not be opened, a read failed, or it is longer than its limit.
    ReadFault,
    /// Memory ran out.
    OutOfMemory,
}

impl From<FileFault> for JobFault {
    ghost from_gives = { λ given fault. fault ≡ of_file given };

    fn from(fault: FileFault) -> JobFault {
        match fault {
            FileFault::ReadFault => JobFault::ReadFault,
            FileFault::OutOfMemory => JobFault::OutOfMemory,
        }
    }
}

impl From<GraphRefusal> for JobFault {
    ghost from_gives = { λ given fault. fault ≡ of_graph given };

    fn from(refusal: GraphRefusal) -> JobFault {
        match refusal {
            GraphRefusal::Fault(fault) => JobFault::Graph(fault),
            GraphRefusal::OutOfMemory => JobFault::OutOfMemory,
        }
    }
}
