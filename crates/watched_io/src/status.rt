//! The exit statuses of the program, and the lines that go with a fault.
ghost use Rattle.std.specs.Prelude.{◌≡◌};
ghost use Rattle.watched_io.specs.Statuses.{Reports, fault_line, status_code};
ghost use Rattle.watched_io.specs.States.{writer_state};

use crate::{IoFault, Watched};
use std::io::Write;

/// How a run of the program ends.
#[derive(Clone, Copy, Debug, PartialEq, Eq)]
pub enum Status {
    /// What was asked for is done, or help was shown.
    Done,
    /// A graph or its samples are refused, or a line of a script that is replayed strictly.
    GraphRefused,
    /// The words were not understood.
    Refused,
    /// A value of a graph is out of range.
    TooBig,
    /// Every task of a run that was left waited for another.
    Stalled,
    /// A read or a write failed, a script or a file is too long, or memory ran out.
    Failed,
}

impl Status {
    /// Returns the number that the process ends with.
    pub fn code(self) -> u8
        ensures { result ≡ status_code self }
    {
        match self {
            Status::Done => 0,
            Status::GraphRefused => 1,
            Status::Refused => 2,
            Status::TooBig => 3,
            Status::Stalled => 4,
            Status::Failed => 5,
        }
    }
}

/// Writes a fault's line, and answers the status after a fault.
pub fn report<E: Write>(fault: IoFault, faults: &mut Watched<E>) -> Status
    ensures status { result ≡ Status.Failed }
    ensures line { Reports fault
        (writer_state E.contents faults.old) (writer_state E.contents faults.new) }
{
    let _ = faults.send(line_of(fault).as_bytes());
    Status::Failed
}

/// A fault's line, with its line feed.
fn line_of(fault: IoFault) -> &'static str
    ensures { result.now ≡ fault_line fault }
{
    match fault {
        IoFault::ReadFault => "phase: read fault\n",
        IoFault::WriteFault => "phase: write fault\n",
        IoFault::OutOfMemory => "phase: out of memory\n",
    }
}
