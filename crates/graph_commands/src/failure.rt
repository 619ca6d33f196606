//! Why a command on a graph failed.
ghost use Rattle.std.specs.Prelude.{◌≡◌};
ghost use Rattle.graph_commands.specs.Failures.{failure_status};
ghost use Rattle.graph_commands.specs.GraphRuns.{job_status};

use crate::JobFault;
use graph_base::Place;
use stream_lists::Job;
use watched_io::{IoFault, Status};

/// Why a command on a graph failed, with what its line and its explanation need.
#[derive(Drop)]
pub enum Failure<'a> {
    /// The files give no job, or no graph where a drawing is asked for.
    Graph {
        /// Why they give none.
        fault: JobFault,
        /// The text of the graph's file, where that was read.
        text: Vec<u8>,
    },
    /// No sink of a job has the name that is asked for.
    NoSink {
        /// The job.
        job: Job,
        /// The name.
        name: &'a str,
    },
    /// A value of a job is out of range: the first one.
    TooBig {
        /// The job.
        job: Job,
        /// The phaser of the value, or the task that made it.
        place: Place,
        /// The phase on the phaser, or the step of the task.
        phase: usize,
    },
    /// Every task of a run that was left waited for another.
    Stalled {
        /// What a person is told of it behind its line.
        further: Vec<u8>,
    },
    /// A write failed, or memory ran out.
    Io(IoFault),
}

impl JobFault {
    /// The status after a fault of the files.
    fn status(&self) -> Status
        ensures { result ≡ job_status self.now }
    {
        match self {
            JobFault::Graph(_) | JobFault::BadSample { .. } => Status::GraphRefused,
            JobFault::ReadFault | JobFault::OutOfMemory => Status::Failed,
        }
    }
}

impl Failure<'_> {
    /// Returns the status after the failure.
    pub fn status(&self) -> Status
        ensures { result ≡ failure_status self.now }
    {
        match self {
            Failure::Graph { fault, text: _ } => fault.status(),
            Failure::NoSink { job: _, name: _ } => Status::GraphRefused,
            Failure::TooBig {
                job: _,
                place: _,
                phase: _,
            } => Status::TooBig,
            Failure::Stalled { further: _ } => Status::Stalled,
            Failure::Io(_) => Status::Failed,
        }
    }
}
