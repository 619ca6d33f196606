//! What C is told of a run, in numbers.
ghost use Rattle.std.specs.Prelude.{◌≡◌};
ghost use Rattle.stream_handle.specs.Told.{graph_status, graph_told, plain_stop, start_told, stop_of};

use crate::numbers::*;
use graph_lang::GraphRefusal;
use graph_numbers::{NO_FAULT, PhaseFault, graph_fault, too_big_fault};
use stream_job::Stopped;

/// Why a run goes on no further; 0 where a number says nothing.
#[repr(C)]
#[derive(Clone, Copy, Debug, PartialEq, Eq)]
pub struct PhaseStop {
    /// The source among the sources, the sink among the sinks, or the phaser or the task of the
    /// value that is out of range; each from 0 on in the order of their lines.
    pub number: u64,
    /// The phase on the phaser, or the step of the task.
    pub at: u64,
    /// The number of what stopped it, from 1 on.
    pub kind: i32,
    /// 1 for a phaser, 2 for a task.
    pub place: i32,
}

/// Nothing but why it stopped, and a number.
fn plain_stop(kind: i32, number: usize) -> PhaseStop
    ensures { result ≡ plain_stop kind number }
{
    PhaseStop {
        number: number as u64,
        at: 0,
        kind,
        place: 0,
    }
}

/// Why a run stopped, in numbers.
pub(crate) fn stop_of(stop: Stopped) -> PhaseStop
    ensures { result ≡ stop_of stop }
{
    match stop {
        Stopped::Hungry { source } => plain_stop(HUNGRY, source),
        Stopped::Full { sink } => plain_stop(FULL, sink),
        Stopped::Stalled => plain_stop(STALLED, 0),
        Stopped::Done => plain_stop(DONE, 0),
        Stopped::TooBig { place, phase } => {
            let found = too_big_fault(place, phase);
            PhaseStop {
                number: found.number,
                at: found.at,
                kind: TOO_BIG,
                place: found.place,
            }
        }
        Stopped::Paused => plain_stop(PAUSED, 0),
    }
}

/// The status of why a text gives no run.
pub(crate) fn graph_status(why: GraphRefusal) -> i32
    ensures { result ≡ graph_status why }
{
    match why {
        GraphRefusal::Fault(_) => GRAPH,
        GraphRefusal::OutOfMemory => OUT_OF_MEMORY,
    }
}

/// What is told beside the status.
pub(crate) fn graph_told(why: GraphRefusal) -> PhaseFault
    ensures { result ≡ graph_told why }
{
    match why {
        GraphRefusal::Fault(found) => graph_fault(found),
        GraphRefusal::OutOfMemory => NO_FAULT,
    }
}

/// The number that tells where a sink begins.
pub(crate) fn start_told(start: Option<u64>) -> i64
    ensures { result ≡ start_told start }
{
    match start {
        None => -1,
        Some(phase) => phase.min(i64::MAX as u64) as i64,
    }
}
