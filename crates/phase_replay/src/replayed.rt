//! A replay, and the report of its fault.
ghost use Rattle.std.specs.Prelude.{◌≡◌, ◌⊎◌};
ghost use Rattle.phase_replay.specs.Replays.{ReplayEnds};
ghost use Rattle.watched_io.specs.States.{reader_state, writer_state};

use crate::replay;
use std::alloc::Global;
use std::io::{Read, Write};
use watched_io::{Status, Watched, report};

/// Replays the input, and answers the status: `Done`, or `Failed` after a fault, whose line then
/// goes to the fault stream: a read, a write or a flush that failed, a script of over `SCRIPT_MAX`
/// bytes, or want of memory, which a phaser and its tasks take. It waits for the input alone. Where
/// the fault stream fails too, the status stands alone.
pub fn replay_and_report<R: Read, W: Write, E: Write>(
    alloc: Global,
    input: &mut Watched<R>,
    output: &mut Watched<W>,
    faults: &mut Watched<E>,
) -> Status
    ensures status { (result ≡ Status.Done) ⊎ (result ≡ Status.Failed) }
    ensures ends { ReplayEnds result
        (reader_state R.remaining input.old) (reader_state R.remaining input.new)
        (writer_state W.contents output.old) (writer_state W.contents output.new)
        (writer_state E.contents faults.old) (writer_state E.contents faults.new) }
    ensures quiet { result ≡ Status.Done → faults.new ≡ faults.old }
{
    match replay(alloc, input, output) {
        Ok(()) => Status::Done,
        Err(fault) => report(fault, faults),
    }
}
