//! Replays of the script in a file, and the reports of their faults.
ghost use Rattle.std.specs.Prelude.{◌≡◌, ◌⊎◌};
ghost use Rattle.phase_replay.specs.FileReplays.{FileReplayEnds, StrictFileReplayEnds};
ghost use Rattle.watched_io.specs.States.{writer_state};

use crate::SCRIPT_MAX;
use crate::strict::{replay_strictly, replay_text};
use std::alloc::Global;
use std::io::Write;
use watched_io::{Files, IoFault, Status, Watched, report};

/// Reads the script in a file whole, replays it, and answers the status: `Done`, or `Failed` after
/// a fault, whose line then goes to the fault stream. It takes memory for the script.
pub fn replay_file_and_report<W: Write, E: Write, F: Files>(
    alloc: Global,
    name: &str,
    output: &mut Watched<W>,
    faults: &mut Watched<E>,
    files: &mut F,
) -> Status
    ensures status { (result ≡ Status.Done) ⊎ (result ≡ Status.Failed) }
    ensures ends { FileReplayEnds (F.file files.old name.now) result
        (writer_state W.contents output.old) (writer_state W.contents output.new)
        (writer_state E.contents faults.old) (writer_state E.contents faults.new) }
    ensures quiet { result ≡ Status.Done → faults.new ≡ faults.old }
{
    match files.read(alloc, name, SCRIPT_MAX) {
        Ok(script) => replay_text(alloc, &script, output, faults),
        Err(fault) => report(IoFault::from(fault), faults),
    }
}

/// Reads the script in a file whole, replays it through its first line that is refused or no
/// command, and answers the status: `Done` where there is none, `GraphRefused` where there is one,
/// whose number then goes to the fault stream, or `Failed` after a fault. It takes memory for the
/// script.
pub fn replay_file_strictly<W: Write, E: Write, F: Files>(
    alloc: Global,
    name: &str,
    output: &mut Watched<W>,
    faults: &mut Watched<E>,
    files: &mut F,
) -> Status
    ensures status { (result ≡ Status.Done)
        ⊎ ((result ≡ Status.GraphRefused) ⊎ (result ≡ Status.Failed)) }
    ensures ends { StrictFileReplayEnds (F.file files.old name.now) result
        (writer_state W.contents output.old) (writer_state W.contents output.new)
        (writer_state E.contents faults.old) (writer_state E.contents faults.new) }
    ensures quiet { result ≡ Status.Done → faults.new ≡ faults.old }
{
    match files.read(alloc, name, SCRIPT_MAX) {
        Ok(script) => replay_strictly(alloc, &script, output, faults),
        Err(fault) => report(IoFault::from(fault), faults),
    }
}
