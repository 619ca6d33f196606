//! A replay of a script that is at hand, and a strict one, which ends at the first line that is
//! refused.
ghost use Rattle.std.specs.Prelude.{◌≡◌, ◌⊎◌, OnErr, OnOk};
ghost use Rattle.std.specs.Io.KnownBytes.{Appends};
ghost use Rattle.phase_replay.specs.Replayer.{IsNoted};
ghost use Rattle.phase_replay.specs.Replies.{replies_of};
ghost use Rattle.phase_replay.specs.Stops.{StrictEnds, TextEnds, TextStops, script_line};
ghost use Rattle.watched_io.specs.Prefix.{AppendsPrefix};
ghost use Rattle.watched_io.specs.States.{writer_state};
ghost use Rattle.watched_io.specs.Statuses.{Says};
ghost use Rattle.watched_io.specs.Watched.{has_failed_of, inner_of};

use crate::replayer::Replayer;
use crate::stop::first_refused;
use itoa::Buffer;
use std::alloc::Global;
use std::io::Write;
use watched_io::{IoFault, Status, Watched, report, say};

/// Replays a text that is at hand: nothing is read, so its fault is one of writing, or of memory.
fn replay_at_hand<W: Write>(
    alloc: Global,
    text: &[u8],
    output: &mut Watched<W>,
) -> Result<(), IoFault>
    ensures ok { OnOk result (Appends (W.contents (inner_of output.old))
        (W.contents (inner_of output.new)) (replies_of text.now)) }
    ensures err { OnErr result (AppendsPrefix (W.contents (inner_of output.old))
        (W.contents (inner_of output.new)) (replies_of text.now)) }
    ensures noted { IsNoted result (has_failed_of output.old) (has_failed_of output.new) }
{
    let mut replayer = Replayer::new(alloc);
    replayer.piece(text, output)?;
    replayer.finish(output)
}

/// Replays a script, and answers the status: `Done`, or `Failed` after a fault, whose line then
/// goes to the fault stream.
pub(crate) fn replay_text<W: Write, E: Write>(
    alloc: Global,
    script: &[u8],
    output: &mut Watched<W>,
    faults: &mut Watched<E>,
) -> Status
    ensures status { (result ≡ Status.Done) ⊎ (result ≡ Status.Failed) }
    ensures ends { TextEnds script.now result
        (writer_state W.contents output.old) (writer_state W.contents output.new)
        (writer_state E.contents faults.old) (writer_state E.contents faults.new) }
    ensures quiet { result ≡ Status.Done → faults.new ≡ faults.old }
{
    match replay_at_hand(alloc, script, output) {
        Ok(()) => Status::Done,
        Err(fault) => report(fault, faults),
    }
}

/// Tells the number of a line that is refused, and answers the status.
fn report_line<E: Write>(number: usize, faults: &mut Watched<E>) -> Status
    ensures status { result ≡ Status.GraphRefused }
    ensures line { Says (script_line number)
        (writer_state E.contents faults.old) (writer_state E.contents faults.new) }
{
    let mut buffer = Buffer::new();
    let number = buffer.format(number);
    let parts = ["phase: script line ", number, "\n"];
    say(parts.as_slice(), faults);
    Status::GraphRefused
}

/// Replays the front of a script, whose last line is refused and has this number, and tells that.
fn replay_front<W: Write, E: Write>(
    alloc: Global,
    front: &[u8],
    number: usize,
    output: &mut Watched<W>,
    faults: &mut Watched<E>,
) -> Status
    ensures status { (result ≡ Status.GraphRefused) ⊎ (result ≡ Status.Failed) }
    ensures written { result ≡ Status.GraphRefused → Appends (W.contents (inner_of output.old))
        (W.contents (inner_of output.new)) (replies_of front.now) }
    ensures says { result ≡ Status.GraphRefused → Says (script_line number)
        (writer_state E.contents faults.old) (writer_state E.contents faults.new) }
    ensures stops { result ≡ Status.Failed → TextStops (replies_of front.now)
        (writer_state W.contents output.old) (writer_state W.contents output.new)
        (writer_state E.contents faults.old) (writer_state E.contents faults.new) }
{
    match replay_at_hand(alloc, front, output) {
        Ok(()) => report_line(number, faults),
        Err(fault) => report(fault, faults),
    }
}

/// Replays a script through its first line that is refused or no command, and answers the status:
/// `Done` where there is none, `GraphRefused` where there is one, whose number is then told, or
/// `Failed` after a fault.
///
/// The script is gone through twice: once for that line, and once for the replies.
pub(crate) fn replay_strictly<W: Write, E: Write>(
    alloc: Global,
    script: &[u8],
    output: &mut Watched<W>,
    faults: &mut Watched<E>,
) -> Status
    ensures status { (result ≡ Status.Done)
        ⊎ ((result ≡ Status.GraphRefused) ⊎ (result ≡ Status.Failed)) }
    ensures ends { StrictEnds script.now result
        (writer_state W.contents output.old) (writer_state W.contents output.new)
        (writer_state E.contents faults.old) (writer_state E.contents faults.new) }
    ensures quiet { result ≡ Status.Done → faults.new ≡ faults.old }
{
    match first_refused(alloc, script) {
        Ok(None) => replay_text(alloc, script, output, faults),
        Ok(Some(stop)) => replay_front(alloc, &script[..stop.end], stop.number, output, faults),
        Err(_) => report(IoFault::OutOfMemory, faults),
    }
}
