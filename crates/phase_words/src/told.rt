//! What is told of words that give no call.
ghost use Rattle.std.specs.Prelude.{◌≡◌};
ghost use Rattle.phase_words.specs.Answers.{AnswerStops, IsAnswer, TellsText};
ghost use Rattle.watched_io.specs.States.{writer_state};

use crate::NoCall;
use std::io::Write;
use watched_io::{IoFault, Status, Watched, refuse, report, show_help};

/// Answers words that give no call: help and the version go to the output, a refusal's text and the
/// line of a fault go to the fault stream. Where that stream fails too, the status stands alone.
pub fn answer<W: Write, E: Write>(
    none: &NoCall,
    output: &mut Watched<W>,
    faults: &mut Watched<E>,
) -> Status
    ensures answer { IsAnswer none.now result output.old output.new
        (writer_state E.contents faults.old) (writer_state E.contents faults.new) }
    ensures text { TellsText none.now result
        (writer_state W.contents output.old) (writer_state W.contents output.new)
        (writer_state E.contents faults.old) (writer_state E.contents faults.new) }
    ensures quiet { result ≡ Status.Done → faults.new ≡ faults.old }
    ensures stops { result ≡ Status.Failed → AnswerStops output.old output.new
        (writer_state E.contents faults.old) (writer_state E.contents faults.new) }
{
    match none {
        NoCall::Shown(text) => show_help(text.as_str(), output, faults),
        NoCall::Refused(text) => refuse(text.as_str(), faults),
        NoCall::OutOfMemory => report(IoFault::OutOfMemory, faults),
    }
}
