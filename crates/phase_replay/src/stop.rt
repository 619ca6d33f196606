//! Where a strict replay of a script stops.
ghost use Rattle.std.specs.Prelude.{◌≡◌, ◌≤◌, ◌<◌, length, take, IfOk, IfSome, None};
ghost use Rattle.phase_script.specs.Lines.{lines_of};
ghost use Rattle.phase_replay.specs.ScriptReading.{begins_as_refusal};
ghost use Rattle.phase_replay.specs.Scripts.{start};
ghost use Rattle.phase_replay.specs.Stops.{AreLinesTaken, ScriptStopsAt};

use crate::Session;
use crate::first_line::first_line;
use phase_script::ReplyLine;
use std::alloc::{AllocError, Global};

/// Through which byte a strict replay goes, and through which line.
#[derive(Clone, Copy)]
pub struct Stop {
    pub end: usize,
    pub number: usize,
}

/// Whether a reply line says that the line was refused, or is no command. No other begins with the
/// letter of `no` or of `bad line`.
fn is_refusal(reply: &[u8]) -> bool
    ensures { result ≡ begins_as_refusal reply.now }
{
    let first = reply.first().copied().unwrap_or(0);
    first == b'n' || first == b'b'
}

/// Finds the first line of a script that is refused, or that is no command.
pub fn first_refused(alloc: Global, script: &[u8]) -> Result<Option<Stop>, AllocError>
    ensures some { IfOk result (λ found. IfSome found (λ stop. (stop.end ≤ length script.now)
        × ScriptStopsAt script.now (take stop.end script.now) stop.number)) }
    ensures none { IfOk result (λ found. found ≡ None → AreLinesTaken start (lines_of script.now)) }
{
    let mut session = Session::new(alloc);
    let mut reply = ReplyLine::new();
    let mut end = 0;
    let mut number = 0;
    while end < script.len() {
        let next = first_line(&script[end..]);
        session.answer(next.line, &mut reply)?;
        end += next.used;
        number += 1;
        if is_refusal(reply.bytes()) {
            return Ok(Some(Stop { end, number }));
        }
    }
    Ok(None)
}
