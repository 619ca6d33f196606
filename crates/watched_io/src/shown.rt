//! What the program shows in place of a replay.
ghost use Rattle.std.specs.Prelude.{◌≡◌, ◌⊎◌, true};
ghost use Rattle.std.specs.Io.KnownBytes.{Appends};
ghost use Rattle.watched_io.specs.declared.fault.IoFault.TheVariants.{WriteFault};
ghost use Rattle.watched_io.specs.Statuses.{Reports};
ghost use Rattle.watched_io.specs.Prefix.{AppendsPrefix};
ghost use Rattle.watched_io.specs.States.{writer_state};
ghost use Rattle.watched_io.specs.Watched.{has_failed_of, inner_of};

use crate::status::{Status, report};
use crate::{IoFault, Watched};
use std::io::Write;

/// Shows help on the output, once, and answers `Done`, or `Failed` where a write fails.
pub fn show_help<W: Write, E: Write>(
    text: &str,
    output: &mut Watched<W>,
    faults: &mut Watched<E>,
) -> Status
    ensures status { (result ≡ Status.Done) ⊎ (result ≡ Status.Failed) }
    ensures text { result ≡ Status.Done → Appends (W.contents (inner_of output.old))
        (W.contents (inner_of output.new)) text.now }
    ensures prefix { AppendsPrefix (W.contents (inner_of output.old))
        (W.contents (inner_of output.new)) text.now }
    ensures quiet { result ≡ Status.Done → faults.new ≡ faults.old }
    ensures failed { result ≡ Status.Failed → has_failed_of output.new ≡ true }
    ensures fault { result ≡ Status.Failed → Reports WriteFault
        (writer_state E.contents faults.old) (writer_state E.contents faults.new) }
{
    match output.send(text.as_bytes()) {
        Ok(()) => Status::Done,
        Err(_) => report(IoFault::WriteFault, faults),
    }
}

/// Shows a refusal's text on the fault stream, and answers `Refused`. Where that stream
/// fails, the status stands alone.
pub fn refuse<E: Write>(text: &str, faults: &mut Watched<E>) -> Status
    ensures status { result ≡ Status.Refused }
    ensures text { (has_failed_of faults.new ≡ true) ⊎ Appends (E.contents (inner_of faults.old))
        (E.contents (inner_of faults.new)) text.now }
    ensures prefix { AppendsPrefix (E.contents (inner_of faults.old))
        (E.contents (inner_of faults.new)) text.now }
{
    let _ = faults.send(text.as_bytes());
    Status::Refused
}
