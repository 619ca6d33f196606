//! Lines that are written part by part.
ghost use Rattle.std.specs.Prelude.{◌≡◌, true, OnOk, OnErr};
ghost use Rattle.std.specs.Io.KnownBytes.{Appends};
ghost use Rattle.std.specs.List.{flat_map};
ghost use Rattle.watched_io.specs.Statuses.{Says};
ghost use Rattle.watched_io.specs.Prefix.{AppendsPrefix};
ghost use Rattle.watched_io.specs.States.{writer_state};
ghost use Rattle.watched_io.specs.Watched.{has_failed_of, inner_of};

use crate::{Watched, WriteFailed};
use std::io::Write;

/// Writes the parts, one behind the other, each of them flushed. It takes no memory. After a failed
/// write the writer has a prefix of them.
pub fn write_parts<W: Write>(parts: &[&str], writer: &mut Watched<W>) -> Result<(), WriteFailed>
    ensures ok { OnOk result (Appends (W.contents (inner_of writer.old))
        (W.contents (inner_of writer.new)) (flat_map (λ part. part.now) parts.now)) }
    ensures err { OnErr result (AppendsPrefix (W.contents (inner_of writer.old))
        (W.contents (inner_of writer.new)) (flat_map (λ part. part.now) parts.now)) }
    ensures failed { OnErr result (has_failed_of writer.new ≡ true) }
    ensures same { OnOk result (has_failed_of writer.new ≡ has_failed_of writer.old) }
{
    for part in parts {
        writer.send(part.as_bytes())?;
    }
    Ok(())
}

/// Tells a line, by its parts. Where a write fails there is nobody to be told. It takes no memory.
pub fn say<E: Write>(parts: &[&str], faults: &mut Watched<E>)
    ensures { Says (flat_map (λ part. part.now) parts.now)
        (writer_state E.contents faults.old) (writer_state E.contents faults.new) }
{
    let _ = write_parts(parts, faults);
}
