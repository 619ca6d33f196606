//! Texts that are read whole, up to a limit.
ghost use Rattle.std.specs.Prelude.{◌≡◌, ◌⊎◌, true, IfOk, OnOk, IsErrOf};
ghost use Rattle.watched_io.specs.States.{ReadsAll, ReadsTooMuch, ReadsWithin, reader_state};
ghost use Rattle.watched_io.specs.Watched.{has_failed_of};
ghost use Rattle.watched_io.specs.declared.text.TheConstants.{CHUNK_MAX};

use crate::{FileFault, Watched};
use std::alloc::Global;
use std::io::Read;

/// The most bytes that are read at once.
pub const CHUNK_MAX: usize = 65_536;

/// Reads all that the reader has left, of which at most `limit` bytes may come.
///
/// A read that fails is not tried again. No more than `CHUNK_MAX` bytes beyond the limit are read.
pub fn read_text<R: Read>(
    alloc: Global,
    reader: &mut Watched<R>,
    limit: usize,
) -> Result<Vec<u8>, FileFault>
    ensures ok { IfOk result (λ text. ReadsAll limit
        (reader_state R.remaining reader.old) (reader_state R.remaining reader.new) text.items) }

    ensures read { IsErrOf result FileFault.ReadFault → (has_failed_of reader.new ≡ true)
        ⊎ ReadsTooMuch limit CHUNK_MAX
        (reader_state R.remaining reader.old) (reader_state R.remaining reader.new) }

    ensures memory { IsErrOf result FileFault.OutOfMemory → ReadsWithin limit
        (reader_state R.remaining reader.old) (reader_state R.remaining reader.new)
        × (has_failed_of reader.new ≡ has_failed_of reader.old) }

    ensures same { OnOk result (has_failed_of reader.new ≡ has_failed_of reader.old) }
{
    let mut chunk = vec![in alloc; 0u8; CHUNK_MAX]?;
    let mut text = Vec::new(alloc);
    'reading: loop {
        let count = reader.read(chunk.as_mut_slice())?;
        if count == 0 {
            return Ok(text);
        }
        if count > limit - text.len() {
            return Err(FileFault::ReadFault);
        }
        text.extend_from_slice(&chunk[..count])?;
    }
}
