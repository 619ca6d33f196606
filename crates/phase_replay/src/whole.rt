//! Replay of a script from a reader to a writer.
ghost use Rattle.std.specs.Prelude.{◌≡◌, ◌<◌, ◌≤◌, ℕ, List, length, take};
ghost use Rattle.std.specs.Prelude.{OnOk, OnErr, IfOk, IfErr};
ghost use Rattle.std.specs.Io.{ReadsAtMost};
ghost use Rattle.std.specs.Io.KnownBytes.{IsAtEnd};
ghost use Rattle.watched_io.specs.States.{Gives, reader_state, writer_state};
ghost use Rattle.watched_io.specs.Watched.{inner_of, has_failed_of};
ghost use Rattle.phase_replay.specs.ScriptReading.{StopsReading};
ghost use Rattle.phase_replay.specs.Replay.{HasCause, RepliesPrefix, RepliesWhole};
ghost use Rattle.phase_replay.specs.Replay.{ReplaysAll, ReplaysPrefix};
ghost use Rattle.phase_replay.specs.Replayer.{ReplayerOwes};
ghost use Rattle.phase_replay.specs.Replies.{replies_of};

use crate::replayer::Replayer;
use std::alloc::Global;
use std::io::{Read, Write};
use watched_io::{IoFault, Watched};

/// The longest script that is replayed, in bytes.
pub const SCRIPT_MAX: usize = 1_073_741_824;

/// The most bytes that are read at once.
pub const PIECE_MAX: usize = 65_536;

// Reads the next piece of a script, of which at most `left` bytes may still come.
fn read_piece<R: Read>(
    reader: &mut Watched<R>,
    piece: &mut [u8],
    left: usize,
) -> Result<usize, IoFault>
    ensures bound { ReadsAtMost result piece.new }
    ensures fits { IfOk result (λ n. n ≤ left) }
    ensures gives { IfOk result (λ n. Gives (reader_state R.remaining reader.old)
        (reader_state R.remaining reader.new) (take n piece.new)) }
    ensures end { IfOk result (λ n. n ≡ 0 → 0 < length piece.new
        → IsAtEnd (R.remaining (inner_of reader.new))) }
    ensures same { OnOk result (has_failed_of reader.new ≡ has_failed_of reader.old) }
    ensures err { IfErr result (λ fault. (fault ≡ IoFault.ReadFault)
        × StopsReading (reader_state R.remaining reader.old)
        (reader_state R.remaining reader.new) left (length piece.new)) }
{
    let count = reader.read(piece)?;
    if count > left {
        return Err(IoFault::ReadFault);
    }
    Ok(count)
}

// Replays the whole script that the reader has left, of which the replayer has read no byte. The
// piece is the room for the bytes that are read at once.
fn replay_by<R: Read, W: Write>(
    replayer: &mut Replayer,
    piece: &mut [u8],
    reader: &mut Watched<R>,
    writer: &mut Watched<W>,
) -> Result<(), IoFault>
    requires begun { (script : List ℕ) → ReplayerOwes replayer.old script (replies_of script) }
    requires room { length piece.old ≡ PIECE_MAX }
    ensures all { OnOk result (ReplaysAll
        (reader_state R.remaining reader.old) (reader_state R.remaining reader.new)
        (writer_state W.contents writer.old) (writer_state W.contents writer.new)) }

    ensures prefix { OnErr result (ReplaysPrefix
        (reader_state R.remaining reader.old) (reader_state R.remaining reader.new)
        (writer_state W.contents writer.old) (writer_state W.contents writer.new)) }

    ensures cause { IfErr result (λ fault. HasCause fault
        (reader_state R.remaining reader.old) (reader_state R.remaining reader.new)
        (writer_state W.contents writer.old) (writer_state W.contents writer.new)) }
{
    let mut left = SCRIPT_MAX;
    'replaying: loop {
        replayer.hand_over(writer)?;
        let count = read_piece(reader, piece, left)?;
        if count == 0 {
            replayer.finish(writer)?;
            return Ok(());
        }
        left -= count;
        replayer.piece(&piece[..count], writer)?;
    }
}

// The same, with a replayer and a piece of its own.
fn replay_pieces<R: Read, W: Write>(
    alloc: Global,
    reader: &mut Watched<R>,
    writer: &mut Watched<W>,
) -> Result<(), IoFault>
    ensures all { OnOk result (ReplaysAll
        (reader_state R.remaining reader.old) (reader_state R.remaining reader.new)
        (writer_state W.contents writer.old) (writer_state W.contents writer.new)) }

    ensures prefix { OnErr result (ReplaysPrefix
        (reader_state R.remaining reader.old) (reader_state R.remaining reader.new)
        (writer_state W.contents writer.old) (writer_state W.contents writer.new)) }

    ensures cause { IfErr result (λ fault. HasCause fault
        (reader_state R.remaining reader.old) (reader_state R.remaining reader.new)
        (writer_state W.contents writer.old) (writer_state W.contents writer.new)) }
{
    let mut piece = vec![in alloc; 0u8; PIECE_MAX]?;
    let mut replayer = Replayer::new(alloc);
    replay_by(&mut replayer, piece.as_mut_slice(), reader, writer)
}

/// Replays the whole script that the reader has left: each of its lines is answered by one reply
/// line, in order, written before the next read.
///
/// A user at a terminal thus sees each reply at once. Bytes are read and written `PIECE_MAX` at a
/// time, and of a line of any length no more than 363 bytes are kept. A fault stops the replay, and
/// no call that failed is tried again; where memory runs out, the replies that wait are written
/// first.
pub fn replay<R: Read, W: Write>(
    alloc: Global,
    reader: &mut Watched<R>,
    writer: &mut Watched<W>,
) -> Result<(), IoFault>
    ensures ok { OnOk result (RepliesWhole (reader_state R.remaining reader.old)
        (writer_state W.contents writer.old) (writer_state W.contents writer.new)) }

    ensures err { OnErr result (RepliesPrefix (reader_state R.remaining reader.old)
        (writer_state W.contents writer.old) (writer_state W.contents writer.new)) }

    // The same where the reader's bytes are not known beforehand: some script was read, and its
    // length is the count's.
    ensures all { OnOk result (ReplaysAll
        (reader_state R.remaining reader.old) (reader_state R.remaining reader.new)
        (writer_state W.contents writer.old) (writer_state W.contents writer.new)) }

    ensures prefix { OnErr result (ReplaysPrefix
        (reader_state R.remaining reader.old) (reader_state R.remaining reader.new)
        (writer_state W.contents writer.old) (writer_state W.contents writer.new)) }

    // Where a read or a write fails, that is the answer.
    ensures cause { IfErr result (λ fault. HasCause fault
        (reader_state R.remaining reader.old) (reader_state R.remaining reader.new)
        (writer_state W.contents writer.old) (writer_state W.contents writer.new)) }
{
    replay_pieces(alloc, reader, writer)
}
