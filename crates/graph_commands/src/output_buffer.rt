//! Text that is collected, so that a writer is called once for many lines.
ghost use Rattle.std.specs.Prelude.{◌≡◌, ◌≤◌, ◌++◌, ◌+◌, ◌∷◌, List, ℕ, [], length, take, true, decimal, OnOk, OnErr};
ghost use Rattle.std.specs.Io.KnownBytes.{Appends};
ghost use Rattle.std.specs.List.{flat_map};
ghost use Rattle.graph_commands.specs.Puts.{PutsBytes};
ghost use Rattle.graph_commands.specs.OutputTexts.{value_text};
ghost use Rattle.watched_io.specs.declared.text.TheConstants.{CHUNK_MAX};
ghost use Rattle.watched_io.specs.Prefix.{AppendsPrefix};
ghost use Rattle.watched_io.specs.Watched.{has_failed_of, inner_of};

use itoa::write_digits;
use std::io::Write;
use std::marker::Model;
use watched_io::{CHUNK_MAX, Watched, WriteFailed};

/// Room for a number, its sign and the end of its line, in bytes.
const LINE_ROOM: usize = 22;

/// The end of a text, of at most `CHUNK_MAX` bytes, which waits to be written. It stands on the
/// stack.
#[derive(Drop)]
pub struct OutputBuffer {
    buf: [u8; CHUNK_MAX],
    len: usize,
}

/// How many digits the number has.
fn digit_count(number: u64) -> usize
    ensures { result ≡ length (decimal number) }
{
    if number == 0 {
        1
    } else {
        number.ilog10() as usize + 1
    }
}

impl Model for OutputBuffer {
    ghost Value = { List ℕ };

    ghost view = { λ piece. take piece.len piece.buf };

    ghost invariant = { λ piece. piece.len ≤ CHUNK_MAX };
}

impl OutputBuffer {
    /// One in which nothing waits.
    pub fn new() -> OutputBuffer
        ensures { result ≡ [] }
    {
        OutputBuffer {
            buf: [0; CHUNK_MAX],
            len: 0,
        }
    }

    /// Forgets what waits.
    pub(crate) fn clear(&mut self)
        ensures { self.new ≡ [] }
    {
        self.len = 0;
    }

    /// Whether so many bytes more find room.
    fn has_room(&self, count: usize) -> bool
        ensures { result ≡ true → length self.now + count ≤ CHUNK_MAX }
    {
        count <= CHUNK_MAX - self.len
    }

    /// Keeps the bytes behind those that wait.
    fn keep(&mut self, bytes: &[u8])
        requires { length self.old + length bytes.now ≤ CHUNK_MAX }
        ensures { self.new ≡ self.old ++ bytes.now }
    {
        let end = self.len + bytes.len();
        self.buf[self.len..end].copy_from_slice(bytes);
        self.len = end;
    }

    /// Keeps a byte behind those that wait.
    fn keep_byte(&mut self, byte: u8)
        requires { length self.old + 1 ≤ CHUNK_MAX }
        ensures { self.new ≡ self.old ++ byte ∷ [] }
    {
        self.buf[self.len] = byte;
        self.len += 1;
    }

    /// Keeps a number's digits behind the bytes that wait.
    fn keep_digits(&mut self, number: u64)
        requires { length self.old + 20 ≤ CHUNK_MAX }
        ensures { self.new ≡ self.old ++ decimal number }
    {
        let end = self.len + digit_count(number);
        write_digits(number, &mut self.buf, end);
        self.len = end;
    }

    /// Keeps a value behind the bytes that wait, with the end of its line.
    fn keep_value(&mut self, value: i64)
        requires { length self.old + LINE_ROOM ≤ CHUNK_MAX }
        ensures { self.new ≡ self.old ++ value_text value }
    {
        if value < 0 {
            self.keep_byte(b'-');
        }
        self.keep_digits(value.unsigned_abs());
        self.keep_byte(b'\n');
    }

    /// Writes what waits.
    pub(crate) fn hand_over<W: Write>(&mut self, writer: &mut Watched<W>) -> Result<(), WriteFailed>
        ensures ok { OnOk result (Appends (W.contents (inner_of writer.old))
            (W.contents (inner_of writer.new)) self.old) }
        ensures empty { OnOk result (self.new ≡ []) }
        ensures err { OnErr result (AppendsPrefix (W.contents (inner_of writer.old))
            (W.contents (inner_of writer.new)) self.old) }
        ensures failed { OnErr result (has_failed_of writer.new ≡ true) }
        ensures same { OnOk result (has_failed_of writer.new ≡ has_failed_of writer.old) }
    {
        writer.send(&self.buf[..self.len])?;
        self.len = 0;
        Ok(())
    }

    /// Writes what waits where it leaves no room for a value's line.
    fn make_room<W: Write>(&mut self, writer: &mut Watched<W>) -> Result<(), WriteFailed>
        ensures ok { OnOk result (PutsBytes (W.contents (inner_of writer.old))
            (W.contents (inner_of writer.new)) self.old self.new []) }
        ensures room { OnOk result (length self.new + LINE_ROOM ≤ CHUNK_MAX) }
        ensures err { OnErr result (AppendsPrefix (W.contents (inner_of writer.old))
            (W.contents (inner_of writer.new)) self.old) }
        ensures failed { OnErr result (has_failed_of writer.new ≡ true) }
        ensures same { OnOk result (has_failed_of writer.new ≡ has_failed_of writer.old) }
    {
        if self.has_room(LINE_ROOM) {
            return Ok(());
        }
        self.hand_over(writer)
    }

    /// Puts a value on a line of its own.
    pub(crate) fn put_value<W: Write>(
        &mut self,
        value: i64,
        writer: &mut Watched<W>,
    ) -> Result<(), WriteFailed>
        ensures ok { OnOk result (PutsBytes (W.contents (inner_of writer.old))
            (W.contents (inner_of writer.new)) self.old self.new (value_text value)) }
        ensures err { OnErr result (AppendsPrefix (W.contents (inner_of writer.old))
            (W.contents (inner_of writer.new)) (self.old ++ value_text value)) }
        ensures failed { OnErr result (has_failed_of writer.new ≡ true) }
        ensures same { OnOk result (has_failed_of writer.new ≡ has_failed_of writer.old) }
    {
        self.make_room(writer)?;
        self.keep_value(value);
        Ok(())
    }

    /// Puts the bytes behind those that wait, and writes what finds no room.
    pub(crate) fn put<W: Write>(
        &mut self,
        bytes: &[u8],
        writer: &mut Watched<W>,
    ) -> Result<(), WriteFailed>
        ensures ok { OnOk result (PutsBytes (W.contents (inner_of writer.old))
            (W.contents (inner_of writer.new)) self.old self.new bytes.now) }
        ensures err { OnErr result (AppendsPrefix (W.contents (inner_of writer.old))
            (W.contents (inner_of writer.new)) (self.old ++ bytes.now)) }
        ensures failed { OnErr result (has_failed_of writer.new ≡ true) }
        ensures same { OnOk result (has_failed_of writer.new ≡ has_failed_of writer.old) }
    {
        if self.has_room(bytes.len()) {
            self.keep(bytes);
            return Ok(());
        }
        self.hand_over(writer)?;
        if self.has_room(bytes.len()) {
            self.keep(bytes);
            return Ok(());
        }
        writer.send(bytes)
    }

    /// Puts texts, one behind the other.
    pub(crate) fn put_texts<W: Write>(
        &mut self,
        texts: &[&str],
        writer: &mut Watched<W>,
    ) -> Result<(), WriteFailed>
        ensures ok { OnOk result (PutsBytes (W.contents (inner_of writer.old))
            (W.contents (inner_of writer.new)) self.old self.new
            (flat_map (λ text. text.now) texts.now)) }
        ensures err { OnErr result (AppendsPrefix (W.contents (inner_of writer.old))
            (W.contents (inner_of writer.new))
            (self.old ++ flat_map (λ text. text.now) texts.now)) }
        ensures failed { OnErr result (has_failed_of writer.new ≡ true) }
        ensures same { OnOk result (has_failed_of writer.new ≡ has_failed_of writer.old) }
    {
        for text in texts {
            self.put(text.as_bytes(), writer)?;
        }
        Ok(())
    }
}
