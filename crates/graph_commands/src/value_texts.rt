//! The text of many values, which several threads may make.
ghost use Rattle.std.specs.Prelude.{◌≡◌, ◌++◌, ⊤, IfSome, OnOk, OnErr, true};
ghost use Rattle.std.specs.Io.KnownBytes.{Appends};
ghost use Rattle.std.specs.List.{flat_map};
ghost use Rattle.graph_commands.specs.OutputTexts.{value_text};
ghost use Rattle.graph_commands.specs.Puts.{PutsBytes, bytes_of};
ghost use Rattle.watched_io.specs.Prefix.{AppendsPrefix};
ghost use Rattle.watched_io.specs.Watched.{has_failed_of, inner_of};

use crate::output_buffer::OutputBuffer;
use graph_lang::OneThread;
use std::io::Write;
use watched_io::{Watched, WriteFailed};

/// How many values are made text at a time.
const ROUND: usize = 524_288;

/// Who makes the text of values: one thread, or several.
pub trait ValueTexts {
    /// What is asked for where they write: of threads, that they may share what starts them.
    ghost may_write: { Self → Type 0 } = { λ _. ⊤ };

    /// The text of these values, each on a line of its own, in parts that follow one another; or
    /// nothing, where it is to be made piece by piece as it is written.
    fn text(&self, values: &[i64]) -> Option<Vec<Vec<u8>>>
        requires { may_write self.now }
        ensures { IfSome result (λ parts.
            flat_map bytes_of parts.items ≡ flat_map value_text values.now) };
}

impl ValueTexts for OneThread {
    fn text(&self, _values: &[i64]) -> Option<Vec<Vec<u8>>> {
        None
    }
}

impl OutputBuffer {
    /// Puts values, each on a line of its own.
    pub(crate) fn put_all<W: Write, T: ValueTexts>(
        &mut self,
        texts: &T,
        values: &[i64],
        writer: &mut Watched<W>,
    ) -> Result<(), WriteFailed>
        requires { T.may_write texts.now }
        ensures ok { OnOk result (PutsBytes (W.contents (inner_of writer.old))
            (W.contents (inner_of writer.new)) self.old self.new
            (flat_map value_text values.now)) }
        ensures err { OnErr result (AppendsPrefix (W.contents (inner_of writer.old))
            (W.contents (inner_of writer.new)) (self.old ++ flat_map value_text values.now)) }
        ensures failed { OnErr result (has_failed_of writer.new ≡ true) }
        ensures same { OnOk result (has_failed_of writer.new ≡ has_failed_of writer.old) }
    {
        let mut at = 0;
        while at < values.len() {
            let end = at + ROUND.min(values.len() - at);
            self.put_round(texts, &values[at..end], writer)?;
            at = end;
        }
        Ok(())
    }

    /// The same of so many values as are made text at a time.
    fn put_round<W: Write, T: ValueTexts>(
        &mut self,
        texts: &T,
        values: &[i64],
        writer: &mut Watched<W>,
    ) -> Result<(), WriteFailed>
        requires { T.may_write texts.now }
        ensures ok { OnOk result (PutsBytes (W.contents (inner_of writer.old))
            (W.contents (inner_of writer.new)) self.old self.new
            (flat_map value_text values.now)) }
        ensures err { OnErr result (AppendsPrefix (W.contents (inner_of writer.old))
            (W.contents (inner_of writer.new)) (self.old ++ flat_map value_text values.now)) }
        ensures failed { OnErr result (has_failed_of writer.new ≡ true) }
        ensures same { OnOk result (has_failed_of writer.new ≡ has_failed_of writer.old) }
    {
        match texts.text(values) {
            Some(parts) => self.put_parts(&parts, writer),
            None => self.put_values(values, writer),
        }
    }

    /// Puts the parts of a text, one behind the other.
    fn put_parts<W: Write>(
        &mut self,
        parts: &[Vec<u8>],
        writer: &mut Watched<W>,
    ) -> Result<(), WriteFailed>
        ensures ok { OnOk result (PutsBytes (W.contents (inner_of writer.old))
            (W.contents (inner_of writer.new)) self.old self.new (flat_map bytes_of parts.now)) }
        ensures err { OnErr result (AppendsPrefix (W.contents (inner_of writer.old))
            (W.contents (inner_of writer.new)) (self.old ++ flat_map bytes_of parts.now)) }
        ensures failed { OnErr result (has_failed_of writer.new ≡ true) }
        ensures same { OnOk result (has_failed_of writer.new ≡ has_failed_of writer.old) }
    {
        for part in parts {
            self.put(part, writer)?;
        }
        Ok(())
    }
}
