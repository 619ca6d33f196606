//! The output of a graph.
ghost use Rattle.std.specs.Prelude.{◌≡◌, ◌<◌, ◌++◌, length, map, true, OnOk, OnErr};
ghost use Rattle.std.specs.List.{All, flat_map};
ghost use Rattle.std.specs.Io.KnownBytes.{Appends};
ghost use Rattle.stream_eval.specs.Results.{sink_output};
ghost use Rattle.graph_commands.specs.OutputTexts.{heading_text, sink_text, text_of, value_text};
ghost use Rattle.graph_commands.specs.Puts.{PutsBytes};
ghost use Rattle.watched_io.specs.Prefix.{AppendsPrefix};
ghost use Rattle.watched_io.specs.Watched.{has_failed_of, inner_of};

use crate::output_buffer::OutputBuffer;
use crate::value_texts::ValueTexts;
use graph_base::{Graph, Place};
use itoa::Buffer;
use std::io::Write;
use stream_eval::Lines;
use watched_io::{Watched, WriteFailed};

/// Writes the values of each sink: its name, ` from ` and its start where it has one, a space and
/// the count of its values, and then each value, each on a line of its own.
///
/// The text is written in pieces of at most `CHUNK_MAX` bytes, each of them flushed. It takes no
/// memory but what `texts` takes. After a failed write the writer has a prefix of the text.
pub fn write_lines<W: Write, T: ValueTexts>(
    writer: &mut Watched<W>,
    texts: &T,
    graph: &Graph,
    lines: &[Lines],
) -> Result<(), WriteFailed>
    requires may { T.may_write texts.now }
    requires lines { All (λ sink. sink.task < length graph.now.tasks) lines.now }
    ensures ok { OnOk result (Appends (W.contents (inner_of writer.old))
        (W.contents (inner_of writer.new)) (text_of graph.now (map sink_output lines.now))) }
    ensures err { OnErr result (AppendsPrefix (W.contents (inner_of writer.old))
        (W.contents (inner_of writer.new)) (text_of graph.now (map sink_output lines.now))) }
    ensures failed { OnErr result (has_failed_of writer.new ≡ true) }
    ensures same { OnOk result (has_failed_of writer.new ≡ has_failed_of writer.old) }
{
    let mut piece = OutputBuffer::new();
    for sink in lines {
        let name = graph.name(Place::Task(sink.task));
        piece.put_sink(texts, name, sink, writer)?;
    }
    piece.hand_over(writer)
}

/// Writes the values of one sink, each on a line of its own: as `write_lines` writes them, with no
/// name and no count.
pub fn write_values<W: Write>(writer: &mut Watched<W>, values: &[i64]) -> Result<(), WriteFailed>
    ensures ok { OnOk result (Appends (W.contents (inner_of writer.old))
        (W.contents (inner_of writer.new)) (flat_map value_text values.now)) }
    ensures err { OnErr result (AppendsPrefix (W.contents (inner_of writer.old))
        (W.contents (inner_of writer.new)) (flat_map value_text values.now)) }
    ensures failed { OnErr result (has_failed_of writer.new ≡ true) }
    ensures same { OnOk result (has_failed_of writer.new ≡ has_failed_of writer.old) }
{
    OutputBuffer::new().write_values(writer, values)
}

/// The same, with the text made by `texts`.
pub(crate) fn write_values_by<W: Write, T: ValueTexts>(
    writer: &mut Watched<W>,
    texts: &T,
    values: &[i64],
) -> Result<(), WriteFailed>
    requires { T.may_write texts.now }
    ensures ok { OnOk result (Appends (W.contents (inner_of writer.old))
        (W.contents (inner_of writer.new)) (flat_map value_text values.now)) }
    ensures err { OnErr result (AppendsPrefix (W.contents (inner_of writer.old))
        (W.contents (inner_of writer.new)) (flat_map value_text values.now)) }
    ensures failed { OnErr result (has_failed_of writer.new ≡ true) }
    ensures same { OnOk result (has_failed_of writer.new ≡ has_failed_of writer.old) }
{
    let mut piece = OutputBuffer::new();
    piece.put_all(texts, values, writer)?;
    piece.hand_over(writer)
}

impl OutputBuffer {
    /// Puts the line of a sink's name, its start and its count.
    fn put_heading<W: Write>(
        &mut self,
        name: &str,
        start: Option<u64>,
        count: usize,
        writer: &mut Watched<W>,
    ) -> Result<(), WriteFailed>
        ensures ok { OnOk result (PutsBytes (W.contents (inner_of writer.old))
            (W.contents (inner_of writer.new)) self.old self.new
            (heading_text name.now start count)) }
        ensures err { OnErr result (AppendsPrefix (W.contents (inner_of writer.old))
            (W.contents (inner_of writer.new)) (self.old ++ heading_text name.now start count)) }
        ensures failed { OnErr result (has_failed_of writer.new ≡ true) }
        ensures same { OnOk result (has_failed_of writer.new ≡ has_failed_of writer.old) }
    {
        let mut numbers = (Buffer::new(), Buffer::new());
        let count = numbers.0.format(count);
        match start {
            Some(start) => {
                let start = numbers.1.format(start);
                let texts = [name, " from ", start, " ", count, "\n"];
                self.put_texts(texts.as_slice(), writer)
            }
            None => {
                let texts = [name, " ", count, "\n"];
                self.put_texts(texts.as_slice(), writer)
            }
        }
    }

    /// Puts values, each on a line of its own.
    pub(crate) fn put_values<W: Write>(
        &mut self,
        values: &[i64],
        writer: &mut Watched<W>,
    ) -> Result<(), WriteFailed>
        ensures ok { OnOk result (PutsBytes (W.contents (inner_of writer.old))
            (W.contents (inner_of writer.new)) self.old self.new
            (flat_map value_text values.now)) }
        ensures err { OnErr result (AppendsPrefix (W.contents (inner_of writer.old))
            (W.contents (inner_of writer.new)) (self.old ++ flat_map value_text values.now)) }
        ensures failed { OnErr result (has_failed_of writer.new ≡ true) }
        ensures same { OnOk result (has_failed_of writer.new ≡ has_failed_of writer.old) }
    {
        for value in values {
            self.put_value(*value, writer)?;
        }
        Ok(())
    }

    /// Writes the values of one sink, each on a line of its own. What waited here is forgotten, and
    /// the buffer can be kept for the values that come next.
    pub fn write_values<W: Write>(
        &mut self,
        writer: &mut Watched<W>,
        values: &[i64],
    ) -> Result<(), WriteFailed>
        ensures ok { OnOk result (Appends (W.contents (inner_of writer.old))
            (W.contents (inner_of writer.new)) (flat_map value_text values.now)) }
        ensures err { OnErr result (AppendsPrefix (W.contents (inner_of writer.old))
            (W.contents (inner_of writer.new)) (flat_map value_text values.now)) }
        ensures failed { OnErr result (has_failed_of writer.new ≡ true) }
        ensures same { OnOk result (has_failed_of writer.new ≡ has_failed_of writer.old) }
    {
        self.clear();
        self.put_values(values, writer)?;
        self.hand_over(writer)
    }

    /// Puts a sink's name, its start, the count of its values, and the values.
    fn put_sink<W: Write, T: ValueTexts>(
        &mut self,
        texts: &T,
        name: &str,
        sink: &Lines,
        writer: &mut Watched<W>,
    ) -> Result<(), WriteFailed>
        requires { T.may_write texts.now }
        ensures ok { OnOk result (PutsBytes (W.contents (inner_of writer.old))
            (W.contents (inner_of writer.new)) self.old self.new
            (sink_text name.now sink.now.start sink.now.values.items)) }
        ensures err { OnErr result (AppendsPrefix (W.contents (inner_of writer.old))
            (W.contents (inner_of writer.new))
            (self.old ++ sink_text name.now sink.now.start sink.now.values.items)) }
        ensures failed { OnErr result (has_failed_of writer.new ≡ true) }
        ensures same { OnOk result (has_failed_of writer.new ≡ has_failed_of writer.old) }
    {
        self.put_heading(name, sink.start, sink.values.len(), writer)?;
        self.put_all(texts, &sink.values, writer)
    }
}
