//! The sinks of a graph as the columns of a table.
ghost use Rattle.std.specs.Prelude.{◌≡◌, ◌<◌, ◌≤◌, ◌++◌, ◌==◌, [], length, map, true, OnOk, OnErr};
ghost use Rattle.std.specs.List.{All};
ghost use Rattle.std.specs.Io.KnownBytes.{Appends};
ghost use Rattle.stream_eval.specs.Results.{sink_values};
ghost use Rattle.graph_commands.specs.ColumnTexts.{cell, cell_at, cells_text, columns_text, comma_before, end_at, row_text, rows_of, value_at, value_cell};
ghost use Rattle.graph_commands.specs.Puts.{PutsBytes};
ghost use Rattle.watched_io.specs.Prefix.{AppendsPrefix};
ghost use Rattle.watched_io.specs.Watched.{has_failed_of, inner_of};

use crate::output_buffer::OutputBuffer;
use graph_base::Place;
use itoa::Buffer;
use std::io::Write;
use stream_eval::Lines;
use stream_lists::Job;
use watched_io::{Watched, WriteFailed};

/// The value of a sink at step `n`, where it has begun and has not ended.
fn value_at(job: &Job, sink: &Lines, n: u128) -> Option<i64>
    requires { sink.now.task < length job.now.graph.tasks }
    ensures { result ≡ value_at job.now n (sink_values sink.now) }
{
    let start = job.span(sink.task).offset;
    if n < start {
        return None;
    }
    let behind = n - start;
    if behind >= sink.values.len() as u128 {
        return None;
    }
    Some(sink.values[behind as usize])
}

/// One past the step of a sink's last value, or 0 where it has none.
fn end_at(job: &Job, sink: &Lines) -> u128
    requires { sink.now.task < length job.now.graph.tasks }
    ensures { result ≡ end_at job.now (sink_values sink.now) }
{
    if sink.values.is_empty() {
        return 0;
    }
    job.span(sink.task).offset + sink.values.len() as u128
}

/// What stands before cell number `k` of a line.
fn comma_before(k: usize) -> &'static [u8]
    ensures { result.now ≡ comma_before k }
{
    if k > 0 { b"," } else { b"" }
}

/// How many steps have a line.
fn row_count(job: &Job, sinks: &[Lines]) -> u128
    requires { All (λ sink. sink.task < length job.now.graph.tasks) sinks.now }
    ensures { result ≡ rows_of job.now (map sink_values sinks.now) }
{
    let mut end: u128 = 0;
    for sink in sinks {
        end = end.max(end_at(job, sink));
    }
    end
}

/// Writes the sinks of a job as the columns of a table: a line with their names, and one for each
/// step, up to the last at which a sink has a value. Where a sink has not begun, or has ended, its
/// column is empty.
///
/// The text is written in pieces of at most `CHUNK_MAX` bytes, each of them flushed. It takes no
/// memory. After a failed write the writer has a prefix of the text.
pub fn write_columns<W: Write>(
    writer: &mut Watched<W>,
    job: &Job,
    sinks: &[Lines],
) -> Result<(), WriteFailed>
    requires { All (λ sink. sink.task < length job.now.graph.tasks) sinks.now }
    ensures ok { OnOk result (Appends (W.contents (inner_of writer.old))
        (W.contents (inner_of writer.new)) (columns_text job.now (map sink_values sinks.now))) }
    ensures err { OnErr result (AppendsPrefix (W.contents (inner_of writer.old))
        (W.contents (inner_of writer.new)) (columns_text job.now (map sink_values sinks.now))) }
    ensures failed { OnErr result (has_failed_of writer.new ≡ true) }
{
    let mut piece = OutputBuffer::new();
    piece.put_row(job, sinks, None, writer)?;
    for n in 0..row_count(job, sinks) {
        piece.put_row(job, sinks, Some(n), writer)?;
    }
    piece.hand_over(writer)
}

impl OutputBuffer {
    /// Puts a value, or what stands for none.
    fn put_value_cell<W: Write>(
        &mut self,
        value: Option<i64>,
        alone: bool,
        writer: &mut Watched<W>,
    ) -> Result<(), WriteFailed>
        ensures ok { OnOk result (PutsBytes (W.contents (inner_of writer.old))
            (W.contents (inner_of writer.new)) self.old self.new (value_cell alone value)) }
        ensures err { OnErr result (AppendsPrefix (W.contents (inner_of writer.old))
            (W.contents (inner_of writer.new)) (self.old ++ value_cell alone value)) }
        ensures failed { OnErr result (has_failed_of writer.new ≡ true) }
    {
        match value {
            Some(value) => self.put(Buffer::new().format(value).as_bytes(), writer),
            None if alone => self.put(b"\"\"", writer),
            None => Ok(()),
        }
    }

    /// Puts what stands in a sink's column.
    fn put_cell<W: Write>(
        &mut self,
        job: &Job,
        sink: &Lines,
        alone: bool,
        step: Option<u128>,
        writer: &mut Watched<W>,
    ) -> Result<(), WriteFailed>
        requires { sink.now.task < length job.now.graph.tasks }
        ensures ok { OnOk result (PutsBytes (W.contents (inner_of writer.old))
            (W.contents (inner_of writer.new)) self.old self.new
            (cell job.now alone step (sink_values sink.now))) }
        ensures err { OnErr result (AppendsPrefix (W.contents (inner_of writer.old))
            (W.contents (inner_of writer.new))
            (self.old ++ cell job.now alone step (sink_values sink.now))) }
        ensures failed { OnErr result (has_failed_of writer.new ≡ true) }
    {
        match step {
            None => self.put(job.graph().name(Place::Task(sink.task)).as_bytes(), writer),
            Some(n) => self.put_value_cell(value_at(job, sink, n), alone, writer),
        }
    }

    /// Puts cell number `k` of a line, with the comma before it.
    fn put_cell_at<W: Write>(
        &mut self,
        job: &Job,
        sinks: &[Lines],
        step: Option<u128>,
        k: usize,
        writer: &mut Watched<W>,
    ) -> Result<(), WriteFailed>
        requires tasks { All (λ sink. sink.task < length job.now.graph.tasks) sinks.now }
        requires cell { k < length sinks.now }
        ensures ok { OnOk result (PutsBytes (W.contents (inner_of writer.old))
            (W.contents (inner_of writer.new)) self.old self.new
            (cell_at job.now (map sink_values sinks.now) step k)) }
        ensures err { OnErr result (AppendsPrefix (W.contents (inner_of writer.old))
            (W.contents (inner_of writer.new))
            (self.old ++ cell_at job.now (map sink_values sinks.now) step k)) }
        ensures failed { OnErr result (has_failed_of writer.new ≡ true) }
    {
        self.put(comma_before(k), writer)?;
        self.put_cell(job, &sinks[k], sinks.len() == 1, step, writer)
    }

    /// Puts a cell of each sink.
    fn put_cells<W: Write>(
        &mut self,
        job: &Job,
        sinks: &[Lines],
        step: Option<u128>,
        writer: &mut Watched<W>,
    ) -> Result<(), WriteFailed>
        requires { All (λ sink. sink.task < length job.now.graph.tasks) sinks.now }
        ensures ok { OnOk result (PutsBytes (W.contents (inner_of writer.old))
            (W.contents (inner_of writer.new)) self.old self.new
            (cells_text job.now (map sink_values sinks.now) step)) }
        ensures err { OnErr result (AppendsPrefix (W.contents (inner_of writer.old))
            (W.contents (inner_of writer.new))
            (self.old ++ cells_text job.now (map sink_values sinks.now) step)) }
        ensures failed { OnErr result (has_failed_of writer.new ≡ true) }
    {
        for k in 0..sinks.len() {
            self.put_cell_at(job, sinks, step, k, writer)?;
        }
        Ok(())
    }

    /// Puts the line of a step, or that of the names.
    fn put_row<W: Write>(
        &mut self,
        job: &Job,
        sinks: &[Lines],
        step: Option<u128>,
        writer: &mut Watched<W>,
    ) -> Result<(), WriteFailed>
        requires { All (λ sink. sink.task < length job.now.graph.tasks) sinks.now }
        ensures ok { OnOk result (PutsBytes (W.contents (inner_of writer.old))
            (W.contents (inner_of writer.new)) self.old self.new
            (row_text job.now (map sink_values sinks.now) step)) }
        ensures err { OnErr result (AppendsPrefix (W.contents (inner_of writer.old))
            (W.contents (inner_of writer.new))
            (self.old ++ row_text job.now (map sink_values sinks.now) step)) }
        ensures failed { OnErr result (has_failed_of writer.new ≡ true) }
    {
        self.put_cells(job, sinks, step, writer)?;
        self.put(b"\n", writer)
    }
}
