//! The lines of the failures of commands.
ghost use Rattle.std.specs.Prelude.{◌≡◌, ◌++◌, map, true, OnOk, OnErr};
ghost use Rattle.std.specs.Io.KnownBytes.{Appends};
ghost use Rattle.graph_show.specs.Explanations.{shown};
ghost use Rattle.graph_base.specs.Graphs.{IsPlace, name_at};
ghost use Rattle.graph_commands.specs.Failures.{HasPlace, failure_line};
ghost use Rattle.graph_commands.specs.GraphRuns.{graph_line, job_line, kind_text, no_sink_line, samples_line, stalled_line, too_big_line};
ghost use Rattle.graph_commands.specs.Puts.{PutsBytes};
ghost use Rattle.watched_io.specs.Prefix.{AppendsPrefix};
ghost use Rattle.watched_io.specs.Statuses.{Reports, Says};
ghost use Rattle.watched_io.specs.States.{writer_state};
ghost use Rattle.watched_io.specs.Watched.{has_failed_of, inner_of};

use crate::further::shown;
use crate::output_buffer::OutputBuffer;
use crate::{Failure, JobFault};
use graph_lang::{FaultKind, Graph, GraphFault, Place};
use itoa::Buffer;
use std::io::Write;
use watched_io::{IoFault, Watched, WriteFailed, report, say};

/// The word for a kind of fault.
fn word_of(kind: FaultKind) -> &'static str
    ensures { result.now ≡ kind_text kind }
{
    match kind {
        FaultKind::Syntax => "syntax",
        FaultKind::Limit => "limit",
        FaultKind::Twice => "twice",
        FaultKind::Unknown => "unknown",
        FaultKind::OutBeforeIn => "out-before-in",
        FaultKind::BadParent => "bad-parent",
        FaultKind::NotHeld => "not-held",
        FaultKind::OverBound => "over-bound",
        FaultKind::AnyMeets => "any-meets",
    }
}

/// Tells a faulty line of a graph.
fn tell_graph_fault<E: Write>(fault: GraphFault, faults: &mut Watched<E>)
    ensures { Says (graph_line fault.line fault.kind)
        (writer_state E.contents faults.old) (writer_state E.contents faults.new) }
{
    let mut buffer = Buffer::new();
    let line = buffer.format(fault.line);
    let parts = ["phase: graph line ", line, ": ", word_of(fault.kind), "\n"];
    say(parts.as_slice(), faults);
}

/// Tells a record of a source that is none.
fn tell_bad_sample<E: Write>(name: &str, number: usize, faults: &mut Watched<E>)
    ensures { Says (samples_line name.now number)
        (writer_state E.contents faults.old) (writer_state E.contents faults.new) }
{
    let mut buffer = Buffer::new();
    let number = buffer.format(number);
    let parts = ["phase: samples of ", name, ": record ", number, "\n"];
    say(parts.as_slice(), faults);
}

/// Tells a fault of reading, of writing or of memory.
fn tell_io_fault<E: Write>(fault: IoFault, faults: &mut Watched<E>)
    ensures { Reports fault
        (writer_state E.contents faults.old) (writer_state E.contents faults.new) }
{
    let _ = report(fault, faults);
}

/// Tells why the files give no job.
fn tell_job_fault<E: Write>(fault: &JobFault, faults: &mut Watched<E>)
    ensures { Says (job_line fault.now)
        (writer_state E.contents faults.old) (writer_state E.contents faults.new) }
{
    match fault {
        JobFault::Graph(found) => tell_graph_fault(*found, faults),
        JobFault::BadSample {
            name,
            number,
            told: _,
        } => tell_bad_sample(name.as_str(), *number, faults),
        JobFault::ReadFault => tell_io_fault(IoFault::ReadFault, faults),
        JobFault::OutOfMemory => tell_io_fault(IoFault::OutOfMemory, faults),
    }
}

/// Tells that no sink has this name.
fn tell_no_sink<E: Write>(name: &str, faults: &mut Watched<E>)
    ensures { Says (no_sink_line name.now)
        (writer_state E.contents faults.old) (writer_state E.contents faults.new) }
{
    let _ = write_no_sink(name, faults);
}

/// Writes that no sink has this name, with a question mark for each byte that is none of a line.
fn write_no_sink<E: Write>(name: &str, faults: &mut Watched<E>) -> Result<(), WriteFailed>
    ensures ok { OnOk result (Appends (E.contents (inner_of faults.old))
        (E.contents (inner_of faults.new)) (no_sink_line name.now)) }
    ensures err { OnErr result (AppendsPrefix (E.contents (inner_of faults.old))
        (E.contents (inner_of faults.new)) (no_sink_line name.now)) }
    ensures failed { OnErr result (has_failed_of faults.new ≡ true) }
{
    let mut piece = OutputBuffer::new();
    piece.put(b"phase: no sink ", faults)?;
    piece.put_shown(name.as_bytes(), faults)?;
    piece.put(b"\n", faults)?;
    piece.hand_over(faults)
}

impl OutputBuffer {
    /// Puts a text as it is shown.
    fn put_shown<W: Write>(
        &mut self,
        text: &[u8],
        writer: &mut Watched<W>,
    ) -> Result<(), WriteFailed>
        ensures ok { OnOk result (PutsBytes (W.contents (inner_of writer.old))
            (W.contents (inner_of writer.new)) self.old self.new (map shown text.now)) }
        ensures err { OnErr result (AppendsPrefix (W.contents (inner_of writer.old))
            (W.contents (inner_of writer.new)) (self.old ++ map shown text.now)) }
        ensures failed { OnErr result (has_failed_of writer.new ≡ true) }
    {
        for b in text {
            self.put(&[shown(*b)], writer)?;
        }
        Ok(())
    }
}

/// Tells where a value is out of range.
fn tell_too_big<E: Write>(graph: &Graph, place: Place, number: usize, faults: &mut Watched<E>)
    requires { IsPlace graph.now place }
    ensures { Says (too_big_line (name_at graph.now place) number)
        (writer_state E.contents faults.old) (writer_state E.contents faults.new) }
{
    let mut buffer = Buffer::new();
    let number = buffer.format(number);
    let parts = ["phase: too big at ", graph.name(place), " ", number, "\n"];
    say(parts.as_slice(), faults);
}

/// Tells that a run stalled.
fn tell_stalled<E: Write>(faults: &mut Watched<E>)
    ensures { Says stalled_line
        (writer_state E.contents faults.old) (writer_state E.contents faults.new) }
{
    let parts = ["phase: stalled\n"];
    say(parts.as_slice(), faults);
}

/// Tells a failure by its line.
pub(crate) fn tell<E: Write>(failure: &Failure<'_>, faults: &mut Watched<E>)
    requires { HasPlace failure.now }
    ensures { Says (failure_line failure.now)
        (writer_state E.contents faults.old) (writer_state E.contents faults.new) }
{
    match failure {
        Failure::Graph { fault, text: _ } => tell_job_fault(fault, faults),
        Failure::NoSink { job: _, name } => tell_no_sink(name, faults),
        Failure::TooBig { job, place, phase } => {
            tell_too_big(job.graph(), *place, *phase, faults)
        }
        Failure::Stalled { further: _ } => tell_stalled(faults),
        Failure::Io(fault) => tell_io_fault(*fault, faults),
    }
}
