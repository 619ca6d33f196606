//! The command, where all sinks are the columns of a table, whose lines are written as they are
//! known.
ghost use Rattle.std.specs.Prelude.{◌≡◌, [], ℕ, List, Option, OnOk, OnErr, IfOk, IfErr, IsErrOf, map, true};
ghost use Rattle.graph_commands.specs.Failures.{HasPlace};
ghost use Rattle.graph_commands.specs.FileJobs.{IsGraphOf, Known};
ghost use Rattle.watched_io.specs.States.{writer_state};
ghost use Rattle.watched_io.specs.Watched.{has_failed_of, inner_of};
ghost use Rattle.watched_io.specs.declared.fault.IoFault.TheVariants as io_fault;
ghost use Rattle.stream_lists.specs.Lists.{sinks_of};
ghost use Rattle.phase_words.specs.StreamLine.{stream_asked};
ghost use Rattle.phase_stream.specs.Sessions.{IsKnownAs, IsSameSession, IsStreamAtOpening};
ghost use Rattle.phase_stream.specs.TableLines.{ColumnsEndBy, TableStands, TableStopped, goes_on};
ghost use Rattle.phase_stream.specs.Tables.{StopsAtTable, TableDoes, TableFails, WritesTable, WritesTablePart};

use crate::opens::Opens;
use crate::session::{Session, forget_all};
use crate::source::{Lack, Room};
use crate::streamed::{read_stream, too_big};
use crate::table::Table;
use crate::wanted::{tell_awaited, with_wanted};
use graph_commands::Failure;
use graph_runs::outcomes;
use phase_words::StreamCall;
use std::alloc::Global;
use std::io::{Read, Write};
use stream_job::{Stopped, Stream};
use watched_io::{Explain, IoFault, Watched};

/// Reads the graph of a file, and then the samples of its sources as they come, and writes the
/// values of all sinks as the columns of a table: a line as soon as each of them has its value
/// there, or has ended.
///
/// It reads and goes on as `stream` does, but reads no source whose values come to a sink of which
/// `WAITING_MAX` wait for those of others: where all hungry ones do, that is a read fault.
pub fn stream_table<'a, W: Write, F: Opens>(
    alloc: Global,
    call: &StreamCall<'a>,
    output: &mut Watched<W>,
    files: &mut F,
) -> Result<(), Failure<'a>>
    ensures done { OnOk result (TableDoes (F.file files.old) (stream_asked call.now).graph
        (W.contents (inner_of output.old)) (W.contents (inner_of output.new))) }
    ensures failed { IfErr result (λ found. TableFails (F.file files.old)
        (stream_asked call.now).graph W.contents output.old output.new found) }
    ensures place { IfErr result HasPlace }
    ensures same { (other : List ℕ) → F.file files.new other ≡ F.file files.old other }
{
    let stream = match read_stream(alloc, files, call.graph) {
        Ok(stream) => stream,
        Err(failure) => return Err(failure),
    };
    begin(alloc, stream, call, output, files)
}

/// Writes the line of the names, and streams the graph.
fn begin<'a, W: Write, F: Opens>(
    alloc: Global,
    stream: Stream,
    call: &StreamCall<'a>,
    output: &mut Watched<W>,
    files: &mut F,
) -> Result<(), Failure<'a>>
    requires opening { IsStreamAtOpening stream }
    ensures done { OnOk result ((known : Known) → IsKnownAs known (F.file files.old)
        → IsGraphOf known (stream_asked call.now).graph stream.job.graph
        → TableDoes known (stream_asked call.now).graph (W.contents (inner_of output.old))
        (W.contents (inner_of output.new))) }
    ensures failed { IfErr result (λ found. (known : Known) → IsKnownAs known (F.file files.old)
        → IsGraphOf known (stream_asked call.now).graph stream.job.graph
        → TableFails known (stream_asked call.now).graph W.contents output.old output.new found) }
    ensures place { IfErr result HasPlace }
    ensures same { (other : List ℕ) → F.file files.new other ≡ F.file files.old other }
{
    let Ok(table) = Table::new(alloc, stream.job()) else {
        return Err(Failure::Io(IoFault::OutOfMemory));
    };
    let Ok(session) = Session::new(alloc, stream, Vec::new(alloc)) else {
        return Err(Failure::Io(IoFault::OutOfMemory));
    };
    match table.write_names(alloc, session.stream.job(), output) {
        Ok(()) => go(alloc, session, table, call.explain, output, files),
        Err(fault) => Err(Failure::Io(fault)),
    }
}

/// Goes on until no task can move, takes over what the sinks have, and writes each line that is
/// known then. A hungry source is the one that is read next.
fn turn<R: Read + Drop, W: Write>(
    alloc: Global,
    session: &mut Session<R>,
    table: &mut Table,
    output: &mut Watched<W>,
) -> Result<Stopped, IoFault>
    requires { map (λ column. column.task) table.old.columns.items
        ≡ sinks_of session.old.stream.job }
    ensures ok { IfOk result (λ stop. (held : Known) (old : Option (List ℕ))
        → TableStands R.remaining held old (W.contents (inner_of output.old)) session.old
        table.old true
        → TableStopped R.remaining held old (W.contents (inner_of output.new)) session.new
        table.new stop) }
    ensures err { OnErr result ((held : Known) (old : Option (List ℕ))
        → TableStands R.remaining held old (W.contents (inner_of output.old)) session.old
        table.old true
        → WritesTablePart held session.old.stream.job old (W.contents (inner_of output.new))) }
    ensures failed { IsErrOf result io_fault.WriteFault → has_failed_of output.new ≡ true }
    ensures same { IsSameSession session.old session.new }
{
    let Ok(stop) = session.run() else {
        return Err(IoFault::OutOfMemory);
    };
    let Ok(()) = table.take(&session.stream) else {
        return Err(IoFault::OutOfMemory);
    };
    forget_all(&mut session.stream);
    end(table, stop);
    match table.write(alloc, output) {
        Ok(()) => Ok(with_wanted(session, table, stop)),
        Err(fault) => Err(fault),
    }
}

/// Keeps that no sink gets more values, where the run is over.
fn end(table: &mut Table, stop: Stopped)
    ensures { ColumnsEndBy (goes_on stop) table.old.columns.items table.new.columns.items }
{
    match stop {
        Stopped::Done => table.end(),
        Stopped::Hungry { .. } | Stopped::Full { .. } | Stopped::Paused => {}
        Stopped::Stalled | Stopped::TooBig { .. } => {}
    }
}

/// Goes on until the sinks have left, the run is over, or a cause stops it: a read fault after
/// 2^64 - 1 rounds.
fn go<'a, W: Write, F: Opens>(
    alloc: Global,
    mut session: Session<F::Reader>,
    mut table: Table,
    explain: Explain,
    output: &mut Watched<W>,
    files: &mut F,
) -> Result<(), Failure<'a>>
    requires stands { (held : Known) × (old : Option (List ℕ)) × IsKnownAs held (F.file files.old)
        × TableStands F.Reader.remaining held old (W.contents (inner_of output.old)) session table
        true }
    requires targets { session.targets.items ≡ [] }
    ensures done { OnOk result ((held : Known) (old : Option (List ℕ))
        → IsKnownAs held (F.file files.old)
        → TableStands F.Reader.remaining held old (W.contents (inner_of output.old)) session
        table true
        → WritesTable held session.stream.job old (W.contents (inner_of output.new))) }
    ensures failed { IfErr result (λ found. (held : Known) (old : Option (List ℕ))
        → IsKnownAs held (F.file files.old)
        → TableStands F.Reader.remaining held old (W.contents (inner_of output.old)) session
        table true
        → StopsAtTable held session.stream.job old (writer_state W.contents output.new) found) }
    ensures place { IfErr result HasPlace }
    ensures same { (other : List ℕ) → F.file files.new other ≡ F.file files.old other }
{
    let mut room = Room::empty();
    for _ in 0..u64::MAX {
        let stop = match turn(alloc, &mut session, &mut table, output) {
            Ok(stop) => stop,
            Err(fault) => return Err(Failure::Io(fault)),
        };
        if table.have_left() {
            return Ok(());
        }
        match stop {
            Stopped::Done => return Ok(()),
            Stopped::Hungry { source } => {
                session.close_left();
                if let Err(lack) = session.refill(alloc, files, &mut room, source, explain) {
                    tell_awaited(alloc, &session, &table, source, files);
                    return Err(session.lacking(alloc, source, lack));
                }
            }
            Stopped::Full { .. } | Stopped::Paused => {}
            Stopped::Stalled => {
                let further = session.stall_told(alloc, explain);
                return Err(Failure::Stalled { further });
            }
            Stopped::TooBig { place, phase } => {
                outcomes::faults_are_there();
                return Err(too_big(session.into_job(), place, phase));
            }
        }
    }
    Err(session.lacking(alloc, 0, Lack::ReadFault))
}
