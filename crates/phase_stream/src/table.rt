//! The sinks of a stream as the columns of a table, of which a line is written as soon as each of
//! them has its value there, or has ended.
ghost use Rattle.std.specs.Prelude.{◌≡◌, ◌<◌, ◌++◌, [], ℕ, ℤ, Bool, List, Some, IfOk, OnErr, OnOk, IsErrOf, length, map, slice_get, true, false};
ghost use Rattle.std.specs.List.{list_all, list_any};
ghost use Rattle.std.specs.Io.KnownBytes.{Appends};
ghost use Rattle.graph_commands.specs.ColumnTexts.{comma_before, value_cell};
ghost use Rattle.watched_io.specs.Prefix.{AppendsPrefix};
ghost use Rattle.watched_io.specs.Watched.{has_failed_of, inner_of};
ghost use Rattle.watched_io.specs.declared.fault.IoFault.TheVariants as io_fault;
ghost use Rattle.stream_job.specs.SinkLines.{kept_by};
ghost use Rattle.stream_job.specs.Streams.{IsStreamAt, ended_at};
ghost use Rattle.graph_runs.specs.Moments.{Moment};
ghost use Rattle.stream_lists.specs.Jobs.{Job as JobValue};
ghost use Rattle.stream_lists.specs.Lists.{sinks_of};
ghost use Rattle.phase_stream.specs.Columns.{HasNoMore, HasPassedLine, NeverComes, has_value, is_known};
ghost use Rattle.phase_stream.specs.TableLines.{AreNewColumns, EachGoes, Shows, ShowsMore, View, WritesTableLines, WritesSomeLines, by_number, has_line, have_left, names_line, next_line};
ghost use Rattle.phase_stream.specs.declared.column.Column.{Column as ColumnValue};

use crate::column::Column;
use graph_base::Place;
use itoa::Buffer;
use std::alloc::{AllocError, Global};
use std::io::Write;
use stream_job::{Job, Stream};
use watched_io::{CHUNK_MAX, IoFault, Watched};

/// How many values of a sink wait for those of others before nothing more is read that comes to it.
pub const WAITING_MAX: usize = 65_536;

/// A table of which some lines were written.
#[derive(Drop)]
pub struct Table {
    /// A column for each sink.
    pub columns: Vec<Column>,
}

impl Table {
    /// That of all sinks of a job, of which nothing was written.
    pub fn new(alloc: Global, job: &Job) -> Result<Table, AllocError>
        ensures { IfOk result (λ table. AreNewColumns job.now table.columns.items) }
    {
        let mut columns = Vec::new(alloc);
        for task in 0..job.graph().tasks() {
            if job.graph().is_sink(task) {
                columns.push(Column::new(alloc, job, task))?;
            }
        }
        Ok(Table { columns })
    }

    /// Takes over what the sinks have. What stands in the lines that were written is the same.
    pub fn take(&mut self, stream: &Stream) -> Result<(), AllocError>
        requires { map (λ column. column.task) self.old.columns.items ≡ sinks_of stream.now.job }
        ensures ok { OnOk result ((going : Bool) (s : List (List ℤ)) (m : Moment)
            (given : ℕ → List ℤ) (view : View) → IsStreamAt stream.now s m given
            → Shows stream.now.job (ended_at stream.now) going s m (by_number stream.now.job given)
            self.old.columns.items view
            → ShowsMore stream.now.job (ended_at stream.now) going s m
            (by_number stream.now.job (kept_by stream.now.job m)) view self.new.columns.items []) }
        ensures tasks { map (λ column. column.task) self.new.columns.items
            ≡ map (λ column. column.task) self.old.columns.items }
    {
        for number in 0..self.columns.len() {
            self.columns[number].take(stream, number)?;
        }
        self.leave_absent(stream.job());
        Ok(())
    }

    /// Keeps of each sink that it gets no values where its parent, a sink too, has left before it
    /// came.
    fn leave_absent(&mut self, job: &Job)
        requires { map (λ column. column.task) self.old.columns.items ≡ sinks_of job.now }
        ensures shows { (ended : ℕ → Bool) (going : Bool) (s : List (List ℤ)) (m : Moment)
            (given : ℕ → List ℤ) (view : View)
            → Shows job.now ended going s m given self.old.columns.items view
            → Shows job.now ended going s m given self.new.columns.items view }
        ensures tasks { map (λ column. column.task) self.new.columns.items
            ≡ map (λ column. column.task) self.old.columns.items }
    {
        for number in 0..self.columns.len() {
            if self.never_comes(job, number) {
                self.columns[number].has_left = true;
            }
        }
    }

    /// Whether a sink's parent, a sink too, has left before it came.
    fn never_comes(&self, job: &Job, number: usize) -> bool
        requires { number < length self.now.columns.items }
        ensures { result ≡ true → (column : ColumnValue)
            → slice_get self.now.columns.items number ≡ Some column
            → NeverComes job.now self.now.columns.items column }
    {
        let column = &self.columns[number];
        if !column.has_start || column.has_left || column.task >= job.graph().tasks() {
            return false;
        }
        let Some(parent) = job.graph().task(column.task).parent else {
            return false;
        };
        for other in &self.columns {
            if other.task == parent.task && other.has_left && other.count < parent.at {
                return true;
            }
        }
        false
    }

    /// Keeps that no sink gets more values.
    pub fn end(&mut self)
        ensures each { EachGoes HasNoMore self.old.columns.items self.new.columns.items }
        ensures left { have_left self.new.columns.items ≡ true }
    {
        for number in 0..self.columns.len() {
            self.columns[number].has_left = true;
        }
    }

    /// Returns whether all sinks have left.
    pub fn have_left(&self) -> bool
        ensures { result ≡ have_left self.now.columns.items }
    {
        self.columns.iter().all(|column| column.has_left)
    }

    /// Whether as many values of some sink wait as may.
    pub fn is_full(&self) -> bool {
        self.columns.iter().any(|column| column.is_full())
    }

    /// Whether some value waits for its line.
    fn has_value(&self) -> bool
        ensures { result ≡ list_any has_value self.now.columns.items }
    {
        self.columns.iter().any(|column| column.has_value())
    }

    /// Whether the next line is known.
    fn is_known(&self) -> bool
        ensures { result ≡ list_all is_known self.now.columns.items }
    {
        self.columns.iter().all(|column| column.is_known())
    }

    /// Whether the next line is known, and some value waits.
    fn has_line(&self) -> bool
        ensures { result ≡ has_line self.now.columns.items }
    {
        self.has_value() && self.is_known()
    }

    /// Puts the next line.
    fn put_line(&self, text: &mut Vec<u8>) -> Result<(), AllocError>
        ensures { OnOk result (text.new.items
            ≡ text.old.items ++ next_line self.now.columns.items) }
    {
        let alone = self.columns.len() == 1;
        for k in 0..self.columns.len() {
            text.extend_from_slice(comma_before(k))?;
            put_cell(text, self.columns[k].cell(), alone)?;
        }
        text.extend_from_slice(b"\n")
    }

    /// Goes on by a line.
    fn pass(&mut self)
        ensures { EachGoes HasPassedLine self.old.columns.items self.new.columns.items }
    {
        for number in 0..self.columns.len() {
            self.columns[number].pass();
        }
    }

    /// Puts the line of the names.
    fn put_names(&self, job: &Job, text: &mut Vec<u8>) -> Result<(), AllocError>
        requires { map (λ column. column.task) self.now.columns.items ≡ sinks_of job.now }
        ensures { OnOk result (text.new.items ≡ text.old.items ++ names_line job.now) }
    {
        for k in 0..self.columns.len() {
            text.extend_from_slice(comma_before(k))?;
            let name = job.graph().name(Place::Task(self.columns[k].task));
            text.extend_from_slice(name.as_bytes())?;
        }
        text.extend_from_slice(b"\n")
    }

    /// Writes the line of the names.
    pub fn write_names<W: Write>(
        &self,
        alloc: Global,
        job: &Job,
        output: &mut Watched<W>,
    ) -> Result<(), IoFault>
        requires { map (λ column. column.task) self.now.columns.items ≡ sinks_of job.now }
        ensures ok { OnOk result (Appends (W.contents (inner_of output.old))
            (W.contents (inner_of output.new)) (names_line job.now)) }
        ensures err { OnErr result (AppendsPrefix (W.contents (inner_of output.old))
            (W.contents (inner_of output.new)) (names_line job.now)) }
        ensures failed { IsErrOf result io_fault.WriteFault → has_failed_of output.new ≡ true }
    {
        let mut text = Vec::new(alloc);
        let Ok(()) = self.put_names(job, &mut text) else {
            return Err(IoFault::OutOfMemory);
        };
        match output.send(&text) {
            Ok(()) => Ok(()),
            Err(_) => Err(IoFault::WriteFault),
        }
    }

    /// Writes each line that is known.
    pub fn write<W: Write>(&mut self, alloc: Global, output: &mut Watched<W>) -> Result<(), IoFault>
        ensures ok { OnOk result ((job : JobValue) (ended : ℕ → Bool) (going : Bool)
            (s : List (List ℤ)) (m : Moment) (given : ℕ → List ℤ) (view : View)
            → Shows job ended going s m given self.old.columns.items view
            → WritesTableLines job ended going s m given view self.new.columns.items
            (W.contents (inner_of output.old)) (W.contents (inner_of output.new))) }
        ensures err { OnErr result ((job : JobValue) (ended : ℕ → Bool) (going : Bool)
            (s : List (List ℤ)) (m : Moment) (given : ℕ → List ℤ) (view : View)
            → Shows job ended going s m given self.old.columns.items view
            → WritesSomeLines job ended going s m given view
            (W.contents (inner_of output.old)) (W.contents (inner_of output.new))) }
        ensures failed { IsErrOf result io_fault.WriteFault → has_failed_of output.new ≡ true }
        ensures line { OnOk result (has_line self.new.columns.items ≡ false) }
        ensures left { OnOk result (have_left self.old.columns.items ≡ true
            → have_left self.new.columns.items ≡ true) }
    {
        let mut text = Vec::new(alloc);
        while self.has_line() {
            let Ok(()) = self.put_line(&mut text) else {
                return Err(IoFault::OutOfMemory);
            };
            self.pass();
            if text.len() >= CHUNK_MAX {
                let Ok(()) = output.send(&text) else {
                    return Err(IoFault::WriteFault);
                };
                text.clear();
            }
        }
        match output.send(&text) {
            Ok(()) => Ok(()),
            Err(_) => Err(IoFault::WriteFault),
        }
    }
}

/// What stands before cell number `k` of a line.
fn comma_before(k: usize) -> &'static [u8]
    ensures { result.now ≡ comma_before k }
{
    if k > 0 { b"," } else { b"" }
}

/// Puts a value, or what stands for none.
fn put_cell(text: &mut Vec<u8>, cell: Option<i64>, alone: bool) -> Result<(), AllocError>
    ensures { OnOk result (text.new.items ≡ text.old.items ++ value_cell alone cell) }
{
    match cell {
        Some(value) => text.extend_from_slice(Buffer::new().format(value).as_bytes()),
        None if alone => text.extend_from_slice(b"\"\""),
        None => Ok(()),
    }
}
