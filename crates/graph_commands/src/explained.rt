//! The reports of failures: their lines, and what explains them to a person.
ghost use Rattle.std.specs.Prelude.{◌≡◌, IfErr, IfOk, OnOk};
ghost use Rattle.graph_commands.specs.Ends.{IsTold, SaysMore, SaysRefusal};
ghost use Rattle.graph_commands.specs.Explained.{Tells, TellsRefusal};
ghost use Rattle.graph_commands.specs.Failures.{HasPlace, failure_status};
ghost use Rattle.watched_io.specs.States.{writer_state};

use crate::controls::without_controls;
use crate::further::{further_lines, tell_bytes};
use crate::graph_faults::tell;
use crate::hints::{sink_texts, value_texts};
use crate::meeting::meeting_found;
use crate::records::record_explained;
use crate::{Failure, FileRefusal, JobFault, Refuses};
use graph_base::{Graph, Place};
use graph_lang::{TEXT_MAX, read_graph};
use graph_show::explanation;
use itoa::Buffer;
use std::alloc::{AllocError, Global};
use std::io::Write;
use watched_io::{Explain, Files, Status, Watched};

/// What is told where memory runs out over an explanation.
const NO_MEMORY: &str = "  no memory to explain it\n";

/// Ends a command on the graph in the file of this name, and answers the status: `Done`, or where
/// the command failed that of its failure, which is reported.
pub fn end<E: Write, F: Files + Refuses>(
    alloc: Global,
    done: Result<(), Failure<'_>>,
    file: &str,
    explain: Explain,
    faults: &mut Watched<E>,
    files: &mut F,
) -> Status
    requires { IfErr done (λ found. HasPlace found) }
    ensures done { OnOk done.entry ((result ≡ Status.Done) × (faults.new ≡ faults.old)) }
    ensures status { IfErr done.entry (λ found. result ≡ failure_status found) }
    ensures quiet { result ≡ Status.Done → faults.new ≡ faults.old }
    ensures told { IfErr done.entry (λ found. IsTold explain found
        (writer_state E.contents faults.old) (writer_state E.contents faults.new)) }
{
    match done {
        Ok(()) => Status::Done,
        Err(failure) => report(alloc, &failure, file, explain, faults, files),
    }
}

/// Tells a failure of a command on the graph in the file of this name by its line, explains it to a
/// person where that is asked for, and answers its status.
///
/// A fault of the graph is explained by its line, a mark under the word that is at fault, and what
/// was expected there; a record that is no sample by where it stands, why it is none, and what a
/// sample is; a file that was refused by its name and why, as far as the files tell; a name that no
/// sink has by the sinks that there are; a value that is out of range by the line that declares its
/// phaser or makes it, and the tasks that signal the phaser. The files of all sources are read
/// again for that where tasks meet, and the graph's where a value is out of range. Where memory
/// runs out over a fault of the files, that is told, and else nothing is said.
pub fn report<E: Write, F: Files + Refuses>(
    alloc: Global,
    failure: &Failure<'_>,
    file: &str,
    explain: Explain,
    faults: &mut Watched<E>,
    files: &mut F,
) -> Status
    requires { HasPlace failure.now }
    ensures status { result ≡ failure_status failure.now }
    ensures told { IsTold explain failure.now
        (writer_state E.contents faults.old) (writer_state E.contents faults.new) }
{
    tell(failure, faults);
    match explain {
        Explain::No => {}
        Explain::Yes => tell_more(alloc, failure, file, faults, files),
    }
    failure.status()
}

/// Says what explains a failure to a person.
fn tell_more<E: Write, F: Files + Refuses>(
    alloc: Global,
    failure: &Failure<'_>,
    file: &str,
    faults: &mut Watched<E>,
    files: &mut F,
)
    requires { HasPlace failure.now }
    ensures { SaysMore failure.now
        (writer_state E.contents faults.old) (writer_state E.contents faults.new) }
{
    match failure {
        Failure::Graph { fault, text } => match further(alloc, text, fault, files) {
            Ok(more) => tell_bytes(&more, faults),
            Err(_) => tell_bytes(NO_MEMORY.as_bytes(), faults),
        },
        Failure::NoSink { job, name: _ } => {
            let more = further_lines(alloc, sink_texts(alloc, job.graph()));
            tell_bytes(&more, faults);
        }
        Failure::TooBig {
            job,
            place,
            phase: _,
        } => {
            let texts = value_texts(alloc, file, job.graph(), *place, files);
            let more = further_lines(alloc, texts);
            tell_bytes(&more, faults);
        }
        Failure::Stalled { further } => tell_bytes(further, faults),
        Failure::Io(_) => tell_bytes(&[], faults),
    }
}

/// What is said of a fault further.
fn further<F: Files + Refuses>(
    alloc: Global,
    text: &[u8],
    fault: &JobFault,
    files: &mut F,
) -> Result<Vec<u8>, AllocError>
    ensures { IfOk result (λ more. Tells text.now fault.now more.items) }
{
    match fault {
        JobFault::Graph(found) => {
            let meeting = meeting_found(alloc, files, text, *found)?;
            let place = meeting.as_ref().map(|met| met.place());
            explanation(alloc, text, *found, place)
        }
        JobFault::BadSample {
            name: _,
            number: _,
            told,
        } => record_explained(alloc, told),
        JobFault::ReadFault => match files.refused() {
            Some((name, why)) => refusal_told(alloc, name, &why_text(alloc, why, text)?),
            None => Ok(Vec::new(alloc)),
        },
        JobFault::OutOfMemory => Ok(Vec::new(alloc)),
    }
}

/// Tells a person the name of a file, and why it was refused, or that memory ran out over that.
pub fn tell_refusal<E: Write>(alloc: Global, name: &str, why: &str, faults: &mut Watched<E>)
    ensures { SaysRefusal
        (writer_state E.contents faults.old) (writer_state E.contents faults.new) }
{
    match refusal_told(alloc, name, why) {
        Ok(more) => tell_bytes(&more, faults),
        Err(_) => tell_bytes(NO_MEMORY.as_bytes(), faults),
    }
}

/// The name of a file and why it was refused, without control characters.
fn refusal_told(alloc: Global, name: &str, why: &str) -> Result<Vec<u8>, AllocError>
    ensures { IfOk result (λ more. TellsRefusal more.items) }
{
    let file = without_controls(alloc, name)?;
    let why = without_controls(alloc, why)?;
    let mut more = Vec::new(alloc);
    more.extend_from_slice(b"  ")?;
    more.extend_from_slice(file.as_bytes())?;
    more.extend_from_slice(b": ")?;
    more.extend_from_slice(why.as_bytes())?;
    more.extend_from_slice(b"\n")?;
    Ok(more)
}

/// Why a file was refused, for a person, of a graph of this text.
fn why_text(alloc: Global, why: FileRefusal, text: &[u8]) -> Result<String, AllocError> {
    match why {
        FileRefusal::Missing => String::from_str(alloc, "there is no such file"),
        FileRefusal::Folder => String::from_str(alloc, "it is a folder"),
        FileRefusal::NotAllowed => String::from_str(alloc, "there is no permission to read it"),
        FileRefusal::TooLong(limit) => too_long_text(alloc, limit),
        FileRefusal::GraphInput => String::from_str(alloc, "standard input is the graph already"),
        FileRefusal::SourceInput => input_text(alloc, text),
        FileRefusal::Awaited(count) => {
            counted(
                alloc,
                "",
                count,
                " values of another sink wait for its next one",
            )
        }
        FileRefusal::Other => String::from_str(alloc, "it cannot be read"),
    }
}

/// That a file has more bytes than its limit; a stream's samples have none.
fn too_long_text(alloc: Global, limit: usize) -> Result<String, AllocError> {
    let behind = if limit == TEXT_MAX {
        " bytes: `phase stream` has no such limit"
    } else {
        " bytes"
    };
    counted(alloc, "it has more than ", limit, behind)
}

/// A text with a number.
fn counted(alloc: Global, before: &str, number: usize, behind: &str) -> Result<String, AllocError> {
    let mut buffer = Buffer::new();
    let mut text = String::from_str(alloc, before)?;
    text.push_str(buffer.format(number))?;
    text.push_str(behind)?;
    Ok(text)
}

/// Whose samples standard input has, where a graph of this text was read.
fn input_text(alloc: Global, text: &[u8]) -> Result<String, AllocError> {
    let mut told = String::from_str(alloc, "standard input has the samples of ")?;
    match read_graph(alloc, text) {
        Ok(graph) => told.push_str(first_on_input(&graph).unwrap_or("another source"))?,
        Err(_) => told.push_str("another source")?,
    }
    told.push_str(" already")?;
    Ok(told)
}

/// The name of the first source whose samples are those of standard input.
fn first_on_input(graph: &Graph) -> Option<&str> {
    for t in 0..graph.tasks() {
        if graph.is_source(t) {
            let source = graph.source_number(t);
            if source < graph.sources() && graph.file(source) == "-" {
                return Some(graph.name(Place::Task(t)));
            }
        }
    }
    None
}
