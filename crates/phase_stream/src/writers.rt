//! The writers of a stream: its output, and the files that are made for sinks.
ghost use Rattle.std.specs.Prelude.{◌≡◌, ◌≢◌, ◌<◌, ◌⊎◌, [], ℕ, List, IfOk, IfErr, OnOk, OnErr, length, false, true};
ghost use Rattle.std.specs.List.{flat_map};
ghost use Rattle.std.specs.Str.{bytes_eq};
ghost use Rattle.graph_commands.specs.OutputTexts.{value_text};
ghost use Rattle.watched_io.specs.declared.fault.IoFault.TheVariants as io_fault;
ghost use Rattle.phase_words.specs.StreamLine.{stream_asked};
ghost use Rattle.phase_stream.specs.Outputs.{AreNotRead, AreBare, is_read_file, opened_as, writers_at};
ghost use Rattle.phase_stream.specs.Sessions.{WritesPrefixTo, WritesTo};

use crate::opens::{OUTPUT, Opens, Role};
use graph_base::Graph;
use graph_commands::{OutputBuffer, path_beside};
use phase_words::StreamCall;
use std::alloc::{AllocError, Global};
use std::io::Write;
use watched_io::{IoFault, Watched, WriteFailed};

/// Writes values to a writer by its number: the output is number 0, and the files that were made
/// stand behind it. Where there is no such writer they are thrown away. Their text is collected in
/// the buffer, of which what waited in it is forgotten.
pub fn write_to<W: Write, V: Write>(
    buffer: &mut OutputBuffer,
    output: &mut Watched<W>,
    made: &mut Vec<Watched<V>>,
    number: usize,
    values: &[i64],
) -> Result<(), WriteFailed>
    ensures ok { OnOk result (WritesTo (writers_at W.contents V.contents output.old made.old.items)
        (writers_at W.contents V.contents output.new made.new.items) number
        (flat_map value_text values.now)) }
    ensures err { OnErr result (WritesPrefixTo
        (writers_at W.contents V.contents output.old made.old.items)
        (writers_at W.contents V.contents output.new made.new.items) number
        (flat_map value_text values.now)) }
    ensures failed { OnErr result
        ((writers_at W.contents V.contents output.new made.new.items number).failed ≡ true) }
{
    if number == 0 {
        return buffer.write_values(output, values);
    }
    match made.get_mut(number - 1) {
        Some(writer) => buffer.write_values(writer, values),
        None => Ok(()),
    }
}

/// Makes the files that a call names, in their order, where none is the graph's, that of a source
/// or of another sink, or the output where a sink goes there: all are looked at before the first is
/// made.
pub fn make_files<F: Opens>(
    alloc: Global,
    graph: &Graph,
    call: &StreamCall<'_>,
    made: &mut Vec<Watched<F::Writer>>,
    files: &mut F,
) -> Result<(), IoFault>
    requires { made.old.items ≡ [] }
    ensures apart { OnOk result (AreNotRead (stream_asked call.now).beside
        (stream_asked call.now).graph graph.now (stream_asked call.now).files) }
    ensures many { OnOk result (length made.new.items ≡ length call.now.files.items) }
    ensures bare { AreBare F.knows F.Writer.contents made.new.items }
    ensures unmade { OnErr result ((made.new.items ≡ [])
        ⊎ AreNotRead (stream_asked call.now).beside (stream_asked call.now).graph graph.now
        (stream_asked call.now).files) }
    ensures fault { IfErr result (λ fault. (fault ≡ io_fault.OutOfMemory)
        ⊎ ((fault ≡ io_fault.WriteFault) × ((stream_asked call.now).files ≢ []))) }
    ensures same { (other : List ℕ) → F.file files.new other ≡ F.file files.old other }
{
    match are_apart(alloc, graph, call, files) {
        Ok(true) => make_all(alloc, call, made, files),
        Ok(false) => Err(IoFault::WriteFault),
        Err(_) => Err(IoFault::OutOfMemory),
    }
}

/// Makes the files that a call names, in their order, as long as none is one that was made before
/// it.
fn make_all<F: Opens>(
    alloc: Global,
    call: &StreamCall<'_>,
    made: &mut Vec<Watched<F::Writer>>,
    files: &mut F,
) -> Result<(), IoFault>
    requires { made.old.items ≡ [] }
    ensures many { OnOk result (length made.new.items ≡ length call.now.files.items) }
    ensures bare { AreBare F.knows F.Writer.contents made.new.items }
    ensures fault { IfErr result (λ fault. (fault ≡ io_fault.OutOfMemory)
        ⊎ ((fault ≡ io_fault.WriteFault) × (call.now.files.items ≢ []))) }
    ensures same { (other : List ℕ) → F.file files.new other ≡ F.file files.old other }
{
    for k in 0..call.files.len() {
        if is_written(alloc, call, k, files) {
            return Err(IoFault::WriteFault);
        }
        let Ok(writer) = files.make(alloc, call.files[k].file) else {
            return Err(IoFault::WriteFault);
        };
        let Ok(()) = made.push(Watched::new(writer)) else {
            return Err(IoFault::OutOfMemory);
        };
    }
    Ok(())
}

/// Whether none of the files that a call names is read or written already.
fn are_apart<F: Opens>(
    alloc: Global,
    graph: &Graph,
    call: &StreamCall<'_>,
    files: &mut F,
) -> Result<bool, AllocError>
    ensures apart { IfOk result (λ apart. apart ≡ true → AreNotRead (stream_asked call.now).beside
        (stream_asked call.now).graph graph.now (stream_asked call.now).files) }
    ensures other { IfOk result (λ apart. (apart ≡ true → ⊥) → call.now.files.items ≢ []) }
    ensures same { (other : List ℕ) → F.file files.new other ≡ F.file files.old other }
{
    for k in 0..call.files.len() {
        let is_read = is_read(alloc, graph, call, call.files[k].file, files)?;
        if is_read || is_written(alloc, call, k, files) {
            return Ok(false);
        }
    }
    Ok(true)
}

/// Whether a file is the graph's, or that of a source.
fn is_read<F: Opens>(
    alloc: Global,
    graph: &Graph,
    call: &StreamCall<'_>,
    file: &str,
    files: &mut F,
) -> Result<bool, AllocError>
    ensures apart { IfOk result (λ is. is ≡ false → is_read_file (stream_asked call.now).beside
        (stream_asked call.now).graph graph.now file.now ≡ false) }
    ensures same { (other : List ℕ) → F.file files.new other ≡ F.file files.old other }
{
    if files.is_one(alloc, file, call.graph, Role::Graph) {
        return Ok(true);
    }
    for k in 0..graph.sources() {
        if is_opened_as(alloc, call, graph.file(k), file, files)? {
            return Ok(true);
        }
    }
    Ok(false)
}

/// Whether a file is the one that is opened of the name of a source's.
fn is_opened_as<F: Opens>(
    alloc: Global,
    call: &StreamCall<'_>,
    name: &str,
    file: &str,
    files: &mut F,
) -> Result<bool, AllocError>
    ensures apart { IfOk result (λ is. is ≡ false → bytes_eq file.now (opened_as
        (stream_asked call.now).beside (stream_asked call.now).graph name.now) ≡ false) }
    ensures same { (other : List ℕ) → F.file files.new other ≡ F.file files.old other }
{
    if !call.beside {
        return Ok(files.is_one(alloc, file, name, Role::Source));
    }
    let path = path_beside(alloc, call.graph, name)?;
    Ok(files.is_one(alloc, file, path.as_str(), Role::Source))
}

/// Whether file number `k` of a call is the output, where a sink goes there, or that of a sink
/// before it.
fn is_written<F: Opens>(alloc: Global, call: &StreamCall<'_>, k: usize, files: &mut F) -> bool
    requires { k < length call.now.files.items }
    ensures { (other : List ℕ) → F.file files.new other ≡ F.file files.old other }
{
    let file = call.files[k].file;
    if call.sink.is_some() && files.is_one(alloc, file, OUTPUT, Role::Output) {
        return true;
    }
    for before in 0..k {
        if files.is_one(alloc, file, call.files[before].file, Role::Sink) {
            return true;
        }
    }
    false
}
