//! Files that are read piece by piece, and files that are made.
ghost use Rattle.std.specs.Prelude.{◌≡◌, ℕ, Bool, List, IfOk, false, true};
ghost use Rattle.std.specs.Io.KnownBytes.{Keeps};
ghost use Rattle.phase_stream.specs.Outputs.{bare_file};

use graph_commands::{FileRefusal, LooksBeside, Refuses, TellingFiles};
use std::alloc::{AllocError, Global};
use std::fs::{File, Metadata};
use std::io::{self, ErrorKind, Read, Write};
use std::os::unix::fs::{FileTypeExt, MetadataExt};
use std::path::Path;
use watched_io::{FileFault, Files, ReadFailed, WriteFailed};

/// The name under which the system has standard output.
pub const OUTPUT: &str = "/dev/stdout";

/// What a file is to a stream.
#[derive(Clone, Copy, Debug, PartialEq, Eq)]
pub enum Role {
    /// It has the graph.
    Graph,
    /// It has the samples of a source.
    Source,
    /// A sink goes to it, by this name.
    Sink,
    /// It is standard output, and a sink goes there.
    Output,
}

/// Files that are also read piece by piece, or made.
pub trait Opens: Files {
    /// What reads a file.
    type Reader: Read + Drop;

    /// What writes to a file.
    type Writer: Write + Drop;

    /// Whether it is known what is written to the files that are made.
    ghost knows: { Bool } = { false };

    /// Opens the file of a name, to be read from its front.
    fn open(&mut self, alloc: Global, name: &str) -> Result<Self::Reader, ReadFailed>
        ensures bytes { IfOk result (λ reader.
            Keeps (Self.file self.old name.now) (Self.Reader.remaining reader)) }
        ensures same { (other : List ℕ) → Self.file self.new other ≡ Self.file self.old other };

    /// Whether a file that is to be made is one that the stream has already, of another name and
    /// for this: of the same name, or one file under two, as far as the system tells. It opens
    /// none of them. Where they are one, that is kept for `unwritten`.
    fn is_one(&mut self, alloc: Global, name: &str, other: &str, role: Role) -> bool
        ensures named { name.now ≡ other.now → result ≡ true }
        ensures same { (other : List ℕ) → Self.file self.new other ≡ Self.file self.old other };

    /// Makes the file of a name anew, and opens it, to be written from its front. Where there is a
    /// pipe of the name, it waits for its reader. Why it could not is kept for `unwritten`.
    fn make(&mut self, alloc: Global, name: &str) -> Result<Self::Writer, WriteFailed>
        ensures bare { IfOk result (λ writer.
            Keeps (bare_file knows) (Self.Writer.contents writer)) }
        ensures same { (other : List ℕ) → Self.file self.new other ≡ Self.file self.old other };

    /// Asks the system why a write to the file of a name failed, or to standard output, which is
    /// `OUTPUT`, and keeps that for `unwritten`.
    fn ask_why(&mut self, alloc: Global, name: &str)
        ensures same { (other : List ℕ) → Self.file self.new other ≡ Self.file self.old other };

    /// Keeps, as why nothing more is read, that so many values of a sink wait for the next one of
    /// the sink of this name.
    fn await_sink(&mut self, alloc: Global, name: &str, count: usize)
        ensures same { (other : List ℕ) → Self.file self.new other ≡ Self.file self.old other };

    /// The name of the file that was not made or not written, and why, for a person, where that is
    /// kept. Nothing is promised of it.
    fn unwritten(&self) -> Option<(&str, &str)>;
}

/// What samples are read from: a file, or the input.
#[derive(Drop)]
pub enum Samples<F, I> {
    /// A file.
    File(F),
    /// The input.
    Input(I),
}

impl<F: Read, I: Read> Read for Samples<F, I> {
    fn read(&mut self, piece: &mut [u8]) -> io::Result<usize> {
        match self {
            Samples::File(file) => file.read(piece),
            Samples::Input(input) => input.read(piece),
        }
    }
}

/// The files of the disk: a graph's is read whole, as `TellingFiles` reads it, and those of its
/// sources piece by piece, this input as the one of the name `-`, once: not at all where the graph
/// has that name.
#[derive(Drop)]
pub struct StreamFiles<'a, R, I> {
    rt: &'a R,
    files: TellingFiles<'a, R>,
    input: Option<I>,
    has_graph: bool,
    refused: Option<(String, FileRefusal)>,
    unwritten: Option<(String, String)>,
}

impl<'a, R, I> StreamFiles<'a, R, I> {
    /// Reads files by this runtime, and this input.
    pub fn new(rt: &'a R, input: I) -> StreamFiles<'a, R, I> {
        StreamFiles {
            rt,
            files: TellingFiles::new(rt),
            input: Some(input),
            has_graph: false,
            refused: None,
            unwritten: None,
        }
    }

    /// Notes why a file was refused, where there is memory for its name.
    fn refuse(&mut self, alloc: Global, name: &str, why: FileRefusal) -> ReadFailed {
        self.refused = match String::from_str(alloc, name) {
            Ok(name) => Some((name, why)),
            Err(_) => None,
        };
        ReadFailed
    }

    /// Notes why a file was not written, by a text and what stands behind it, where there is memory
    /// for that.
    fn note(&mut self, alloc: Global, name: &str, why: &str, behind: &str) {
        self.unwritten = noted(alloc, name, why, behind).ok();
    }
}

/// The name of a file, and a text and what stands behind it.
fn noted(
    alloc: Global,
    name: &str,
    why: &str,
    behind: &str,
) -> Result<(String, String), AllocError> {
    let name = String::from_str(alloc, name)?;
    let mut text = String::from_str(alloc, why)?;
    text.push_str(behind)?;
    Ok((name, text))
}

/// Why the system refused an opening.
fn why_unopened(kind: ErrorKind) -> FileRefusal {
    match kind {
        ErrorKind::NotFound => FileRefusal::Missing,
        ErrorKind::PermissionDenied => FileRefusal::NotAllowed,
        _ => FileRefusal::Other,
    }
}

/// Whether there is a folder of this name.
fn is_folder<R: std::rt::Files>(rt: &R, name: &str) -> bool {
    match rt.metadata(name) {
        Ok(found) => found.is_dir(),
        Err(_) => false,
    }
}

/// The name under which the system opens a file: of `-` that of standard input.
fn opened_as(name: &str) -> &str {
    if name == "-" { "/dev/stdin" } else { name }
}

/// Whether two names are those of one file or pipe. Devices may be opened twice.
fn is_one_node(one: &Metadata, other: &Metadata) -> bool {
    let kind = one.file_type();
    let is_device = kind.is_char_device() || kind.is_block_device();
    one.dev() == other.dev() && one.ino() == other.ino() && !is_device
}

/// The folder of a name, and what stands behind it, where there is both.
fn in_folder(name: &str) -> Option<(&str, &str)> {
    let path = Path::new(name);
    match (path.parent(), path.file_name()) {
        (Some(folder), Some(last)) if folder.as_str() == "" => Some((".", last)),
        (Some(folder), Some(last)) => Some((folder.as_str(), last)),
        _ => None,
    }
}

/// Whether two names of which there is no file are one place in one folder.
fn is_one_place<R: std::rt::Files>(rt: &R, one: &str, other: &str) -> bool {
    let (Some((one, name)), Some((other, same))) = (in_folder(one), in_folder(other)) else {
        return false;
    };
    match (rt.metadata(one), rt.metadata(other)) {
        (Ok(one), Ok(other)) => name == same && is_one_node(&one, &other),
        _ => false,
    }
}

/// Whether two names are those of one file, or would be once it is made, as far as the system
/// tells.
fn is_one_file<R: std::rt::Files>(rt: &R, one: &str, other: &str) -> bool {
    match (rt.metadata(one), rt.metadata(other)) {
        (Ok(one), Ok(other)) => is_one_node(&one, &other),
        (Err(_), Err(_)) => is_one_place(rt, one, other),
        _ => false,
    }
}

/// What a file is to a stream, for a person, before its name.
fn role_text(role: Role) -> &'static str {
    match role {
        Role::Graph => "it is the file of the graph, ",
        Role::Source => "it is the file of a source, ",
        Role::Sink => "it is the file of another sink, ",
        Role::Output => "it is standard output, ",
    }
}

/// Why a file could not be made, for a person.
fn why_unmade(kind: ErrorKind) -> &'static str {
    match kind {
        ErrorKind::NotFound => "there is no such folder",
        ErrorKind::NotADirectory => "its folder is a file",
        ErrorKind::IsADirectory => "it is a folder",
        ErrorKind::PermissionDenied => "there is no permission to write it",
        _ => "it cannot be made",
    }
}

/// Why a file or a stream of a name was not written, for a person, as far as the system tells.
fn why_unwritten<R: std::rt::Files>(rt: &R, name: &str) -> &'static str {
    match rt.metadata(name) {
        Ok(found) if found.file_type().is_fifo() => "its reader has left",
        Ok(found) if found.is_dir() => "it is closed",
        _ => "it is full, or cannot be written",
    }
}

impl<R: std::rt::Files, I: Read + Drop> Opens for StreamFiles<'_, R, I> {
    type Reader = Samples<R::File, I>;

    type Writer = R::File;

    fn open(&mut self, alloc: Global, name: &str) -> Result<Samples<R::File, I>, ReadFailed> {
        let Ok(path) = self.files.path(alloc, name) else {
            return Err(ReadFailed);
        };
        let name = path.as_deref().unwrap_or(name);
        if name == "-" {
            return match self.input.take() {
                Some(input) => Ok(Samples::Input(input)),
                None if self.has_graph => Err(self.refuse(alloc, name, FileRefusal::GraphInput)),
                None => Err(self.refuse(alloc, name, FileRefusal::SourceInput)),
            };
        }
        match File::open(self.rt, name) {
            Ok(_) if is_folder(self.rt, name) => {
                Err(self.refuse(alloc, name, FileRefusal::Folder))
            }
            Ok(file) => Ok(Samples::File(file)),
            Err(error) => Err(self.refuse(alloc, name, why_unopened(error.kind()))),
        }
    }

    fn is_one(&mut self, alloc: Global, name: &str, other: &str, role: Role) -> bool {
        let is_one = name == other || is_one_file(self.rt, name, opened_as(other));
        if is_one {
            self.note(alloc, name, role_text(role), other);
        }
        is_one
    }

    fn make(&mut self, alloc: Global, name: &str) -> Result<R::File, WriteFailed> {
        match File::create(self.rt, name) {
            Ok(file) => Ok(file),
            Err(error) => {
                self.note(alloc, name, why_unmade(error.kind()), "");
                Err(WriteFailed)
            }
        }
    }

    fn ask_why(&mut self, alloc: Global, name: &str) {
        let why = why_unwritten(self.rt, name);
        let name = if name == OUTPUT {
            "standard output"
        } else {
            name
        };
        self.note(alloc, name, why, "");
    }

    fn await_sink(&mut self, alloc: Global, name: &str, count: usize) {
        let _awaited = self.refuse(alloc, name, FileRefusal::Awaited(count));
    }

    fn unwritten(&self) -> Option<(&str, &str)> {
        match &self.unwritten {
            Some((name, why)) => Some((name.as_str(), why.as_str())),
            None => None,
        }
    }
}

impl<R: std::rt::Files, I: Drop> Files for StreamFiles<'_, R, I> {
    fn read(&mut self, alloc: Global, name: &str, limit: usize) -> Result<Vec<u8>, FileFault> {
        if name == "-" {
            self.input = None;
            self.has_graph = true;
        }
        self.files.read(alloc, name, limit)
    }
}

impl<R: std::rt::Files, I: Drop> LooksBeside for StreamFiles<'_, R, I> {
    fn look_beside(&mut self, alloc: Global, file: &str) {
        self.files.look_beside(alloc, file);
    }
}

impl<R, I> Refuses for StreamFiles<'_, R, I> {
    fn refused(&self) -> Option<(&str, FileRefusal)> {
        match &self.refused {
            Some((name, why)) => Some((name.as_str(), *why)),
            None => self.files.refused(),
        }
    }
}
