//! Files that tell a person why they refuse one.
ghost use Rattle.std.specs.Prelude.{◌≡◌, ◌≤◌, ℕ, List, length, IfOk};

use crate::folders::{LooksBeside, path_beside};
use std::alloc::{AllocError, Global};
use std::fs::File;
use std::io::ErrorKind;
use watched_io::{DiskFiles, FileFault, Files};

/// Why a file was refused, as far as the system tells. It is said to a person, and nothing is
/// proved of it.
#[derive(Clone, Copy, Debug, PartialEq, Eq, Hash)]
pub enum FileRefusal {
    /// There is none of this name.
    Missing,
    /// It is a folder.
    Folder,
    /// It may not be read.
    NotAllowed,
    /// It has more bytes than this limit.
    TooLong(usize),
    /// It is standard input, which is the graph already.
    GraphInput,
    /// It is standard input, which has the samples of another source already.
    SourceInput,
    /// It is a sink, and so many values of another wait for its next one: nothing more is read.
    Awaited(usize),
    /// It could not be opened, or a read failed, for another reason.
    Other,
}

/// Files that tell which one they refused, and why.
pub trait Refuses {
    /// The name of the file that was refused last, and why, where that is kept. Nothing is promised
    /// of it.
    fn refused(&self) -> Option<(&str, FileRefusal)>;
}

/// Where files are opened.
#[derive(Drop)]
enum Origin {
    /// By their names as they are written.
    Here,
    /// Beside the file of this name.
    Beside(String),
    /// Beside one for whose name there was no memory.
    Lost,
}

/// The files of the disk, as `DiskFiles` reads them, with standard input as the one of the name
/// `-`, once, and why one was refused. The first file that is read is the graph's.
#[derive(Drop)]
pub struct TellingFiles<'a, R> {
    rt: &'a R,
    files: DiskFiles<'a, R>,
    origin: Origin,
    has_graph: bool,
    /// Why standard input is refused from now on, where it was read.
    input: Option<FileRefusal>,
    refused: Option<(String, FileRefusal)>,
}

impl<'a, R> TellingFiles<'a, R> {
    ghost use Rattle.graph_commands.specs.Folders.{IsOpenedAs};

    /// Reads files by this runtime.
    pub fn new(rt: &'a R) -> TellingFiles<'a, R> {
        TellingFiles {
            rt,
            files: DiskFiles::new(rt),
            origin: Origin::Here,
            has_graph: false,
            input: None,
            refused: None,
        }
    }

    /// Why standard input is refused, where it was read before; from now on it is.
    fn take_input(&mut self) -> Option<FileRefusal> {
        let before = self.input;
        if before.is_none() && self.has_graph {
            self.input = Some(FileRefusal::SourceInput);
        } else if before.is_none() {
            self.input = Some(FileRefusal::GraphInput);
        }
        before
    }

    /// Notes why a file was refused, where there is memory for its name.
    fn refuse(&mut self, alloc: Global, name: &str, why: FileRefusal) {
        self.refused = match String::from_str(alloc, name) {
            Ok(name) => Some((name, why)),
            Err(_) => None,
        };
    }

    /// The name under which a file is opened, where it is another than its own.
    pub fn path(&self, alloc: Global, name: &str) -> Result<Option<String>, AllocError>
        ensures { IfOk result (λ path. IsOpenedAs self.now.origin name.now path) }
    {
        match &self.origin {
            Origin::Here => Ok(None),
            Origin::Beside(file) => Ok(Some(path_beside(alloc, file.as_str(), name)?)),
            Origin::Lost => Err(AllocError),
        }
    }
}

impl<R: std::rt::Files> LooksBeside for TellingFiles<'_, R> {
    fn look_beside(&mut self, alloc: Global, file: &str) {
        self.origin = match String::from_str(alloc, file) {
            Ok(file) => Origin::Beside(file),
            Err(_) => Origin::Lost,
        };
    }
}

/// The name under which the system opens a file: of `-` that of standard input.
fn opened_as(name: &str) -> &str {
    if name == "-" { "/dev/stdin" } else { name }
}

/// Why the system refused an opening.
fn why_unopened(kind: ErrorKind) -> FileRefusal {
    match kind {
        ErrorKind::NotFound => FileRefusal::Missing,
        ErrorKind::PermissionDenied => FileRefusal::NotAllowed,
        _ => FileRefusal::Other,
    }
}

/// Asks the system why a file of a name was refused. No byte of it is read.
fn why_refused<R: std::rt::Files>(rt: &R, name: &str, limit: usize) -> FileRefusal {
    match rt.metadata(name) {
        Ok(found) if found.is_dir() => FileRefusal::Folder,
        Ok(found) if found.len() > limit as u64 => FileRefusal::TooLong(limit),
        Ok(_) => match File::open(rt, name) {
            Ok(_) => FileRefusal::Other,
            Err(error) => why_unopened(error.kind()),
        },
        Err(error) => why_unopened(error.kind()),
    }
}

impl<R: std::rt::Files> Files for TellingFiles<'_, R> {
    fn read(&mut self, alloc: Global, name: &str, limit: usize) -> Result<Vec<u8>, FileFault> {
        let Ok(path) = self.path(alloc, name) else {
            return Err(FileFault::OutOfMemory);
        };
        let name = path.as_deref().unwrap_or(name);
        if name == "-" {
            if let Some(why) = self.take_input() {
                self.refuse(alloc, name, why);
                return Err(FileFault::ReadFault);
            }
        }
        self.has_graph = true;
        let read = self.files.read(alloc, opened_as(name), limit);
        if let Err(FileFault::ReadFault) = &read {
            let why = why_refused(self.rt, opened_as(name), limit);
            self.refuse(alloc, name, why);
        }
        read
    }
}

impl<R> Refuses for TellingFiles<'_, R> {
    fn refused(&self) -> Option<(&str, FileRefusal)> {
        match &self.refused {
            Some((name, why)) => Some((name.as_str(), *why)),
            None => None,
        }
    }
}
