//! Files that are opened beside another.
ghost use Rattle.std.specs.Prelude.{◌≡◌, ◌≤◌, ℕ, List, IfOk, length, string_bytes, take};
ghost use Rattle.graph_commands.specs.Folders.{beside, folder_of, is_whole, known_by};

use std::alloc::{AllocError, Global};
use watched_io::Files;

/// Files that may be opened beside one of them.
pub trait LooksBeside: Files {
    /// Opens files beside the one of this name from now on: each in its folder, but for that file
    /// itself, names from the root, and `-`.
    fn look_beside(&mut self, alloc: Global, file: &str)
        ensures { (other : List ℕ)
            → Self.file self.new other ≡ Self.file self.old (beside file.now other) };
}

/// Opens files beside the one of this name from now on, where that is asked for.
pub fn look_by<F: LooksBeside>(alloc: Global, files: &mut F, is_asked: bool, file: &str)
    ensures { (other : List ℕ)
        → F.file files.new other ≡ known_by is_asked file.now (F.file files.old) other }
{
    if is_asked {
        files.look_beside(alloc, file);
    }
}

/// How many bytes of a file's name are its folder.
fn folder_len(file: &[u8]) -> usize
    ensures within { result ≤ length file.now }
    ensures folder { take result file.now ≡ folder_of file.now }
{
    let mut end = 0;
    for i in 0..file.len() {
        if file[i] == b'/' {
            end = i + 1;
        }
    }
    end
}

/// Whether a name stands for itself.
fn is_whole(name: &str) -> bool
    ensures { result ≡ is_whole name.now }
{
    if name == "-" {
        return true;
    }
    match name.as_bytes().first() {
        Some(b) => *b == b'/',
        None => false,
    }
}

/// Returns the name under which a file is opened beside another.
pub fn path_beside(alloc: Global, file: &str, name: &str) -> Result<String, AllocError>
    ensures { IfOk result (λ path. string_bytes path ≡ beside file.now name.now) }
{
    if name == file || is_whole(name) {
        return String::from_str(alloc, name);
    }
    let bytes = file.as_bytes();
    let mut path = Vec::from_slice(alloc, &bytes[..folder_len(bytes)])?;
    path.extend_from_slice(name.as_bytes())?;
    match String::from_utf8(path) {
        Ok(path) => Ok(path),
        // It does not come: a text up to a `/` is a text, and so are two in a row.
        Err(_) => Err(AllocError),
    }
}
