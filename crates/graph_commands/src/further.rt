//! Lines for a person, behind the line of a fault.
ghost use Rattle.std.specs.Prelude.{◌≡◌, ◌++◌, map, IfOk, OnOk};
ghost use Rattle.std.specs.List.{flat_map};
ghost use Rattle.graph_show.specs.Explanations.{shown};
ghost use Rattle.watched_io.specs.Statuses.{Says};
ghost use Rattle.watched_io.specs.States.{writer_state};
ghost use Rattle.graph_commands.specs.Explained.{AreFurtherLines, further_line};

use std::alloc::{AllocError, Global};
use std::io::Write;
use watched_io::Watched;

/// A byte as it is shown.
pub(crate) fn shown(b: u8) -> u8
    ensures { result ≡ shown b }
{
    let is_printable = b == b' ' || b == b'\t' || (33 <= b && b <= 126);
    if is_printable { b } else { b'?' }
}

/// A text as it is shown.
fn shown_text(alloc: Global, text: &[u8]) -> Result<Vec<u8>, AllocError>
    ensures { IfOk result (λ line. line.items ≡ map shown text.now) }
{
    text.iter().map(|b| shown(*b)).collect(alloc)
}

/// Puts a line for a person behind others.
pub(crate) fn put_line(alloc: Global, more: &mut Vec<u8>, text: &[u8]) -> Result<(), AllocError>
    ensures ok { OnOk result (more.new.items ≡ more.old.items ++ further_line text.now) }
{
    let shown = shown_text(alloc, text)?;
    more.extend_from_slice(b"  ")?;
    more.extend_from_slice(&shown)?;
    more.extend_from_slice(b"\n")
}

/// These texts, each as a line for a person.
fn laid_out(alloc: Global, texts: &[Vec<u8>]) -> Result<Vec<u8>, AllocError>
    ensures { IfOk result (λ more.
        more.items ≡ flat_map (λ text. further_line text.items) texts.now) }
{
    let mut more = Vec::new(alloc);
    for text in texts {
        put_line(alloc, &mut more, text)?;
    }
    Ok(more)
}

/// Returns these texts, each as a line for a person behind two spaces, a question mark for each
/// byte that is none of a line; or nothing where memory ran out.
pub fn further_lines(alloc: Global, texts: Result<Vec<Vec<u8>>, AllocError>) -> Vec<u8>
    ensures { AreFurtherLines result.items }
{
    let Ok(texts) = texts else {
        return Vec::new(alloc);
    };
    match laid_out(alloc, &texts) {
        Ok(more) => more,
        Err(_) => Vec::new(alloc),
    }
}

/// Tells these bytes. Where a write fails there is nobody to be told.
pub fn tell_bytes<E: Write>(bytes: &[u8], faults: &mut Watched<E>)
    ensures { Says bytes.now
        (writer_state E.contents faults.old) (writer_state E.contents faults.new) }
{
    let _ = faults.send(bytes);
}
