//! The lines of a text, and the words of a line.
ghost use Rattle.std.specs.Prelude.{◌≡◌, IfOk, map};
ghost use Rattle.std.specs.List.{slice_split};
ghost use Rattle.graph_text.specs.Texts.{is_line_feed, is_blank, words_of_line, are_printable};
ghost use Rattle.graph_text.specs.Texts.{begins_comment};
ghost use Rattle.graph_text.specs.Plain.{plain};

use std::alloc::{AllocError, Global};

/// Returns the pieces of a text between its line feeds. It takes memory for their places.
pub fn lines_of(alloc: Global, text: &[u8]) -> Result<Vec<&[u8]>, AllocError>
    ensures { IfOk result (λ pieces. plain pieces.items ≡ slice_split is_line_feed text.now) }
{
    text.split(|b| *b == b'\n').collect(alloc)
}

/// Returns the words of a line. It takes memory for their places.
pub fn words_of(alloc: Global, line: &[u8]) -> Result<Vec<&[u8]>, AllocError>
    ensures { IfOk result (λ words. plain words.items ≡ words_of_line line.now) }
{
    let pieces = blank_pieces(alloc, line)?;
    let mut words = Vec::new(alloc);
    for piece in &pieces {
        if !piece.is_empty() {
            words.push(*piece)?;
        }
    }
    Ok(words)
}

/// What stands between single blanks.
fn blank_pieces(alloc: Global, line: &[u8]) -> Result<Vec<&[u8]>, AllocError>
    ensures { IfOk result (λ pieces. plain pieces.items ≡ slice_split is_blank line.now) }
{
    line.split(|b| *b == b' ' || *b == b'\t').collect(alloc)
}

/// Whether each byte of a line is a blank or a byte of a word.
pub fn are_printable(line: &[u8]) -> bool
    ensures { result ≡ are_printable line.now }
{
    line.iter()
        .all(|b| *b == b' ' || *b == b'\t' || (33 <= *b && *b <= 126))
}

/// Whether a line of these words is ignored: there is no word, or the first begins with `#`.
pub fn begins_comment(words: &[&[u8]]) -> bool
    ensures { result ≡ begins_comment (plain words.now) }
{
    match words {
        [] => true,
        [first, ..] => first.first() == Some(&b'#'),
    }
}
