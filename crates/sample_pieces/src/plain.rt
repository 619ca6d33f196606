//! Lines of a number alone, each read at once.
ghost use Rattle.std.specs.Prelude.{◌≡◌, ◌≤◌, length, IfSome};
ghost use Rattle.sample_pieces.specs.Pieces.{BeginsWithNumber};

use crate::number::value_of;

/// The most bytes of a number: a minus and 19 digits.
const NUMBER_MAX: usize = 20;

/// A value at the front of a text, and the bytes of its line with the line feed.
#[derive(Clone, Copy)]
pub struct Line {
    pub value: i64,
    pub size: usize,
}

/// The line that the text begins with, where it is a number in its one form and a line feed.
pub fn line_in(text: &[u8]) -> Option<Line>
    ensures { IfSome result (λ line. BeginsWithNumber text.now line.value line.size) }
{
    let size = size_before_feed(text);
    if size >= text.len() || text[size] != b'\n' {
        return None;
    }
    match value_of(&text[..size]) {
        Some(value) => Some(Line {
            value,
            size: size + 1,
        }),
        None => None,
    }
}

/// How many bytes stand before the first line feed, or as many as a number has at most.
fn size_before_feed(text: &[u8]) -> usize
    ensures { result ≤ length text.now }
{
    let limit = text.len().min(NUMBER_MAX);
    for size in 0..limit {
        if text[size] == b'\n' {
            return size;
        }
    }
    limit
}
