//! The lines of a text that is known, one after the other.
ghost use Rattle.std.specs.Prelude.{◌<◌, length};
ghost use Rattle.phase_replay.specs.ScriptReading.{IsFirstLine};

use phase_script::{lf_of, without_cr};

/// The first line of a text, and how many bytes it has there with its end.
#[derive(Clone, Copy)]
pub struct FirstLine<'a> {
    pub line: &'a [u8],
    pub used: usize,
}

/// Returns the first line of a text that is not empty.
pub fn first_line(text: &[u8]) -> FirstLine<'_>
    requires { 0 < length text.now }
    ensures { IsFirstLine text.now result.line.now result.used }
{
    match lf_of(text) {
        Some(end) => FirstLine {
            line: without_cr(&text[..end]),
            used: end + 1,
        },
        None => FirstLine {
            line: without_cr(text),
            used: text.len(),
        },
    }
}
