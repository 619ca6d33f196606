//! The prefix of a line, as far as any line of the grammar goes.
ghost use Rattle.std.specs.Prelude.{◌≡◌, ◌≤◌, List, [], ◌++◌, ℕ, length, take, nat_eq};
ghost use Rattle.phase_replay.specs.declared.line_prefix.TheConstants.{PREFIX_MAX};

use phase_script::LINE_MAX;
use std::marker::Model;

/// The bytes of the longest line of the grammar, its CR, and a byte that shows a longer line.
pub const PREFIX_MAX: usize = LINE_MAX + 2;

/// The first `PREFIX_MAX` bytes of a line that may have any length.
#[derive(Drop)]
pub struct LinePrefix {
    buf: [u8; PREFIX_MAX],
    len: usize,
}

impl Model for LinePrefix {
    ghost Value = { List ℕ };

    ghost view = { λ k. take k.len k.buf };

    ghost invariant = { λ k. k.len ≤ PREFIX_MAX };
}

impl LinePrefix {
    /// Makes the prefix of a line of which no byte has come.
    pub fn new() -> LinePrefix
        ensures { result ≡ [] }
    {
        LinePrefix {
            buf: [0; PREFIX_MAX],
            len: 0,
        }
    }

    /// Returns whether no byte of the line has come.
    pub fn is_empty(&self) -> bool
        ensures { result ≡ nat_eq (length self.now) 0 }
    {
        self.len == 0
    }

    /// Takes the line's next bytes, of which those past `PREFIX_MAX` are forgotten.
    pub fn extend(&mut self, bytes: &[u8])
        ensures { self.new ≡ take PREFIX_MAX (self.old ++ bytes.now) }
    {
        let count = bytes.len().min(PREFIX_MAX - self.len);
        self.buf[self.len..self.len + count].copy_from_slice(&bytes[..count]);
        self.len += count;
    }

    /// Forgets the line.
    pub fn clear(&mut self)
        ensures { self.new ≡ [] }
    {
        self.len = 0;
    }

    /// Returns the bytes that are kept.
    pub fn bytes(&self) -> &[u8]
        ensures { result.now ≡ self.now }
    {
        &self.buf[..self.len]
    }
}
