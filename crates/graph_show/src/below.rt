//! What the lines below a faulty one declare.

use graph_text::{without_cr, words_of};
use phase_base::is_kind_word;
use std::alloc::{AllocError, Global};

/// The lines of a text from one on.
#[derive(Clone, Copy)]
pub(crate) struct Below<'l, 'a> {
    pub(crate) lines: &'l [&'a [u8]],
    pub(crate) first: usize,
}

/// A line that declares a name, by its number, counted from 1, and whether it is one of a phaser.
#[derive(Clone, Copy)]
pub(crate) struct Declared {
    pub(crate) line: usize,
    pub(crate) is_phaser: bool,
}

/// What the first words of a line declare under this name: a phaser, or else a task.
fn declared_as(words: &[&[u8]], name: &[u8]) -> Option<bool> {
    match words {
        [kind, own, ..] if is_kind_word(*kind) && *own == name => {
            Some(*kind == b"phaser".as_slice())
        }
        _ => None,
    }
}

impl Below<'_, '_> {
    /// The first of these lines that declares the name.
    pub(crate) fn declared(
        &self,
        alloc: Global,
        name: &[u8],
    ) -> Result<Option<Declared>, AllocError> {
        for index in self.first..self.lines.len() {
            let words = words_of(alloc, without_cr(self.lines[index]))?;
            if let Some(is_phaser) = declared_as(&words, name) {
                let line = index.saturating_add(1);
                return Ok(Some(Declared { line, is_phaser }));
            }
        }
        Ok(None)
    }
}
