//! The text of a file from its record at hand on, which tells a record that is no sample.
ghost use Rattle.std.specs.Prelude.{◌≡◌, ◌≤◌, ◌++◌, [], List, ℕ, OnOk, IfSome, length};
ghost use Rattle.phase_stream.specs.Sources.{IsKeptOf, TellsIn};

use graph_commands::{line_at, start_of, told_from};
use std::alloc::{AllocError, Global};

/// The text of a file that is read piece by piece, from its record at hand on, and the number of
/// the line that it begins on, counted from 1.
#[derive(Drop)]
pub struct RecordText {
    line: usize,
    text: Vec<u8>,
}

impl RecordText {
    /// That of a file of which nothing was read.
    pub fn new(alloc: Global) -> RecordText
        ensures { IsKeptOf [] result }
    {
        RecordText {
            line: 1,
            text: Vec::new(alloc),
        }
    }

    /// Goes on by a piece in which so many records end, or else a part of them and one that is no
    /// sample. It takes memory for the piece.
    pub fn pass(&mut self, alloc: Global, piece: &[u8], records: usize) -> Result<(), AllocError>
        ensures { OnOk result ((text : List ℕ) → IsKeptOf text self.old
            → IsKeptOf (text ++ piece.now) self.new) }
    {
        self.text.extend_from_slice(piece)?;
        let at = self.place_behind(records);
        let Some(line) = self.line.checked_add(line_at(&self.text, at) - 1) else {
            return Err(AllocError);
        };
        self.text = Vec::from_slice(alloc, &self.text[at..])?;
        self.line = line;
        Ok(())
    }

    /// Where the text goes on behind so many records.
    fn place_behind(&self, records: usize) -> usize
        ensures { result ≤ length self.now.text.items }
    {
        match records.checked_add(1) {
            Some(number) => start_of(&self.text, number).unwrap_or(self.text.len()),
            None => self.text.len(),
        }
    }

    /// Tells the record at hand, of this number in the file of this name, which is no sample, where
    /// memory does not run out.
    pub fn told(&self, alloc: Global, file: &str, number: usize) -> Option<Vec<u8>>
        ensures { (text : List ℕ) → IsKeptOf text self.now
            → IfSome result (λ told. TellsIn text file.now number told.items) }
    {
        match told_from(alloc, file, number, self.line, &self.text) {
            Ok(told) => Some(told),
            Err(_) => None,
        }
    }
}
