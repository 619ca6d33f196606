//! The words of a line, each with what it is, as far as the line is in the grammar.

use crate::explain_parts::Part;
use graph_text::{Version, is_third_word};
use std::alloc::{AllocError, Global};

/// A word of a line, with what it is.
pub(crate) type Known<'a> = (Part, &'a [u8]);

/// The words of a line, each with what it is, as far as the line is in the grammar, and what may
/// stand behind them.
#[derive(Drop)]
pub(crate) struct Reading<'w, 'a> {
    words: &'w [&'a [u8]],
    known: Option<Version>,
    pub(crate) found: Vec<Known<'a>>,
    pub(crate) wanted: Part,
}

/// Whether a task of this kind may have a parent, and a block.
fn may_have_parent(kind: &[u8]) -> bool {
    kind == b"source".as_slice()
        || kind == b"fir".as_slice()
        || kind == b"delay".as_slice()
        || kind == b"sink".as_slice()
}

/// Whether the word may stand behind the taps of a filter in a text of the third version alone.
fn is_behind_tap(word: &[u8]) -> bool {
    word == b"again".as_slice() || word == b"single".as_slice()
}

impl<'w, 'a> Reading<'w, 'a> {
    /// Reads the words of a line, where this version of its text is known from the lines above.
    pub(crate) fn of(
        alloc: Global,
        words: &'w [&'a [u8]],
        known: Option<Version>,
    ) -> Result<Reading<'w, 'a>, AllocError> {
        let mut reading = Reading {
            words,
            known,
            found: Vec::new(alloc),
            wanted: Part::Kind,
        };
        reading.read()?;
        Ok(reading)
    }

    /// Reads all words.
    fn read(&mut self) -> Result<(), AllocError> {
        let kind = self.next();
        if self.known.is_none() && kind == b"graph".as_slice() {
            return self.read_heading();
        }
        let first = if self.is_of_three() {
            Part::LaterKind
        } else {
            Part::Kind
        };
        if !self.take(first)? || !self.follow_body(kind)? {
            return Ok(());
        }
        if kind == b"phaser".as_slice() {
            return self.read_single();
        }
        if may_have_parent(kind) {
            return self.read_ends(kind);
        }
        self.read_until("`until`, or the end of the line", "the end of the line")?;
        Ok(())
    }

    /// Reads the heading of a text.
    fn read_heading(&mut self) -> Result<(), AllocError> {
        if self.follow(&[Part::Sign("graph"), Part::Version])? {
            self.wanted = Part::End("the end of the line");
        }
        Ok(())
    }

    /// Reads what stands behind the first word, but for the optional ends, and answers whether all
    /// is there.
    fn follow_body(&mut self, kind: &[u8]) -> Result<bool, AllocError> {
        if kind == b"phaser".as_slice() {
            return self.follow(&[Part::Own, Part::Operation, Part::Bound]);
        }
        let arrow = Part::Sign("->");
        if kind == b"source".as_slice() {
            return self.follow(&[Part::Own, Part::File, arrow, Part::Output]);
        }
        if kind == b"split".as_slice() {
            return self.follow(&[Part::Own, Part::Input, arrow, Part::Outputs]);
        }
        if kind == b"join".as_slice() {
            return self.follow(&[Part::Own, Part::Inputs, arrow, Part::Output]);
        }
        if kind == b"fir".as_slice() {
            let ends = self.follow(&[Part::Own, Part::Input, arrow, Part::Output])?;
            return Ok(ends && self.follow_filter()?);
        }
        if kind == b"delay".as_slice() {
            let ends = self.follow(&[Part::Own, Part::Input, arrow, Part::Output])?;
            return Ok(ends && self.follow(&[Part::Sign("of"), Part::Delay])?);
        }
        if kind == b"decimate".as_slice() {
            let ends = self.follow(&[Part::Own, Part::Input, arrow, Part::Output])?;
            return Ok(ends && self.follow(&[Part::Sign("every"), Part::Every])?);
        }
        if kind == b"peer".as_slice() {
            let meets = self.follow(&[Part::Own, Part::Input, Part::Sign("<->"), Part::Exchange])?;
            return Ok(meets && self.follow_factor()?);
        }
        self.follow(&[Part::Own, Part::Input])
    }

    /// Reads the numbers of a filter.
    fn follow_filter(&mut self) -> Result<bool, AllocError> {
        if !self.follow_age()? || !self.follow(&[Part::Sign("shift"), Part::Shift])? {
            return Ok(false);
        }
        if !self.follow_plus()? || !self.follow(&[Part::Sign("taps"), Part::Taps])? {
            return Ok(false);
        }
        if !self.is_of_three() {
            return Ok(true);
        }
        Ok(self.follow_again()? && self.follow_single()?)
    }

    /// Reads from how far back a filter weighs, where that is said in a text of the third version.
    fn follow_age(&mut self) -> Result<bool, AllocError> {
        if !self.is_of_three() || Part::Sign("shift").fits(self.next()) {
            return Ok(true);
        }
        if Part::Sign("of").fits(self.next()) {
            return self.follow(&[Part::Sign("of"), Part::Delay]);
        }
        self.wanted = Part::End("`of` or `shift`");
        Ok(false)
    }

    /// Reads the taps for what a filter put, where there are some.
    fn follow_again(&mut self) -> Result<bool, AllocError> {
        if Part::Sign("again").fits(self.next()) {
            return self.follow(&[Part::Sign("again"), Part::Again]);
        }
        Ok(true)
    }

    /// Reads a single, where there is one.
    fn follow_single(&mut self) -> Result<bool, AllocError> {
        if !Part::Sign("single").fits(self.next()) {
            return Ok(true);
        }
        if !self.follow(&[Part::Sign("single"), Part::Function])? {
            return Ok(false);
        }
        Ok(!self.is_behind(b"clamp") || self.follow(&[Part::Low, Part::High])?)
    }

    /// Reads what a filter adds, where it adds something in a text of the third version.
    fn follow_plus(&mut self) -> Result<bool, AllocError> {
        if !self.is_of_three() || Part::Sign("taps").fits(self.next()) {
            return Ok(true);
        }
        if Part::Sign("plus").fits(self.next()) {
            return self.follow(&[Part::Sign("plus"), Part::Plus]);
        }
        self.wanted = Part::End("`plus` or `taps`");
        Ok(false)
    }

    /// Reads the output and the factor of a peer.
    fn follow_factor(&mut self) -> Result<bool, AllocError> {
        self.follow(&[
            Part::Sign("->"),
            Part::Output,
            Part::Sign("mul"),
            Part::Factor,
        ])
    }

    /// Whether the last word that was read is this one.
    fn is_behind(&self, word: &[u8]) -> bool {
        match self.found.last() {
            Some((_, last)) => *last == word,
            None => false,
        }
    }

    /// Reads the optional end of a phaser's line.
    fn read_single(&mut self) -> Result<(), AllocError> {
        self.wanted = Part::End("`single`, or the end of the line");
        if Part::Sign("single").fits(self.next()) && self.follow_single()? {
            self.wanted = Part::End("the end of the line");
        }
        Ok(())
    }

    /// Whether the text is of the second version or a later one.
    fn is_of_two(&self) -> bool {
        self.known == Some(Version::Two) || self.is_of_three()
    }

    /// Whether the text is of the third version.
    fn is_of_three(&self) -> bool {
        self.known == Some(Version::Three)
    }

    /// Whether the first word that was not read may stand there in a text of the third version.
    pub(crate) fn wants_three(&self) -> bool {
        let word = self.next();
        match self.wanted {
            Part::Kind => word == b"delay".as_slice() || word == b"decimate".as_slice(),
            Part::Sign("taps") => !self.is_of_three() && word == b"plus".as_slice(),
            Part::Sign("shift") => !self.is_of_three() && word == b"of".as_slice(),
            Part::End(_) => !self.is_of_three() && self.is_behind_taps() && is_behind_tap(word),
            _ => false,
        }
    }

    /// Whether the last word that was read is a tap.
    fn is_behind_taps(&self) -> bool {
        match self.found.last() {
            Some((part, _)) => matches!(*part, Part::Taps),
            None => false,
        }
    }

    /// Whether an arrow is one of the words of the line.
    pub(crate) fn has_arrow(&self) -> bool {
        self.words.iter().any(|word| *word == b"->".as_slice())
    }

    /// Whether the line is of this kind.
    pub(crate) fn is_of(&self, kind: &[u8]) -> bool {
        match self.found.first() {
            Some((_, first)) => *first == kind,
            None => false,
        }
    }

    /// Whether this is one of the words that were read.
    pub(crate) fn has(&self, word: &[u8]) -> bool {
        self.found.iter().any(|(_, known)| *known == word)
    }

    /// Whether the first word that was not read may stand there in a text of the second version.
    pub(crate) fn wants_two(&self) -> bool {
        let is_end = matches!(self.wanted, Part::End(_));
        let Some((_, kind)) = self.found.first() else {
            return false;
        };
        if !is_end || self.is_of_two() {
            return false;
        }
        // Behind the seven words of a sink with a parent.
        let joins = self.found.len() == 7 && *kind == b"sink".as_slice();
        let word = self.next();
        (joins && word == b"now".as_slice())
            || (may_have_parent(*kind) && word.starts_with(b"block="))
    }

    /// Reads the optional ends of a task that may have a parent.
    fn read_ends(&mut self, kind: &[u8]) -> Result<(), AllocError> {
        if !Part::Sign("by").fits(self.next()) {
            let later = if self.is_behind_taps() && self.is_of_three() {
                "`again`, `single`, `by`, `until`, `block=`, or the end of the line"
            } else {
                "`by`, `until`, `block=`, or the end of the line"
            };
            return self.read_last("`by`, `until`, or the end of the line", later);
        }
        let by = [
            Part::Sign("by"),
            Part::Parent,
            Part::Sign("at"),
            Part::Steps,
        ];
        if !self.follow(by.as_slice())? {
            return Ok(());
        }
        let joins = self.is_of_two() && kind == b"sink".as_slice();
        if joins && !self.take(Part::Sign("now"))? {
            return self.read_more("`now`, `until`, `block=`, or the end of the line");
        }
        self.read_last(
            "`until`, or the end of the line",
            "`until`, `block=`, or the end of the line",
        )
    }

    /// Reads the optional ends behind a parent, or tells what else may stand there, in a text of
    /// the first version and in a later one.
    fn read_last(&mut self, one: &'static str, two: &'static str) -> Result<(), AllocError> {
        if self.is_of_two() {
            return self.read_more(two);
        }
        self.read_until(one, "the end of the line")?;
        Ok(())
    }

    /// Reads these ends in a text of a later version, or tells what else may stand there.
    fn read_more(&mut self, wanted: &'static str) -> Result<(), AllocError> {
        if self.read_until(wanted, "`block=`, or the end of the line")? {
            return self.read_block();
        }
        Ok(())
    }

    /// Reads the optional boundary of a task, or tells what else may stand there; then what may
    /// stand behind it. Answers whether the line is in the grammar so far.
    fn read_until(
        &mut self,
        wanted: &'static str,
        behind: &'static str,
    ) -> Result<bool, AllocError> {
        self.wanted = Part::End(wanted);
        if !Part::Sign("until").fits(self.next()) {
            return Ok(true);
        }
        let is_there = self.follow(&[Part::Sign("until"), Part::Steps])?;
        if is_there {
            self.wanted = Part::End(behind);
        }
        Ok(is_there)
    }

    /// Reads the optional block of a task.
    fn read_block(&mut self) -> Result<(), AllocError> {
        if self.next().starts_with(b"block=") && self.take(Part::Block)? {
            self.wanted = Part::End("the end of the line");
        }
        Ok(())
    }

    /// The first word that was not read, or an empty one.
    pub(crate) fn next(&self) -> &'a [u8] {
        match self.words.get(self.found.len()) {
            Some(word) => *word,
            None => b"".as_slice(),
        }
    }

    /// Whether a word that is no name in the third version stands where the line declares one.
    fn is_reserved(&self, part: Part, word: &[u8]) -> bool {
        self.is_of_three() && matches!(part, Part::Own) && is_third_word(word)
    }

    /// Reads the next word, where it is such a part.
    fn take(&mut self, part: Part) -> Result<bool, AllocError> {
        self.wanted = part;
        let word = self.next();
        if word.is_empty() || !part.fits(word) || self.is_reserved(part, word) {
            return Ok(false);
        }
        self.found.push((part, word))?;
        Ok(true)
    }

    /// Reads as many more words as are such a part.
    fn take_more(&mut self, part: Part) -> Result<(), AllocError> {
        for _ in 0..self.words.len() {
            if !self.take(part)? {
                return Ok(());
            }
        }
        Ok(())
    }

    /// Reads these parts, and answers whether all are there.
    fn follow(&mut self, parts: &[Part]) -> Result<bool, AllocError> {
        for part in parts {
            if !self.take(*part)? {
                return Ok(false);
            }
            if part.is_repeated() {
                self.take_more(*part)?;
            }
        }
        Ok(true)
    }
}
