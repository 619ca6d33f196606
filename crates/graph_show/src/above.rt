//! What the lines above a faulty one declare, and the version of the text, as far as they tell it.

use crate::explain_parts::Part;
use crate::grammar::{Known, Reading};
use crate::names::are_near;
use graph_text::{Version, begins_comment, heading_of, without_cr, words_of};
use phase_base::{BOUND_MAX, nat};
use std::alloc::{AllocError, Global};

/// The words of each line above, each with what it is, but for the heading and the lines that are
/// ignored, with its number, counted from 1; and the version of the text, where one of them tells
/// it.
#[derive(Drop)]
pub(crate) struct Above<'a> {
    lines: Vec<Vec<Known<'a>>>,
    numbers: Vec<usize>,
    pub(crate) known: Option<Version>,
}

/// The name that a line of these words declares.
fn own_of<'a>(line: &[Known<'a>]) -> Option<&'a [u8]> {
    for (part, word) in line {
        if matches!(part, Part::Own) {
            return Some(*word);
        }
    }
    None
}

/// Whether a line of these words declares the name.
pub(crate) fn declares(line: &[Known<'_>], name: &[u8]) -> bool {
    match own_of(line) {
        Some(own) => own == name,
        None => false,
    }
}

/// Whether a line of these words declares a phaser.
fn is_of_phaser(line: &[Known<'_>]) -> bool {
    match line.first() {
        Some((_, word)) => *word == b"phaser".as_slice(),
        None => false,
    }
}

/// Whether a single stands on a line of these words.
fn names_single(line: &[Known<'_>]) -> bool {
    for (part, _) in line {
        if matches!(part, Part::Function) {
            return true;
        }
    }
    false
}

/// Whether the operation on a line of these words is `any`.
fn takes_any(line: &[Known<'_>]) -> bool {
    for (part, word) in line {
        if matches!(part, Part::Operation) && *word == b"any".as_slice() {
            return true;
        }
    }
    false
}

/// The bound on a line of these words, or the highest one where it has none.
fn bound_on(line: &[Known<'_>]) -> u64 {
    for (part, word) in line {
        if matches!(part, Part::Bound) {
            return nat(word, BOUND_MAX).unwrap_or(BOUND_MAX);
        }
    }
    BOUND_MAX
}

/// Whether the task of a line of these words signals that phaser.
fn signals(line: &[Known<'_>], phaser: &[u8]) -> bool {
    for (part, word) in line {
        if part.is_output() && *word == phaser {
            return true;
        }
    }
    false
}

impl<'a> Above<'a> {
    /// The words of these lines.
    pub(crate) fn of(alloc: Global, lines: &[&'a [u8]]) -> Result<Above<'a>, AllocError> {
        let mut above = Above {
            lines: Vec::new(alloc),
            numbers: Vec::new(alloc),
            known: None,
        };
        for index in 0..lines.len() {
            let words = words_of(alloc, without_cr(lines[index]))?;
            above.add(alloc, &words, index.saturating_add(1))?;
        }
        Ok(above)
    }

    /// Adds a line of these words and of this number, where it is not ignored.
    fn add(&mut self, alloc: Global, words: &[&'a [u8]], number: usize) -> Result<(), AllocError> {
        if begins_comment(words) {
            return Ok(());
        }
        if self.known.is_none() {
            if let Some(version) = heading_of(words) {
                self.known = Some(version);
                return Ok(());
            }
        }
        self.known = Some(self.version());
        let reading = Reading::of(alloc, words, self.known)?;
        self.numbers.push(number)?;
        self.lines.push(reading.found)?;
        Ok(())
    }

    /// The version of the text: the first, where no line above tells it.
    pub(crate) fn version(&self) -> Version {
        self.known.unwrap_or(Version::One)
    }

    /// The number of the line that declares a name, counted from 1 in the text, or 0 where none
    /// does.
    pub(crate) fn line_of(&self, name: &[u8]) -> usize {
        match self.place_of(name) {
            Some(i) if i < self.numbers.len() => self.numbers[i],
            _ => 0,
        }
    }

    /// The number of the only one of these lines whose task signals a phaser of this name, counted
    /// from 1 in the text, or 0 where none does, or several do.
    pub(crate) fn only_signaller(&self, name: &[u8]) -> usize {
        let mut found = 0usize;
        for i in 0..self.lines.len() {
            if signals(&self.lines[i], name) {
                if found != 0 {
                    return 0;
                }
                found = match self.numbers.get(i) {
                    Some(number) => *number,
                    None => 0,
                };
            }
        }
        found
    }

    /// A name that becomes this one by so many edits, fewer than this one has bytes, where one is
    /// declared, as that of a phaser or else as that of a task.
    fn near(&self, name: &[u8], edits: usize, is_phaser: bool) -> Option<&'a [u8]> {
        for line in &self.lines {
            if let Some(own) = own_of(line) {
                let is_asked = is_of_phaser(line) == is_phaser && edits < name.len();
                if is_asked && are_near(own, name, edits) {
                    return Some(own);
                }
            }
        }
        None
    }

    /// The first of the names that are declared, as that of a phaser or else as that of a task,
    /// that becomes this one by one edit, or else by two.
    pub(crate) fn nearest(&self, name: &[u8], is_phaser: bool) -> Option<&'a [u8]> {
        match self.near(name, 1, is_phaser) {
            Some(near) => Some(near),
            None => self.near(name, 2, is_phaser),
        }
    }

    /// The number of the line that declares a name, among these.
    pub(crate) fn place_of(&self, name: &[u8]) -> Option<usize> {
        for i in 0..self.lines.len() {
            if declares(&self.lines[i], name) {
                return Some(i);
            }
        }
        None
    }

    /// Whether a name is declared, as that of a phaser.
    pub(crate) fn is_phaser(&self, name: &[u8]) -> bool {
        match self.place_of(name) {
            Some(i) if i < self.lines.len() => is_of_phaser(&self.lines[i]),
            _ => false,
        }
    }

    /// The bound of a phaser of this name, or the highest one where none is declared.
    pub(crate) fn bound_of(&self, name: &[u8]) -> u64 {
        match self.place_of(name) {
            Some(i) if i < self.lines.len() => bound_on(&self.lines[i]),
            _ => BOUND_MAX,
        }
    }

    /// Whether a name is declared, as that of a task.
    pub(crate) fn is_task(&self, name: &[u8]) -> bool {
        self.place_of(name).is_some() && !self.is_phaser(name)
    }

    /// Whether a phaser of this name has a single.
    pub(crate) fn has_single(&self, name: &[u8]) -> bool {
        match self.place_of(name) {
            Some(i) if i < self.lines.len() => names_single(&self.lines[i]),
            _ => false,
        }
    }

    /// Whether tasks may meet on a phaser of this name: it keeps one of the sends of a phase, and
    /// one of these lines signals it.
    pub(crate) fn may_meet(&self, name: &[u8]) -> bool {
        match self.place_of(name) {
            Some(i) if i < self.lines.len() => takes_any(&self.lines[i]) && self.is_signalled(name),
            _ => false,
        }
    }

    /// Whether the task of one of these lines signals a phaser of this name.
    fn is_signalled(&self, name: &[u8]) -> bool {
        for line in &self.lines {
            if signals(line, name) {
                return true;
            }
        }
        false
    }
}
