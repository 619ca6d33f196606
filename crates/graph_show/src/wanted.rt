//! What was expected in the place of a word, as a text with a word or a number in it.

use crate::meeting_place::MeetingPlace;
use crate::parts::put;
use itoa::Buffer;
use std::alloc::{AllocError, Global};

/// What was expected in the place of a word: a text, and perhaps more behind it, with a word, the
/// number of a line, and a phase or a bound.
#[derive(Clone, Copy)]
pub(crate) struct Wanted<'a> {
    text: &'static str,
    before: &'static str,
    word: &'a [u8],
    between: &'static str,
    /// The number of a line, counted from 1, or 0 for none.
    line: usize,
    behind: &'static str,
    number: Option<u128>,
}

impl<'a> Wanted<'a> {
    /// This text.
    pub(crate) fn text(text: &'static str) -> Wanted<'a> {
        Wanted::with_word(text, "", b"".as_slice(), "")
    }

    /// This text, and behind it a word between two others.
    pub(crate) fn with_word(
        text: &'static str,
        before: &'static str,
        word: &'a [u8],
        behind: &'static str,
    ) -> Wanted<'a> {
        Wanted {
            text,
            before,
            word,
            between: "",
            line: 0,
            behind,
            number: None,
        }
    }

    /// This text, and the line that declares a name.
    pub(crate) fn with_line(text: &'static str, line: usize, behind: &'static str) -> Wanted<'a> {
        Wanted {
            text,
            before: ": line ",
            word: b"".as_slice(),
            between: "",
            line,
            behind,
            number: None,
        }
    }

    /// This text, and the task that a task meets, with the phase.
    pub(crate) fn with_meeting(text: &'static str, meeting: MeetingPlace<'a>) -> Wanted<'a> {
        Wanted {
            text,
            before: ": task ",
            word: meeting.task.as_bytes(),
            between: " (line ",
            line: meeting.line,
            behind: ") also signals it in phase ",
            number: Some(meeting.phase),
        }
    }

    /// This text, and behind it a word and a number, each behind another text.
    pub(crate) fn with_number(
        text: &'static str,
        before: &'static str,
        word: &'a [u8],
        behind: &'static str,
        number: u128,
    ) -> Wanted<'a> {
        Wanted {
            text,
            before,
            word,
            between: "",
            line: 0,
            behind,
            number: Some(number),
        }
    }

    /// The whole text, for a person.
    pub(crate) fn told(self, alloc: Global) -> Result<Vec<u8>, AllocError> {
        let mut told = Vec::new(alloc);
        put(&mut told, [self.text, self.before].as_slice())?;
        told.extend_from_slice(self.word)?;
        put(&mut told, [self.between].as_slice())?;
        if self.line != 0 {
            put(&mut told, [Buffer::new().format(self.line)].as_slice())?;
        }
        put(&mut told, [self.behind].as_slice())?;
        if let Some(number) = self.number {
            put(&mut told, [Buffer::new().format(number)].as_slice())?;
        }
        Ok(told)
    }
}
