//! A reader of samples whose text comes in pieces.
ghost use Rattle.std.specs.Prelude.{◌≡◌, ◌+◌, ◌≤◌, ◌<◌, [], ◌∷◌, ◌++◌, ℕ, ℤ, List, length, take, drop, true, false};
ghost use Rattle.sample_pieces.specs.Pieces.{HasRead, Finds, FindsLast, TakesPiece, FindsField, EndsMark, Copies};

use crate::number::value_of;
use crate::plain::line_in;
use crate::step::{Move, Where, step};
use arrayvec::ArrayVec;

/// The most bytes of a number: a minus and 19 digits.
const FIELD_MAX: usize = 20;

/// What was found in a byte, or at the end of a text.
#[derive(Clone, Copy, Debug, PartialEq, Eq)]
pub enum Found {
    /// No record ended.
    Nothing,
    /// A record of this value.
    Value(i64),
    /// The record at hand is none of a value, whatever follows.
    Bad,
}

/// How many bytes were read, and what was found in them.
#[derive(Clone, Copy)]
struct Read {
    size: usize,
    found: Found,
}

/// What a piece came to.
#[derive(Clone, Copy, Debug, PartialEq, Eq)]
pub struct Taken {
    /// How many bytes of the piece were read.
    pub bytes: usize,
    /// How many values were written.
    pub values: usize,
    /// Whether the record behind them is none of a value. Then nothing more can be read.
    pub is_bad: bool,
}

/// A reader of samples whose text comes in pieces, which may be cut anywhere, also within a number
/// or between the two bytes of a line end.
///
/// The records are those that `csv` reads of the whole text with its default settings and no header
/// row, and the values those of `samples_of` of `graph_lang`. It keeps the field at hand and
/// nothing else, so it takes no memory; and a record is bad as soon as it has 21 bytes or a second
/// field.
#[derive(Drop)]
pub struct SampleReader {
    at: Where,
    field: ArrayVec<u8, 20>,
    is_first: bool,
}

impl SampleReader {
    /// Returns one that has read nothing.
    pub fn new() -> SampleReader
        ensures { HasRead [] [] result }
    {
        SampleReader {
            at: Where::Between,
            field: ArrayVec::new(),
            is_first: true,
        }
    }

    /// Reads on from a piece, until its end, until `out` is full, or until a record is bad; and
    /// writes the values of the records that ended into the first places of `out`. What stands
    /// behind them stays. It takes no memory.
    pub fn read(&mut self, piece: &[u8], out: &mut [i64]) -> Taken
        ensures takes { (text : List ℕ) (values : List ℤ) → HasRead text values self.old
            → TakesPiece result.is_bad (text ++ take result.bytes piece.now)
            (values ++ take result.values out.new) self.new }
        ensures bytes { result.bytes ≤ length piece.now }
        ensures values { result.values ≤ length out.old }
        ensures all { result.is_bad ≡ false → result.values < length out.old
            → result.bytes ≡ length piece.now }
        ensures behind { drop result.values out.new ≡ drop result.values out.old }
    {
        let mut bytes = 0;
        let mut values = 0;
        while bytes < piece.len() {
            if values == out.len() {
                return Taken {
                    bytes,
                    values,
                    is_bad: false,
                };
            }
            let Read { size, found } = self.next(&piece[bytes..]);
            bytes += size;
            match found {
                Found::Nothing => {}
                Found::Value(value) => {
                    out[values] = value;
                    values += 1;
                }
                Found::Bad => {
                    return Taken {
                        bytes,
                        values,
                        is_bad: true,
                    };
                }
            }
        }
        Taken {
            bytes,
            values,
            is_bad: false,
        }
    }

    /// Returns what the record at hand is, where the text ends here. It takes no memory.
    pub fn end(&self) -> Found
        ensures { (text : List ℕ) (values : List ℤ) → HasRead text values self.now
            → FindsLast text values result }
    {
        match self.at {
            Where::Between | Where::AfterReturn => Found::Nothing,
            Where::Field | Where::Quotes | Where::AfterQuote => self.field_value(),
        }
    }

    // The value of the field at hand.
    fn field_value(&self) -> Found
        ensures { FindsField self.now.field.items result }
    {
        match value_of(self.field.as_slice()) {
            Some(value) => Found::Value(value),
            None => Found::Bad,
        }
    }

    // Reads on by a line, where one begins here that is a number alone, or by one byte.
    fn next(&mut self, piece: &[u8]) -> Read
        requires { 1 ≤ length piece.now }
        ensures found { (text : List ℕ) (values : List ℤ) → HasRead text values self.old
            → Finds (text ++ take result.size piece.now) values self.new result.found }
        ensures size { (1 ≤ result.size) × (result.size ≤ length piece.now) }
    {
        if self.at == Where::Between && self.field.is_empty() {
            if let Some(line) = line_in(piece) {
                self.is_first = false;
                return Read {
                    size: line.size,
                    found: Found::Value(line.value),
                };
            }
        }
        Read {
            size: 1,
            found: self.byte(piece[0]),
        }
    }

    // Reads on by one byte.
    fn byte(&mut self, byte: u8) -> Found
        ensures { (text : List ℕ) (values : List ℤ) → HasRead text values self.old
            → Finds (text ++ byte ∷ []) values self.new result }
    {
        if self.ends_mark(byte) {
            self.begin(Where::Between);
            return Found::Nothing;
        }
        match step(self.at, byte) {
            Move::Skips(to) => self.skip(to),
            Move::Copies(to) => self.copy(to, byte),
            Move::Ends(to) => {
                let found = self.field_value();
                self.begin(to);
                found
            }
            Move::Separates => Found::Bad,
        }
    }

    // Whether the byte ends a byte order mark at the front of the text.
    fn ends_mark(&self, byte: u8) -> bool
        ensures { EndsMark self.now.is_first self.now.field.items byte result }
    {
        self.is_first && byte == 0xbf && matches!(self.field.as_slice(), [0xef, 0xbb])
    }

    // Stands before the next record.
    fn begin(&mut self, at: Where)
        ensures at { self.new.at ≡ at }
        ensures field { self.new.field.items ≡ [] }
        ensures first { self.new.is_first ≡ false }
    {
        self.at = at;
        self.field.clear();
        self.is_first = false;
    }

    // Stands behind a byte that is of no field.
    fn skip(&mut self, to: Where) -> Found
        ensures at { self.new.at ≡ to }
        ensures field { self.new.field ≡ self.old.field }
        ensures first { self.new.is_first ≡ false }
        ensures found { result ≡ Found.Nothing }
    {
        self.at = to;
        self.is_first = false;
        Found::Nothing
    }

    // Stands behind a byte of the field.
    fn copy(&mut self, to: Where, byte: u8) -> Found
        ensures found { Copies to byte self.old self.new result }
    {
        if self.field.try_push(byte).is_err() {
            return Found::Bad;
        }
        self.at = to;
        self.is_first = self.is_first && self.field.len() < 3;
        Found::Nothing
    }
}
