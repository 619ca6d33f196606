//! Samples whose lines are a number each in its one form. A number is read where it stands, and not
//! by `int` of `phase_base`: most of the time of a long text goes here.
ghost use Rattle.std.specs.Prelude.{◌≡◌, ◌≤◌, ◌++◌, ℕ, ℤ, List, [], length, take, IfOk, IfSome};
ghost use Rattle.std.specs.Str.Parse.{AllDigits, digits_value};
ghost use Rattle.phase_accum.specs.Sends.{AreSends};
ghost use Rattle.graph_lang.specs.PlainLines.{ArePlainLines};
ghost use Rattle.graph_lang.specs.Samples.{AreRecordsOfValues};
ghost use Rattle.graph_lang.specs.TextInside.{BeginsWithWord, BeginsWithCount, BeginsWithLine};

use phase_accum::MAGNITUDE_MAX;
use std::alloc::{AllocError, Global};

/// Digits at the front of a text: their number, and how many they are.
#[derive(Clone, Copy)]
struct Digits {
    value: u64,
    size: usize,
}

/// A value at the front of a text, and the size of its line with the line's end.
#[derive(Clone, Copy)]
struct Line {
    value: i64,
    size: usize,
}

/// The digits that the text begins with, 19 at most.
fn digits_in(text: &[u8]) -> Digits
    ensures size { result.size ≤ length text.now }
    ensures digits { AllDigits 10 (take result.size text.now) }
    ensures value { result.value ≡ digits_value 10 (take result.size text.now) }
    ensures few { result.size ≤ 19 }
{
    let limit = text.len().min(19);
    let mut value = 0u64;
    for size in 0..limit {
        let digit = text[size].wrapping_sub(b'0');
        if digit > 9 {
            return Digits { value, size };
        }
        value = value * 10 + u64::from(digit);
    }
    Digits { value, size: limit }
}

/// The size of the line end that the text begins with: none at the end of the text.
fn line_end_in(text: &[u8]) -> Option<usize>
    ensures some { IfSome result (λ size. BeginsWithWord text.now [] size) }
{
    if text.is_empty() {
        return Some(0);
    }
    if text[0] == b'\n' {
        return Some(1);
    }
    if text[0] == b'\r' && text.len() >= 2 && text[1] == b'\n' {
        return Some(2);
    }
    None
}

/// The number that the text begins with, on a line of its own.
fn count_in(text: &[u8]) -> Option<Digits>
    ensures some { IfSome result (λ line. BeginsWithCount text.now line.value line.size) }
{
    let digits = digits_in(text);
    if digits.size == 0 || (text[0] == b'0' && digits.size != 1) {
        return None;
    }
    if digits.value > MAGNITUDE_MAX {
        return None;
    }
    match line_end_in(&text[digits.size..]) {
        None => None,
        Some(end) => Some(Digits {
            value: digits.value,
            size: digits.size + end,
        }),
    }
}

/// The value that the text begins with, on a line of its own.
fn line_in(text: &[u8]) -> Option<Line>
    ensures some { IfSome result (λ line. BeginsWithLine text.now line.value line.size) }
{
    if text.is_empty() || text[0] != b'-' {
        return match count_in(text) {
            None => None,
            Some(line) => Some(Line {
                value: line.value as i64,
                size: line.size,
            }),
        };
    }
    match count_in(&text[1..]) {
        None => None,
        Some(line) if line.value == 0 => None,
        Some(line) => Some(Line {
            value: -(line.value as i64),
            size: line.size + 1,
        }),
    }
}

/// The samples of the lines of a text from one place up to another, where all of them are plain,
/// or nothing where one is not. A line begins at the first place, and the second is the end of a
/// line, or nothing is answered, too.
///
/// So a long text is read by parts, each by a thread of its own; `parts_have_samples` says what the
/// parts come to.
pub fn plain_part(
    alloc: Global,
    text: &[u8],
    from: usize,
    to: usize,
) -> Result<Option<Vec<i64>>, AllocError>
    requires order { from ≤ to }
    requires within { to ≤ length text.now }
    ensures { IfOk result (λ found. IfSome found (λ values.
        ArePlainLines text.now from to values.items)) }
{
    let mut values = Vec::new(alloc);
    let mut at = from;
    while at < to {
        match line_in(&text[at..]) {
            None => return Ok(None),
            Some(line) => {
                values.push(line.value)?;
                at += line.size;
            }
        }
    }
    if at != to {
        return Ok(None);
    }
    Ok(Some(values))
}

/// The samples of a text whose lines are all plain, or nothing where one is not.
pub fn plain_samples(alloc: Global, text: &[u8]) -> Result<Option<Vec<i64>>, AllocError>
    ensures { IfOk result (λ found. IfSome found (λ values.
        ArePlainLines text.now 0 (length text.now) values.items)) }
{
    plain_part(alloc, text, 0, text.len())
}

/// No lines have no samples: `none`; two parts that follow one another have those of both: `two`;
/// and those of the whole text are the values of its records, no more of them than it has bytes:
/// `whole`.
pub fn parts_have_samples()
    ensures none { (text : List ℕ) (at : ℕ) → ArePlainLines text at at [] }
    ensures two { (text : List ℕ) (from mid to : ℕ) (xs ys : List ℤ) → from ≤ mid → mid ≤ to
        → ArePlainLines text from mid xs → ArePlainLines text mid to ys
        → ArePlainLines text from to (xs ++ ys) }
    ensures whole { (text : List ℕ) (values : List ℤ)
        → ArePlainLines text 0 (length text) values
        → AreRecordsOfValues text values × AreSends values × (length values ≤ length text) }
{}
