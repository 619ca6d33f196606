//! What is said of a record that is no sample, from the text that it stands in.
ghost use Rattle.std.specs.Prelude.{◌≡◌, ◌<◌, ◌≤◌, ◌++◌, ℕ, length, take, codes, decimal, IfOk, IfSome, OnOk, None};
ghost use Rattle.graph_commands.specs.Explained.{TellsFrom, TellsPlace, TellsRecord, further_line, record_wanted};
ghost use Rattle.graph_commands.specs.Records.{IsStart, begins_at, is_end, line_at, up_to_end};
ghost use Rattle.std.specs.List.{position_from};

use crate::further::put_line;
use csv::{ByteRecord, ReaderBuilder};
use itoa::Buffer;
use std::alloc::{AllocError, Global};

/// The most bytes that are shown of a record or of a line.
const SHOWN_MAX: usize = 60;

/// The front of a text that is shown.
pub(crate) fn front_of(text: &[u8]) -> &[u8]
    ensures { result.now ≡ take 60 text.now }
{
    let end = SHOWN_MAX.min(text.len());
    &text[..end]
}

/// Whether the byte ends a record.
fn is_end(b: u8) -> bool
    ensures { result ≡ is_end b }
{
    b == b'\n' || b == b'\r'
}

/// Whether a record begins at this byte: it ends none, and is the first or stands behind one that
/// does.
fn begins_at(text: &[u8], at: usize) -> bool
    requires { at < length text.now }
    ensures { result ≡ begins_at text.now at }
{
    !is_end(text[at]) && (at == 0 || is_end(text[at - 1]))
}

/// Where record number `number` of a text begins, counted from 1, where no record before it has a
/// line end within.
pub fn start_of(text: &[u8], number: usize) -> Option<usize>
    ensures some { IfSome result (λ at. IsStart text.now number at) }
    ensures none { result ≡ None → (at : ℕ) → IsStart text.now number at → ⊥ }
{
    let mut records = 0;
    for at in 0..text.len() {
        if begins_at(text, at) {
            records += 1;
            if records == number {
                return Some(at);
            }
        }
    }
    None
}

/// The number of the line of a byte, counted from 1.
pub fn line_at(text: &[u8], at: usize) -> usize
    requires { at ≤ length text.now }
    ensures { result ≡ line_at text.now at }
{
    let mut line = 1;
    for b in &text[..at] {
        if *b == b'\n' {
            line += 1;
        }
    }
    line
}

/// Which byte of a text is the first that ends a record.
fn first_end(text: &[u8]) -> Option<usize>
    ensures first { result ≡ position_from is_end 0 text.now }
    ensures within { IfSome result (λ at. at < length text.now) }
{
    text.iter().position(|b| is_end(*b))
}

/// How many bytes a text has before the first that ends a record.
fn up_to_end(text: &[u8]) -> usize
    ensures within { result ≤ length text.now }
    ensures end { result ≡ up_to_end text.now }
{
    first_end(text).unwrap_or(text.len())
}

/// The fields of the record that a text begins with, as `csv` reads them.
fn fields_of(alloc: Global, text: &[u8]) -> Result<ByteRecord, AllocError> {
    let mut records = ReaderBuilder::new()
        .has_headers(false)
        .flexible(true)
        .from_reader(alloc, text);
    let mut fields = ByteRecord::new(alloc);
    match records.read_byte_record(&mut fields) {
        Ok(_) => Ok(fields),
        Err(_) => Err(AllocError),
    }
}

/// Whether there are digits, and nothing else.
fn are_digits(word: &[u8]) -> bool {
    !word.is_empty() && word.iter().all(|b| b'0' <= *b && *b <= b'9')
}

/// Whether there are digits with one point among them, or at an end.
fn is_fraction(word: &[u8]) -> bool {
    let points = word.iter().filter(|b| **b == b'.').count();
    points == 1
        && word.len() > 1
        && word
            .iter()
            .all(|b| (b'0' <= *b && *b <= b'9') || *b == b'.')
}

/// What is wrong with digits, perhaps behind a minus, or with another text.
fn number_fault(digits: &[u8], has_minus: bool) -> &'static str {
    if is_fraction(digits) {
        return "a fraction: multiply by 1000, say, and round";
    }
    if !are_digits(digits) {
        return "not a whole number";
    }
    if digits.starts_with(b"0") && (has_minus || digits.len() > 1) {
        return "a sign or zero in front";
    }
    "out of range"
}

/// Whether the byte is a space or a tab.
fn is_blank(b: u8) -> bool {
    b == b' ' || b == b'\t'
}

/// Whether a blank stands at an end of a text.
fn has_blank_end(text: &[u8]) -> bool {
    match text {
        [b, ..] if is_blank(*b) => true,
        [.., b] => is_blank(*b),
        _ => false,
    }
}

/// Whether a text has a blank at an end, and is else of digits, minuses and blanks.
fn is_number_in_blanks(text: &[u8]) -> bool {
    let has_digit = text.iter().any(|b| b'0' <= *b && *b <= b'9');
    has_digit
        && has_blank_end(text)
        && text.iter().all(|b| (b'0' <= *b && *b <= b'9') || *b == b'-' || is_blank(*b))
}

/// Whether a field is one of the words that floating point has beside its numbers.
fn is_no_number(field: &[u8]) -> bool {
    let word = match field {
        [b'+', behind @ ..] | [b'-', behind @ ..] => behind,
        _ => field,
    };
    word.eq_ignore_ascii_case(b"nan")
        || word.eq_ignore_ascii_case(b"inf")
        || word.eq_ignore_ascii_case(b"infinity")
}

/// Why a field is no sample.
fn field_fault(field: &[u8]) -> &'static str {
    if is_number_in_blanks(field) {
        return "a blank before or behind the number";
    }
    if is_no_number(field) {
        return "no number: NaN and infinity are no samples";
    }
    match field {
        [0xFF, 0xFE, ..] | [0xFE, 0xFF, ..] => "UTF-16: a text has one byte a character",
        [0xEF, 0xBB, 0xBF, ..] => "a byte order mark",
        [b'-', digits @ ..] => number_fault(digits, true),
        [b'+', digits @ ..] if are_digits(digits) => "a sign or zero in front",
        _ => number_fault(field, false),
    }
}

/// Whether the text begins with a letter.
fn begins_with_letter(text: &[u8]) -> bool {
    match text {
        [b, ..] => (b'a' <= *b && *b <= b'z') || (b'A' <= *b && *b <= b'Z'),
        _ => false,
    }
}

/// Why record number `number`, counted from 1, is no sample. The text is its first line, with the
/// byte that ends it. A field has that byte where a quote of the line is open.
fn record_fault(alloc: Global, text: &[u8], number: usize) -> Result<&'static str, AllocError> {
    let fields = fields_of(alloc, text)?;
    if fields.len() > 1 {
        return Ok("two fields");
    }
    let field = fields.get(0).unwrap_or(b"".as_slice());
    if up_to_end(field) < field.len() {
        return Ok("a quote that is not closed on its line");
    }
    if number == 1 && begins_with_letter(field) && !is_no_number(field) {
        return Ok("a header is no sample: `tail -n +2` leaves it out");
    }
    Ok(field_fault(field))
}

/// Puts the number of a record and its place behind the name of its file, as a line for a person.
fn put_place(
    alloc: Global,
    more: &mut Vec<u8>,
    file: &str,
    number: usize,
    place: &[u8],
) -> Result<(), AllocError>
    ensures { OnOk result (more.new.items ≡ more.old.items
        ++ further_line (file.now ++ codes ", record " ++ decimal number ++ place.now)) }
{
    let mut buffer = Buffer::new();
    let mut text = Vec::new(alloc);
    text.extend_from_slice(file.as_bytes())?;
    text.extend_from_slice(b", record ")?;
    text.extend_from_slice(buffer.format(number).as_bytes())?;
    text.extend_from_slice(place)?;
    put_line(alloc, more, &text)
}

/// The line of a record, and what is shown of it.
fn line_text(alloc: Global, line: usize, shown: &[u8]) -> Result<Vec<u8>, AllocError>
    ensures { IfOk result (λ place.
        place.items ≡ codes ", line " ++ decimal line ++ codes ": " ++ shown.now) }
{
    let mut buffer = Buffer::new();
    let mut text = Vec::new(alloc);
    text.extend_from_slice(b", line ")?;
    text.extend_from_slice(buffer.format(line).as_bytes())?;
    text.extend_from_slice(b": ")?;
    text.extend_from_slice(shown)?;
    Ok(text)
}

/// Tells record number `number` of a file, counted from 1, which is no sample, by the number of its
/// line and by the file's text from there on, as far as that is known: where it stands and why it
/// is none, as lines for a person. It takes memory for the lines.
pub fn told_from(
    alloc: Global,
    file: &str,
    number: usize,
    line: usize,
    text: &[u8],
) -> Result<Vec<u8>, AllocError>
    ensures { IfOk result (λ front. TellsFrom text.now file.now number line front.items) }
{
    let mut front = Vec::new(alloc);
    let end = up_to_end(text);
    let place = line_text(alloc, line, front_of(&text[..end]))?;
    put_place(alloc, &mut front, file, number, &place)?;
    let through = text.len().min(end.saturating_add(1));
    let fault = record_fault(alloc, &text[..through], number)?;
    put_line(alloc, &mut front, fault.as_bytes())?;
    Ok(front)
}

/// Tells record number `number` of a file, counted from 1, which is no sample, by the file's text:
/// where it stands and why it is none, as lines for a person. Where the text has no such record,
/// its line is not told. It takes memory for the lines.
pub(crate) fn record_told(
    alloc: Global,
    file: &str,
    number: usize,
    samples: &[u8],
) -> Result<Vec<u8>, AllocError>
    ensures { IfOk result (λ front. TellsPlace samples.now file.now number front.items) }
{
    let Some(at) = start_of(samples, number) else {
        let mut front = Vec::new(alloc);
        put_place(alloc, &mut front, file, number, b"")?;
        return Ok(front);
    };
    let line = line_at(samples, at);
    told_from(alloc, file, number, line, &samples[at..])
}

/// Puts what a sample is behind a text.
fn put_wanted(more: &mut Vec<u8>) -> Result<(), AllocError>
    ensures { OnOk result (more.new.items ≡ more.old.items ++ record_wanted) }
{
    more.extend_from_slice(
        b"  expected: one whole number, from -9223372036854775807 to 9223372036854775807\n",
    )
}

/// Explains that a record is no sample, as lines for a person: where it stands and why it is none,
/// as it was told, and what a sample is. Where memory ran out over that, or does now, it fails.
pub(crate) fn record_explained(alloc: Global, told: &Option<Vec<u8>>) -> Result<Vec<u8>, AllocError>
    ensures { IfOk result (λ more. TellsRecord told.now more.items) }
{
    let Some(front) = told else {
        return Err(AllocError);
    };
    let mut more = Vec::from_slice(alloc, front.as_slice())?;
    put_wanted(&mut more)?;
    Ok(more)
}
