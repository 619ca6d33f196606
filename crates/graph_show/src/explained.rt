//! The explanation of a graph's fault.
ghost use Rattle.std.specs.Prelude.{◌≡◌, ◌≤◌, length, map, take, replicate, IfOk};
ghost use Rattle.std.specs.List.{flat_map};
ghost use Rattle.graph_show.specs.Explanations.{ExplainsFault, ExplainsKind, Marks, blank_under, marked_text, shown};

use crate::above::Above;
use crate::below::Below;
use crate::forms::put_form;
use crate::grammar::Reading;
use crate::mark::{Mark, mark_of};
use crate::meeting_place::MeetingPlace;
use crate::parts::put;
use crate::version::version_of;
use graph_lang::{FaultKind, GraphFault};
use graph_text::{Version, are_printable, lines_of, without_cr, words_of};
use itoa::Buffer;
use std::alloc::{AllocError, Global};

/// A byte as it is shown.
fn shown(b: u8) -> u8
    ensures { result ≡ shown b }
{
    let is_printable = b == b' ' || b == b'\t' || (33 <= b && b <= 126);
    if is_printable { b } else { b'?' }
}

/// A line as it is shown.
fn shown_line(alloc: Global, line: &[u8]) -> Result<Vec<u8>, AllocError>
    ensures { IfOk result (λ text. text.items ≡ map shown line.now) }
{
    line.iter().map(|b| shown(*b)).collect(alloc)
}

/// What stands under the bytes before a mark.
fn blanks_under(alloc: Global, line: &[u8]) -> Result<Vec<u8>, AllocError>
    ensures { IfOk result (λ text. text.items ≡ map blank_under line.now) }
{
    line.iter()
        .map(|b| if *b == b'\t' { b'\t' } else { b' ' })
        .collect(alloc)
}

/// The parts, one behind the other.
fn joined(alloc: Global, parts: &[&[u8]]) -> Result<Vec<u8>, AllocError>
    ensures { IfOk result (λ text. text.items ≡ flat_map (λ part. part.now) parts.now) }
{
    let mut text = Vec::new(alloc);
    for part in parts {
        text.extend_from_slice(*part)?;
    }
    Ok(text)
}

/// A line, under it as many marks from a place on, and what was expected there.
fn marked(
    alloc: Global,
    line: &[u8],
    start: usize,
    count: usize,
    wanted: &[u8],
) -> Result<Vec<u8>, AllocError>
    requires { start ≤ length line.now }
    ensures { IfOk result (λ text. text.items ≡ marked_text line.now start count wanted.now) }
{
    let shown = shown_line(alloc, line)?;
    let blanks = blanks_under(alloc, &line[..start])?;
    let marks = vec![in alloc; b'^'; count]?;
    let parts: [&[u8]; 8] = [
        b"  ",
        &shown,
        b"\n  ",
        &blanks,
        &marks,
        b"\n  expected: ",
        wanted,
        b"\n",
    ];
    joined(alloc, parts.as_slice())
}

/// Where word number `k` of a line begins, or the line's end where it has no such word.
fn start_of(line: &[u8], k: usize) -> usize
    ensures { result ≤ length line.now }
{
    let mut words = 0usize;
    let mut is_within = false;
    for at in 0..line.len() {
        let is_blank = line[at] == b' ' || line[at] == b'\t';
        if !is_blank && !is_within {
            if words == k {
                return at;
            }
            words = words.saturating_add(1);
        }
        is_within = !is_blank;
    }
    line.len()
}

/// Where a line has its first byte that no line may have, or its end.
fn bad_byte_of(line: &[u8]) -> usize
    ensures { result ≤ length line.now }
{
    for at in 0..line.len() {
        if !are_printable(&[line[at]]) {
            return at;
        }
    }
    line.len()
}

/// The longest line whose words nobody has to count, in bytes.
const SHORT_MAX: usize = 100;

/// What was expected at a mark, and the number of its word, counted from 1, where the line is long.
fn wanted_at(alloc: Global, line: &[u8], mark: Mark<'_>) -> Result<Vec<u8>, AllocError> {
    let mut wanted = mark.wanted.told(alloc)?;
    if line.len() > SHORT_MAX {
        let mut buffer = Buffer::new();
        let number = buffer.format(mark.word.saturating_add(1));
        put(&mut wanted, [" (word ", number, ")"].as_slice())?;
    }
    Ok(wanted)
}

/// What was expected in place of the character that begins with these bytes, the first of which no
/// line may have.
fn bytes_wanted(rest: &[u8]) -> &'static [u8] {
    match rest {
        [0xE2, 0x86, 0x92, ..] => b"the two characters `->` in place of one arrow",
        [0xE2, 0x86, 0x94, ..] => b"the three characters `<->` in place of one arrow",
        [0xE2, 0x88, 0x92, ..] | [0xE2, 0x80, 0x93, ..] => b"`-` in place of a longer stroke",
        [0xC2, 0xA0, ..] => b"a space in place of one at which no line breaks",
        [0xEF, 0xBB, 0xBF, ..] => b"no byte order mark",
        [0xFF, 0xFE, ..] | [0xFE, 0xFF, ..] => b"a text of one byte a character: this is UTF-16",
        _ => b"bytes from 33 to 126, spaces and tabs alone",
    }
}

/// Marks what is at fault in a line, by the lines above it and those below, and by where tasks
/// meet.
fn line_marked<'a>(
    alloc: Global,
    above: &[&'a [u8]],
    below: &Below<'_, 'a>,
    line: &'a [u8],
    kind: FaultKind,
    meeting: Option<MeetingPlace<'a>>,
) -> Result<Vec<u8>, AllocError>
    ensures { IfOk result (λ text. Marks line.now text.items) }
{
    if !are_printable(line) {
        let at = bad_byte_of(line);
        return marked(alloc, line, at, 1, bytes_wanted(&line[at..]));
    }
    let words = words_of(alloc, line)?;
    let above = Above::of(alloc, above)?;
    let reading = Reading::of(alloc, &words, above.known)?;
    let mark = mark_of(alloc, kind, &reading, &above, below, meeting)?;
    let count = match words.get(mark.word) {
        Some(word) => word.len(),
        None => 1,
    };
    let wanted = wanted_at(alloc, line, mark)?;
    marked(alloc, line, start_of(line, mark.word), count, &wanted)
}

/// Explains a fault of a line, as `line_marked` marks it, and tells the form of such a line in a
/// text of this version where that one is not in the grammar.
fn line_explained<'a>(
    alloc: Global,
    above: &[&'a [u8]],
    below: &Below<'_, 'a>,
    line: &'a [u8],
    kind: FaultKind,
    meeting: Option<MeetingPlace<'a>>,
    version: Version,
) -> Result<Vec<u8>, AllocError>
    ensures { IfOk result (λ text. ExplainsKind version kind line.now text.items) }
{
    let mut text = line_marked(alloc, above, below, line, kind, meeting)?;
    put_form(alloc, &mut text, line, kind, version)?;
    Ok(text)
}

/// Explains the first fault of a graph's text: gives the faulty line, a mark under the word that is
/// at fault, and what was expected there, a line each; and where the line is not in the grammar,
/// the form of a line that begins as it does, in a text of that version. Where the text has no line
/// of that number, it gives nothing. It takes memory.
///
/// Where tasks meet on a phaser with `any`, the text alone does not tell on which of several
/// outputs; `meeting` tells where, if it is known. Else the task is marked.
///
/// ```text
///   fir f X -> Q shift 0 taps 1
///              ^
///   expected: a phaser that a line above declares
/// ```
pub fn explanation(
    alloc: Global,
    text: &[u8],
    fault: GraphFault,
    meeting: Option<MeetingPlace<'_>>,
) -> Result<Vec<u8>, AllocError>
    ensures { IfOk result (λ more. ExplainsFault text.now fault more.items) }
{
    let lines = lines_of(alloc, text)?;
    if fault.line == 0 || fault.line > lines.len() as u64 {
        return Ok(Vec::new(alloc));
    }
    let index = (fault.line - 1) as usize;
    let below = Below {
        lines: &lines,
        first: index.saturating_add(1),
    };
    line_explained(
        alloc,
        &lines[..index],
        &below,
        without_cr(lines[index]),
        fault.kind,
        meeting,
        version_of(alloc, &lines)?,
    )
}
