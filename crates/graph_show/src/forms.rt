//! The forms of a graph's lines, as a person is told them.
ghost use Rattle.std.specs.Prelude.{◌≡◌, ◌++◌, IfOk, OnOk};
ghost use Rattle.graph_show.specs.Forms.{ends_form, fir_form, first_word, form_line, form_of, form_told, task_ends, third_form};

use crate::parts::put;
use graph_lang::FaultKind;
use graph_text::{Version, words_of};
use std::alloc::{AllocError, Global};

/// The form of a filter's line, without its ends.
fn fir_form(version: Version) -> &'static str
    ensures { result.now ≡ fir_form version }
{
    match version {
        Version::One | Version::Two => "fir NAME X -> Y shift S taps T1 T2 ..",
        Version::Three => {
            "fir NAME X -> Y [of D] shift S [plus C] taps T1 T2 .. [again A1 A2 ..] [single FN]"
        }
    }
}

/// The form of the lines that begin with this word in the third version alone, without their ends,
/// or an empty text.
fn third_form(word: &[u8]) -> &'static str
    ensures { result.now ≡ third_form word.now }
{
    if word == b"delay".as_slice() {
        return "delay NAME X -> Y of D";
    }
    if word == b"decimate".as_slice() {
        return "decimate NAME X -> Y every V [until M]";
    }
    ""
}

/// The form of the lines of a text of this version that begin with this word, without the ends that
/// go by the version, or an empty text where no line does.
fn form_of(version: Version, word: &[u8]) -> &'static str
    ensures { result.now ≡ form_of version word.now }
{
    if word == b"phaser".as_slice() {
        return "phaser NAME OP BOUND [single FN]";
    }
    if word == b"source".as_slice() {
        return "source NAME FILE -> Y";
    }
    if word == b"fir".as_slice() {
        return fir_form(version);
    }
    if word == b"split".as_slice() {
        return "split NAME X -> Y0 Y1 .. [until M]";
    }
    if word == b"join".as_slice() {
        return "join NAME X0 X1 .. -> Y [until M]";
    }
    if word == b"peer".as_slice() {
        return "peer NAME X <-> E -> Y mul A [until M]";
    }
    if word == b"sink".as_slice() {
        return "sink NAME X";
    }
    match version {
        Version::Three => third_form(word),
        Version::One | Version::Two => "",
    }
}

/// The ends of a line of a text of this version: those of a sink, or of another task.
fn task_ends(version: Version, is_sink: bool) -> &'static str
    ensures { result.now ≡ task_ends version is_sink }
{
    match version {
        Version::One => " [by P at N] [until M]",
        Version::Two | Version::Three if is_sink => " [by P at N [now]] [until M] [block=B]",
        Version::Two | Version::Three => " [by P at N] [until M] [block=B]",
    }
}

/// The ends of such a line, where it may have a parent, or an empty text.
fn ends_form(version: Version, word: &[u8]) -> &'static str
    ensures { result.now ≡ ends_form version word.now }
{
    if word == b"source".as_slice() || word == b"fir".as_slice() || word == b"delay".as_slice() {
        return task_ends(version, false);
    }
    if word == b"sink".as_slice() {
        return task_ends(version, true);
    }
    ""
}

/// The first word of a line, or an empty one.
fn first_word(alloc: Global, line: &[u8]) -> Result<&[u8], AllocError>
    ensures { IfOk result (λ word. word.now ≡ first_word line.now) }
{
    let words = words_of(alloc, line)?;
    match words.get(0) {
        Some(word) => Ok(*word),
        None => Ok(b"".as_slice()),
    }
}

/// Puts a form and its ends, as a line for a person, behind a text; nothing where it is empty.
fn put_line(text: &mut Vec<u8>, form: &str, ends: &str) -> Result<(), AllocError>
    ensures { OnOk result
        (text.new.items ≡ text.old.items ++ form_line form.now ends.now) }
{
    if form.is_empty() {
        return Ok(());
    }
    put(text, ["  form: ", form, ends, "\n"].as_slice())
}

/// Puts the form of a line in a text of this version behind what is told of it, where it has a
/// fault of this kind.
pub(crate) fn put_form(
    alloc: Global,
    text: &mut Vec<u8>,
    line: &[u8],
    kind: FaultKind,
    version: Version,
) -> Result<(), AllocError>
    ensures { OnOk result (text.new.items ≡ text.old.items ++ form_told version kind line.now) }
{
    if !matches!(kind, FaultKind::Syntax) {
        return Ok(());
    }
    let word = first_word(alloc, line)?;
    put_line(text, form_of(version, word), ends_form(version, word))
}
