//! What the nodes of a drawing say below their names.
ghost use Rattle.std.specs.Prelude.{◌≡◌, ◌++◌, ◌<◌, length, Some, None, OnOk};
ghost use Rattle.std.specs.List.{flat_map};
ghost use Rattle.graph_base.specs.Graphs.{task_at};
ghost use Rattle.graph_show.specs.Drawings.{again_note, age_note, are_copy, block_note, clamp_ends, clamp_note, every_note, file_note, filter_note, is_delay, kind_notes, more_note, note, now_note, peer_note, plus_note, quoted, single_note, tap_text, taps_note, until_note};

use crate::parts::put;
use graph_lang::{Graph, Kind};
use itoa::Buffer;
use phase_accum::Single;
use std::alloc::AllocError;
use stream_filters::Form;

/// Puts a clamp with its ends behind the text.
fn put_clamp_note(text: &mut Vec<u8>, low: i64, high: i64) -> Result<(), AllocError>
    ensures ok { OnOk result (text.new.items ≡ text.old.items ++ clamp_note low high) }
{
    let mut first = Buffer::new();
    let mut last = Buffer::new();
    put(
        text,
        ["\\nclamp ", first.format(low), " ", last.format(high)].as_slice(),
    )
}

/// The ends of a clamp.
fn ends_of(single: &Single) -> Option<(i64, i64)>
    ensures { result ≡ clamp_ends single.now }
{
    if let Single::Clamp(range) = single {
        return Some((range.low(), range.high()));
    }
    None
}

/// Puts the single of a phaser or a filter behind the text.
pub(crate) fn put_single_note(text: &mut Vec<u8>, single: Option<Single>) -> Result<(), AllocError>
    ensures ok { OnOk result (text.new.items ≡ text.old.items ++ single_note single) }
{
    let Some(single) = single else {
        return Ok(());
    };
    if let Some((low, high)) = ends_of(&single) {
        return put_clamp_note(text, low, high);
    }
    put(text, ["\\n", word_of(single)].as_slice())
}

/// The word of a single that is no clamp.
fn word_of(single: Single) -> &'static str
    requires { clamp_ends single ≡ None }
    ensures { note result.now ≡ single_note (Some single) }
{
    if single == Single::Neg {
        return "neg";
    }
    if single == Single::Abs {
        "abs"
    } else {
        "halve"
    }
}

/// Puts a word as it stands within quotes behind the text.
fn put_quoted(text: &mut Vec<u8>, word: &[u8]) -> Result<(), AllocError>
    ensures ok { OnOk result (text.new.items ≡ text.old.items ++ flat_map quoted word.now) }
{
    for b in word {
        if *b == b'"' || *b == b'\\' {
            text.push(b'\\')?;
        }
        text.push(*b)?;
    }
    Ok(())
}

/// Puts the file of task number `t`, a source, behind the text.
fn put_file_note(text: &mut Vec<u8>, graph: &Graph, t: usize) -> Result<(), AllocError>
    requires task { t < length graph.now.tasks }
    requires source { (task_at graph.now t).kind ≡ Kind.Source }
    ensures ok { OnOk result (text.new.items ≡ text.old.items ++ file_note graph.now t) }
{
    put(text, ["\\n"].as_slice())?;
    put_quoted(text, graph.file(graph.source_number(t)).as_bytes())
}

/// Puts taps behind the text, each behind a space.
fn put_taps(text: &mut Vec<u8>, taps: &[i64]) -> Result<(), AllocError>
    ensures ok { OnOk result (text.new.items ≡ text.old.items ++ flat_map tap_text taps.now) }
{
    for tap in taps {
        let mut buffer = Buffer::new();
        put(text, [" ", buffer.format(*tap)].as_slice())?;
    }
    Ok(())
}

/// Whether these taps copy a sample.
fn are_copy(taps: &[i64]) -> bool
    ensures { result ≡ are_copy taps.now }
{
    match taps {
        [tap] => *tap == 1,
        _ => false,
    }
}

/// Whether a filter is told as a delay: it copies a sample that is not the newest, and does no
/// more.
pub(crate) fn is_delay(form: &Form, taps: &[i64]) -> bool
    ensures { result ≡ is_delay form.now taps.now }
{
    form.delay > 0
        && form.shift == 0
        && form.plus == 0
        && form.again == 0
        && form.single.is_none()
        && are_copy(taps)
}

/// Puts what a filter adds behind the text, where it adds something.
fn put_plus_note(text: &mut Vec<u8>, plus: i64) -> Result<(), AllocError>
    ensures ok { OnOk result (text.new.items ≡ text.old.items ++ plus_note plus) }
{
    if plus == 0 {
        return Ok(());
    }
    let mut buffer = Buffer::new();
    put(text, ["\\nplus ", buffer.format(plus)].as_slice())
}

/// Puts behind the text how many samples before the newest one a filter weighs, where there are
/// some.
fn put_age_note(text: &mut Vec<u8>, delay: usize) -> Result<(), AllocError>
    ensures ok { OnOk result (text.new.items ≡ text.old.items ++ age_note delay) }
{
    if delay == 0 {
        return Ok(());
    }
    let mut buffer = Buffer::new();
    put(text, ["\\nof ", buffer.format(delay)].as_slice())
}

/// Puts the shift of a filter, what it adds, and its taps for samples behind the text.
fn put_taps_note(text: &mut Vec<u8>, form: &Form, taps: &[i64]) -> Result<(), AllocError>
    ensures ok { OnOk result (text.new.items ≡ text.old.items ++ taps_note form.now taps.now) }
{
    let mut buffer = Buffer::new();
    put(text, ["\\nshift ", buffer.format(form.shift)].as_slice())?;
    put_plus_note(text, form.plus)?;
    put(text, ["\\ntaps"].as_slice())?;
    put_taps(text, taps)
}

/// Puts the taps of a filter for what it put behind the text, where there are some.
fn put_again_note(text: &mut Vec<u8>, taps: &[i64]) -> Result<(), AllocError>
    ensures ok { OnOk result (text.new.items ≡ text.old.items ++ again_note taps.now) }
{
    if taps.is_empty() {
        return Ok(());
    }
    put(text, ["\\nagain"].as_slice())?;
    put_taps(text, taps)
}

/// Puts behind the text what a filter does beside that, which of a delay is nothing.
fn put_more_note(text: &mut Vec<u8>, form: &Form, taps: &[i64]) -> Result<(), AllocError>
    ensures ok { OnOk result (text.new.items ≡ text.old.items ++ more_note form.now taps.now) }
{
    if is_delay(form, taps) {
        return Ok(());
    }
    let ahead = taps.len().saturating_sub(form.again);
    put_taps_note(text, form, &taps[..ahead])?;
    put_again_note(text, &taps[ahead..])?;
    put_single_note(text, form.single)
}

/// Puts what a filter does behind the text.
fn put_filter_note(text: &mut Vec<u8>, form: &Form, taps: &[i64]) -> Result<(), AllocError>
    ensures ok { OnOk result (text.new.items ≡ text.old.items ++ filter_note form.now taps.now) }
{
    put_age_note(text, form.delay)?;
    put_more_note(text, form, taps)
}

/// Puts of how many values a decimator puts one behind the text.
fn put_every_note(text: &mut Vec<u8>, every: u64) -> Result<(), AllocError>
    ensures ok { OnOk result (text.new.items ≡ text.old.items ++ every_note every) }
{
    let mut buffer = Buffer::new();
    put(text, ["\\nevery ", buffer.format(every)].as_slice())
}

/// Puts the factor of a peer behind the text.
fn put_peer_note(text: &mut Vec<u8>, factor: i64) -> Result<(), AllocError>
    ensures ok { OnOk result (text.new.items ≡ text.old.items ++ peer_note factor) }
{
    let mut buffer = Buffer::new();
    put(text, ["\\nmul ", buffer.format(factor)].as_slice())
}

/// Puts what is said of a task of its kind alone behind the text.
pub(crate) fn put_kind_notes(text: &mut Vec<u8>, graph: &Graph, t: usize) -> Result<(), AllocError>
    requires { t < length graph.now.tasks }
    ensures ok { OnOk result (text.new.items
        ≡ text.old.items ++ kind_notes graph.now t (task_at graph.now t).kind) }
{
    let task = graph.task(t);
    match task.kind {
        Kind::Source => put_file_note(text, graph, t),
        Kind::Fir => put_filter_note(text, &task.form, &task.taps),
        Kind::Decimate => put_every_note(text, task.every),
        Kind::Peer => put_peer_note(text, task.mul),
        Kind::Split | Kind::Join | Kind::Sink => Ok(()),
    }
}

/// Puts how many steps a task makes at most behind the text.
pub(crate) fn put_until_note(text: &mut Vec<u8>, until: Option<u64>) -> Result<(), AllocError>
    ensures ok { OnOk result (text.new.items ≡ text.old.items ++ until_note until) }
{
    let Some(steps) = until else {
        return Ok(());
    };
    let mut buffer = Buffer::new();
    put(text, ["\\nuntil ", buffer.format(steps)].as_slice())
}

/// Puts behind the text that a task joins now, where it does.
pub(crate) fn put_now_note(text: &mut Vec<u8>, joins_now: bool) -> Result<(), AllocError>
    ensures ok { OnOk result (text.new.items ≡ text.old.items ++ now_note joins_now) }
{
    if joins_now {
        return put(text, ["\\nnow"].as_slice());
    }
    Ok(())
}

/// Puts the steps of a block behind the text, where they are several.
pub(crate) fn put_block_note(text: &mut Vec<u8>, block: u64) -> Result<(), AllocError>
    ensures ok { OnOk result (text.new.items ≡ text.old.items ++ block_note block) }
{
    if block == 1 {
        return Ok(());
    }
    let mut buffer = Buffer::new();
    put(text, ["\\nblock ", buffer.format(block)].as_slice())
}
