//! What is said of a name that no sink has, and of a value that is out of range.
ghost use Rattle.graph_base.specs.Graphs.{IsPlace};

use crate::GRAPH_MAX;
use crate::members::signals;
use crate::records::front_of;
use graph_base::{Graph, Place};
use graph_text::{lines_of, without_cr, words_of};
use itoa::Buffer;
use std::alloc::{AllocError, Global};
use watched_io::Files;

/// Which sinks a graph has, as a text for a person.
pub(crate) fn sink_texts(alloc: Global, graph: &Graph) -> Result<Vec<Vec<u8>>, AllocError> {
    let mut names = Vec::new(alloc);
    for t in 0..graph.tasks() {
        if graph.is_sink(t) {
            names.extend_from_slice(b" ")?;
            names.extend_from_slice(graph.name(Place::Task(t)).as_bytes())?;
        }
    }
    let mut text = Vec::from_slice(alloc, b"sinks:")?;
    if names.is_empty() {
        text.extend_from_slice(b" none")?;
    }
    text.extend_from_slice(&names)?;
    let mut texts = Vec::new(alloc);
    texts.push(text)?;
    Ok(texts)
}

/// Whether these words declare the name.
fn declares(words: &[&[u8]], name: &[u8]) -> bool {
    match words {
        [kind, own, ..] => *own == name && !kind.starts_with(b"#"),
        _ => false,
    }
}

/// The line of a graph's text that declares a name, with its number, as a text for a person.
fn line_texts(alloc: Global, graph: &[u8], name: &[u8]) -> Result<Vec<Vec<u8>>, AllocError> {
    let mut texts = Vec::new(alloc);
    let lines = lines_of(alloc, graph)?;
    for index in 0..lines.len() {
        let line = without_cr(lines[index]);
        let words = words_of(alloc, line)?;
        if declares(&words, name) {
            let mut buffer = Buffer::new();
            let mut text = Vec::from_slice(alloc, b"line ")?;
            text.extend_from_slice(buffer.format(index.saturating_add(1)).as_bytes())?;
            text.extend_from_slice(b": ")?;
            text.extend_from_slice(front_of(line))?;
            texts.push(text)?;
            return Ok(texts);
        }
    }
    Ok(texts)
}

/// Which tasks signal phaser number `p`, as a text for a person.
fn signaller_text(alloc: Global, graph: &Graph, p: usize) -> Result<Vec<u8>, AllocError> {
    let mut text = Vec::from_slice(alloc, b"signalled by ")?;
    let mut is_first = true;
    for t in 0..graph.tasks() {
        let task = graph.task(t);
        if signals(task, p) {
            let mut buffer = Buffer::new();
            let between = if is_first { "" } else { "; " };
            text.extend_from_slice(between.as_bytes())?;
            text.extend_from_slice(graph.name(Place::Task(t)).as_bytes())?;
            text.extend_from_slice(b", line ")?;
            text.extend_from_slice(buffer.format(task.line).as_bytes())?;
            is_first = false;
        }
    }
    Ok(text)
}

/// Which line of a graph's file makes a value, and who signals it, as texts for a person: the line
/// is left out where the file is refused now.
pub(crate) fn value_texts<F: Files>(
    alloc: Global,
    file: &str,
    graph: &Graph,
    place: Place,
    files: &mut F,
) -> Result<Vec<Vec<u8>>, AllocError>
    requires { IsPlace graph.now place }
{
    let text = files
        .read(alloc, file, GRAPH_MAX)
        .unwrap_or(Vec::new(alloc));
    let mut texts = line_texts(alloc, &text, graph.name(place).as_bytes())?;
    if let Place::Phaser(p) = place {
        texts.push(signaller_text(alloc, graph, p)?)?;
    }
    Ok(texts)
}
