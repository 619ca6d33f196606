//! Phasers whose members give and take at different rates, which no bound is enough for.
//!
//! A stream begins where a source signals, and where others meet that no task brings together
//! before. A task with `until` makes no stream of every length: it has no rate, and nor has what
//! comes of it.

use crate::members::{signals, takes};
use crate::rate::Rate;
use graph_base::{Graph, Kind, Place, TaskLine};
use itoa::Buffer;
use std::alloc::{AllocError, Global};

/// A task that signals a phaser or takes from it, and the rate at which it does.
#[derive(Drop)]
struct Member<'a> {
    name: &'a str,
    takes: bool,
    rate: Rate,
}

/// The rate of phaser number `p`, where it is known.
fn known(rates: &[Option<Rate>], p: usize) -> Option<Rate> {
    match rates.get(p) {
        Some(rate) => *rate,
        None => None,
    }
}

/// The lesser of two rates of one stream. Of two streams it is that of a stream that begins anew.
fn lesser(least: Option<Rate>, rate: Rate, anew: usize) -> Rate {
    match least {
        None => rate,
        Some(other) if other.stream != rate.stream => Rate::of_stream(anew),
        Some(other) if other.is_below(rate) => other,
        Some(_) => rate,
    }
}

/// The least rate of a task's inputs, each times a number and over another.
fn least_input(
    task: &TaskLine,
    rates: &[Option<Rate>],
    times: usize,
    over: usize,
    anew: usize,
) -> Option<Rate> {
    let mut least = None;
    for p in task.inputs.as_slice() {
        let rate = known(rates, *p)?.scaled(times, over)?;
        least = Some(lesser(least, rate, anew));
    }
    least
}

/// The rate at which a task takes from each of its inputs, of a stream of this number where they
/// are of several.
fn taken(task: &TaskLine, rates: &[Option<Rate>], anew: usize) -> Option<Rate> {
    if task.until.is_some() {
        return None;
    }
    least_input(task, rates, 1, 1, anew)
}

/// The rate at which a task signals phaser number `p`, which it does. Where its inputs are of
/// several streams, one begins there anew.
fn given(task: &TaskLine, rates: &[Option<Rate>], p: usize) -> Option<Rate> {
    if task.until.is_some() {
        return None;
    }
    match task.kind {
        Kind::Source => Some(Rate::of_stream(p)),
        Kind::Split => least_input(task, rates, 1, task.outputs.len(), p),
        Kind::Decimate => least_input(task, rates, 1, task.every as usize, p),
        Kind::Join => least_input(task, rates, task.inputs.len(), 1, p),
        Kind::Peer if takes(task, p) => known(rates, *task.inputs.first()?),
        Kind::Fir | Kind::Peer | Kind::Sink => least_input(task, rates, 1, 1, p),
    }
}

/// The rate of phaser number `p`, by those of the phasers above it: the least at which a task
/// signals it.
fn rate_of(graph: &Graph, above: &[Option<Rate>], p: usize) -> Option<Rate> {
    let mut least = None;
    for t in 0..graph.tasks() {
        let task = graph.task(t);
        if signals(task, p) {
            least = Some(lesser(least, given(task, above, p)?, p));
        }
    }
    least
}

/// The rate of each phaser.
fn all_rates(alloc: Global, graph: &Graph) -> Result<Vec<Option<Rate>>, AllocError> {
    let mut rates = Vec::with_capacity(alloc, graph.phasers())?;
    for p in 0..graph.phasers() {
        let rate = rate_of(graph, rates.as_slice(), p);
        rates.push(rate)?;
    }
    Ok(rates)
}

/// Puts a member behind others, where its rate is one of the stream.
fn put_member<'a>(
    members: &mut Vec<Member<'a>>,
    name: &'a str,
    takes: bool,
    rate: Option<Rate>,
    stream: usize,
) -> Result<(), AllocError> {
    if let Some(rate) = rate {
        if rate.stream == stream {
            members.push(Member { name, takes, rate })?;
        }
    }
    Ok(())
}

/// Which tasks signal phaser number `p` and take from it at a rate of the phaser's stream.
fn members_of<'a>(
    alloc: Global,
    graph: &'a Graph,
    rates: &[Option<Rate>],
    p: usize,
    stream: usize,
) -> Result<Vec<Member<'a>>, AllocError> {
    let mut members = Vec::new(alloc);
    for t in 0..graph.tasks() {
        let task = graph.task(t);
        let name = graph.name(Place::Task(t));
        if signals(task, p) {
            let rate = given(task, rates, p);
            put_member(&mut members, name, false, rate, stream)?;
        }
        if takes(task, p) {
            let rate = taken(task, rates, graph.phasers());
            put_member(&mut members, name, true, rate, stream)?;
        }
    }
    Ok(members)
}

/// Whether two members have different rates, and one takes: where none does, nobody waits.
fn differ(members: &[Member<'_>]) -> bool {
    let Some(first) = members.first() else {
        return false;
    };
    members.iter().any(|member| member.takes)
        && members.iter().any(|member| member.rate != first.rate)
}

/// Puts a rate behind a text.
fn put_rate(text: &mut Vec<u8>, rate: Rate) -> Result<(), AllocError> {
    let mut buffer = Buffer::new();
    text.extend_from_slice(buffer.format(rate.values).as_bytes())?;
    if rate.per != 1 {
        let mut buffer = Buffer::new();
        text.extend_from_slice(b"/")?;
        text.extend_from_slice(buffer.format(rate.per).as_bytes())?;
    }
    Ok(())
}

/// What is said of a phaser whose members have different rates.
fn rates_text(alloc: Global, phaser: &str, members: &[Member<'_>]) -> Result<Vec<u8>, AllocError> {
    let mut text = Vec::from_slice(alloc, phaser.as_bytes())?;
    let mut between = ": ";
    for member in members {
        text.extend_from_slice(between.as_bytes())?;
        text.extend_from_slice(member.name.as_bytes())?;
        let does = if member.takes { " takes " } else { " gives " };
        text.extend_from_slice(does.as_bytes())?;
        put_rate(&mut text, member.rate)?;
        between = ", ";
    }
    text.extend_from_slice(b": no bound is enough for streams of every length")?;
    Ok(text)
}

/// Puts what is said of each phaser whose members have different rates behind other texts.
pub(crate) fn put_rates(
    alloc: Global,
    graph: &Graph,
    texts: &mut Vec<Vec<u8>>,
) -> Result<(), AllocError> {
    let rates = all_rates(alloc, graph)?;
    for p in 0..graph.phasers() {
        if let Some(rate) = known(&rates, p) {
            let members = members_of(alloc, graph, &rates, p, rate.stream)?;
            if differ(&members) {
                let name = graph.name(Place::Phaser(p));
                texts.push(rates_text(alloc, name, &members)?)?;
            }
        }
    }
    Ok(())
}
