//! What a task's line says behind its name: what the task does, and on which phasers.
ghost use Rattle.std.specs.Prelude.{◌≡◌, ◌++◌, ◌==◌, nat_lt, IsTrue, IfOk, IfSome, is_some, map};
ghost use Rattle.std.specs.Str.{bytes_eq};
ghost use Rattle.std.specs.List.{list_all, list_any};
ghost use Rattle.graph_text.specs.Plain.{plain};
ghost use Rattle.phase_base.specs.Words.{is_name};
ghost use Rattle.graph_text.specs.Lines.{body_of};
ghost use Rattle.graph_base.specs.Names.{names_of, phaser_named};
ghost use Rattle.graph_lang.specs.WordValues.{inputs_of, outputs_of, phaser_numbers, kind_of_body};
ghost use Rattle.graph_lang.specs.Faults.{are_distinct, is_phaser, is_number_in, phasers_of, is_exchange_below};

use crate::draft::phaser_named;
use graph_base::{Kind, Place};
use graph_text::{Body, name_text};
use indexmap::IndexMap;
use std::alloc::{AllocError, Global};

/// What a task does.
pub(crate) fn kind_of(body: Body<'_, '_>) -> Kind
    ensures { result ≡ kind_of_body (body_of body.entry) }
{
    match body {
        Body::Source(..) => Kind::Source,
        Body::Fir(..) | Body::Delay(..) => Kind::Fir,
        Body::Split(..) => Kind::Split,
        Body::Decimate(..) => Kind::Decimate,
        Body::Join(..) => Kind::Join,
        Body::Peer(..) => Kind::Peer,
        Body::Sink(..) => Kind::Sink,
    }
}

/// The words of the phasers that a task waits for.
pub(crate) fn input_words<'a>(
    alloc: Global,
    body: Body<'_, 'a>,
) -> Result<Vec<&'a [u8]>, AllocError>
    ensures { IfOk result (λ words. plain words.items ≡ inputs_of (body_of body.entry)) }
{
    match body {
        Body::Source(..) => Ok(Vec::new(alloc)),
        Body::Fir(input, ..) | Body::Delay(input, ..) => Vec::from_slice(alloc, &[input]),
        Body::Decimate(input, ..) => Vec::from_slice(alloc, &[input]),
        Body::Split(input, _) => Vec::from_slice(alloc, &[input]),
        Body::Join(inputs, _) => Vec::from_slice(alloc, inputs),
        Body::Peer(input, exchange, ..) => Vec::from_slice(alloc, &[input, exchange]),
        Body::Sink(input) => Vec::from_slice(alloc, &[input]),
    }
}

/// The words of the phasers that a task signals.
pub(crate) fn output_words<'a>(
    alloc: Global,
    body: Body<'_, 'a>,
) -> Result<Vec<&'a [u8]>, AllocError>
    ensures { IfOk result (λ words. plain words.items ≡ outputs_of (body_of body.entry)) }
{
    match body {
        Body::Source(_, output) => Vec::from_slice(alloc, &[output]),
        Body::Fir(_, output, ..) | Body::Delay(_, output, _) => {
            Vec::from_slice(alloc, &[output])
        }
        Body::Decimate(_, output, _) => Vec::from_slice(alloc, &[output]),
        Body::Split(_, outputs) => Vec::from_slice(alloc, outputs),
        Body::Join(_, output) => Vec::from_slice(alloc, &[output]),
        Body::Peer(_, _, output, _) => Vec::from_slice(alloc, &[output]),
        Body::Sink(_) => Ok(Vec::new(alloc)),
    }
}

/// The words of all phasers of a task's line.
pub(crate) fn phaser_words<'a>(
    alloc: Global,
    body: Body<'_, 'a>,
) -> Result<Vec<&'a [u8]>, AllocError>
    ensures { IfOk result (λ words. plain words.items ≡ phasers_of (body_of body.entry)) }
{
    let mut words = input_words(alloc, body)?;
    let outputs = output_words(alloc, body)?;
    words.extend_from_slice(&outputs)?;
    Ok(words)
}

/// Whether the word is one of these.
fn contains(words: &[&[u8]], word: &[u8]) -> bool
    ensures { result ≡ list_any (bytes_eq word.now) (plain words.now) }
{
    for other in words {
        if word == *other {
            return true;
        }
    }
    false
}

/// Whether no word stands twice.
pub(crate) fn are_distinct(words: &[&[u8]]) -> bool
    ensures { result ≡ are_distinct (plain words.now) }
{
    for i in 0..words.len() {
        if contains(&words[i + 1..], words[i]) {
            return false;
        }
    }
    true
}

/// The number of the phaser of that name.
fn number_of(names: &IndexMap<String, Place>, word: &[u8]) -> Option<usize>
    requires { IsTrue (is_name word.now) }
    ensures { result ≡ phaser_named (names_of names.now.entries) word.now }
{
    phaser_named(names, name_text(word))
}

/// The numbers of the phasers of these names, where each is the name of one.
fn numbers_of(
    alloc: Global,
    names: &IndexMap<String, Place>,
    words: &[&[u8]],
) -> Result<Option<Vec<usize>>, AllocError>
    requires { IsTrue (list_all is_name (plain words.now)) }
    ensures known { IfOk result (λ found. is_some found
        ≡ list_all (is_phaser (names_of names.now.entries)) (plain words.now)) }
    ensures numbers { IfOk result (λ found. IfSome found (λ numbers.
        numbers.items ≡ phaser_numbers (names_of names.now.entries) (plain words.now))) }
{
    let mut numbers = Vec::new(alloc);
    for word in words {
        let Some(number) = number_of(names, word) else {
            return Ok(None);
        };
        numbers.push(number)?;
    }
    Ok(Some(numbers))
}

/// The numbers of the phasers that a task waits for, where each word is the name of one.
pub(crate) fn input_numbers(
    alloc: Global,
    names: &IndexMap<String, Place>,
    body: Body<'_, '_>,
) -> Result<Option<Vec<usize>>, AllocError>
    requires { IsTrue (list_all is_name (inputs_of (body_of body))) }
    ensures known { IfOk result (λ found. is_some found
        ≡ list_all (is_phaser (names_of names.now.entries)) (inputs_of (body_of body.entry))) }
    ensures numbers { IfOk result (λ found. IfSome found (λ numbers.
        numbers.items
        ≡ phaser_numbers (names_of names.now.entries) (inputs_of (body_of body.entry)))) }
{
    let words = input_words(alloc, body)?;
    numbers_of(alloc, names, &words)
}

/// The numbers of the phasers that a task signals, where each word is the name of one.
pub(crate) fn output_numbers(
    alloc: Global,
    names: &IndexMap<String, Place>,
    body: Body<'_, '_>,
) -> Result<Option<Vec<usize>>, AllocError>
    requires { IsTrue (list_all is_name (outputs_of (body_of body))) }
    ensures known { IfOk result (λ found. is_some found
        ≡ list_all (is_phaser (names_of names.now.entries)) (outputs_of (body_of body.entry))) }
    ensures numbers { IfOk result (λ found. IfSome found (λ numbers.
        numbers.items
        ≡ phaser_numbers (names_of names.now.entries) (outputs_of (body_of body.entry)))) }
{
    let words = output_words(alloc, body)?;
    numbers_of(alloc, names, &words)
}

/// Whether each of these numbers is above `x`.
fn are_above(x: usize, ys: &[usize]) -> bool
    ensures { result ≡ list_all (nat_lt x) ys.now }
{
    ys.iter().all(|y| x < *y)
}

/// Whether each output stands below each input.
pub(crate) fn are_in_order(inputs: &[usize], outputs: &[usize]) -> bool
    ensures { result ≡ list_all (λ x. list_all (nat_lt x) outputs.now) inputs.now }
{
    inputs.iter().all(|x| are_above(*x, outputs))
}

/// Whether the phaser of a peer's exchange stands below its input.
pub(crate) fn is_exchange_below(kind: Kind, inputs: &[usize]) -> bool
    ensures { result ≡ is_exchange_below kind inputs.now }
{
    match (kind, inputs) {
        (Kind::Peer, [x, e, ..]) => *x < *e,
        (Kind::Peer, _) => false,
        _ => true,
    }
}

/// Whether the number is one of these.
fn is_among(qs: &[usize], p: usize) -> bool
    ensures { result ≡ is_number_in qs.now p }
{
    qs.iter().any(|q| *q == p)
}

/// Whether each number is one of those.
pub(crate) fn are_among(ps: &[usize], qs: &[usize]) -> bool
    ensures { result ≡ list_all (is_number_in qs.now) ps.now }
{
    ps.iter().all(|p| is_among(qs, *p))
}
