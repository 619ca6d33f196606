//! Long texts, of which several threads read or write a part each.
ghost use Rattle.std.specs.Prelude.{◌≡◌, ◌≤◌, ◌<◌, ℕ, length, take, drop, IfSome, IfOk, IsTrue};
ghost use Rattle.std.specs.List.{All, flat_map};
ghost use denote.Param.Send.{IsSync};
ghost use Rattle.graph_lang.specs.PlainLines.{ArePlainLines};
ghost use Rattle.graph_commands.specs.OutputTexts.{value_text};
ghost use Rattle.graph_commands.specs.Puts.{bytes_of};
ghost use Rattle.phase_eval.specs.Texts.{IsReadPart, IsTextPart};

use crate::rounds::Round;
use graph_commands::{ValueTexts, write_values};
use graph_lang::{
    SampleFault, SampleTexts, parts_have_samples, plain_part, samples_of, samples_with,
};
use memchr::{memchr, memchr_iter};
use std::alloc::Global;
use std::thread::{self, Threads};
use watched_io::Watched;

/// The shortest part of a text that a thread reads, in bytes.
const BYTES_MIN: usize = 262_144;
/// How many bytes of a text each thread reads of a round: what they made stands twice until then.
const BYTES_ROUND: usize = 1_048_576;
/// The fewest values of which a thread makes the text.
pub(crate) const VALUES_MIN: usize = 32_768;

/// So many threads, at most, read and write a long text and make the list of a filter, a part each.
/// Where there is no memory for that, or no thread can be made, one thread does it.
#[derive(Drop)]
pub struct ByThreads<'a, H: Threads> {
    pub(crate) rt: &'a H,
    pub(crate) alloc: Global,
    pub(crate) threads: usize,
}

/// The samples of a part of a text whose lines are plain.
#[derive(Drop)]
struct ReadPart {
    from: usize,
    to: usize,
    values: Vec<i64>,
}

/// The text of the values from one place up to another.
#[derive(Drop)]
struct TextPart {
    from: usize,
    to: usize,
    text: Vec<u8>,
}

impl<'a, H: Threads + Sync> ByThreads<'a, H> {
    /// So many threads of this runtime.
    pub fn new(rt: &'a H, alloc: Global, threads: usize) -> ByThreads<'a, H> {
        ByThreads { rt, alloc, threads }
    }

    /// Into how many parts so much is cut, of which a part has `least` at least.
    pub(crate) fn parts(&self, size: usize, least: usize) -> usize
        requires { 0 < least }
    {
        (size / least).min(self.threads).min(16)
    }

    /// The samples of a text whose lines are all plain, or nothing where one is not, or memory was
    /// refused.
    fn read(&self, text: &[u8]) -> Option<Vec<i64>>
        ensures { IfSome result (λ values.
            ArePlainLines text.now 0 (length text.now) values.items) }
    {
        parts_have_samples();
        let Ok(mut values) = Vec::with_capacity(self.alloc, lines_in(text)) else {
            return None;
        };
        let size = self.threads.clamp(1, 16) * BYTES_ROUND;
        let mut from = 0;
        while from < text.len() {
            let to = line_end(text, from + size.min(text.len() - from));
            let parts = self.parts(to - from, BYTES_MIN).max(1);
            let round = Round { from, to, parts };
            if !self.read_round(text, round, &mut values) {
                return None;
            }
            from = to;
        }
        Some(values)
    }

    /// Puts the samples of the lines of a round behind those before it, and answers whether all of
    /// its lines are plain, and there was memory.
    fn read_round(&self, text: &[u8], round: Round, values: &mut Vec<i64>) -> bool
        requires order { round.from ≤ round.to }
        requires within { round.to ≤ length text.now }
        requires before { ArePlainLines text.now 0 round.from values.old.items }
        ensures { IsTrue result → ArePlainLines text.now 0 round.to values.new.items }
    {
        let alloc = self.alloc;
        let read = |k: usize| read_part(alloc, text, round, k);
        match thread::map_indices(self.rt, alloc, round.parts, &read) {
            Ok(parts) => join(text, round, parts, values),
            Err(_) => false,
        }
    }

    /// The text of values, in parts that follow one another.
    fn write(&self, values: &[i64], count: usize) -> Option<Vec<Vec<u8>>>
        ensures { IfSome result (λ parts.
            flat_map bytes_of parts.items ≡ flat_map value_text values.now) }
    {
        let alloc = self.alloc;
        let write = |k: usize| text_part(alloc, values, count, k);
        match thread::map_indices(self.rt, alloc, count, &write) {
            Ok(parts) => in_order(alloc, values, parts),
            Err(_) => None,
        }
    }
}

impl<H: Threads + Sync> SampleTexts for ByThreads<'_, H> {
    ghost may_read = { λ _. IsSync H.row };

    fn samples(&self, alloc: Global, text: &[u8]) -> Result<Vec<i64>, SampleFault> {
        if self.parts(text.len(), BYTES_MIN) > 1 {
            if let Some(values) = self.read(text) {
                return samples_with(alloc, text, Some(values));
            }
        }
        samples_of(alloc, text)
    }
}

impl<H: Threads + Sync> ValueTexts for ByThreads<'_, H> {
    ghost may_write = { λ _. IsSync H.row };

    fn text(&self, values: &[i64]) -> Option<Vec<Vec<u8>>> {
        let count = self.parts(values.len(), VALUES_MIN);
        if count > 1 {
            return self.write(values, count);
        }
        None
    }
}

/// How many lines a text has at the most.
fn lines_in(text: &[u8]) -> usize {
    memchr_iter(b'\n', text).count().saturating_add(1)
}

/// Behind the first line end from a place on, or the end of the text.
fn line_end(text: &[u8], at: usize) -> usize
    requires { at ≤ length text.now }
    ensures behind { at ≤ result }
    ensures within { result ≤ length text.now }
{
    match memchr(b'\n', &text[at..]) {
        Some(end) => at + end + 1,
        None => text.len(),
    }
}

/// Where part `k` of a round begins: at its first place, or behind a line end, or at its end.
fn cut(text: &[u8], round: Round, k: usize) -> usize
    requires order { round.from ≤ round.to }
    requires within { round.to ≤ length text.now }
    ensures { result ≤ round.to }
{
    if k == 0 {
        return round.from;
    }
    line_end(text, round.begin(k)).min(round.to)
}

/// Reads part `k` of a round, whose lines are plain; or nothing where one is not, or memory was
/// refused.
fn read_part(alloc: Global, text: &[u8], round: Round, k: usize) -> Option<ReadPart>
    requires order { round.from ≤ round.to }
    requires within { round.to ≤ length text.now }
    ensures { IfSome result (IsReadPart text.now) }
{
    let from = cut(text, round, k);
    let to = cut(text, round, k.saturating_add(1));
    if from > to {
        return None;
    }
    match plain_part(alloc, text, from, to) {
        Ok(Some(values)) => Some(ReadPart { from, to, values }),
        _ => None,
    }
}

/// Puts the samples of parts behind those before, where they follow one another and are the whole
/// round, and answers whether they do, and there was memory. Each part's memory is given back as
/// soon as its samples stand there.
fn join(text: &[u8], round: Round, parts: Vec<Option<ReadPart>>, values: &mut Vec<i64>) -> bool
    requires parts { All (λ part. IfSome part (IsReadPart text.now)) parts.items }
    requires before { ArePlainLines text.now 0 round.from values.old.items }
    ensures { IsTrue result → ArePlainLines text.now 0 round.to values.new.items }
{
    parts_have_samples();
    let mut at = round.from;
    for part in parts {
        let Some(part) = part else {
            return false;
        };
        if part.from != at || values.extend_from_slice(&part.values).is_err() {
            return false;
        }
        at = part.to;
    }
    at == round.to
}

/// The text of part `k` of so many, or nothing where memory was refused.
fn text_part(alloc: Global, values: &[i64], count: usize, k: usize) -> Option<TextPart>
    requires { k < count }
    ensures { IfSome result (IsTextPart values.now) }
{
    let size = values.len() / count;
    let from = size * k;
    let to = if k + 1 == count {
        values.len()
    } else {
        from + size
    };
    let mut text = Watched::new(Vec::new(alloc));
    match write_values(&mut text, &values[from..to]) {
        Ok(()) => Some(TextPart {
            from,
            to,
            text: text.into_inner(),
        }),
        Err(_) => None,
    }
}

/// The texts of parts that follow one another and are all values.
fn in_order(alloc: Global, values: &[i64], parts: Vec<Option<TextPart>>) -> Option<Vec<Vec<u8>>>
    requires { All (λ part. IfSome part (IsTextPart values.now)) parts.items }
    ensures { IfSome result (λ texts.
        flat_map bytes_of texts.items ≡ flat_map value_text values.now) }
{
    let mut texts = Vec::new(alloc);
    let mut at = 0;
    for part in parts {
        let Some(part) = part else {
            return None;
        };
        if part.from != at || texts.push(part.text).is_err() {
            return None;
        }
        at = part.to;
    }
    if at == values.len() {
        Some(texts)
    } else {
        None
    }
}
