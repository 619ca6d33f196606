//! The numbers of a line, where they are within their limits.
ghost use Rattle.std.specs.Prelude.{◌≡◌, ◌&&◌, [], ◌∷◌, ◌++◌, IsTrue, IfSome, IfOk, length, map, if◌then◌else◌, Some, None, is_some, option_map, true, nat_le, unsigned_abs, pos};
ghost use Rattle.std.specs.Option.{option_map_or};
ghost use Rattle.std.specs.Int.Signed.{le_z};
ghost use Rattle.std.specs.List.{list_all};
ghost use Rattle.graph_text.specs.Plain.{plain};
ghost use Rattle.phase_base.specs.Numbers.{is_nat, is_int, nat_value, int_value};
ghost use Rattle.graph_text.specs.Decls.{IsFunction, IsFilter, IsBody, AreEnds, IsBy, may_have_parent};
ghost use Rattle.graph_text.specs.declared.version.Version.TheVariants.{Three};
ghost use Rattle.stream_filters.specs.Filter.{no_form};
ghost use Rattle.stream_filters.specs.declared.fir.TheConstants.{DELAY_MAX};
ghost use Rattle.graph_text.specs.Lines.{single_of as function_words, function_of, filter_of, body_of, ends_of, by_of, word_of};
ghost use Rattle.graph_lang.specs.WordValues.{single_of, phaser_line, taps_of, plus_of, age_of, form_in, filter_form, factor_of, block_of};
ghost use Rattle.graph_lang.specs.Reading.{AreNumbersOf, steps_in};
ghost use Rattle.graph_lang.specs.Faults.{is_function_within, is_bound_within, is_body_within, is_tap_within, is_plus_within, most_taps, is_form_within, is_filter_within, is_number_of_ends, is_count_within, are_ends_within, is_phaser_within};

use graph_base::{ENDS_MAX, EVERY_MAX, FACTOR_MAX, PhaserLine, STEPS_MAX};
use graph_text::{Body, Ends, Filter, Function, PhaserWords, Version, int_within, nat_within};
use phase_accum::{MAGNITUDE_MAX, Single};
use phase_base::BOUND_MAX;
use std::alloc::{AllocError, Global};
use stream_filters::{
    AGAIN_MAX, DELAY_MAX, FEW_TAPS_MAX, Form, PLUS_MAX, SHIFT_MAX, TAP_MAX, TAPS_MAX,
};

// ---- phasers

/// The single of a function whose numbers are within their limits.
pub(crate) fn single_of(function: Function<'_>) -> Option<Single>
    requires { IsFunction (function_of function) }
    ensures { result ≡ (if is_function_within (function_of function.entry)
        then Some (single_of (function_of function.entry)) else None) }
{
    match function {
        Function::Neg => Some(Single::neg()),
        Function::Abs => Some(Single::abs()),
        Function::Halve => Some(Single::halve()),
        Function::Clamp(low, high) => {
            let low = int_within(low, MAGNITUDE_MAX)?;
            let high = int_within(high, MAGNITUDE_MAX)?;
            Single::clamp(low, high).ok()
        }
    }
}

/// The single of a phaser or a filter, where it has one whose numbers are within their limits, or
/// none.
fn single_in(single: Option<Function<'_>>) -> Option<Option<Single>>
    requires { IfSome (function_words single) IsFunction }
    ensures { result ≡ (if option_map_or is_function_within (function_words single.entry) true
        then Some (option_map single_of (function_words single.entry)) else None) }
{
    match single {
        None => Some(None),
        Some(function) => Some(Some(single_of(function)?)),
    }
}

/// The bound that a word writes, where it is within its limits.
fn bound_of(word: &[u8]) -> Option<u64>
    requires { IsTrue (is_nat word.now) }
    ensures { result ≡ (if is_bound_within word.now then Some (nat_value word.now) else None) }
{
    let bound = nat_within(word, BOUND_MAX)?;
    if bound >= 1 { Some(bound) } else { None }
}

/// The line of a phaser, where its numbers are within their limits.
pub(crate) fn phaser_line(words: PhaserWords<'_>) -> Option<PhaserLine>
    requires bound { IsTrue (is_nat words.bound.now) }
    requires single { IfSome (function_words words.single) IsFunction }
    ensures { result
        ≡ (if is_phaser_within words.entry.bound.now (function_words words.entry.single)
        then Some (phaser_line words.entry.operation words.entry.bound.now
        (function_words words.entry.single))
        else None) }
{
    let bound = bound_of(words.bound)?;
    let single = single_in(words.single)?;
    Some(PhaserLine {
        op: words.operation,
        bound,
        single,
    })
}

// ---- tasks

/// The numbers of what a task does: the taps and the form of a filter, the factor of a peer, and of
/// how many values a decimator puts one.
#[derive(Drop)]
pub(crate) struct Numbers {
    pub(crate) taps: Vec<i64>,
    pub(crate) form: Form,
    pub(crate) factor: i64,
    pub(crate) every: u64,
}

/// The numbers of a task's ends: after how many steps of its parent it is registered, after how
/// many of its own it drops, and how many a block of it has, 1 where the line names none.
#[derive(Clone, Copy, Debug)]
pub(crate) struct EndNumbers {
    pub(crate) at: Option<u64>,
    pub(crate) until: Option<u64>,
    pub(crate) block: u64,
}

/// The tap that a word writes, where it is within its limit.
fn tap_of(word: &[u8]) -> Option<i64>
    requires { IsTrue (is_int word.now) }
    ensures { result ≡ (if is_tap_within word.now then Some (int_value word.now) else None) }
{
    int_within(word, TAP_MAX)
}

/// The taps that words write, where each is within its limit.
fn taps_of(alloc: Global, words: &[&[u8]]) -> Result<Option<Vec<i64>>, AllocError>
    requires { IsTrue (list_all is_int (plain words.now)) }
    ensures within { IfOk result (λ found.
        is_some found ≡ list_all is_tap_within (plain words.now)) }
    ensures taps { IfOk result (λ found. IfSome found (λ taps.
        taps.items ≡ map int_value (plain words.now))) }
{
    let mut taps = Vec::new(alloc);
    for word in words {
        let Some(tap) = tap_of(word) else {
            return Ok(None);
        };
        taps.push(tap)?;
    }
    Ok(Some(taps))
}

/// The shift that a word writes, where it is within its limit.
fn shift_of(word: &[u8]) -> Option<u32>
    requires { IsTrue (is_nat word.now) }
    ensures { result
        ≡ (if nat_le (nat_value word.now) SHIFT_MAX then Some (nat_value word.now) else None) }
{
    Some(nat_within(word, SHIFT_MAX as u64)? as u32)
}

/// What the word writes that says what a filter adds, or 0 where there is none, where it is within
/// its limit.
fn plus_of(word: Option<&[u8]>) -> Option<i64>
    requires { IfSome (word_of word) (λ word. IsTrue (is_int word)) }
    ensures { result ≡ (if is_plus_within (word_of word.entry)
        then Some (plus_of (word_of word.entry)) else None) }
{
    match word {
        None => Some(0),
        Some(plus) => int_within(plus, PLUS_MAX),
    }
}

/// How many samples before the newest one a word writes, or 0 where there is none, where they are
/// within their limit.
fn age_of(word: Option<&[u8]>) -> Option<usize>
    requires { IfSome (word_of word) (λ word. IsTrue (is_nat word)) }
    ensures { result ≡ (if nat_le (age_of (word_of word.entry)) DELAY_MAX
        then Some (age_of (word_of word.entry)) else None) }
{
    match word {
        None => Some(0),
        Some(steps) => Some(nat_within(steps, DELAY_MAX as u64)? as usize),
    }
}

/// The form that a filter's words write, where each number, and how many taps it has for what it
/// put, is within its limit.
fn form_in(words: Filter<'_, '_>) -> Option<Form>
    requires { IsFilter Three (filter_of words) }
    ensures { result ≡ (if is_form_within (filter_of words.entry)
        then Some (form_in (filter_of words.entry)) else None) }
{
    let shift = shift_of(words.shift)?;
    let plus = plus_of(words.plus)?;
    let delay = age_of(words.delay)?;
    if words.again.len() > AGAIN_MAX {
        return None;
    }
    Some(Form {
        shift,
        plus,
        delay,
        again: words.again.len(),
        single: single_in(words.single)?,
    })
}

/// The most taps for samples of a filter in a text of this version.
fn most_taps(version: Version) -> usize
    ensures { result ≡ most_taps version }
{
    match version {
        Version::One | Version::Two => FEW_TAPS_MAX,
        Version::Three => TAPS_MAX,
    }
}

/// The taps that words write for samples, and those behind them for what a filter puts, where each
/// is within its limit.
fn all_taps(alloc: Global, words: &[&[u8]], again: &[&[u8]]) -> Result<Option<Vec<i64>>, AllocError>
    requires taps { IsTrue (list_all is_int (plain words.now)) }
    requires again { IsTrue (list_all is_int (plain again.now)) }
    ensures within { IfOk result (λ found. is_some found
        ≡ (list_all is_tap_within (plain words.now) && list_all is_tap_within (plain again.now))) }
    ensures taps { IfOk result (λ found. IfSome found (λ taps.
        taps.items ≡ map int_value (plain words.now ++ plain again.now))) }
{
    let Some(mut taps) = taps_of(alloc, words)? else {
        return Ok(None);
    };
    let Some(again) = taps_of(alloc, again)? else {
        return Ok(None);
    };
    taps.extend_from_slice(&again)?;
    Ok(Some(taps))
}

/// The factor that a word writes, where it is within its limit.
fn factor_of(word: &[u8]) -> Option<i64>
    requires { IsTrue (is_int word.now) }
    ensures { result ≡ (if nat_le (unsigned_abs (int_value word.now)) FACTOR_MAX
        then Some (int_value word.now) else None) }
{
    int_within(word, FACTOR_MAX)
}

/// Whether a splitter may have so many outputs, or a joiner so many inputs.
fn is_number_of_ends(count: usize) -> bool
    ensures { result ≡ is_number_of_ends count }
{
    2 <= count && count <= ENDS_MAX
}

/// The numbers of a filter, where each, and how many taps there are, is within its limit in a text
/// of this version.
fn filter_numbers(
    alloc: Global,
    words: Filter<'_, '_>,
    version: Version,
) -> Result<Option<Numbers>, AllocError>
    requires { IsFilter Three (filter_of words) }
    ensures within { IfOk result (λ found.
        is_some found ≡ is_filter_within version (filter_of words.entry)) }
    ensures numbers { IfOk result (λ found. IfSome found (λ numbers.
        (numbers.taps.items
        ≡ map int_value (plain words.entry.taps.now ++ plain words.entry.again.now))
        × (numbers.form ≡ form_in (filter_of words.entry))
        × (numbers.factor ≡ pos 0) × (numbers.every ≡ 1))) }
{
    let Some(form) = form_in(words) else {
        return Ok(None);
    };
    if words.taps.len() > most_taps(version) {
        return Ok(None);
    }
    match all_taps(alloc, words.taps, words.again)? {
        None => Ok(None),
        Some(taps) => Ok(Some(Numbers {
            taps,
            form,
            factor: 0,
            every: 1,
        })),
    }
}

/// The numbers of a delay, where the number of steps is within its limit.
fn delay_numbers(alloc: Global, steps: &[u8]) -> Result<Option<Numbers>, AllocError>
    requires { IsTrue (is_nat steps.now) }
    ensures within { IfOk result (λ found.
        is_some found ≡ nat_le (nat_value steps.now) DELAY_MAX) }
    ensures numbers { IfOk result (λ found. IfSome found (λ numbers.
        (numbers.taps.items ≡ pos 1 ∷ [])
        × (numbers.form ≡ record no_form { delay = nat_value steps.now })
        × (numbers.factor ≡ pos 0) × (numbers.every ≡ 1))) }
{
    let Some(steps) = nat_within(steps, DELAY_MAX as u64) else {
        return Ok(None);
    };
    let form = Form {
        shift: 0,
        plus: 0,
        delay: steps as usize,
        again: 0,
        single: None,
    };
    Ok(Some(Numbers {
        taps: Vec::from_slice(alloc, &[1])?,
        form,
        factor: 0,
        every: 1,
    }))
}

/// The numbers of a task that is no filter: a peer's factor or 0, and of how many values a
/// decimator puts one, or 1.
fn numbers_with(alloc: Global, factor: i64, every: u64) -> Numbers
    ensures { (result.taps.items ≡ []) × (result.form ≡ no_form) × (result.factor ≡ factor)
        × (result.every ≡ every) }
{
    let form = Form {
        shift: 0,
        plus: 0,
        delay: 0,
        again: 0,
        single: None,
    };
    Numbers {
        taps: Vec::new(alloc),
        form,
        factor,
        every,
    }
}

/// The numbers of a decimator, where that of the values of which it puts one is within its limits.
fn decimator_numbers(alloc: Global, every: &[u8]) -> Option<Numbers>
    requires { IsTrue (is_nat every.now) }
    ensures within { is_some result
        ≡ (nat_le 1 (nat_value every.now) && nat_le (nat_value every.now) EVERY_MAX) }
    ensures numbers { IfSome result (λ numbers. (numbers.taps.items ≡ [])
        × (numbers.form ≡ no_form) × (numbers.factor ≡ pos 0)
        × (numbers.every ≡ nat_value every.now)) }
{
    let every = nat_within(every, EVERY_MAX)?;
    if every < 1 {
        return None;
    }
    Some(numbers_with(alloc, 0, every))
}

/// The numbers of what a task does, where each, and how many ends it has, is within its limits in a
/// text of this version.
pub(crate) fn numbers_of(
    alloc: Global,
    body: Body<'_, '_>,
    version: Version,
) -> Result<Option<Numbers>, AllocError>
    requires { IsBody Three (body_of body) }
    ensures within { IfOk result (λ found.
        is_some found ≡ is_body_within version (body_of body.entry)) }
    ensures numbers { IfOk result (λ found. IfSome found (λ numbers.
        AreNumbersOf numbers (body_of body.entry))) }
{
    let factor = match body {
        Body::Fir(_, _, words) => return filter_numbers(alloc, words, version),
        Body::Delay(_, _, steps) => return delay_numbers(alloc, steps),
        Body::Decimate(_, _, every) => return Ok(decimator_numbers(alloc, every)),
        Body::Split(_, outputs) if !is_number_of_ends(outputs.len()) => None,
        Body::Join(inputs, _) if !is_number_of_ends(inputs.len()) => None,
        Body::Peer(_, _, _, factor) => factor_of(factor),
        _ => Some(0),
    };
    match factor {
        None => Ok(None),
        Some(factor) => Ok(Some(numbers_with(alloc, factor, 1))),
    }
}

/// The number of steps that a word writes, where it is within its limit.
fn count_of(word: &[u8]) -> Option<u64>
    requires { IsTrue (is_nat word.now) }
    ensures { result ≡ (if is_count_within word.now then Some (nat_value word.now) else None) }
{
    nat_within(word, STEPS_MAX)
}

/// The number of steps that a word writes, where there is one; the outer `None` is a number that is
/// outside its limit.
fn count_in(word: Option<&[u8]>) -> Option<Option<u64>>
    requires { IfSome (word_of word) (λ steps. IsTrue (is_nat steps)) }
    ensures { result ≡ (if option_map_or is_count_within (word_of word.entry) true
        then Some (option_map nat_value (word_of word.entry)) else None) }
{
    match word {
        None => Some(None),
        Some(steps) => Some(Some(count_of(steps)?)),
    }
}

/// The steps of a block that a word writes, where they are within their limits; 1 where there is no
/// word.
fn block_of(word: Option<&[u8]>) -> Option<u64>
    requires { IfSome (word_of word) (λ steps. IsTrue (is_nat steps)) }
    ensures { result ≡ (if option_map_or is_bound_within (word_of word.entry) true
        then Some (block_of (word_of word.entry)) else None) }
{
    match word {
        None => Some(1),
        Some(steps) => bound_of(steps),
    }
}

/// The numbers of the ends of a task's line, where each is within its limit.
pub(crate) fn steps_of(ends: Ends<'_>) -> Option<EndNumbers>
    requires by { IfSome (by_of ends.by) IsBy }
    requires until { IfSome (word_of ends.until) (λ steps. IsTrue (is_nat steps)) }
    requires block { IfSome (word_of ends.block) (λ steps. IsTrue (is_nat steps)) }
    ensures { result ≡ (if are_ends_within (ends_of ends.entry)
        then Some (steps_in (ends_of ends.entry)) else None) }
{
    let at = match ends.by {
        None => None,
        Some(by) => Some(count_of(by.at)?),
    };
    let until = count_in(ends.until)?;
    let block = block_of(ends.block)?;
    Some(EndNumbers { at, until, block })
}
