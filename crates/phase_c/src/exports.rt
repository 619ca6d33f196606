//! The exports, which `phase.h` declares. None requires anything.
ghost use Rattle.std.specs.Prelude.{◌≡◌, ◌≢◌, pos, length, IfOk, IfErr};
ghost use Rattle.stream_filters.specs.Filter.{by_shift};
ghost use Rattle.phase_c.specs.Filtered.{FilterStops, FiltersAll};
ghost use Rattle.phase_c.specs.Formed.{FiltersAllFormed, FormedStops, NamesSome, StateStays};
ghost use Rattle.phase_c.specs.Names.{WritesNames, all_names_text, names_text};
ghost use Rattle.phase_c.specs.Refusals.{IsDone, RefusesText};
ghost use Rattle.phase_c.specs.Told.{CheckIsRefused, Counted, EvalIsRefused, NamesStop, version};

use crate::evaluate::evaluate;
use crate::filter::{filter_block, filter_status_of};
use crate::formed::{PhaseFirForm, filter_formed, formed_in_place};
use crate::in_place::filter_in_place;
use crate::names::{write_all_names, write_names};
use crate::refusal::Refusal;
use crate::sinks::sinks_of;
use crate::told::{VERSION, fault_of, status_of};
use graph_lang::read_graph;
use graph_numbers::{PhaseCounts, PhaseFault};
use std::alloc::Global;

/// Answers the version of the library.
#[unsafe(no_mangle)]
pub extern "C" fn phase_version() -> u32
    ensures { result ≡ version }
{
    VERSION
}

/// The counts of a graph's text.
fn counts_of_text(alloc: Global, text: &[u8]) -> Result<PhaseCounts, Refusal>
    ensures counted { IfOk result (λ counts. Counted text.now counts) }
    ensures refused { IfErr result (λ why. RefusesText text.now why) }
{
    let graph = read_graph(alloc, text)?;
    let sinks = sinks_of(alloc, &graph)?.len();
    Ok(PhaseCounts {
        phasers: graph.phasers(),
        tasks: graph.tasks(),
        sources: graph.sources(),
        sinks,
    })
}

/// Answers 0 with how many phasers, tasks, sources and sinks a graph has, or a status that tells
/// why not, and the fault.
#[unsafe(no_mangle)]
pub extern "C" fn phase_check(
    alloc: Global,
    text: &[u8],
    counts: &mut PhaseCounts,
    fault: &mut PhaseFault,
) -> i32
    ensures done { result ≡ pos 0 → Counted text.now counts.new }
    ensures quiet { result ≡ pos 0 → fault.new ≡ fault.old }

    ensures stops { result ≢ pos 0 → CheckIsRefused text.now result fault.new }
    ensures same { result ≢ pos 0 → counts.new ≡ counts.old }
{
    match counts_of_text(alloc, text) {
        Ok(found) => {
            *counts = found;
            0
        }
        Err(why) => {
            *fault = fault_of(why);
            status_of(why)
        }
    }
}

/// Answers 0 with the names of a graph's sources and then of its sinks, each in the order of their
/// lines and followed by a line end, or a status that tells why not, and the fault.
///
/// `needed` is how many bytes the names are, also where they have no room. What stands behind them
/// stays. It takes memory for the graph and for the names, and gives it back.
#[unsafe(no_mangle)]
pub extern "C" fn phase_names(
    alloc: Global,
    text: &[u8],
    out: &mut [u8],
    needed: &mut usize,
    fault: &mut PhaseFault,
) -> i32
    ensures done { result ≡ pos 0 → WritesNames names_text text.now out.old out.new needed.new }
    ensures quiet { result ≡ pos 0 → fault.new ≡ fault.old }

    ensures stops { result ≢ pos 0 → NamesStop names_text text.now (length out.old)
        needed.old needed.new result fault.new }
    ensures same { result ≢ pos 0 → out.new ≡ out.old }
{
    match write_names(alloc, text, out, needed) {
        Ok(()) => 0,
        Err(why) => {
            *fault = fault_of(why);
            status_of(why)
        }
    }
}

/// Answers 0 with the names of all phasers of a graph and then of all its tasks, each in the order
/// of their lines and followed by a line end, or a status that tells why not, and the fault.
///
/// What is told of room, and what stays, is as at `phase_names`. It takes memory for the graph and
/// for the names, and gives it back.
#[unsafe(no_mangle)]
pub extern "C" fn phase_all_names(
    alloc: Global,
    text: &[u8],
    out: &mut [u8],
    needed: &mut usize,
    fault: &mut PhaseFault,
) -> i32
    ensures done { result ≡ pos 0 → WritesNames all_names_text text.now out.old out.new
        needed.new }
    ensures quiet { result ≡ pos 0 → fault.new ≡ fault.old }

    ensures stops { result ≢ pos 0 → NamesStop all_names_text text.now (length out.old)
        needed.old needed.new result fault.new }
    ensures same { result ≢ pos 0 → out.new ≡ out.old }
{
    match write_all_names(alloc, text, out, needed) {
        Ok(()) => 0,
        Err(why) => {
            *fault = fault_of(why);
            status_of(why)
        }
    }
}

/// Answers 0 with the values of each sink of a graph, one sink behind the other, how many each has,
/// and where each begins that joins now; or a status that tells why not, and the fault.
///
/// The samples are those of each source, one source behind the other, and each count says how many
/// a source has. What stands behind the values stays.
#[unsafe(no_mangle)]
pub extern "C" fn phase_eval(
    alloc: Global,
    text: &[u8],
    samples: &[i64],
    counts: &[usize],
    out: &mut [i64],
    sinks: &mut [usize],
    starts: &mut [i64],
    fault: &mut PhaseFault,
) -> i32
    ensures done { result ≡ pos 0 → IsDone text.now samples.now counts.now out.old out.new
        sinks.new starts.new }
    ensures quiet { result ≡ pos 0 → fault.new ≡ fault.old }

    ensures stops { result ≢ pos 0 → EvalIsRefused text.now samples.now counts.now
        (length out.old) sinks.old sinks.new starts.old starts.new result fault.new }
    ensures same { result ≢ pos 0 → out.new ≡ out.old }
{
    match evaluate(alloc, text, samples, counts, out, sinks, starts) {
        Ok(()) => 0,
        Err(why) => {
            *fault = fault_of(why);
            status_of(why)
        }
    }
}

/// Answers 0 with what a filter gives at each sample of a block, or a status that tells why not.
///
/// The state has the last samples before the block, one less than there are taps, the oldest first,
/// and zeros where there were none; at 0 it has those of the block too. What stands behind the
/// values stays. `done` is how many of them are right.
///
/// It takes memory for the filter, and gives it back. What is refused is looked at in this order:
/// the taps and the shift, the length of the state, room, memory, the range of each value.
#[unsafe(no_mangle)]
pub extern "C" fn phase_fir(
    alloc: Global,
    taps: &[i64],
    shift: u32,
    state: &mut [i64],
    block: &[i64],
    out: &mut [i64],
    done: &mut usize,
) -> i32
    ensures all { result ≡ pos 0 → FiltersAll taps.now (by_shift shift) state.old state.new
        block.now out.old out.new done.new }
    ensures stops { result ≢ pos 0 → FilterStops taps.now (by_shift shift) state.old block.now
        out.old out.new done.new result }
    ensures same { result ≢ pos 0 → state.new ≡ state.old }
{
    match filter_block(alloc, taps, shift, state, block, out, done) {
        Ok(()) => 0,
        Err(why) => filter_status_of(why),
    }
}

/// Answers 0 with what a filter gives at each sample of a block, written over the sample, or a
/// status that tells why not.
///
/// The state is as `phase_fir` has it. `done` is how many values are right, in the first places of
/// the block; behind them it has its samples still. It takes memory and refuses as `phase_fir`,
/// but wants no room.
#[unsafe(no_mangle)]
pub extern "C" fn phase_fir_in_place(
    alloc: Global,
    taps: &[i64],
    shift: u32,
    state: &mut [i64],
    block: &mut [i64],
    done: &mut usize,
) -> i32
    ensures all { result ≡ pos 0 → FiltersAll taps.now (by_shift shift) state.old state.new
        block.old block.old block.new done.new }
    ensures stops { result ≢ pos 0 → FilterStops taps.now (by_shift shift) state.old block.old
        block.old block.new done.new result }
    ensures same { result ≢ pos 0 → state.new ≡ state.old }
{
    match filter_in_place(alloc, taps, shift, state, block, done) {
        Ok(()) => 0,
        Err(why) => filter_status_of(why),
    }
}

/// Answers 0 with what a filter of any form gives at each sample of a block, or a status that tells
/// why not. The last taps, as many as the form's `again` says, weigh what it put.
///
/// The state has the last samples before the block, as many as the filter looks back to, and `puts`
/// the last values that it put, as many as it weighs: each the oldest first, and zeros where there
/// were none. At 0 they have those of the block too. What stands behind the values stays. `done` is
/// how many of them are right.
///
/// It takes memory for the filter, and gives it back. What is refused is looked at in this order:
/// the taps and the form, the lengths of state and puts, room, memory, the range of each value.
#[unsafe(no_mangle)]
pub extern "C" fn phase_fir_with(
    alloc: Global,
    taps: &[i64],
    form: &PhaseFirForm,
    state: &mut [i64],
    puts: &mut [i64],
    block: &[i64],
    out: &mut [i64],
    done: &mut usize,
) -> i32
    ensures all { result ≡ pos 0 → NamesSome form.now (λ named. FiltersAllFormed taps.now named
        state.old state.new puts.old puts.new block.now out.old out.new done.new) }
    ensures stops { result ≢ pos 0 → FormedStops taps.now form.now state.old puts.old block.now
        out.old out.new done.new result }
    ensures same { result ≢ pos 0 → StateStays state.old state.new puts.old puts.new }
{
    let (count, outcome) = filter_formed(alloc, taps, form, state, puts, block, out);
    *done = count;
    match outcome {
        Ok(()) => 0,
        Err(why) => filter_status_of(why),
    }
}

/// Answers 0 with what a filter of any form gives at each sample of a block, written over the
/// sample, or a status that tells why not.
///
/// State and puts are as `phase_fir_with` has them. `done` is how many values are right, in the
/// first places of the block; behind them it has its samples still. It takes memory for the filter
/// and for a second state, and refuses as `phase_fir_with`, but wants no room.
#[unsafe(no_mangle)]
pub extern "C" fn phase_fir_with_in_place(
    alloc: Global,
    taps: &[i64],
    form: &PhaseFirForm,
    state: &mut [i64],
    puts: &mut [i64],
    block: &mut [i64],
    done: &mut usize,
) -> i32
    ensures all { result ≡ pos 0 → NamesSome form.now (λ named. FiltersAllFormed taps.now named
        state.old state.new puts.old puts.new block.old block.old block.new done.new) }
    ensures stops { result ≢ pos 0 → FormedStops taps.now form.now state.old puts.old block.old
        block.old block.new done.new result }
    ensures same { result ≢ pos 0 → StateStays state.old state.new puts.old puts.new }
{
    match formed_in_place(alloc, taps, form, state, puts, block, done) {
        Ok(()) => 0,
        Err(why) => filter_status_of(why),
    }
}
