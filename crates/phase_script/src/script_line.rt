//! Script lines as commands.

mod number;
mod words;

ghost use Rattle.std.specs.Prelude.{◌≡◌, ◌≤◌, List, ℤ, nat_abs, IfSome, Some, option_map};
ghost use Rattle.phase_script.specs.Numbers.{most};
ghost use Rattle.phase_script.specs.Commands.{WholeCommand, whole_command, maybe_whole, IsCommand, spelling, command_of, command_after, mode_of, single_of, clamp_after, ends_of, clamp_of, make_of, add_of, now_of, send_of, signal_of, block_of, values_of, wait_of, take_of, take_with, drop_of};

use crate::{Command, VALUES_MAX, Values};
use number::{int, nat};
use phase_accum::{Op, Single};
use phase_base::Mode;
use words::cut;

/// The bytes of the longest line of the grammar, a `block` of `VALUES_MAX` values.
pub const LINE_MAX: usize = 361;

/// Reads a script line, without its LF and CR, as the one command that it gives. The values of a
/// block come into `values`.
///
/// The first word names the command, and one space stands between two words. A number has no
/// needless zero and no plus. Any other line gives `None`. It takes no memory.
pub fn read(line: &[u8], values: &mut Values) -> Option<Command>
    ensures exact { maybe_whole values.new result ≡ command_of line.now }
    ensures found { IfSome result (λ c. IsCommand (whole_command values.new c)
        × (line.now ≡ spelling (whole_command values.new c))) }
    ensures only { (c : WholeCommand) → IsCommand c → line.now ≡ spelling c
        → maybe_whole values.new result ≡ Some c }
{
    command(line, values)
}

#[tactic(auto, unfolding(crate::specs::Commands::command_of))]
fn command(line: &[u8], values: &mut Values) -> Option<Command>
    ensures { maybe_whole values.new result ≡ command_of line.now }
{
    let (verb, text) = cut(line);
    command_with(verb, text?, values)
}

#[tactic(auto, unfolding(crate::specs::Commands::command_after))]
fn command_with(verb: &[u8], text: &[u8], values: &mut Values) -> Option<Command>
    ensures { maybe_whole values.new result ≡ command_after verb.now text.now }
{
    if verb == b"make".as_slice() {
        make(text)
    } else if verb == b"add".as_slice() {
        add(text)
    } else if verb == b"now".as_slice() {
        now(text)
    } else if verb == b"send".as_slice() {
        send(text)
    } else if verb == b"signal".as_slice() {
        signal(text)
    } else if verb == b"block".as_slice() {
        block(text, values)
    } else if verb == b"wait".as_slice() {
        wait(text)
    } else if verb == b"take".as_slice() {
        take(text)
    } else if verb == b"drop".as_slice() {
        drop_task(text)
    } else {
        None
    }
}

#[tactic(auto, unfolding(crate::specs::Commands::make_of))]
fn make(text: &[u8]) -> Option<Command>
    ensures { (values : List ℤ) → maybe_whole values result ≡ make_of text.now }
{
    let (name, numbers) = cut(text);
    let operation = Op::read(name)?;
    let (bound, last) = cut(numbers?);
    let bound = nat(bound)?;
    let phases = nat(last?)?;
    Some(Command::Make {
        operation,
        bound,
        phases,
    })
}

#[tactic(auto, unfolding(crate::specs::Commands::add_of))]
fn add(text: &[u8]) -> Option<Command>
    ensures { (values : List ℤ) → maybe_whole values result ≡ add_of text.now }
{
    let (parent, words) = cut(text);
    let parent = nat(parent)?;
    let (child, last) = cut(words?);
    let child = nat(child)?;
    let mode = mode(last?)?;
    Some(Command::Add {
        parent,
        child,
        mode,
    })
}

#[tactic(auto, unfolding(crate::specs::Commands::mode_of))]
fn mode(name: &[u8]) -> Option<Mode>
    ensures { result ≡ mode_of name.now }
{
    if name == b"sig".as_slice() {
        Some(Mode::Sig)
    } else if name == b"wait".as_slice() {
        Some(Mode::Wait)
    } else if name == b"sigwait".as_slice() {
        Some(Mode::SigWait)
    } else if name == b"single".as_slice() {
        Some(Mode::Single)
    } else {
        None
    }
}

#[tactic(auto, unfolding(crate::specs::Commands::now_of))]
fn now(text: &[u8]) -> Option<Command>
    ensures { (values : List ℤ) → maybe_whole values result ≡ now_of text.now }
{
    let (parent, last) = cut(text);
    let parent = nat(parent)?;
    let child = nat(last?)?;
    Some(Command::Now { parent, child })
}

#[tactic(auto, unfolding(crate::specs::Commands::send_of))]
fn send(text: &[u8]) -> Option<Command>
    ensures { (values : List ℤ) → maybe_whole values result ≡ send_of text.now }
{
    let (task, last) = cut(text);
    let task = nat(task)?;
    let value = int(last?)?;
    Some(Command::Send { task, value })
}

#[tactic(auto, unfolding(crate::specs::Commands::signal_of, crate::specs::Commands::signal_with))]
fn signal(text: &[u8]) -> Option<Command>
    ensures { (values : List ℤ) → maybe_whole values result ≡ signal_of text.now }
{
    let (task, last) = cut(text);
    let task = nat(task)?;
    let Some(text) = last else {
        return Some(Command::Signal { task, single: None });
    };
    let single = single(text)?;
    Some(Command::Signal {
        task,
        single: Some(single),
    })
}

#[tactic(auto, unfolding(crate::specs::Commands::single_of))]
fn single(text: &[u8]) -> Option<Single>
    ensures { result ≡ single_of text.now }
{
    if text == b"neg".as_slice() {
        return Some(Single::neg());
    }
    if text == b"abs".as_slice() {
        return Some(Single::abs());
    }
    if text == b"halve".as_slice() {
        return Some(Single::halve());
    }
    let (name, ends) = cut(text);
    clamp(name, ends?)
}

#[tactic(auto, unfolding(crate::specs::Commands::clamp_after))]
fn clamp(name: &[u8], text: &[u8]) -> Option<Single>
    ensures { result ≡ clamp_after name.now text.now }
{
    if name == b"clamp".as_slice() {
        ends(text)
    } else {
        None
    }
}

#[tactic(auto, unfolding(crate::specs::Commands::ends_of))]
fn ends(text: &[u8]) -> Option<Single>
    ensures { result ≡ ends_of text.now }
{
    let (low, last) = cut(text);
    let low = int(low)?;
    let high = int(last?)?;
    clamp_between(low, high)
}

fn clamp_between(low: i64, high: i64) -> Option<Single>
    requires low { nat_abs low ≤ most }
    requires high { nat_abs high ≤ most }
    ensures { result ≡ clamp_of low high }
{
    match Single::clamp(low, high) {
        Ok(single) => Some(single),
        Err(_) => None,
    }
}

#[tactic(auto, unfolding(crate::specs::Commands::block_of))]
fn block(text: &[u8], values: &mut Values) -> Option<Command>
    ensures { maybe_whole values.new result ≡ block_of text.now }
{
    let (task, last) = cut(text);
    let task = nat(task)?;
    read_values(last?, values)?;
    Some(Command::Block { task })
}

// Reads the words of the text as values, no more than `VALUES_MAX`.
fn read_values(text: &[u8], values: &mut Values) -> Option<()>
    ensures { option_map (λ _. values.new) result ≡ values_of text.now }
{
    values.clear();
    let mut more = Some(text);
    while let Some(words) = more {
        if values.as_slice().len() == VALUES_MAX {
            return None;
        }
        let (word, rest) = cut(words);
        values.push(int(word)?);
        more = rest;
    }
    Some(())
}

#[tactic(auto, unfolding(crate::specs::Commands::take_of, crate::specs::Commands::take_with))]
fn take(text: &[u8]) -> Option<Command>
    ensures { (values : List ℤ) → maybe_whole values result ≡ take_of text.now }
{
    let (task, last) = cut(text);
    let task = nat(task)?;
    let phases = nat(last?)?;
    if phases < 1 || phases > VALUES_MAX as u64 {
        return None;
    }
    Some(Command::Take { task, phases })
}

#[tactic(auto, unfolding(crate::specs::Commands::wait_of))]
fn wait(text: &[u8]) -> Option<Command>
    ensures { (values : List ℤ) → maybe_whole values result ≡ wait_of text.now }
{
    let task = nat(text)?;
    Some(Command::Wait { task })
}

#[tactic(auto, unfolding(crate::specs::Commands::drop_of))]
fn drop_task(text: &[u8]) -> Option<Command>
    ensures { (values : List ℤ) → maybe_whole values result ≡ drop_of text.now }
{
    let task = nat(text)?;
    Some(Command::Drop { task })
}
