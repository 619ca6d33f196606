//! The words that a person types at a terminal.
ghost use Rattle.std.specs.Prelude.{◌≡◌, OnOk, OnErr, string_bytes};
ghost use Rattle.std.specs.List.{list_any};
ghost use Rattle.phase_words.specs.AtTerminal.{for_person, is_on_graph, is_open, leave_open, settles};
ghost use Rattle.phase_words.specs.CommandLine.{texts};

use std::alloc::{AllocError, Global};

/// Whether a word is the name of a command on a graph.
fn is_on_graph(word: &str) -> bool
    ensures { result ≡ is_on_graph word.now }
{
    word == "check" || word == "draw" || word == "eval" || word == "run" || word == "stream"
}

/// Whether a word asks for explanations, or no flag stands behind it.
fn settles(word: &str) -> bool
    ensures { result ≡ settles word.now }
{
    word == "--explain" || word == "--"
}

/// Whether one of the words does.
fn settle(words: &[String]) -> bool
    ensures { result ≡ list_any (λ word. settles (string_bytes word)) words.now }
{
    words.iter().any(|word| settles(word.as_str()))
}

/// Whether words are for a command on a graph, and those behind its name leave open whether more is
/// said of a fault.
fn is_open(first: &str, behind: &[String]) -> bool
    ensures { result ≡ is_open first.now (texts behind.now) }
{
    is_on_graph(first) && !settle(behind)
}

/// The same of all the words.
fn leave_open(words: &[String]) -> bool
    ensures { result ≡ leave_open (texts words.now) }
{
    match words {
        [first, behind @ ..] => is_open(first.as_str(), behind),
        [] => false,
    }
}

/// Adds `--explain` to words for a command on a graph that leave open whether more is said of a
/// fault, as for a person at a terminal. Where there is no memory for that they stay.
pub fn explain_to_person(alloc: Global, words: &mut Vec<String>) -> Result<(), AllocError>
    ensures added { OnOk result (texts words.new.items ≡ for_person (texts words.old.items)) }
    ensures same { OnErr result (words.new.items ≡ words.old.items) }
{
    if leave_open(words.as_slice()) {
        words.push(String::from_str(alloc, "--explain")?)?;
    }
    Ok(())
}
