//! Which command the words are for.
ghost use Rattle.std.specs.Prelude.{◌≡◌, ◌∷◌, IfOk, [], codes};
ghost use Rattle.std.specs.List.{list_any};
ghost use Rattle.phase.specs.Ways.{is_bare, is_by_workers, names_workers, way_named, way_of};
ghost use Rattle.phase.specs.Standing.{own_texts, way_by};
ghost use Rattle.phase_words.specs.CommandLine.{texts};

use std::alloc::{AllocError, Global};

/// The words of a command.
#[derive(Clone, Copy, Debug, PartialEq, Eq)]
pub(crate) enum Own<'a> {
    /// These, which stand behind its name.
    Behind(&'a [String]),
    /// `--help` alone, for help on it is asked for.
    Help,
}

/// The command that words are for.
#[derive(Clone, Copy, Debug, PartialEq, Eq)]
pub(crate) enum Way<'a> {
    /// `run`.
    Run(Own<'a>),
    /// `stream`.
    Stream(Own<'a>),
    /// `eval`, by workers, with these words behind its name.
    Eval(&'a [String]),
    /// One of the others, which read all the words.
    Others,
}

/// The command of a name, with words of its own.
fn way_named<'a>(name: &str, own: Own<'a>) -> Way<'a>
    ensures { way_by result ≡ way_named name.now (own_texts own.entry) }
{
    if name == "run" {
        return Way::Run(own);
    }
    if name == "stream" {
        return Way::Stream(own);
    }
    Way::Others
}

/// Whether a word is `--workers`, or begins with that and a `=`.
fn names_workers(word: &str) -> bool
    ensures { result ≡ names_workers word.now }
{
    word == "--workers" || word.as_bytes().starts_with(b"--workers=")
}

/// Whether one of the words names workers.
fn name_workers(words: &[String]) -> bool
    ensures { result ≡ list_any names_workers (texts words.now) }
{
    for word in words {
        if names_workers(word.as_str()) {
            return true;
        }
    }
    false
}

/// Whether words are for `eval`, and one of those behind its name names workers.
fn is_by_workers(first: &str, behind: &[String]) -> bool
    ensures { result ≡ is_by_workers first.now (texts behind.now) }
{
    first == "eval" && name_workers(behind)
}

/// Which command the words are for, by the first of them, or by the second behind `help`.
pub(crate) fn way_of(words: &[String]) -> Way<'_>
    ensures { way_by result ≡ way_of (texts words.now) }
{
    match words {
        [first, name, ..] if first.as_str() == "help" => way_named(name.as_str(), Own::Help),
        [first, behind @ ..] if is_by_workers(first.as_str(), behind) => Way::Eval(behind),
        [first, behind @ ..] => way_named(first.as_str(), Own::Behind(behind)),
        [] => Way::Others,
    }
}

/// Whether the words are none, or `replay` alone.
pub(crate) fn is_bare(words: &[String]) -> bool
    ensures { result ≡ is_bare (texts words.now) }
{
    match words {
        [] => true,
        [word] => word.as_str() == "replay",
        _ => false,
    }
}

/// The word `--help` alone.
pub(crate) fn help_word(alloc: Global) -> Result<Vec<String>, AllocError>
    ensures { IfOk result (λ words. texts words.items ≡ codes "--help" ∷ []) }
{
    let mut words = Vec::new(alloc);
    words.push(String::from_str(alloc, "--help")?)?;
    Ok(words)
}
