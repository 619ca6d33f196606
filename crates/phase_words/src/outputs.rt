//! The words `--to`, each of which names a sink and the file that its values go to.
ghost use Rattle.std.specs.Prelude.{◌≡◌, IfOk, false, map, not, option_map};
ghost use Rattle.std.specs.List.{list_any};
ghost use Rattle.clap.specs.Words.{all_of, first_of, found_of, rows_of, rule_of};
ghost use Rattle.phase_words.specs.Outputs.{clash, clashes_in, has_file, is_beside_columns, lack_file, others_in};
ghost use Rattle.phase_words.specs.Outputs.{pair_of};
ghost use Rattle.phase_words.specs.Outputs.{pair_as, pairs_by, pairs_in, sink_in, to_rule, words_by};

use crate::SinkFile;
use crate::help::TO;
use clap::{Arg, ArgAction, ArgMatches};
use std::alloc::{AllocError, Global};

/// The word behind `--to`, which may be given more than once: a sink, `=` and a file.
pub(crate) fn to_word<'a>(alloc: Global) -> Arg<'a>
    ensures rule { rule_of result ≡ to_rule }
    ensures local { result.global ≡ false }
{
    Arg::new(alloc, "to")
        .long("to")
        .value_name("SINK=FILE")
        .action(ArgAction::Append)
        .help(TO)
}

/// The words behind `--to`, in their order.
pub(crate) fn to_words<'a>(
    alloc: Global,
    matches: &ArgMatches<'a>,
) -> Result<Vec<&'a str>, AllocError>
    ensures { IfOk result (λ words. map (λ s. s.now) words.items
        ≡ words_by (rows_of (found_of matches.now))) }
{
    match matches.get_strs("to") {
        Some(words) => Vec::from_slice(alloc, words),
        None => Ok(Vec::new(alloc)),
    }
}

/// Whether a word names no file, behind a `=`.
fn lacks_file(word: &str) -> bool
    ensures { result ≡ not (has_file word.now) }
{
    word.split_once('=').is_none()
}

/// Whether all sinks are asked for as columns, and a sink is named beside that.
pub(crate) fn is_beside_columns(columns: bool, pairs: &[SinkFile<'_>]) -> bool
    ensures { result ≡ is_beside_columns columns (map pair_as pairs.now) }
{
    columns && !pairs.is_empty()
}

/// Whether a word names none.
pub(crate) fn lack_file(words: &[&str]) -> bool
    ensures { result ≡ lack_file (map (λ s. s.now) words.now) }
{
    for word in words {
        if lacks_file(word) {
            return true;
        }
    }
    false
}

/// The sink and the file that a word names.
fn pair_of<'a>(word: &'a str) -> SinkFile<'a>
    ensures { pair_as result ≡ pair_of word.now }
{
    match word.split_once('=') {
        Some((sink, file)) => SinkFile { sink, file },
        None => SinkFile {
            sink: word,
            file: "",
        },
    }
}

/// Which sinks go where: that of `--sink` to the output, and those behind `--to` to their files.
pub(crate) fn pairs<'a>(
    alloc: Global,
    sink: Option<&'a str>,
    words: &[&'a str],
) -> Result<Vec<SinkFile<'a>>, AllocError>
    ensures { IfOk result (λ pairs. map pair_as pairs.items
        ≡ pairs_by (option_map (λ s. s.now) sink.entry) (map (λ s. s.now) words.now)) }
{
    let mut pairs = Vec::new(alloc);
    if let Some(sink) = sink {
        pairs.push(SinkFile { sink, file: "-" })?;
    }
    for word in words {
        pairs.push(pair_of(word))?;
    }
    Ok(pairs)
}

/// Whether one of these names the sink or the file of another.
fn clashes_with(pair: SinkFile<'_>, others: &[SinkFile<'_>]) -> bool
    ensures { result ≡ list_any (clash (pair_as pair.entry)) (map pair_as others.now) }
{
    for other in others {
        if pair.sink == other.sink || pair.file == other.file {
            return true;
        }
    }
    false
}

/// Whether a sink or a file stands twice among them.
pub(crate) fn has_clash(pairs: &[SinkFile<'_>]) -> bool
    ensures { result ≡ clashes_in (map pair_as pairs.now) }
{
    for k in 0..pairs.len() {
        if clashes_with(pairs[k], &pairs[k + 1..]) {
            return true;
        }
    }
    false
}

/// The sink that goes to the output, the file of the name `-`, where one does.
pub(crate) fn output_sink<'a>(pairs: &[SinkFile<'a>]) -> Option<&'a str>
    ensures { option_map (λ s. s.now) result ≡ sink_in (map pair_as pairs.now) }
{
    for pair in pairs {
        if pair.file == "-" {
            return Some(pair.sink);
        }
    }
    None
}

/// The others.
pub(crate) fn files_of<'a>(
    alloc: Global,
    pairs: &[SinkFile<'a>],
) -> Result<Vec<SinkFile<'a>>, AllocError>
    ensures { IfOk result (λ files.
        map pair_as files.items ≡ others_in (map pair_as pairs.now)) }
{
    let mut files = Vec::new(alloc);
    for pair in pairs {
        if pair.file != "-" {
            files.push(*pair)?;
        }
    }
    Ok(files)
}
