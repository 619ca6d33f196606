//! The words behind `phase stream`, as clap reads them.
ghost use Rattle.std.specs.Prelude.{◌≡◌, ◌∷◌, [], IfOk, IfErr, map};
ghost use Rattle.std.specs.Option.{option_map_or};
ghost use Rattle.clap.specs.Words.{FailsBy, HasKind, app_of, found_of, kind_of, rows_of};
ghost use Rattle.phase_words.specs.CommandLine.{ExplainsNone, texts};
ghost use Rattle.phase_words.specs.Outputs.{output_kinds, output_kinds_by, pair_as, pairs_in, words_by};
ghost use Rattle.phase_words.specs.StreamLine.{AsksStream, stream_app, stream_by, stream_in};
ghost use Rattle.phase_words.specs.StreamLine.{stream_kinds_of, stream_asked, stream_with};

use crate::command_line::{columns_word, explain_of, explain_word, found_by, is_given, no_call};
use crate::help::{COLUMNS_BESIDE, STREAM, STREAM_END, TO_LACKS, TO_TWICE};
use crate::outputs::{
    files_of, has_clash, is_beside_columns, lack_file, output_sink, pairs, to_word, to_words,
};
use crate::sink_line::{graph_of, sink_command};
use crate::{NoCall, SinkFile, StreamCall};
use clap::error::ErrorKind;
use clap::{ArgMatches, Command, Error};
use std::alloc::{AllocError, Global};

/// The command line behind `phase stream`.
fn stream_command<'a>(alloc: Global) -> Result<Command<'a>, AllocError>
    ensures { IfOk result (λ c. app_of c ≡ stream_app) }
{
    sink_command(alloc, "phase stream", STREAM, STREAM_END)?
        .arg(to_word(alloc))?
        .arg(columns_word(alloc))?
        .arg(explain_word(alloc))
}

/// What the words ask for, by what clap found in them, and which sinks go where.
fn call_of<'a>(
    alloc: Global,
    matches: &ArgMatches<'a>,
    pairs: &[SinkFile<'a>],
) -> Result<StreamCall<'a>, AllocError>
    ensures { IfOk result (λ call. stream_asked call
        ≡ stream_with (rows_of (found_of matches.now)) (map pair_as pairs.now)) }
{
    Ok(StreamCall {
        graph: graph_of(matches),
        sink: output_sink(pairs),
        files: files_of(alloc, pairs)?,
        columns: is_given(matches.get_str("columns")),
        explain: explain_of(matches.get_str("explain")),
        beside: is_given(matches.get_str("beside")),
    })
}

/// Why words are refused by which sinks go where: some are named beside `--columns`, one behind
/// `--to` names no file, or a sink or a file stands twice.
fn refusal(beside: bool, lacks: bool, clashes: bool) -> Option<(ErrorKind, &'static str)>
    ensures { output_kinds_by beside lacks clashes ≡ option_map_or (λ r. r.0 ∷ []) result [] }
{
    if beside {
        return Some((ErrorKind::ArgumentConflict, COLUMNS_BESIDE));
    }
    if lacks {
        return Some((ErrorKind::ValueValidation, TO_LACKS));
    }
    if clashes {
        return Some((ErrorKind::ArgumentConflict, TO_TWICE));
    }
    None
}

/// The error of a refusal, as clap tells of one.
fn refused(alloc: Global, kind: ErrorKind, text: &str) -> Error
    ensures { HasKind (kind ∷ []) result }
{
    match refused_error(alloc, kind, text) {
        Ok(error) => error,
        Err(lack) => Error::from(lack),
    }
}

/// The same, where there is memory for its text.
fn refused_error(alloc: Global, kind: ErrorKind, text: &str) -> Result<Error, AllocError>
    ensures { IfOk result (λ e. kind_of e ≡ kind) }
{
    let mut command = stream_command(alloc)?;
    command.error(kind, text)
}

/// Reads the words by clap.
fn parse<'a>(alloc: Global, words: &'a [String]) -> Result<StreamCall<'a>, Error>
    ensures fails { FailsBy (stream_kinds_of (texts words.now)) result }
    ensures call { IfOk result (λ call. stream_asked call ≡ stream_in (texts words.now)) }
{
    let matches = found_by(stream_command(alloc), words)?;
    let named = to_words(alloc, &matches)?;
    let pairs = pairs(alloc, matches.get_str("sink"), &named)?;
    let beside = is_beside_columns(is_given(matches.get_str("columns")), &pairs);
    if let Some((kind, text)) = refusal(beside, lack_file(&named), has_clash(&pairs)) {
        return Err(refused(alloc, kind, text));
    }
    Ok(call_of(alloc, &matches, &pairs)?)
}

/// Reads the words behind `phase stream`. Where they ask for help, or are refused, the text is
/// clap's.
pub fn read_stream_words<'a>(alloc: Global, words: &'a [String]) -> Result<StreamCall<'a>, NoCall>
    ensures call { IfOk result (λ call. AsksStream (texts words.now) (stream_asked call)) }
    ensures no_call { IfErr result
        (λ none. ExplainsNone (stream_kinds_of (texts words.now)) none) }
{
    match parse(alloc, words) {
        Ok(call) => Ok(call),
        Err(error) => Err(no_call(alloc, &error)),
    }
}
