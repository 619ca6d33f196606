//! The words of the program, as clap reads them.
ghost use Rattle.std.specs.Prelude.{◌≡◌, ◌↔◌, ◌∷◌, [], IfOk, IfErr, IsTrue, Some, false, option_map, true};
ghost use Rattle.clap.specs.Words.{App, FailsBy, HasKind, Shape, app_of, fault_of, found_of, is_simple};
ghost use Rattle.clap.specs.Words.{is_simple_and_free, kind_of, matches_of, rows_of, rule_of};
ghost use Rattle.clap.specs.Words.{shape_of, subcommand_of, subcommand_rows_of, with_subcommand};
ghost use Rattle.clap.specs.declared.builder.command.Command.{out-Command};
ghost use Rattle.phase_words.specs.CommandLine.{Asks, IsNoCall, IsShown};
ghost use Rattle.phase_words.specs.ClapErrors.{IsToldBy, bare_app};
ghost use Rattle.phase_words.specs.CommandLine.{asked_as, asked_by, asked_in, asked_of, asked_with};
ghost use Rattle.phase_words.specs.CommandLine.{graph_call_with, replay_with};
ghost use Rattle.phase_words.specs.CommandLine.{beside_rule, check_shape, columns_rule, draw_shape};
ghost use Rattle.phase_words.specs.CommandLine.{eval_as, eval_shape, explain_of, has_both, has_conflict, is_given, names_other};
ghost use Rattle.phase_words.specs.CommandLine.{explain_rule, graph_app, graph_rule, kinds_of};
ghost use Rattle.phase_words.specs.CommandLine.{phase_app, replay_by, replay_shape, script_rule};
ghost use Rattle.phase_words.specs.CommandLine.{sink_rule, strict_of, strict_rule, texts, workers_rule};

use crate::escape::refusal_text;
use crate::help::{
    BESIDE, BOTH, CHECK, CHECK_END, COLUMNS, DRAW, DRAW_END, EVAL, EVAL_END, EVAL_WORKERS, EXPLAIN,
    GRAPH, HELP, REPLAY, REPLAY_END, SCRIPT, SINK, STRICT, VERSION,
};
use crate::{Call, Explain, NoCall, Strict, WORKERS_MAX};
use clap::builder::ValueParser;
use clap::error::ErrorKind;
use clap::{Arg, ArgAction, ArgMatches, Command, Error};
use std::alloc::{AllocError, Global};

/// The word behind each command on a graph, which has to be given: the name of the graph's file.
pub(crate) fn graph_word<'a>(alloc: Global) -> Arg<'a>
    ensures rule { rule_of result ≡ graph_rule }
    ensures local { result.global ≡ false }
{
    Arg::new(alloc, "graph")
        .value_name("GRAPH")
        .help(GRAPH)
        .required(true)
}

/// The word behind `--sink`, which may be given: the name of a sink.
pub(crate) fn sink_word<'a>(alloc: Global) -> Arg<'a>
    ensures rule { rule_of result ≡ sink_rule }
    ensures local { result.global ≡ false }
{
    Arg::new(alloc, "sink")
        .long("sink")
        .value_name("NAME")
        .help(SINK)
}

/// The word `--columns`, which may be given.
pub(crate) fn columns_word<'a>(alloc: Global) -> Arg<'a>
    ensures rule { rule_of result ≡ columns_rule }
    ensures local { result.global ≡ false }
{
    Arg::new(alloc, "columns")
        .long("columns")
        .action(ArgAction::SetTrue)
        .help(COLUMNS)
}

/// The word `--beside`, which may be given.
pub(crate) fn beside_word<'a>(alloc: Global) -> Arg<'a>
    ensures rule { rule_of result ≡ beside_rule }
    ensures local { result.global ≡ false }
{
    Arg::new(alloc, "beside")
        .long("beside")
        .action(ArgAction::SetTrue)
        .help(BESIDE)
}

/// The word behind `--workers`, which may be given, with this text of help: how many threads there
/// are.
pub(crate) fn workers_word<'a>(alloc: Global, help: &'a str) -> Arg<'a>
    ensures rule { rule_of result ≡ workers_rule }
    ensures local { result.global ≡ false }
{
    Arg::new(alloc, "workers")
        .long("workers")
        .value_name("N")
        .value_parser(ValueParser::unsigned(1, WORKERS_MAX as u64))
        .help(help)
}

/// The word `--explain`, which may be given.
pub(crate) fn explain_word<'a>(alloc: Global) -> Arg<'a>
    ensures rule { rule_of result ≡ explain_rule }
    ensures local { result.global ≡ false }
{
    Arg::new(alloc, "explain")
        .long("explain")
        .action(ArgAction::SetTrue)
        .help(EXPLAIN)
}

/// A command with one word, the name of a graph's file.
fn graph_command<'a>(
    alloc: Global,
    name: &'a str,
    about: &'a str,
    end: &'a str,
) -> Result<Command<'a>, AllocError>
    ensures app { IfOk result (λ c. app_of c ≡ graph_app name.now) }
    ensures local { IfOk result (λ c. (out-Command c).has_globals ≡ false) }
{
    Command::new(alloc, name)
        .about(about)
        .after_help(end)
        .arg(graph_word(alloc))
}

/// The command `check`.
fn check_command<'a>(alloc: Global) -> Result<Command<'a>, AllocError>
    ensures shape { IfOk result (λ c. shape_of c ≡ check_shape) }
    ensures local { IfOk result (λ c. (out-Command c).has_globals ≡ false) }
{
    graph_command(alloc, "check", CHECK, CHECK_END)?
        .arg(beside_word(alloc))?
        .arg(explain_word(alloc))
}

/// The command `eval`.
fn eval_command<'a>(alloc: Global) -> Result<Command<'a>, AllocError>
    ensures shape { IfOk result (λ c. shape_of c ≡ eval_shape) }
    ensures local { IfOk result (λ c. (out-Command c).has_globals ≡ false) }
{
    graph_command(alloc, "eval", EVAL, EVAL_END)?
        .arg(sink_word(alloc))?
        .arg(columns_word(alloc))?
        .arg(beside_word(alloc))?
        .arg(workers_word(alloc, EVAL_WORKERS))?
        .arg(explain_word(alloc))
}

/// The command `draw`.
fn draw_command<'a>(alloc: Global) -> Result<Command<'a>, AllocError>
    ensures shape { IfOk result (λ c. shape_of c ≡ draw_shape) }
    ensures local { IfOk result (λ c. (out-Command c).has_globals ≡ false) }
{
    graph_command(alloc, "draw", DRAW, DRAW_END)?.arg(explain_word(alloc))
}

/// A command line under the program's name, with no word, no command and no version.
pub(crate) fn bare_command<'a>(
    alloc: Global,
    name: &'a str,
    about: &'a str,
    end: &'a str,
) -> Result<Command<'a>, AllocError>
    ensures { IfOk result (λ c. app_of c ≡ bare_app) }
{
    Command::new(alloc, "phase")
        .no_binary_name(true)
        .about(about)
        .after_help(end)
        .bin_name(name)
}

/// The word behind `replay`, which may be given: the name of a script's file.
fn script_word<'a>(alloc: Global) -> Arg<'a>
    ensures rule { rule_of result ≡ script_rule }
    ensures local { result.global ≡ false }
{
    Arg::new(alloc, "script").value_name("FILE").help(SCRIPT)
}

/// The word `--strict`, which may be given.
fn strict_word<'a>(alloc: Global) -> Arg<'a>
    ensures rule { rule_of result ≡ strict_rule }
    ensures local { result.global ≡ false }
{
    Arg::new(alloc, "strict")
        .long("strict")
        .action(ArgAction::SetTrue)
        .help(STRICT)
}

/// The command `replay`.
fn replay_command<'a>(alloc: Global) -> Result<Command<'a>, AllocError>
    ensures shape { IfOk result (λ c. shape_of c ≡ replay_shape) }
    ensures local { IfOk result (λ c. (out-Command c).has_globals ≡ false) }
{
    Command::new(alloc, "replay")
        .about(REPLAY)
        .after_help(REPLAY_END)
        .arg(script_word(alloc))?
        .arg(strict_word(alloc))
}

/// A command line with one more command, where there was memory for that.
fn with_command<'a>(
    top: Command<'a>,
    command: Result<Command<'a>, AllocError>,
) -> Result<Command<'a>, AllocError>
    ensures { (shape : Shape)
        → IfOk command.entry (λ c. shape_of c ≡ shape)
        → IfOk command.entry (λ c. (out-Command c).has_globals ≡ false)
        → IfOk result (λ c. app_of c ≡ with_subcommand (app_of top.entry) shape) }
{
    top.subcommand(command?)
}

/// The program's command line.
fn command<'a>(alloc: Global) -> Result<Command<'a>, AllocError>
    ensures { IfOk result (λ c. app_of c ≡ phase_app) }
{
    let top = bare_command(alloc, "phase", "", "")?;
    let top = top.version(VERSION).override_help(HELP);
    let top = with_command(top, replay_command(alloc))?;
    let top = with_command(top, check_command(alloc))?;
    let top = with_command(top, eval_command(alloc))?;
    with_command(top, draw_command(alloc))
}

/// What the words ask for, by what clap found in them.
fn call_of<'a>(matches: &ArgMatches<'a>) -> Call<'a>
    ensures { asked_of result ≡ asked_by (subcommand_rows_of matches.now) }
{
    match matches.subcommand() {
        Some((name, own)) => call_with(name, own),
        None => Call::Replay,
    }
}

/// What a command of this name asks for, by what clap found for its words.
fn call_with<'a>(name: &str, own: &ArgMatches<'a>) -> Call<'a>
    ensures { asked_of result ≡ asked_with name.now (rows_of (found_of own.now)) }
{
    if name == "replay" {
        return replay_with(own);
    }
    graph_call_with(name, own)
}

/// What `replay` asks for, by what clap found for its words.
fn replay_with<'a>(own: &ArgMatches<'a>) -> Call<'a>
    ensures { asked_of result ≡ replay_with (rows_of (found_of own.now)) }
{
    replay_of(
        own.get_str("script").unwrap_or("-"),
        strict_of(own.get_str("strict")),
    )
}

/// What a command on a graph asks for, by what clap found for its words.
fn graph_call_with<'a>(name: &str, own: &ArgMatches<'a>) -> Call<'a>
    ensures { asked_of result ≡ graph_call_with name.now (rows_of (found_of own.now)) }
{
    call_named(
        name,
        own.get_str("graph").unwrap_or(""),
        own.get_str("sink"),
        is_given(own.get_str("columns")),
        is_given(own.get_str("beside")),
        explain_of(own.get_str("explain")),
    )
}

/// A replay of the script of this name, which is standard input where it is `-`.
fn replay_of<'a>(script: &'a str, strict: Strict) -> Call<'a>
    ensures { asked_of result ≡ replay_by strict script.now }
{
    if strict == Strict::No && script == "-" {
        return Call::Replay;
    }
    Call::ReplayFile { script, strict }
}

/// Whether the value that clap gives `--strict`, or none, is that of a flag that stands there.
fn strict_of(value: Option<&str>) -> Strict
    ensures { result ≡ strict_of (option_map (λ s. s.now) value.entry) }
{
    match value {
        Some(value) if value == "true" => Strict::Yes,
        _ => Strict::No,
    }
}

/// Whether the value that clap gives a flag, or none, is that of one that stands there.
pub(crate) fn is_given(value: Option<&str>) -> bool
    ensures { result ≡ is_given (option_map (λ s. s.now) value.entry) }
{
    match value {
        Some(value) => value == "true",
        None => false,
    }
}

/// Whether the value that clap gives `--explain`, or none, is that of a flag that stands there.
pub(crate) fn explain_of(value: Option<&str>) -> Explain
    ensures { result ≡ explain_of (option_map (λ s. s.now) value.entry) }
{
    match value {
        Some(value) if value == "true" => Explain::Yes,
        _ => Explain::No,
    }
}

/// An evaluation of a graph, as columns, or for all sinks or one.
fn eval_as<'a>(
    columns: bool,
    graph: &'a str,
    sink: Option<&'a str>,
    beside: bool,
    explain: Explain,
) -> Call<'a>
    ensures { asked_of result
        ≡ eval_as columns beside explain graph.now (option_map (λ s. s.now) sink.entry) }
{
    if columns {
        return Call::Columns {
            graph,
            explain,
            beside,
        };
    }
    Call::Eval {
        graph,
        sink,
        explain,
        beside,
    }
}

/// What a command with the name of a file, that of a sink or none, and these flags asks for.
fn call_named<'a>(
    name: &str,
    graph: &'a str,
    sink: Option<&'a str>,
    columns: bool,
    beside: bool,
    explain: Explain,
) -> Call<'a>
    ensures { asked_of result ≡ asked_as name.now (Some graph.now)
        (option_map (λ s. s.now) sink.entry) columns beside explain }
{
    if name == "check" {
        return Call::Check {
            graph,
            explain,
            beside,
        };
    }
    if name == "eval" {
        return eval_as(columns, graph, sink, beside, explain);
    }
    if name == "draw" {
        return Call::Draw { graph, explain };
    }
    Call::Replay
}

/// What clap finds in the words by a command line, where there was memory for that.
pub(crate) fn found_by<'a>(
    command: Result<Command<'a>, AllocError>,
    words: &'a [String],
) -> Result<ArgMatches<'a>, Error>
    ensures fails { (app : App) → is_simple_and_free app ≡ true
        → IfOk command.entry (λ c. app_of c ≡ app)
        → FailsBy (fault_of app (texts words.now)) result }
    ensures found { (app : App) → is_simple app ≡ true
        → IfOk command.entry (λ c. app_of c ≡ app)
        → IfOk result (λ m. rows_of (found_of m) ≡ matches_of app (texts words.now)) }
    ensures command { (app : App) → is_simple app ≡ true
        → IfOk command.entry (λ c. app_of c ≡ app)
        → IfOk result (λ m. subcommand_rows_of m ≡ subcommand_of app (texts words.now)) }
{
    command?.try_get_matches_from(words)
}

/// Reads the words by clap.
fn parse<'a>(alloc: Global, words: &'a [String]) -> Result<Call<'a>, Error>
    ensures fails { FailsBy (kinds_of (texts words.now)) result }
    ensures call { IfOk result (λ call. asked_of call ≡ asked_in (texts words.now)) }
{
    let matches = found_by(command(alloc), words)?;
    if has_conflict(&matches) {
        return Err(conflict(alloc));
    }
    Ok(call_of(&matches))
}

/// Whether `--columns` stands there with `--sink` or `--workers`.
fn has_conflict(matches: &ArgMatches<'_>) -> bool
    ensures { result ≡ has_conflict (subcommand_rows_of matches.now) }
{
    match matches.subcommand() {
        Some((_name, own)) => has_both(own),
        None => false,
    }
}

/// Whether it does, by what clap found for a command's words.
fn has_both(own: &ArgMatches<'_>) -> bool
    ensures { result ≡ has_both (rows_of (found_of own.now)) }
{
    is_given(own.get_str("columns")) && names_other(own)
}

/// Whether `--sink` or `--workers` stands there, by what clap found for a command's words.
fn names_other(own: &ArgMatches<'_>) -> bool
    ensures { result ≡ names_other (rows_of (found_of own.now)) }
{
    let sink = own.get_str("sink");
    let workers = own.get_str("workers");
    sink.is_some() || workers.is_some()
}

/// What is told of `--columns` beside one of them, as clap tells of words in conflict.
fn conflict(alloc: Global) -> Error
    ensures { HasKind (ErrorKind.ArgumentConflict ∷ []) result }
{
    match conflict_error(alloc) {
        Ok(error) => error,
        Err(lack) => Error::from(lack),
    }
}

/// The error of that, where there is memory for its text.
fn conflict_error(alloc: Global) -> Result<Error, AllocError>
    ensures { IfOk result (λ e. kind_of e ≡ ErrorKind.ArgumentConflict) }
{
    let mut command = eval_command(alloc)?.bin_name("phase eval")?;
    command.error(ErrorKind::ArgumentConflict, BOTH)
}

/// Whether an answer of this kind is what was asked for, help or the version, and no refusal.
fn is_shown(kind: ErrorKind) -> bool
    ensures { IsTrue result ↔ IsShown kind }
{
    kind == ErrorKind::DisplayHelp || kind == ErrorKind::DisplayVersion
}

/// What clap says in place of taking the words, with its text.
pub(crate) fn no_call(alloc: Global, error: &Error) -> NoCall
    ensures { IsToldBy (kind_of error.now) result }
{
    let kind = error.kind();
    if kind == ErrorKind::OutOfMemory {
        return NoCall::OutOfMemory;
    }
    let Ok(text) = error.to_string(alloc) else {
        return NoCall::OutOfMemory;
    };
    if is_shown(kind) {
        return NoCall::Shown(text);
    }
    match refusal_text(alloc, &text, kind) {
        Ok(text) => NoCall::Refused(text),
        Err(_) => NoCall::OutOfMemory,
    }
}

/// Reads the words after the program's own name. Where they ask for help or for the version, or are
/// refused, the text is clap's.
pub fn read_words<'a>(alloc: Global, words: &'a [String]) -> Result<Call<'a>, NoCall>
    ensures call { IfOk result (λ call. Asks (texts words.now) (asked_of call)) }
    ensures no_call { IfErr result (λ none. IsNoCall (texts words.now) none) }
{
    match parse(alloc, words) {
        Ok(call) => Ok(call),
        Err(error) => Err(no_call(alloc, &error)),
    }
}
