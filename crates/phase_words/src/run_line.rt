//! The words behind `phase run`, and behind `phase eval` by workers, as clap reads them.
ghost use Rattle.std.specs.Prelude.{◌≡◌, IfOk, IfErr, false, true, option_map};
ghost use Rattle.clap.specs.Words.{App, FailsBy, app_of, fault_of, found_of, is_simple};
ghost use Rattle.clap.specs.Words.{is_simple_and_free, matches_of, rows_of, rule_of};
ghost use Rattle.phase_words.specs.CommandLine.{ExplainsNone, texts};
ghost use Rattle.phase_words.specs.RunLine.{AsksRun, AsksWorkers, counts_rule, run_app, run_by};
ghost use Rattle.phase_words.specs.RunLine.{run_kinds_of, run_of, workers_app, workers_kinds_of};
ghost use Rattle.phase_words.specs.RunLine.{workers_of};

use crate::command_line::{explain_of, explain_word, found_by, is_given, no_call, workers_word};
use crate::help::{COUNTS, EVAL, EVAL_END, EVAL_WORKERS, RUN, RUN_END, RUN_WORKERS};
use crate::sink_line::{graph_of, sink_command};
use crate::{NoCall, RunCall, WORKERS, WORKERS_MAX};
use clap::{Arg, ArgAction, ArgMatches, Command, Error};
use std::alloc::{AllocError, Global};

/// The word `--counts`, which may be given.
fn counts_word<'a>(alloc: Global) -> Arg<'a>
    ensures rule { rule_of result ≡ counts_rule }
    ensures local { result.global ≡ false }
{
    Arg::new(alloc, "counts")
        .long("counts")
        .action(ArgAction::SetTrue)
        .help(COUNTS)
}

/// The command line behind `phase eval` with `--workers`, and the front of that behind `phase run`,
/// of this name and with these texts of help, of which one is about the workers.
fn workers_command<'a>(
    alloc: Global,
    name: &'a str,
    about: &'a str,
    end: &'a str,
    workers: &'a str,
) -> Result<Command<'a>, AllocError>
    ensures { IfOk result (λ c. app_of c ≡ workers_app) }
{
    sink_command(alloc, name, about, end)?
        .arg(workers_word(alloc, workers))?
        .arg(explain_word(alloc))
}

/// The command line behind `phase run`.
fn run_command<'a>(alloc: Global) -> Result<Command<'a>, AllocError>
    ensures { IfOk result (λ c. app_of c ≡ run_app) }
{
    workers_command(alloc, "phase run", RUN, RUN_END, RUN_WORKERS)?.arg(counts_word(alloc))
}

/// The command line behind `phase eval`, of whose words one is `--workers`.
fn by_workers_command<'a>(alloc: Global) -> Result<Command<'a>, AllocError>
    ensures { IfOk result (λ c. app_of c ≡ workers_app) }
{
    workers_command(alloc, "phase eval", EVAL, EVAL_END, EVAL_WORKERS)
}

/// What the words ask for, by what clap found in them.
fn call_of<'a>(matches: &ArgMatches<'a>) -> RunCall<'a>
    ensures { run_of result ≡ run_by (rows_of (found_of matches.now)) }
{
    RunCall {
        graph: graph_of(matches),
        sink: matches.get_str("sink"),
        workers: workers_of(matches.get_str("workers")),
        explain: explain_of(matches.get_str("explain")),
        beside: is_given(matches.get_str("beside")),
        counts: is_given(matches.get_str("counts")),
    }
}

/// How many workers this word asks for, which clap has taken, or none where there is no word.
fn workers_of(word: Option<&str>) -> usize
    ensures { result ≡ workers_of (option_map (λ s. s.now) word.entry) }
{
    let Some(word) = word else {
        return WORKERS;
    };
    match word.parse::<usize>() {
        Ok(workers) if (1..=WORKERS_MAX).contains(&workers) => workers,
        _ => WORKERS,
    }
}

/// Reads the words by clap, which has this command line.
fn parse<'a>(
    command: Result<Command<'a>, AllocError>,
    words: &'a [String],
) -> Result<RunCall<'a>, Error>
    ensures fails { (app : App) → is_simple_and_free app ≡ true
        → IfOk command.entry (λ c. app_of c ≡ app)
        → FailsBy (fault_of app (texts words.now)) result }
    ensures call { (app : App) → is_simple app ≡ true
        → IfOk command.entry (λ c. app_of c ≡ app)
        → IfOk result (λ call. run_of call ≡ run_by (matches_of app (texts words.now))) }
{
    let matches = found_by(command, words)?;
    Ok(call_of(&matches))
}

/// Reads the words behind `phase run`. Where they ask for help, or are refused, the text is that of
/// clap.
pub fn read_run_words<'a>(alloc: Global, words: &'a [String]) -> Result<RunCall<'a>, NoCall>
    ensures call { IfOk result (λ call. AsksRun (texts words.now) (run_of call)) }
    ensures no_call { IfErr result (λ none. ExplainsNone (run_kinds_of (texts words.now)) none) }
{
    match parse(run_command(alloc), words) {
        Ok(call) => Ok(call),
        Err(error) => Err(no_call(alloc, &error)),
    }
}

/// Reads the words behind `phase eval`, of which one is `--workers`. Where they ask for help, or
/// are refused, the text is that of clap.
pub fn read_eval_words<'a>(alloc: Global, words: &'a [String]) -> Result<RunCall<'a>, NoCall>
    ensures call { IfOk result (λ call. AsksWorkers (texts words.now) (run_of call)) }
    ensures no_call { IfErr result (λ none.
        ExplainsNone (workers_kinds_of (texts words.now)) none) }
{
    match parse(by_workers_command(alloc), words) {
        Ok(call) => Ok(call),
        Err(error) => Err(no_call(alloc, &error)),
    }
}
