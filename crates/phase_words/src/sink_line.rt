//! What the command lines behind `phase run` and `phase stream` have in common.
ghost use Rattle.std.specs.Prelude.{◌≡◌, IfOk};
ghost use Rattle.clap.specs.Words.{app_of, found_of, rows_of};
ghost use Rattle.phase_words.specs.SinkLine.{graph_by, sink_app};

use crate::command_line::{bare_command, beside_word, graph_word, sink_word};
use clap::{ArgMatches, Command};
use std::alloc::{AllocError, Global};

/// A command line with the names of a graph's file and of a sink, and `--beside`.
pub(crate) fn sink_command<'a>(
    alloc: Global,
    name: &'a str,
    about: &'a str,
    end: &'a str,
) -> Result<Command<'a>, AllocError>
    ensures { IfOk result (λ c. app_of c ≡ sink_app) }
{
    bare_command(alloc, name, about, end)?
        .arg(graph_word(alloc))?
        .arg(sink_word(alloc))?
        .arg(beside_word(alloc))
}

/// The name of the graph's file, by what clap found in the words.
pub(crate) fn graph_of<'a>(matches: &ArgMatches<'a>) -> &'a str
    ensures { result.now ≡ graph_by (rows_of (found_of matches.now)) }
{
    matches.get_str("graph").unwrap_or("")
}
