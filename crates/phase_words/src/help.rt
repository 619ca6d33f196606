//! The texts of help.

/// The version of the program and of its libraries.
pub(crate) const VERSION: &str = "0.2.0";

/// What `replay` does, in the list of commands.
pub(crate) const REPLAY: &str = "Replays the script, as `phase` with no command does";

/// What the word behind `replay` is.
pub(crate) const SCRIPT: &str =
    "The file of the script, of at most 1073741824 bytes: - for standard input, as with none";

/// What the word `--strict` is.
pub(crate) const STRICT: &str =
    "End with status 1 at the first line that is refused. The script is read whole before";

/// What `check` does.
pub(crate) const CHECK: &str = "Reads a graph and the samples of its sources";

/// What `eval` does.
pub(crate) const EVAL: &str = "Writes the values of each sink of a graph";

/// What `draw` does.
pub(crate) const DRAW: &str = "Writes a drawing of a graph, as text for Graphviz";

/// What the word behind each command on a graph is.
pub(crate) const GRAPH: &str =
    "The file of the graph, of at most 1048576 bytes: - for standard input";

/// What the word behind `--sink` is.
pub(crate) const SINK: &str = "Write the values of this sink alone, each on a line";

/// What the word behind `--to` is.
pub(crate) const TO: &str = "Write the values of this sink to this file, which is made anew";

/// What is said of a word behind `--to` that names no file.
pub(crate) const TO_LACKS: &str =
    "a value of '--to <SINK=FILE>' has no '=' between a sink and a file";

/// What is said of a sink or a file that stands twice.
pub(crate) const TO_TWICE: &str =
    "'--to <SINK=FILE>' and '--sink <NAME>' cannot name one sink, or one file, twice";

/// What the word `--columns` is.
pub(crate) const COLUMNS: &str =
    "Write a table: a line of the sinks' names, then one for each step, with commas";

/// What is said of `--columns` beside `--sink` or `--workers`.
pub(crate) const BOTH: &str =
    "the argument '--columns' cannot be used with '--sink <NAME>' or '--workers <N>'";

/// What is said of `--columns` beside sinks that a stream names.
pub(crate) const COLUMNS_BESIDE: &str =
    "the argument '--columns' cannot be used with '--sink <NAME>' or '--to <SINK=FILE>'";

/// What the word `--beside` is.
pub(crate) const BESIDE: &str = "Open the files of the graph's sources in the graph's folder";

/// What the word `--explain` is.
pub(crate) const EXPLAIN: &str =
    "Say more of a fault, behind its line, and of a graph that is checked";

/// What `phase run` does.
pub(crate) const RUN: &str = "\
Writes the values of each sink of a graph, by a run of its tasks on worker
threads.";

/// What `phase stream` does.
pub(crate) const STREAM: &str = "\
Writes the values of a sink of a graph as its samples come, a line each, for as
long as they come, and those of others to files.";

/// What the word `--counts` is.
pub(crate) const COUNTS: &str = "Tell what each task did, behind all values, on standard error";

/// What the word behind `--workers` is, of a run.
pub(crate) const RUN_WORKERS: &str =
    "How many worker threads, from 1 to 16: 4 where none are named";

/// What it is of an evaluation.
pub(crate) const EVAL_WORKERS: &str =
    "How many threads make long lists, from 1 to 16: 1 where none are named";

/// The program's help, whole: clap is not told of `run` and `stream`, which read their own words.
pub(crate) const HELP: &str = "\
Replays a script of calls on a phaser, a barrier on which the tasks of a phase
also add up a value, or evaluates a graph of filters over phasers. A script is
read from standard input, a call a line, and each line is answered by one line
on standard output.

Usage: phase [COMMAND]

Commands:
  replay  Replays the script, as `phase` with no command does
  check   Reads a graph and the samples of its sources
  eval    Writes the values of each sink of a graph
  run     Writes the values of each sink of a graph, by a run on threads
  stream  Writes the values of a sink of a graph, as its samples come
  draw    Writes a drawing of a graph, as text for Graphviz
  help    Writes this, and behind the name of a command what that does

Options:
  -h, --help     Print help
  -V, --version  Print version

Example, with the reply to each line and what it means:
  make sum 2 100    ok           a phaser that adds up, for phases 0 to 99
  add 0 1 sig       ok           task 0, which founded it, registers task 1
  send 0 3          ok           task 0 sends 3
  send 1 4          ok           task 1 sends 4
  signal 1          ok 0         task 1 has done its part of phase 0
  signal 0          ok 0         and so has task 0
  wait 0            value 0 7    phase 0 is complete, and its value is 7
A line that is no call is answered by `bad line`.

Behind each command on a graph --explain says more of a fault, with a mark under
the word, and of a graph that is checked.

Exit status: 0 done; 1 a graph or its samples are refused, or a line of a strict
replay; 2 the words were not understood; 3 a value of a graph is out of range; 4
every task of a run or a stream that was left waited for another; 5 a read or a
write failed, or memory ran out.";

/// The end of the help of `replay`.
pub(crate) const REPLAY_END: &str = "\
`phase --help` shows a script, with the reply to each line.

Exit status: 0 done; 1 a line of a strict replay is refused; 2 the words were not
understood; 5 a read or a write failed, or memory ran out.";

/// The end of the help of `check`.
pub(crate) const CHECK_END: &str = "\
Example: where the file `sums` holds the three lines
  phaser X sum 4
  source s numbers -> X
  sink out X
and the file `numbers` the lines 1, 2 and 3, `phase check sums` writes
  ok phasers 1 tasks 2

Files are opened from the current folder, by their names as they are written,
and with --beside those of the sources in the folder of the graph.

Exit status: 0 done; 1 the graph or its samples are refused; 2 the words were
not understood; 5 a read or a write failed, or memory ran out.";

/// The end of the help of `eval`.
pub(crate) const EVAL_END: &str = "\
Example: where the file `sums` holds the five lines
  phaser X sum 4
  phaser Y sum 4
  source s numbers -> X
  fir f X -> Y shift 0 taps 1 1
  sink out Y
and the file `numbers` the lines 1, 2 and 3, `phase eval sums` writes
  out 3
  1
  3
  5
and `phase eval sums --sink out` the last three of these lines, which may be the
samples of another source. With --columns the first line is `out`.

The output is the same by any number of threads. A program without `run` has one.

Files are opened from the current folder, by their names as they are written,
and with --beside those of the sources in the folder of the graph.

Exit status: 0 done; 1 the graph or its samples are refused, or no sink has the
name; 2 the words were not understood; 3 a value is out of range; 5 a read or a
write failed, or memory ran out.";

/// The end of the help of `draw`.
pub(crate) const DRAW_END: &str = "\
Example: where the file `sums` holds the three lines
  phaser X sum 4
  source s numbers -> X
  sink out X
`phase draw sums` writes
  digraph {
      rankdir=LR;
      \"X\" [shape=ellipse, label=\"X\\nsum 4\"];
      \"s\" [shape=box, label=\"s\\nsource\\nnumbers\"];
      \"out\" [shape=box, label=\"out\\nsink\"];
      \"s\" -> \"X\";
      \"X\" -> \"out\";
  }
No file of samples is read.

Exit status: 0 done; 1 the graph is refused; 2 the words were not understood; 5 a
read or a write failed, or memory ran out.";

/// The end of the help of `run`.
pub(crate) const RUN_END: &str = "\
Example: where the file `sums` holds the five lines
  phaser X sum 4
  phaser Y sum 4
  source s numbers -> X
  fir f X -> Y shift 0 taps 1 1
  sink out Y
and the file `numbers` the lines 1, 2 and 3, `phase run sums` writes
  out 3
  1
  3
  5

`phase eval` writes the same values, and is the faster one for most graphs. With
four filters of 64 taps it took 0.05 s for 300,000 samples, and a run by 2
workers 0.08 s at bound 64 and 0.77 s at bound 1. A run shows whether the graph
stands still within its bounds, and where sinks join while it runs.

Files are opened from the current folder, by their names as they are written,
and with --beside those of the sources in the folder of the graph.

Exit status: 0 done; 1 the graph or its samples are refused, or no sink has the
name; 2 the words were not understood; 3 a value is out of range; 4 every task
that was left waited for another; 5 a read or a write failed, or memory ran out.";

/// The end of the help of `stream`.
pub(crate) const STREAM_END: &str = "\
Example: where the file `sums` holds the five lines
  phaser X sum 4
  phaser Y sum 4
  source s - -> X
  fir f X -> Y shift 0 taps 1 1
  sink out Y
and the lines 1, 2 and 3 come on standard input, `phase stream sums` writes
  1
  3
  5
and each of them as soon as its sample is in.

The values are of the sink of the name, or of the only one. Behind --to, which
may stand there more than once, are a sink and the file that its values go to:
with `--to x=log --to y=-` those of `x` go to the file `log`, and those of `y`
to standard output, as with --sink y. The files are made anew before the first
sample is read, and a pipe of the name waits for its reader. A sink that is
named nowhere is read and thrown away. With --columns all sinks go to standard
output as a table, a line as soon as each of them has its value or has ended,
as `phase eval --columns` writes them.

The file of a source may be a pipe, and - is standard input, for one source. It
is opened when the graph waits for its first sample. There is no limit on how
many samples come, and memory does not grow with them. Of a table some 65,536
values of a sink wait for those of slower ones, and then no more is read.

Control-C ends it, and leaves all values of the samples that came, in whole
lines.

Files are opened from the current folder, by their names as they are written,
and with --beside those of the sources in the folder of the graph.

Exit status: 0 done; 1 the graph or its samples are refused, no sink has the
name, or none is named of several; 2 the words were not understood; 3 a value is
out of range; 4 every task that was left waited for another; 5 a read or a write
failed, a file could not be made, or is read or written already, or memory ran
out. The values before a fault are written.";
