//! What the words ask for, as plain data.

use watched_io::Explain;

/// Whether a replay ends at the first line that is refused.
#[derive(Clone, Copy, Debug, PartialEq, Eq)]
pub enum Strict {
    /// It goes on to the script's end.
    No,
    /// It ends there.
    Yes,
}

/// What the words ask for.
#[derive(Clone, Copy, Debug, PartialEq, Eq)]
pub enum Call<'a> {
    /// A replay of the script on standard input, to its end.
    Replay,
    /// A replay of the script in the file of this name.
    ReplayFile {
        script: &'a str,
        strict: Strict,
    },
    /// A check of the graph in the file of this name. Here and below `beside` says whether the
    /// files of its sources are opened beside it.
    Check {
        graph: &'a str,
        explain: Explain,
        beside: bool,
    },
    /// An evaluation of the graph in the file of this name, for all its sinks, or for the one of a
    /// name.
    Eval {
        graph: &'a str,
        sink: Option<&'a str>,
        explain: Explain,
        beside: bool,
    },
    /// An evaluation of it whose sinks are the columns of a table.
    Columns {
        graph: &'a str,
        explain: Explain,
        beside: bool,
    },
    /// A drawing of the graph in the file of this name.
    Draw {
        graph: &'a str,
        explain: Explain,
    },
}

/// How many workers a run has where none are named.
pub const WORKERS: usize = 4;

/// The most workers that a run may have.
pub const WORKERS_MAX: usize = 16;

/// What the words behind `phase run` ask for: a run of the graph in the file of a name, for all its
/// sinks, or for the one of a name, by so many worker threads, from 1 to `WORKERS_MAX`.
#[derive(Clone, Copy, Debug, PartialEq, Eq)]
pub struct RunCall<'a> {
    pub graph: &'a str,
    pub sink: Option<&'a str>,
    pub workers: usize,
    pub explain: Explain,
    pub beside: bool,
    /// Whether it is told at the end what each task did.
    pub counts: bool,
}

/// A sink, and the file that its values go to, each by its name.
#[derive(Clone, Copy, Debug, PartialEq, Eq)]
pub struct SinkFile<'a> {
    pub sink: &'a str,
    pub file: &'a str,
}

/// What the words behind `phase stream` ask for: the values, as they come, of sinks of the graph in
/// the file of a name.
#[derive(Debug, Drop)]
pub struct StreamCall<'a> {
    pub graph: &'a str,
    /// The sink whose values go to the output. Where none is named, and no other either, it is the
    /// only one.
    pub sink: Option<&'a str>,
    /// The sinks whose values go to files.
    pub files: Vec<SinkFile<'a>>,
    /// Whether all sinks go to the output as the columns of a table. Then none is named.
    pub columns: bool,
    pub explain: Explain,
    pub beside: bool,
}

/// Why the words give no call.
#[derive(Debug, Drop)]
pub enum NoCall {
    /// Help or the version is asked for. This is its text.
    Shown(String),
    /// The words are refused. This is clap's text, which says why.
    Refused(String),
    /// Memory ran out.
    OutOfMemory,
}
