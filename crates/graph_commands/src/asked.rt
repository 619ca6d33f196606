//! The job of a graph's file, and which of its sinks are asked for.
ghost use Rattle.std.specs.Prelude.{◌≡◌, ℕ, List, OnOk, OnErr, IfOk, IfErr, map, option_map, true};
ghost use Rattle.std.specs.Io.KnownBytes.{Appends};
ghost use Rattle.graph_commands.specs.Failures.{IsUnasked};
ghost use Rattle.graph_commands.specs.FileJobs.{IsJobOf};
ghost use Rattle.graph_commands.specs.GraphRuns.{AsksSink};
ghost use Rattle.graph_commands.specs.OutputTexts.{lines_text};
ghost use Rattle.stream_eval.specs.Results.{sink_output, sink_values};
ghost use Rattle.stream_lists.specs.Jobs.{with_starts};
ghost use Rattle.stream_lists.specs.Lists.{lines_of};
ghost use Rattle.watched_io.specs.Prefix.{AppendsPrefix};
ghost use Rattle.watched_io.specs.Watched.{has_failed_of, inner_of};

use crate::lines::write_values_by;
use crate::sinks::{find_sink, values_of};
use crate::{Failure, ValueTexts, read_job, write_lines};
use graph_lang::SampleTexts;
use std::alloc::Global;
use std::io::Write;
use stream_eval::Lines;
use stream_lists::Job;
use watched_io::{Files, Watched, WriteFailed};

/// A job, and what is asked for of it.
#[derive(Drop)]
pub struct AskedJob {
    /// The job.
    pub job: Job,
    /// The number of the sink that is asked for, or none where all are.
    pub sink: Option<usize>,
}

/// Reads the job of a graph's file, as `read_job` does, and finds the sink of the name that is
/// asked for.
pub fn read_asked<'a, F: Files, T: SampleTexts>(
    alloc: Global,
    files: &mut F,
    texts: &T,
    name: &str,
    sink: Option<&'a str>,
) -> Result<AskedJob, Failure<'a>>
    requires { T.may_read texts.now }
    ensures job { IfOk result (λ asked. IsJobOf (F.file files.old) name.now asked.job) }
    ensures sink { IfOk result (λ asked.
        AsksSink asked.job (option_map (λ s. s.now) sink.entry) asked.sink) }
    ensures failed { IfErr result (λ found.
        IsUnasked (F.file files.old) name.now (option_map (λ s. s.now) sink.entry) found) }
    ensures same { (other : List ℕ) → F.file files.new other ≡ F.file files.old other }
{
    let job = match read_job(alloc, files, texts, name) {
        Ok(job) => job,
        Err(failure) => return Err(failure),
    };
    let Some(name) = sink else {
        return Ok(AskedJob { job, sink: None });
    };
    match find_sink(&job, name) {
        Some(t) => Ok(AskedJob { job, sink: Some(t) }),
        None => Err(Failure::NoSink { job, name }),
    }
}

/// Writes the text of each of these sinks of a job, or the values of the one of this number alone.
/// The lines are those of the job, for some starts of its sinks that join now. It takes no memory
/// but what `texts` takes. After a failed write the writer has a prefix of them.
pub fn write_sinks<W: Write, T: ValueTexts>(
    writer: &mut Watched<W>,
    texts: &T,
    job: &Job,
    lines: &[Lines],
    sink: Option<usize>,
) -> Result<(), WriteFailed>
    requires may { T.may_write texts.now }
    requires lines { (starts : List ℕ)
        × (map sink_values lines.now ≡ lines_of (with_starts starts job.now)) }
    ensures ok { OnOk result (Appends (W.contents (inner_of writer.old))
        (W.contents (inner_of writer.new))
        (lines_text job.now.graph (map sink_output lines.now) sink)) }
    ensures err { OnErr result (AppendsPrefix (W.contents (inner_of writer.old))
        (W.contents (inner_of writer.new))
        (lines_text job.now.graph (map sink_output lines.now) sink)) }
    ensures failed { OnErr result (has_failed_of writer.new ≡ true) }
{
    match sink {
        None => write_lines(writer, texts, job.graph(), lines),
        Some(t) => write_values_by(writer, texts, values_of(lines, t)),
    }
}
