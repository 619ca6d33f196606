//! The sink that is asked for by its name.
ghost use Rattle.std.specs.Prelude.{◌≡◌, ◌<◌, length, map, ◌&&◌};
ghost use Rattle.stream_eval.specs.Results.{sink_output};
ghost use Rattle.stream_lists.specs.Lists.{is_sink_at};
ghost use Rattle.graph_base.specs.Graphs.{name_at};
ghost use Rattle.graph_base.specs.declared.place.Place.TheVariants as place;
ghost use Rattle.std.specs.Str.{bytes_eq};
ghost use Rattle.graph_commands.specs.GraphRuns.{sink_named};
ghost use Rattle.graph_commands.specs.OutputTexts.{values_of_sink};

use graph_base::Place;
use stream_eval::Lines;
use stream_lists::Job;

/// The number of the sink of this name, where a job has one. It takes no memory.
pub fn find_sink(job: &Job, name: &str) -> Option<usize>
    ensures { result ≡ sink_named job.now name.now }
{
    for t in 0..job.graph().tasks() {
        if is_sink_of(job, t, name) {
            return Some(t);
        }
    }
    None
}

/// Whether task number `t` is the sink of this name.
fn is_sink_of(job: &Job, t: usize, name: &str) -> bool
    requires { t < length job.now.graph.tasks }
    ensures { result ≡ (is_sink_at job.now t
        && bytes_eq (name_at job.now.graph (place.Task t)) name.now) }
{
    job.graph().is_sink(t) && job.graph().name(Place::Task(t)) == name
}

/// The values of a sink among those of all sinks; none where it is no sink.
pub(crate) fn values_of(lines: &[Lines], sink: usize) -> &[i64]
    ensures { result.now ≡ values_of_sink sink (map sink_output lines.now) }
{
    for line in lines {
        if line.task == sink {
            return &line.values;
        }
    }
    &[]
}
