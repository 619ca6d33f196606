//! Jobs, their lists and their runs on one thread, under one name: a graph with the samples of its
//! sources (`stream_lists`), what its sinks get, or the first value out of range (`stream_eval`),
//! and here runs by turns of the tasks, one event at a time, of a job or of samples that come in
//! pieces.
//!
//! The first calls are `job_of`, of texts, `World::new`, `World::turn` and `run_turns`, and
//! `Stream::new`, `Stream::feed` and `Stream::run`. `AnyPhaser` is one phaser of a graph, whatever
//! its operation.
#![tactic(auto)]

mod ahead;
mod buffers;
mod calls;
mod filtering;
mod input;
mod look;
mod machine;
mod made;
mod next;
mod opened_cores;
mod opened_tasks;
mod opening;
mod parked;
mod passing;
mod plan;
mod plan_blocks;
mod roots;
mod runs;
mod sink_lines;
mod stalls;
mod standing;
mod step;
mod stopped;
mod stream;
mod stream_gone;
mod stream_stands;
mod stream_stops;
mod stream_turns;
mod task_list;
mod task_state;
mod text_jobs;
mod turned;
mod turns;
mod went;
mod world;

pub use runs::{RunTurnsFault, run_turns};
pub use step::Step;
pub use stopped::Stopped;
pub use stream::Stream;
pub use stream_eval::{EvalFault, Lines, eval};
pub use stream_gone::starts_are_in_time;
pub use stream_lists::{
    Job, JobRefusal, LENGTH_MAX, Span, input_number, number_of, output_number, taken_count,
};
pub use text_jobs::job_of;
pub use turned::Turned;
pub use world::World;
