//! Jobs: graphs with the samples of their sources, and how far each task of one comes. The
//! definitions of a graph's lists stand here, as the values that any run of it gives.
//!
//! Make a `Job` of a graph and the samples of its sources. `stream_eval` composes its lists.
//!
//! **Laws.** `list_laws` has what decides spans, lists and lengths; who has a value in which phase;
//! that a job fits exactly where each value is in range, and has the lists of whole numbers without
//! any range then; `laws` the numbers behind the constants. A caller has a law by calling it, as
//! `list_laws::exact_where_it_fits`: the function does nothing, and its contract is the law.
#![tactic(auto)]

mod counts;
mod job;
pub mod laws;
mod lengths;
pub mod list_laws;
mod meeting;
mod meetings;
mod number;
mod places;
mod refusal;
mod sample_counts;
mod span;
mod stand;
mod task_spans;

pub use counts::taken_count;
pub use job::{Job, SAMPLES_MAX};
pub use meeting::Meeting;
pub use meetings::{meeting_on, meeting_with};
pub use number::number_of;
pub use places::{input_number, output_number};
pub use refusal::JobRefusal;
pub use sample_counts::COUNT_MAX;
pub use span::{LENGTH_MAX, Span};
pub use stand::{End, NextCall, Stand};
