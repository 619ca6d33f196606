//! How many samples the sources have.
ghost use Rattle.std.specs.Prelude.{◌≡◌, ◌<◌, ◌≤◌, length, map, IfOk};
ghost use Rattle.std.specs.List.{All};
ghost use Rattle.stream_lists.specs.Jobs.{counted, samples_at};

use crate::job::SAMPLES_MAX;
use graph_base::Graph;
use std::alloc::{AllocError, Global};

/// The most samples that a source may have, also where they come in pieces. It is 2^53.
pub const COUNT_MAX: u64 = 9_007_199_254_740_992;

/// How many samples each list has.
pub(crate) fn counts_of(alloc: Global, samples: &[Vec<i64>]) -> Result<Vec<u64>, AllocError>
    requires few { All (λ list. length list.items ≤ SAMPLES_MAX) samples.now }
    ensures counts { IfOk result (λ counts.
        counts.items ≡ map (λ list. length list.items) samples.now) }
    ensures few { IfOk result (λ counts. All (λ n. n ≤ COUNT_MAX) counts.items) }
{
    samples.iter().map(|list| list.len() as u64).collect(alloc)
}

/// How many samples task number `t` has, where it is a source. Of another task it is the number of
/// the next source below it, or 0, and is not used.
pub(crate) fn count_of(graph: &Graph, counts: &[u64], t: usize) -> u64
    requires { t < length graph.now.tasks }
    ensures { result ≡ length (samples_at (counted graph.now counts.now) t) }
{
    counts.get(graph.source_number(t)).copied().unwrap_or(0)
}
