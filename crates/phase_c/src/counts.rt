//! Counts that a caller lends.
ghost use Rattle.std.specs.Prelude.{◌≡◌, ◌↔◌, ◌<◌, ◌≤◌, ◌+◌, length, IsTrue, IfSome, None};
ghost use Rattle.std.specs.List.{All, sum};
ghost use Rattle.phase_c.specs.Lent.{AreCounts};

use graph_lang::Graph;
use stream_lists::SAMPLES_MAX;

/// What is left of so much room where so many of each stand there, where it is enough.
fn left_of(counts: &[usize], room: usize) -> Option<usize>
    ensures some { IfSome result (λ left. left + sum counts.now ≡ room) }
    ensures none { result ≡ None → room < sum counts.now }
{
    let mut left = room;
    for count in counts {
        if *count > left {
            return None;
        }
        left -= *count;
    }
    Some(left)
}

/// Whether so much room holds so many values.
pub(crate) fn has_room(counts: &[usize], room: usize) -> bool
    ensures { IsTrue result ↔ (sum counts.now ≤ room) }
{
    left_of(counts, room).is_some()
}

/// Whether these counts make so many.
fn make(counts: &[usize], total: usize) -> bool
    ensures { IsTrue result ↔ (sum counts.now ≡ total) }
{
    match left_of(counts, total) {
        Some(left) => left == 0,
        None => false,
    }
}

/// Whether each is the count of a source.
fn are_few(counts: &[usize]) -> bool
    ensures { IsTrue result ↔ All (λ n. n ≤ SAMPLES_MAX) counts.now }
{
    counts.iter().all(|n| *n <= SAMPLES_MAX)
}

/// Whether these are the counts of the samples of a graph's sources.
pub(crate) fn are_counts(graph: &Graph, samples: usize, counts: &[usize]) -> bool
    ensures { IsTrue result ↔ AreCounts graph.now samples counts.now }
{
    counts.len() == graph.sources() && make(counts, samples) && are_few(counts)
}
