//! What a task owes after each event of a step.
ghost use Rattle.std.specs.Prelude.{◌≡◌, ◌<◌, List, ℤ, [], ◌∷◌, ◌++◌, length};
ghost use Rattle.graph_base.specs.Graphs.{task_at};
ghost use Rattle.graph_runs.specs.TaskPlaces as turns;
ghost use Rattle.graph_runs.specs.Steps.{HasFilter, owed_of};

use crate::filters::filtered;
use crate::lines::{kind_of, output_in_turn};
use crate::owed::Owed;
use graph_base::Kind;
use stream_filters::{Fir, Peer};
use stream_lists::Job;

/// Returns what task number `t` owes after the first wait of a step, which got `x`. It began
/// `begun` steps before this one. A filter takes `x`. It takes no memory.
pub fn owed_after_wait(job: &Job, t: usize, begun: u64, filter: &mut Option<Fir>, x: i64) -> Owed
    requires task { t < length job.now.graph.tasks }
    requires filter { (taken : List ℤ) × HasFilter (task_at job.now.graph t) filter.old taken }
    ensures owed { (taken : List ℤ) → HasFilter (task_at job.now.graph t) filter.old taken
        → owed_of result ≡ turns.owed_after_wait (task_at job.now.graph t) begun taken (x ∷ []) }
    ensures filter { (taken : List ℤ) → HasFilter (task_at job.now.graph t) filter.old taken
        → HasFilter (task_at job.now.graph t) filter.new (taken ++ x ∷ []) }
{
    match kind_of(job, t) {
        Kind::Fir => Owed::Value {
            output: 0,
            value: filtered(job, t, filter, x),
        },
        Kind::Split => Owed::Value {
            output: output_in_turn(job, t, begun),
            value: Ok(x),
        },
        Kind::Decimate if begun % job.graph().task(t).every != 0 => Owed::Nothing,
        Kind::Decimate | Kind::Join | Kind::Peer => Owed::Value {
            output: 0,
            value: Ok(x),
        },
        Kind::Source | Kind::Sink => Owed::Nothing,
    }
}

/// Returns what task number `t` owes after it has signalled `x` on this output: a peer that has
/// signalled E waits there. It takes no memory.
pub fn owed_after_signal(job: &Job, t: usize, output: usize, x: i64) -> Owed
    requires { t < length job.now.graph.tasks }
    ensures { owed_of result ≡ turns.owed_after_signal (task_at job.now.graph t) output (x ∷ []) }
{
    if kind_of(job, t) == Kind::Peer && output == 0 {
        return Owed::Exchange { x };
    }
    Owed::Nothing
}

/// Returns what task number `t`, a peer that took `x` from X, owes after it got `e` on E. It takes
/// no memory.
pub fn owed_after_exchange(job: &Job, t: usize, x: i64, e: i64) -> Owed
    requires { t < length job.now.graph.tasks }
    ensures { owed_of result
        ≡ turns.owed_after_exchange (task_at job.now.graph t) (turns.exchange x) e }
{
    Owed::Value {
        output: 1,
        value: Peer::mix(job.graph().task(t).mul, x, e),
    }
}
