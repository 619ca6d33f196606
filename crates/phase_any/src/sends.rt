//! Signals with values, as sends that a task is given to hold.
ghost use Rattle.std.specs.Prelude.{◌≡◌, ◌≤◌, [], ◌∷◌, OnErr, length};
ghost use Rattle.phase_base.specs.declared.limits.TheConstants.{SENDS_MAX};
ghost use Rattle.phase_accum.specs.Parcels.{StandsForSends};
ghost use Rattle.phase_accum.specs.Sends.{AreSends};
ghost use Rattle.phase_history.specs.Histories.{History};
ghost use Rattle.phase_history.specs.Replies.{signal_reply, after_signal};
ghost use Rattle.phase_core.specs.Cores.{StandsFor};

use phase_accum::{Accumulate, Pending, Single};
use phase_core::{PhaserCore, SignalRefusal};

/// Makes the pending sends of a task that holds these. It takes no memory.
pub fn held<A: Accumulate>(values: &[i64]) -> Pending<A>
    requires sends { AreSends values.now }
    requires few { length values.now ≤ SENDS_MAX }
    ensures { StandsForSends A.operation result values.now }
{
    let mut pending = Pending::new();
    for k in 0..values.len() {
        let Ok(()) = pending.send(values[k]) else {
            unreachable!()
        };
    }
    pending
}

/// Signals the task's phase with these sends and a single or none, and answers that phase. It takes
/// no memory.
pub fn signal_sends<A: Accumulate>(
    core: &mut PhaserCore<A>,
    task: u64,
    values: &[i64],
    single: Option<Single>,
) -> Result<u64, SignalRefusal>
    requires sends { AreSends values.now }
    requires few { length values.now ≤ SENDS_MAX }
    ensures reply { (h : History) → StandsFor A.operation core.old h
        → signal_reply core.old.limits h task (values.now ∷ []) single ≡ result }
    ensures after { (h : History) → StandsFor A.operation core.old h
        → StandsFor A.operation core.new
        (after_signal result task (values.now ∷ []) single h) }

    ensures limits { core.new.limits ≡ core.old.limits }
    ensures err { OnErr result (core.new ≡ core.old) }
{
    match core.signal(task, held(values), single) {
        Ok(phase) => Ok(phase),
        Err(refused) => Err(refused.0),
    }
}
