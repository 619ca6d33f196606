//! Signals of a block of phases, of one send each.
ghost use Rattle.std.specs.Prelude.{◌≡◌, ◌≤◌, length, IfOk, OnErr};
ghost use Rattle.phase_accum.specs.Sends.{AreSends};
ghost use Rattle.phase_history.specs.Histories.{History};
ghost use Rattle.phase_history.specs.Replies.{signal_reply, after_signal};
ghost use Rattle.phase_core.specs.Blocks.{one_each};
ghost use Rattle.phase_core.specs.Cores.{StandsFor};

use phase_accum::{Accumulate, Pending, Single};
use phase_core::{PhaserCore, SignalRefusal};
use std::alloc::{AllocError, Global};

/// Signals as many phases in a row as there are values, the first the task's, with one send each
/// and a single for all of them or none, and answers the first phase. A refused block signals
/// nothing. It takes no memory: the sends are held in the places meanwhile.
pub fn signal_values<A: Accumulate>(
    core: &mut PhaserCore<A>,
    task: u64,
    values: &[i64],
    single: Option<Single>,
    places: &mut [Pending<A>],
) -> Result<u64, SignalRefusal>
    requires sends { AreSends values.now }
    requires room { length values.now ≤ length places.old }
    ensures reply { (h : History) → StandsFor A.operation core.old h
        → signal_reply core.old.limits h task (one_each values.now) single ≡ result }
    ensures after { (h : History) → StandsFor A.operation core.old h
        → StandsFor A.operation core.new (after_signal result task (one_each values.now) single h) }

    ensures limits { core.new.limits ≡ core.old.limits }
    ensures err { OnErr result (core.new ≡ core.old) }
    ensures many { length places.new ≡ length places.old }
{
    core.signal_values(task, values, single, places)
}

/// Signals a block as `signal_values` does, in places of its own. It takes memory for them, and
/// gives it back.
pub fn signal_block<A: Accumulate>(
    core: &mut PhaserCore<A>,
    alloc: Global,
    task: u64,
    values: &[i64],
    single: Option<Single>,
) -> Result<Result<u64, SignalRefusal>, AllocError>
    requires { AreSends values.now }
    ensures reply { IfOk result (λ answer. (h : History) → StandsFor A.operation core.old h
        → signal_reply core.old.limits h task (one_each values.now) single ≡ answer) }
    ensures after { IfOk result (λ answer. (h : History) → StandsFor A.operation core.old h
        → StandsFor A.operation core.new
        (after_signal answer task (one_each values.now) single h)) }

    ensures limits { core.new.limits ≡ core.old.limits }
    ensures refused { IfOk result (λ answer. OnErr answer (core.new ≡ core.old)) }
    ensures out_of_memory { OnErr result (core.new ≡ core.old) }
{
    let mut places = vec![in alloc; Pending::new(); values.len()]?;
    Ok(signal_values(core, task, values, single, &mut places))
}
