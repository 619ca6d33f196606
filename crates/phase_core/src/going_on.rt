//! A waiter that goes on.
ghost use Rattle.std.specs.Prelude.{◌≡◌, ◌+◌, ◌<◌, ◌^◌, true, Some};
ghost use Rattle.phase_base.specs.Members.{entry_of};
ghost use Rattle.phase_core.specs.PlainCores.{MayPassPhases, HasGoneOn};

use phase_accum::Accumulate;
use phase_base::Entry;
use phase_registry::Registry;
use phase_ring::Store;

/// Lets a waiter with this entry go on over so many phases that it has got. Values that are kept
/// alone are given up where no waiter has still to get them.
pub fn go_on<A: Accumulate>(
    registry: &mut Registry,
    store: &mut Store<A>,
    task: u64,
    entry: Entry,
    phases: u64,
)
    requires { MayPassPhases registry.old store.old task phases entry }
    ensures { HasGoneOn registry.old registry.new store.old store.new task phases }
{
    registry.waited(task, phases);
    if !store.is_plain {
        return;
    }
    if entry.wait_phase != store.values.base {
        return;
    }
    let Some(slowest) = registry.least_wait() else {
        unreachable!()
    };
    let kept = store.board.top - slowest;
    store.values.queue.truncate_front(kept as usize);
    store.values.base = slowest;
}
