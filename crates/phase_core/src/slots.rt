//! Slots in the place of values that were kept alone.
ghost use Rattle.std.specs.Prelude.{◌≡◌, ℕ, ◌≤◌, true, false, length};
ghost use Rattle.std.specs.List.{All};
ghost use Rattle.phase_base.specs.Members.{signal_phases, wait_phases};
ghost use Rattle.phase_ring.specs.declared.role.Role.{Role};
ghost use Rattle.phase_ring.specs.declared.role.Role.TheVariants.{Signaller, Waiter};
ghost use Rattle.phase_ring.specs.Boards.{IsBoard};
ghost use Rattle.phase_ring.specs.Calls.{KeepsBounds};
ghost use Rattle.phase_ring.specs.Restarts.{MayBePlaced};
ghost use Rattle.phase_ring.specs.Rings.{sents, standing};
ghost use Rattle.phase_ring.specs.Standings.{count_of, phase_for, takes_part};
ghost use Rattle.phase_core.specs.Cores.{IsCore, core_of};
ghost use Rattle.phase_core.specs.PlainCores.{IsPhaser, core_shown};

use phase_accum::Accumulate;
use phase_base::{MEMBERS_MAX, Member};
use phase_registry::Registry;
use phase_ring::{Board, Store};

/// Lets each of these tasks stand at its phases, on a board where nobody stands.
fn place_all<A: Accumulate>(board: &mut Board<A>, members: &[Member])
    requires invariant { IsBoard A.operation board.old }
    requires nobody { (role : Role) (p : ℕ) → standing board.old.ring role p ≡ 0 }
    requires few { length members.now ≤ MEMBERS_MAX }
    requires places { All (λ m. (role : Role) → takes_part role m.entry ≡ true
        → MayBePlaced role (phase_for role m.entry) board.old) members.now }
    ensures invariant { IsBoard A.operation board.new }
    ensures keeps { KeepsBounds board.old board.new }
    ensures same { sents board.new.ring ≡ sents board.old.ring }
    ensures stand { (p : ℕ)
        → (standing board.new.ring Signaller p ≡ count_of p (signal_phases members.now))
        × (standing board.new.ring Waiter p ≡ count_of p (wait_phases members.now)) }
{
    for member in members {
        board.place(member.entry);
    }
}

/// Has slots from now on. Where the values were kept alone, each of them gets one, and the members
/// of the registry stand at their phases.
pub fn use_slots<A: Accumulate>(store: &mut Store<A>, registry: &Registry)
    requires { IsPhaser A.operation registry.now store.old }
    ensures slots { store.new.is_plain ≡ false }
    ensures core { IsCore A.operation registry.now store.new.board }
    ensures same { core_shown A.operation registry.now store.new
        ≡ core_shown A.operation registry.now store.old }
    ensures shows { core_of registry.now store.new.board
        ≡ core_shown A.operation registry.now store.old }
{
    if !store.is_plain {
        return;
    }
    let (front, back) = store.values.queue.as_slices();
    store.board.restart(store.values.base, front, back);
    place_all(&mut store.board, registry.members());
    store.is_plain = false;
    store.values.again = store.values.base.saturating_add(store.board.limits.bound());
}
