//! The phases of a phaser, from the members' values.
ghost use Rattle.std.specs.Prelude.{◌≡◌, ◌≤◌, ◌<◌, ◌∷◌, [], ◌++◌, ℕ, List, length, map, IfOk};
ghost use Rattle.phase_base.specs.declared.limits.TheConstants.{SENDS_MAX};
ghost use Rattle.phase_accum.specs.Sends.{AreSends};
ghost use Rattle.std.specs.List.{All};
ghost use Rattle.stream_lists.specs.Lists.{Contribution};
ghost use Rattle.stream_eval.specs.Composing.{HasParts, member_of};

use graph_base::TASKS_MAX;
use phase_accum::Accumulate;
use std::alloc::{AllocError, Global};

/// What a task puts on a phaser: its values, from a phase on.
#[derive(Drop)]
pub struct MemberList {
    /// The phase of the first value.
    pub offset: u128,
    /// The values.
    pub values: Vec<i64>,
}

/// Sends a member's values, behind what was sent in each phase.
fn add_member<A: Accumulate>(parts: &mut [A], member: &MemberList)
    requires sends { AreSends member.now.values.items }
    requires stands { (members : List Contribution) × HasParts A.operation parts.old members
        × (length members < SENDS_MAX) }
    ensures stands { (members : List Contribution) → HasParts A.operation parts.old members
        → length members < SENDS_MAX
        → HasParts A.operation parts.new (members ++ member_of member.now ∷ []) }
    ensures length { length parts.new ≡ length parts.old }
{
    let room = (parts.len() as u128).saturating_sub(member.offset) as usize;
    let count = member.values.len().min(room);
    for i in 0..count {
        let phase = member.offset as usize + i;
        parts[phase] = A::join(parts[phase], A::of(member.values[i]));
    }
}

/// The parts of so many phases in which nothing was sent.
fn no_sends<A: Accumulate>(alloc: Global, phases: usize) -> Result<Vec<A>, AllocError>
    ensures parts { IfOk result (λ parts. HasParts A.operation parts.items []) }
    ensures length { IfOk result (λ parts. length parts.items ≡ phases) }
{
    let mut parts = Vec::with_capacity(alloc, phases)?;
    for _phase in 0..phases {
        parts.push(A::unit())?;
    }
    Ok(parts)
}

/// The parts of the sends of each phase.
pub fn parts_of<A: Accumulate>(
    alloc: Global,
    members: &[MemberList],
    phases: usize,
) -> Result<Vec<A>, AllocError>
    requires sends { All (λ member. AreSends member.values.items) members.now }
    requires few { length members.now ≤ TASKS_MAX }
    ensures parts { IfOk result (λ parts.
        HasParts A.operation parts.items (map member_of members.now)) }
    ensures length { IfOk result (λ parts. length parts.items ≡ phases) }
{
    let mut parts = no_sends(alloc, phases)?;
    for member in members {
        add_member(parts.as_mut_slice(), member);
    }
    Ok(parts)
}
