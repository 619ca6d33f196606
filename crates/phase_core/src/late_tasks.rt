//! The tasks for which a phaser waits.
ghost use Rattle.std.specs.Prelude.{◌≡◌};
ghost use Rattle.std.specs.Iterator.{YieldsFirst, item_count};
ghost use Rattle.phase_core.specs.Standings.{has_still_to, put_over};

use phase_base::Member;
use phase_ring::Role;
use std::iter::FusedIterator;
use std::marker::Model;

/// The numbers of the tasks that have still to signal a phase, or as waiters have still to get one,
/// in the order in which they joined. A contract sees it as the list of those that are left.
#[derive(Clone, Drop)]
pub struct LateTasks<'a> {
    pub(crate) members: &'a [Member],
    pub(crate) role: Role,
    pub(crate) phase: u64,
}

impl<'a> Model for LateTasks<'a> {
    ghost use Rattle.std.specs.Prelude.{ℕ, List};
    ghost use Rattle.phase_core.specs.Standings.{who_have_to};

    ghost Value = { List ℕ };

    ghost view = { λ t. who_have_to t.role t.phase t.members.now };
}

// Whether the member has still to signal the phase, or as a waiter has still to get it.
fn has_still_to(role: Role, phase: u64, member: &Member) -> bool
    ensures { result ≡ has_still_to role phase member.now }
{
    role.is_of(member.entry) && role.phase_of(member.entry) <= phase
}

impl<'a> Iterator for LateTasks<'a> {
    type Item = u64;

    ghost next_gives = { YieldsFirst (λ rest. rest) };

    ghost remaining = { item_count (λ rest. rest) };

    fn next(&mut self) -> Option<u64> {
        while let Some((first, others)) = self.members.split_first() {
            self.members = others;
            if has_still_to(self.role, self.phase, first) {
                return Some(first.task);
            }
        }
        None
    }
}

impl<'a> FusedIterator for LateTasks<'a> {}

impl<'a> LateTasks<'a> {
    /// Writes the numbers into the first places, as many as there are of both. The places behind
    /// them stay. It takes no memory.
    pub fn write_to(self, places: &mut [u64])
        ensures { places.new ≡ put_over self.entry places.old }
    {
        let mut rest = self;
        for k in 0..places.len() {
            let Some(number) = rest.next() else { return };
            places[k] = number;
        }
    }
}
