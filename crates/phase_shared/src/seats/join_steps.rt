//! The step of a seat that registers a waiter which joins now.
ghost use Rattle.turn_lock.specs.Seats.{IsSameSeat, seat_view};
ghost use Rattle.phase_shared.specs.Views.{known_of};
ghost use Rattle.phase_shared.specs.Steps.{IsStep, RegistersSeatNow, IsSeatOn};
ghost use Rattle.phase_shared.specs.Calls.{Tries};
ghost use Rattle.phase_shared.specs.Entries.{entry_stays};

use crate::rule::SignalRule;
use crate::seats::hints::Hints;
use crate::seats::locked::LockedPhaser;
use crate::seats::steps::{child_of, enter, give_same, put_back, split};
use crate::seats::view::PhaserSeat;
use crate::tried::Tried;
use phase_accum::Accumulate;
use phase_base::Entry;
use phase_core::RegisterRefusal;
use std::marker::Brand;

// Registers a child that joins now. The answer is the child's number, seat and entry.
pub fn register_now<A: Accumulate, K: SignalRule>(
    phaser: &LockedPhaser<A, K>,
    seat: PhaserSeat<A, K>,
    me: u64,
    entry: Entry,
) -> (
    PhaserSeat<A, K>,
    Result<(u64, PhaserSeat<A, K>, Entry), Tried<RegisterRefusal>>,
)
    requires { IsSeatOn K.allows phaser.now me entry seat }
    ensures { let old = (known_of (seat_view seat)).seen in
        IsStep K.allows phaser.now me RegisterRefusal.NoTask entry_stays
        (Tries (IsSameSeat seat result.0) (RegistersSeatNow K.allows phaser.now me entry old
        (known_of (seat_view result.0)).seen) result.1) entry entry seat result.0 result.1 }
{
    let mut turn = match enter(phaser, seat, me, entry) {
        Ok(turn) => turn,
        Err(seat) => return (seat, Err(Tried::Busy)),
    };
    let core = turn.value_in(&phaser.lock);
    let child = child_of(core);
    let answer = core.register_now(me, child);
    let found = core.view(child);
    let reached = Hints::look(core);
    if let Err(refusal) = answer {
        return (give_same(phaser, turn), Err(Tried::Refused(refusal)));
    }
    let Some(start) = found else { unreachable!() };
    let both = put_back::<A, K, Brand, _>(phaser, turn, reached, (me, child));
    let (seat, other) = split(phaser, both);
    (seat, Ok((child, other, start)))
}
