//! A step of a seat that looks how its phaser stands.
ghost use Rattle.std.specs.Prelude.{◌≡◌, OnOk, OnErr};
ghost use Rattle.turn_lock.specs.Seats.{IsSameSeat, seat_view};
ghost use Rattle.phase_core.specs.Standings.{missing_of, put_over};
ghost use Rattle.phase_shared.specs.Views.{known_of};
ghost use Rattle.phase_shared.specs.Steps.{IsStep, IsSeatOn};
ghost use Rattle.phase_shared.specs.Calls.{Tries};
ghost use Rattle.phase_shared.specs.Entries.{entry_stays};
ghost use Rattle.phase_shared.specs.Standings.{AnswersStanding, unregistered};

use crate::rule::SignalRule;
use crate::seats::locked::LockedPhaser;
use crate::seats::steps::{enter, give_same};
use crate::seats::view::PhaserSeat;
use crate::tried::Tried;
use phase_accum::Accumulate;
use phase_base::Entry;
use phase_core::{NoTask, Standing};

/// Looks how the phaser stands, and writes who is missing into the first places, as many as there
/// are of both.
pub fn look_round<A: Accumulate, K: SignalRule>(
    phaser: &LockedPhaser<A, K>,
    seat: PhaserSeat<A, K>,
    me: u64,
    entry: Entry,
    places: &mut [u64],
) -> (PhaserSeat<A, K>, Result<Standing, Tried<NoTask>>)
    requires { IsSeatOn K.allows phaser.now me entry seat }
    ensures step { IsStep K.allows phaser.now me unregistered entry_stays
        (Tries (IsSameSeat seat result.0) (AnswersStanding me
        (known_of (seat_view seat)).seen (known_of (seat_view result.0)).seen) result.1)
        entry entry seat result.0 result.1 }
    ensures places { OnOk result.1 (places.new
        ≡ put_over (missing_of (known_of (seat_view result.0)).seen) places.old) }
    ensures busy { OnErr result.1 (places.new ≡ places.old) }
{
    let mut turn = match enter(phaser, seat, me, entry) {
        Ok(turn) => turn,
        Err(seat) => return (seat, Err(Tried::Busy)),
    };
    let core = turn.value_in(&phaser.lock);
    let standing = core.standing();
    core.missing().write_to(places);
    (give_same(phaser, turn), Ok(standing))
}
