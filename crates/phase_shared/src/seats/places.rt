//! Whose the lanes are: a registration gets one when it is made, where one is free, and gives it
//! back when it leaves.
ghost use Rattle.std.specs.Prelude.{◌≡◌, ◌<◌, ◌+◌, ◌^◌, [], ◌∷◌, true, false};
ghost use Rattle.turn_lock.specs.Seats.{IsSeatAt, IsTurnAt, seat_number, seat_view, turn_number, turn_view, turn_value, turn_told};
ghost use Rattle.turn_lock.specs.WordSteps.{ReadsOf, WritesOf, ReadsIn, WritesIn};
ghost use Rattle.phase_shared.specs.Rule.{HasOneHistory};
ghost use Rattle.phase_shared.specs.LockedPhasers.{locked_place, locked_terms, RestsOn};
ghost use Rattle.phase_shared.specs.Lodgings.{IsSameTurn, KnowsOfTurn};
ghost use Rattle.phase_shared.specs.Views.{known_of, resting, owning};
ghost use Rattle.phase_shared.specs.WordTells.{KnowsNoLane};

use crate::lane_words::{LANES, owner_place};
use crate::rule::SignalRule;
use crate::seats::ghost_steps::{OnReport, OnStep, Plan, Report};
use crate::seats::locked::LockedPhaser;
use crate::seats::view::{PhaserSeat, PhaserTurn};
use phase_accum::Accumulate;
use phase_base::Mode;
use std::marker::Brand;

/// The lanes of a task and of its child, or `LANES` where they have none.
#[derive(Clone, Copy, Debug, PartialEq, Eq)]
pub struct Lodgings {
    pub own: u64,
    pub child: u64,
}

// What is written where it is said whose a lane is, while it is nobody's.
const NOBODY: u64 = 0;

// Reads whose a lane is. What that tells is picked by its caller, and may speak of `told`.
fn read_owner<A: Accumulate, K: SignalRule, E: Report, X: Copy>(
    phaser: &LockedPhaser<A, K>,
    seat: PhaserSeat<A, K>,
    lane: u64,
    told: X,
) -> (PhaserSeat<A, K>, u64)
    requires low { lane < LANES }
    requires here { IsSeatAt (locked_place phaser.now) seat }
    requires rule { ReadsOf (HasOneHistory A.operation K.allows) (locked_terms phaser.now)
        (seat_number seat) (seat_view seat) (lane + 271) (λ v r w. E.tells v r w) }
    ensures here { IsSeatAt (locked_place phaser.now) result.0 }
    ensures rule { E.tells (seat_view seat) result.1 (seat_view result.0) }
{
    let _ = told;
    phaser.lock.read::<OnReport<E>>(seat, owner_place(lane))
}

/// Whether a lane is the task's own, which its seat then knows.
pub fn is_own<A: Accumulate, K: SignalRule>(
    phaser: &LockedPhaser<A, K>,
    seat: PhaserSeat<A, K>,
    me: u64,
    lane: u64,
) -> (PhaserSeat<A, K>, bool)
    requires low { lane < LANES }
    requires known { me + 1 < 2 ^ 64 }
    requires seat { RestsOn (locked_place phaser.now) seat
        (λ v. v ≡ resting (known_of v).seen (me ∷ [])) }
    ensures here { IsSeatAt (locked_place phaser.now) result.0 }
    ensures own { result.1 ≡ true
        → seat_view result.0 ≡ owning (known_of (seat_view seat)).seen (me ∷ []) lane }
    ensures other { result.1 ≡ false → seat_view result.0 ≡ seat_view seat }
{
    let (seat, owner) = read_owner::<A, K, Brand, _>(phaser, seat, lane, (me, lane));
    (seat, owner == me + 1)
}

// Says that a lane which is the task's own is nobody's. What that tells is picked by its caller,
// and may speak of `told`.
fn leave_lane<A: Accumulate, K: SignalRule, E: Plan, X: Copy>(
    phaser: &LockedPhaser<A, K>,
    seat: PhaserSeat<A, K>,
    lane: u64,
    told: X,
) -> PhaserSeat<A, K>
    requires low { lane < LANES }
    requires here { IsSeatAt (locked_place phaser.now) seat }
    requires rule { WritesOf (HasOneHistory A.operation K.allows) (locked_terms phaser.now)
        (seat_number seat) (seat_view seat) (lane + 271) 0 (λ v w. E.goes v w) }
    ensures here { IsSeatAt (locked_place phaser.now) result }
    ensures rule { E.goes (seat_view seat) (seat_view result) }
{
    let _ = told;
    phaser
        .lock
        .write::<OnStep<E>>(seat, owner_place(lane), NOBODY)
}

/// Gives a lane back, where it is the task's own.
pub fn give_back<A: Accumulate, K: SignalRule>(
    phaser: &LockedPhaser<A, K>,
    seat: PhaserSeat<A, K>,
    me: u64,
    lane: u64,
) -> PhaserSeat<A, K>
    requires seat { RestsOn (locked_place phaser.now) seat
        (λ v. v ≡ resting (known_of v).seen (me ∷ [])) }
    ensures here { IsSeatAt (locked_place phaser.now) result }
    ensures view { seat_view result ≡ seat_view seat }
{
    if lane >= LANES || me == u64::MAX {
        return seat;
    }
    let (seat, is_own) = is_own(phaser, seat, me, lane);
    if !is_own {
        return seat;
    }
    // Before another may take it.
    phaser.hints.lane_left(lane);
    leave_lane::<A, K, Brand, _>(phaser, seat, lane, (me, lane))
}

// Reads under the turn whose a lane is. What that tells is picked by its caller, and may speak of
// `told`.
fn read_owner_in<A: Accumulate, K: SignalRule, E: Report, X: Copy>(
    phaser: &LockedPhaser<A, K>,
    turn: PhaserTurn<A, K>,
    lane: u64,
    told: X,
) -> (PhaserTurn<A, K>, u64)
    requires low { lane < LANES }
    requires here { IsTurnAt (locked_place phaser.now) turn }
    requires rule { ReadsIn (HasOneHistory A.operation K.allows) (locked_terms phaser.now)
        (turn_number turn) (turn_view turn) (turn_told turn) (lane + 271)
        (λ v r w. E.tells v r w) }
    ensures same { IsSameTurn turn result.0 (E.tells (turn_view turn) result.1) }
{
    let _ = told;
    phaser.lock.read_in::<OnReport<E>>(turn, owner_place(lane))
}

// Says under the turn whose a lane is that was nobody's, in the same way.
fn write_owner_in<A: Accumulate, K: SignalRule, E: Plan, X: Copy>(
    phaser: &LockedPhaser<A, K>,
    turn: PhaserTurn<A, K>,
    lane: u64,
    owner: u64,
    told: X,
) -> PhaserTurn<A, K>
    requires low { lane < LANES }
    requires here { IsTurnAt (locked_place phaser.now) turn }
    requires rule { WritesIn (HasOneHistory A.operation K.allows) (locked_terms phaser.now)
        (turn_number turn) (turn_view turn) (turn_told turn) (lane + 271) owner
        (λ v w. E.goes v w) }
    ensures same { IsSameTurn turn result (E.goes (turn_view turn)) }
{
    let _ = told;
    phaser
        .lock
        .write_in::<OnStep<E>>(turn, owner_place(lane), owner)
}

// Takes a lane for a task, where it is nobody's. The turn stays as it is.
fn take_lane<A: Accumulate, K: SignalRule>(
    phaser: &LockedPhaser<A, K>,
    turn: PhaserTurn<A, K>,
    lane: u64,
    task: u64,
) -> (PhaserTurn<A, K>, bool)
    requires low { lane < LANES }
    requires known { task + 1 < 2 ^ 64 }
    requires here { IsTurnAt (locked_place phaser.now) turn }
    requires knows { KnowsNoLane (turn_view turn) }
    ensures same { IsSameTurn turn result.0 (KnowsOfTurn turn) }
{
    let (turn, owner) = read_owner_in::<A, K, Brand, _>(phaser, turn, lane, lane);
    if owner != NOBODY {
        return (turn, false);
    }
    let turn = write_owner_in::<A, K, Brand, _>(phaser, turn, lane, task + 1, lane);
    phaser.hints.lane_taken(lane);
    (turn, true)
}

/// Takes the least lane that is nobody's for a task, and answers it, or `LANES` where there is
/// none. The turn stays as it is.
pub fn lodge<A: Accumulate, K: SignalRule>(
    phaser: &LockedPhaser<A, K>,
    turn: PhaserTurn<A, K>,
    task: u64,
) -> (PhaserTurn<A, K>, u64)
    requires here { IsTurnAt (locked_place phaser.now) turn }
    requires knows { KnowsNoLane (turn_view turn) }
    ensures same { IsSameTurn turn result.0 (KnowsOfTurn turn) }
{
    if task == u64::MAX {
        return (turn, LANES);
    }
    let mut turn = turn;
    for lane in 0..LANES {
        let (next, is_taken) = take_lane(phaser, turn, lane, task);
        turn = next;
        if is_taken {
            return (turn, lane);
        }
    }
    (turn, LANES)
}

// The same for a task, where it has none and its mode signals and waits.
fn lodge_in<A: Accumulate, K: SignalRule>(
    phaser: &LockedPhaser<A, K>,
    turn: PhaserTurn<A, K>,
    task: (u64, Mode),
    lane: u64,
) -> (PhaserTurn<A, K>, u64)
    requires here { IsTurnAt (locked_place phaser.now) turn }
    requires knows { KnowsNoLane (turn_view turn) }
    ensures same { IsSameTurn turn result.0 (KnowsOfTurn turn) }
{
    if lane < LANES || !task.1.signals() || !task.1.waits() {
        return (turn, lane);
    }
    lodge(phaser, turn, task.0)
}

/// Takes lanes for a child and for its parent, where they have none and their modes signal and
/// wait. The turn stays as it is.
pub fn lodge_both<A: Accumulate, K: SignalRule>(
    phaser: &LockedPhaser<A, K>,
    turn: PhaserTurn<A, K>,
    parent: (u64, Mode),
    child: (u64, Mode),
    lanes: &mut Lodgings,
) -> PhaserTurn<A, K>
    requires here { IsTurnAt (locked_place phaser.now) turn }
    requires knows { KnowsNoLane (turn_view turn) }
    ensures same { IsSameTurn turn result (KnowsOfTurn turn) }
{
    let (turn, lane) = lodge_in(phaser, turn, child, lanes.child);
    lanes.child = lane;
    let (turn, lane) = lodge_in(phaser, turn, parent, lanes.own);
    lanes.own = lane;
    turn
}
