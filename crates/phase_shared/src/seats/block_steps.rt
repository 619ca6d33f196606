//! The steps of a seat for a block of phases.
ghost use Rattle.std.specs.Prelude.{◌≡◌, ◌≤◌, ℤ, List, [], ◌∷◌, length, true};
ghost use Rattle.turn_lock.specs.Seats.{IsSameSeat, seat_view};
ghost use Rattle.phase_history.specs.Histories.{History};
ghost use Rattle.phase_history.specs.Others.{OthersCame};
ghost use Rattle.phase_accum.specs.Sends.{AreSends};
ghost use Rattle.phase_core.specs.Blocks.{StandForLists, one_each};
ghost use Rattle.phase_shared.specs.Views.{known_of};
ghost use Rattle.phase_shared.specs.Rule.{IsGoodAt};
ghost use Rattle.phase_shared.specs.Steps.{IsStep, IsSeatOn};
ghost use Rattle.phase_shared.specs.Calls.{Tries};
ghost use Rattle.phase_shared.specs.Blocks.{SignalsBlock, SignalsValues, WaitsBlock, entry_after_block, entry_after_values};
ghost use Rattle.phase_shared.specs.LockedPhasers.{locked_terms, locked_limits};

use crate::rule::SignalRule;
use crate::seats::hints::Hints;
use crate::seats::locked::LockedPhaser;
use crate::seats::steps::{enter, put_back, tried_of};
use crate::seats::view::PhaserSeat;
use crate::tried::Tried;
use phase_accum::{Accumulate, Outcome, Pending, Single};
use phase_base::Entry;
use phase_core::{GotBlock, SignalRefusal, WaitRefusal};
use std::marker::Brand;

// Whether sends are held in each of them, which is always so. Only a condition of `prove!` asks it.
fn are_held<A: Accumulate>(lists: &[Pending<A>]) -> bool
    ensures always { result ≡ true }
    ensures held { (sends : List (List ℤ)) × StandForLists A.operation lists.now sends }
{
    for pending in lists {
        let _part = pending.part();
    }
    true
}

// Signals a phase for each of the lists.
pub fn signal_lists<A: Accumulate, K: SignalRule>(
    phaser: &LockedPhaser<A, K>,
    seat: PhaserSeat<A, K>,
    me: u64,
    entry: Entry,
    lists: &[Pending<A>],
    single: Option<Single>,
) -> (PhaserSeat<A, K>, Entry, Result<u64, Tried<SignalRefusal>>)
    requires seat { IsSeatOn K.allows phaser.now me entry seat }
    requires rule { (h : History) (sends : List (List ℤ))
        → IsGoodAt K.allows (locked_terms phaser.now) h
        → OthersCame (me ∷ []) (known_of (seat_view seat)).seen h
        → StandForLists A.operation lists.now sends
        → K.allows (locked_terms phaser.now).rule h me sends single }
    ensures { IsStep K.allows phaser.now me SignalRefusal.NoTask
        (entry_after_block (length lists.now))
        (Tries (IsSameSeat seat result.0 × (result.1 ≡ entry))
        (SignalsBlock A.operation (locked_limits phaser.now) me lists.now single
        (known_of (seat_view seat)).seen (known_of (seat_view result.0)).seen) result.2)
        entry result.1 seat result.0 result.2 }
{
    prove!(are_held(lists));
    let mut turn = match enter(phaser, seat, me, entry) {
        Ok(turn) => turn,
        Err(seat) => return (seat, entry, Err(Tried::Busy)),
    };
    let core = turn.value_in(&phaser.lock);
    let answer = core.signal_lists(me, lists, single);
    let Some(entry) = core.view(me) else {
        unreachable!()
    };
    let reached = Hints::look(core);
    let wants = phaser.hints.wants(entry.signal_phase, lists.len() as u64);
    phaser.hints.want(answer.err(), wants, reached);
    let told = (me, lists, &single, answer);
    let seat = put_back::<A, K, Brand, _>(phaser, turn, reached, told);
    (seat, entry, tried_of(answer))
}

// Signals a phase for each of the values, with one send each. The places have the sends where they
// are needed.
pub fn signal_values<A: Accumulate, K: SignalRule>(
    phaser: &LockedPhaser<A, K>,
    seat: PhaserSeat<A, K>,
    me: u64,
    entry: Entry,
    values: &[i64],
    single: Option<Single>,
    places: &mut [Pending<A>],
) -> (PhaserSeat<A, K>, Entry, Result<u64, Tried<SignalRefusal>>)
    requires seat { IsSeatOn K.allows phaser.now me entry seat }
    requires sends { AreSends values.now }
    requires room { length values.now ≤ length places.old }
    requires rule { (h : History) → IsGoodAt K.allows (locked_terms phaser.now) h
        → OthersCame (me ∷ []) (known_of (seat_view seat)).seen h
        → K.allows (locked_terms phaser.now).rule h me (one_each values.now) single }
    ensures step { IsStep K.allows phaser.now me SignalRefusal.NoTask
        (entry_after_block (length values.now))
        (Tries (IsSameSeat seat result.0 × (result.1 ≡ entry))
        (SignalsValues (locked_limits phaser.now) me values.now single
        (known_of (seat_view seat)).seen (known_of (seat_view result.0)).seen) result.2)
        entry result.1 seat result.0 result.2 }
    ensures places { length places.new ≡ length places.old }
{
    let mut turn = match enter(phaser, seat, me, entry) {
        Ok(turn) => turn,
        Err(seat) => return (seat, entry, Err(Tried::Busy)),
    };
    let core = turn.value_in(&phaser.lock);
    let answer = core.signal_values(me, values, single, places);
    let Some(entry) = core.view(me) else {
        unreachable!()
    };
    let reached = Hints::look(core);
    let wants = phaser.hints.wants(entry.signal_phase, values.len() as u64);
    phaser.hints.want(answer.err(), wants, reached);
    let told = (me, values, &single, answer);
    let seat = put_back::<A, K, Brand, _>(phaser, turn, reached, told);
    (seat, entry, tried_of(answer))
}

// Waits for as many phases as there are places, at most.
pub fn wait_block<A: Accumulate, K: SignalRule>(
    phaser: &LockedPhaser<A, K>,
    seat: PhaserSeat<A, K>,
    me: u64,
    entry: Entry,
    out: &mut [Outcome],
) -> (
    PhaserSeat<A, K>,
    Entry,
    Result<GotBlock, Tried<WaitRefusal>>,
)
    requires { IsSeatOn K.allows phaser.now me entry seat }
    ensures { IsStep K.allows phaser.now me WaitRefusal.NoTask
        entry_after_values
        (Tries (IsSameSeat seat result.0 × (result.1 ≡ entry) × (out.new ≡ out.old))
        (WaitsBlock A.operation.value (locked_limits phaser.now) me
        (known_of (seat_view seat)).seen (known_of (seat_view result.0)).seen out.old out.new)
        result.2) entry result.1 seat result.0 result.2 }
{
    let mut turn = match enter(phaser, seat, me, entry) {
        Ok(turn) => turn,
        Err(seat) => return (seat, entry, Err(Tried::Busy)),
    };
    let core = turn.value_in(&phaser.lock);
    let answer = core.wait_block(me, out);
    let Some(entry) = core.view(me) else {
        unreachable!()
    };
    let reached = Hints::look(core);
    let seat = put_back::<A, K, Brand, _>(phaser, turn, reached, (me, answer));
    (seat, entry, tried_of(answer))
}
