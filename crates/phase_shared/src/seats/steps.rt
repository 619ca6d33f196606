//! The steps of a seat at rest that speaks for one task. Each call of a registration is one.
ghost use Rattle.std.specs.Prelude.{◌≡◌, ℤ, List, [], ◌∷◌, true, false, Ok, Err, IfOk, IfErr, IsOk, IsErr, OnErr};
ghost use Rattle.turn_lock.specs.Seats.{IsTurnAt, IsSameSeat, seat_view, turn_number, turn_view, turn_value, turn_told};
ghost use Rattle.turn_lock.specs.WordSteps.{GivesOf};
ghost use Rattle.phase_accum.specs.Parcels.{StandsForSends};
ghost use Rattle.phase_history.specs.Histories.{History};
ghost use Rattle.phase_history.specs.declared.event.Event.TheVariants.{Signalled};
ghost use Rattle.phase_history.specs.Replies.{signal_reply, wait_reply};
ghost use Rattle.phase_history.specs.Others.{OnlyUsed, OthersCame};
ghost use Rattle.phase_shared.specs.Views.{resting, known_of, speaks_of, joining, first_part, other_part, IsResting, SpeaksForOne, SpeaksForTwo};
ghost use Rattle.phase_shared.specs.Rule.{HasOneHistory, AfterTake, IsGoodAt, LearnedAt};
ghost use Rattle.phase_core.specs.Cores.{StandsFor};
ghost use Rattle.phase_core.specs.Passes.{after_both};
ghost use Rattle.phase_shared.specs.Steps.{IsStep, RegistersSeat, GivesNoAnswer, IsSeatOn, HaveMet};
ghost use Rattle.phase_shared.specs.Calls.{Tries, Waits, LeavesSeat, SignalsAndMayWait, number_after, tried};
ghost use Rattle.phase_shared.specs.Entries.{entry_stays, entry_after_wait, entry_after_both};
ghost use Rattle.phase_shared.specs.LockedPhasers.{locked_place, locked_terms, locked_limits, RestsOn, IsTurnOn};

use crate::rule::SignalRule;
use crate::seats::ghost_steps::{OnGive, OnJoin, OnLook, OnSplit, OnTake, Plan, Same};
use crate::seats::hints::{Hints, Reached};
use crate::seats::locked::LockedPhaser;
use crate::seats::places::{Lodgings, lodge_both};
use crate::seats::view::{PhaserSeat, PhaserTurn};
use crate::tried::Tried;
use phase_accum::{Accumulate, Pending, Single};
use phase_base::{Entry, Mode};
use phase_core::{Got, PhaserCore, RegisterRefusal, SignalRefusal, WaitRefusal};
use std::marker::Brand;

// Takes the turn, and learns what the others did.
pub(crate) fn enter<A: Accumulate, K: SignalRule>(
    phaser: &LockedPhaser<A, K>,
    seat: PhaserSeat<A, K>,
    me: u64,
    entry: Entry,
) -> Result<PhaserTurn<A, K>, PhaserSeat<A, K>>
    requires { IsSeatOn K.allows phaser.now me entry seat }
    ensures turn { IfOk result (λ turn. IsTurnOn (locked_place phaser.now) turn
        (AfterTake A.operation K.allows (locked_terms phaser.now) me entry (seat_view seat))) }

    ensures err { IfErr result (λ back. IsSameSeat seat back) }
    ensures still { IfErr result (λ back. IsSeatOn K.allows phaser.now me entry back) }
    ensures alone { OnlyUsed (me ∷ []) (known_of (seat_view seat)).seen → IsOk result }
{
    match phaser.lock.try_take::<OnTake<A, K>>(seat) {
        Ok(turn) => Ok(turn),
        Err(back) => Err(back),
    }
}

// Gives the turn back. What the give tells is picked by its caller, and may speak of `told`.
pub(crate) fn put_back<A: Accumulate, K: SignalRule, E: Plan, X: Copy>(
    phaser: &LockedPhaser<A, K>,
    turn: PhaserTurn<A, K>,
    reached: Reached,
    told: X,
) -> PhaserSeat<A, K>
    requires turn { IsTurnAt (locked_place phaser.now) turn }
    requires rule { GivesNoAnswer (HasOneHistory A.operation K.allows) (locked_terms phaser.now)
        (turn_number turn) (turn_view turn) (turn_value turn) (turn_told turn)
        (λ v y w. E.goes v w) }
    ensures { RestsOn (locked_place phaser.now) result (E.goes (turn_view turn)) }
{
    let _ = told;
    let (turn, last) = phaser.lock.told_in(turn);
    let news = phaser.hints.news(reached, last / 2);
    // What was told may answer asks: it stands until more phases are complete.
    let done = news.done * 2;
    let next = if last < done { done } else { last };
    let seat = phaser.lock.give::<OnGive<E>>(turn, next);
    phaser.hints.tell::<K>(news);
    seat
}

// Gives the turn back after a call that made no event: the lock tells what it told.
pub(crate) fn give_same<A: Accumulate, K: SignalRule>(
    phaser: &LockedPhaser<A, K>,
    turn: PhaserTurn<A, K>,
) -> PhaserSeat<A, K>
    requires turn { IsTurnAt (locked_place phaser.now) turn }
    requires rule { GivesOf (HasOneHistory A.operation K.allows) (locked_terms phaser.now)
        (turn_number turn) (turn_view turn) (turn_value turn) (turn_told turn) (turn_told turn)
        (λ v y w. w ≡ resting (known_of v).seen (speaks_of v)) }
    ensures { RestsOn (locked_place phaser.now) result
        (λ w. w ≡ resting (known_of (turn_view turn)).seen (speaks_of (turn_view turn))) }
{
    let (turn, told) = phaser.lock.told_in(turn);
    phaser.lock.give::<Same>(turn, told)
}

// Signals, and then waits where that is asked for. Where it is not, the wait is refused.
fn signal_where<A: Accumulate>(
    core: &mut PhaserCore<A>,
    me: u64,
    pending: Pending<A>,
    single: Option<Single>,
    asked: bool,
) -> Result<(u64, Result<Got, WaitRefusal>), (SignalRefusal, Pending<A>)>
    ensures signalled { IfOk result (λ answer. (h : History) (sends : List ℤ)
        → StandsFor A.operation core.old h → StandsForSends A.operation pending sends
        → signal_reply core.old.limits h me (sends ∷ []) single ≡ Ok answer.0) }
    ensures waited { IfOk result (λ answer. (h : History) (sends : List ℤ)
        → StandsFor A.operation core.old h → StandsForSends A.operation pending sends
        → asked ≡ true → let middle = Signalled me (sends ∷ []) single ∷ h in
        wait_reply A.operation.value core.old.limits middle me ≡ answer.1) }
    ensures none { asked ≡ false → IfOk result (λ answer. IsErr answer.1) }
    ensures refused { IfErr result (λ e. (h : History) (sends : List ℤ)
        → StandsFor A.operation core.old h → StandsForSends A.operation pending sends
        → signal_reply core.old.limits h me (sends ∷ []) single ≡ Err e.0) }
    ensures after { (h : History) (sends : List ℤ)
        → StandsFor A.operation core.old h → StandsForSends A.operation pending sends
        → StandsFor A.operation core.new (after_both result me (sends ∷ []) single h) }
    ensures limits { core.new.limits ≡ core.old.limits }
    ensures err { OnErr result (core.new ≡ core.old) }
{
    if asked {
        return core.signal_and_wait(me, pending, single);
    }
    match core.signal(me, pending, single) {
        Ok(phase) => Ok((phase, Err(WaitRefusal::NoWait))),
        Err(refused) => Err(refused),
    }
}

/// Signals, and then waits where that is asked for and answers at once: both under one turn.
pub fn signal<A: Accumulate, K: SignalRule>(
    phaser: &LockedPhaser<A, K>,
    seat: PhaserSeat<A, K>,
    me: u64,
    entry: Entry,
    pending: Pending<A>,
    single: Option<Single>,
    waits: bool,
) -> (
    PhaserSeat<A, K>,
    Entry,
    Result<(u64, Option<Got>), Tried<SignalRefusal>>,
)
    requires seat { IsSeatOn K.allows phaser.now me entry seat }
    requires rule { (h : History) (sends : List ℤ) → IsGoodAt K.allows (locked_terms phaser.now) h
        → OthersCame (me ∷ []) (known_of (seat_view seat)).seen h
        → StandsForSends A.operation pending sends
        → K.allows (locked_terms phaser.now).rule h me (sends ∷ []) single }
    ensures { IsStep K.allows phaser.now me SignalRefusal.NoTask entry_after_both
        (Tries (IsSameSeat seat result.0 × (result.1 ≡ entry))
        (SignalsAndMayWait waits A.operation (locked_limits phaser.now) me pending single
        (known_of (seat_view seat)).seen (known_of (seat_view result.0)).seen) result.2)
        entry result.1 seat result.0 result.2 }
{
    let mut turn = match enter(phaser, seat, me, entry) {
        Ok(turn) => turn,
        Err(seat) => return (seat, entry, Err(Tried::Busy)),
    };
    let _part = pending.part();
    let core = turn.value_in(&phaser.lock);
    let answer = signal_where(core, me, pending, single, waits);
    let (phase, waited) = match answer {
        Ok(answer) => answer,
        Err(refused) => {
            let wants = phaser.hints.wants(entry.signal_phase, 1);
            phaser.hints.want(Some(refused.0), wants, Hints::look(core));
            let seat = give_same(phaser, turn);
            return (seat, entry, Err(Tried::Refused(refused.0)));
        }
    };
    let Some(entry) = core.view(me) else {
        unreachable!()
    };
    let reached = Hints::look(core);
    let told = (me, &pending, &single, waited);
    let seat = put_back::<A, K, Brand, _>(phaser, turn, reached, told);
    (seat, entry, Ok((phase, waited.ok())))
}

/// Leaves.
pub fn leave<A: Accumulate, K: SignalRule>(
    phaser: &LockedPhaser<A, K>,
    seat: PhaserSeat<A, K>,
    me: u64,
    entry: Entry,
) -> Result<PhaserSeat<A, K>, PhaserSeat<A, K>>
    requires { IsSeatOn K.allows phaser.now me entry seat }
    ensures ok { IfOk result (λ s. RestsOn (locked_place phaser.now) s
        (LeavesSeat K.allows (locked_terms phaser.now) me (known_of (seat_view seat)).seen)) }
    ensures err { IfErr result (λ s. IsSameSeat seat s) }
    ensures alone { OnlyUsed (me ∷ []) (known_of (seat_view seat)).seen → IsOk result }
{
    let mut turn = match enter(phaser, seat, me, entry) {
        Ok(turn) => turn,
        Err(seat) => return Err(seat),
    };
    let core = turn.value_in(&phaser.lock);
    let answer = core.drop_task(me);
    let Ok(()) = answer else { unreachable!() };
    let reached = Hints::look(core);
    Ok(put_back::<A, K, Brand, _>(phaser, turn, reached, me))
}

// The answer of a call under the turn, as a try tells it.
pub(crate) fn tried_of<X, R>(answer: Result<X, R>) -> Result<X, Tried<R>>
    ensures { result ≡ tried answer }
{
    match answer {
        Ok(answer) => Ok(answer),
        Err(refusal) => Err(Tried::Refused(refusal)),
    }
}

/// Waits.
pub fn wait<A: Accumulate, K: SignalRule>(
    phaser: &LockedPhaser<A, K>,
    seat: PhaserSeat<A, K>,
    me: u64,
    entry: Entry,
) -> (PhaserSeat<A, K>, Entry, Result<Got, Tried<WaitRefusal>>)
    requires { IsSeatOn K.allows phaser.now me entry seat }
    ensures { IsStep K.allows phaser.now me WaitRefusal.NoTask
        entry_after_wait (Tries (IsSameSeat seat result.0 × (result.1 ≡ entry))
        (Waits A.operation.value (locked_limits phaser.now) me
        (known_of (seat_view seat)).seen (known_of (seat_view result.0)).seen) result.2)
        entry result.1 seat result.0 result.2 }
{
    let mut turn = match enter(phaser, seat, me, entry) {
        Ok(turn) => turn,
        Err(seat) => return (seat, entry, Err(Tried::Busy)),
    };
    let core = turn.value_in(&phaser.lock);
    let answer = core.wait(me);
    let Some(entry) = core.view(me) else {
        unreachable!()
    };
    let reached = Hints::look(core);
    let seat = put_back::<A, K, Brand, _>(phaser, turn, reached, (me, answer));
    (seat, entry, tried_of(answer))
}

// The number of the next child. Where none is left it is the last one, which is refused.
pub(crate) fn child_of<A: Accumulate>(core: &PhaserCore<A>) -> u64
    ensures { result ≡ number_after core.now.greatest }
{
    core.next_number().unwrap_or(u64::MAX)
}

/// Registers a child. The answer is the child's number, seat and entry. Both get lanes, where some
/// are free.
pub fn register<A: Accumulate, K: SignalRule>(
    phaser: &LockedPhaser<A, K>,
    seat: PhaserSeat<A, K>,
    me: u64,
    entry: Entry,
    mode: Mode,
    lanes: &mut Lodgings,
) -> (
    PhaserSeat<A, K>,
    Result<(u64, PhaserSeat<A, K>, Entry), Tried<RegisterRefusal>>,
)
    requires { IsSeatOn K.allows phaser.now me entry seat }
    ensures { let old = (known_of (seat_view seat)).seen in
        IsStep K.allows phaser.now me RegisterRefusal.NoTask entry_stays
        (Tries (IsSameSeat seat result.0) (RegistersSeat K.allows phaser.now me mode entry old
        (known_of (seat_view result.0)).seen) result.1) entry entry seat result.0 result.1 }
{
    let mut turn = match enter(phaser, seat, me, entry) {
        Ok(turn) => turn,
        Err(seat) => return (seat, Err(Tried::Busy)),
    };
    let core = turn.value_in(&phaser.lock);
    let child = child_of(core);
    let answer = core.register(me, child, mode);
    let found = core.view(child);
    let reached = Hints::look(core);
    if let Err(refusal) = answer {
        return (give_same(phaser, turn), Err(Tried::Refused(refusal)));
    }
    let Some(start) = found else { unreachable!() };
    let turn = lodge_both(phaser, turn, (me, entry.mode), (child, mode), lanes);
    let both = put_back::<A, K, Brand, _>(phaser, turn, reached, (me, child, mode));
    let (seat, other) = split(phaser, both);
    (seat, Ok((child, other, start)))
}

/// Joins two seats at rest.
pub fn join<A: Accumulate, K: SignalRule>(
    phaser: &LockedPhaser<A, K>,
    seat: PhaserSeat<A, K>,
    other: PhaserSeat<A, K>,
) -> PhaserSeat<A, K>
    requires seat { RestsOn (locked_place phaser.now) seat IsResting }
    requires other { RestsOn (locked_place phaser.now) other IsResting }
    ensures { RestsOn (locked_place phaser.now) result (LearnedAt K.allows
        (locked_terms phaser.now) (joining (seat_view seat) (seat_view other))) }
{
    phaser.lock.join::<OnJoin, OnLook<K>>(seat, other)
}

// Cuts a seat at rest that speaks for two numbers in two, one for each.
pub(crate) fn split<A: Accumulate, K: SignalRule>(
    phaser: &LockedPhaser<A, K>,
    seat: PhaserSeat<A, K>,
) -> (PhaserSeat<A, K>, PhaserSeat<A, K>)
    requires { RestsOn (locked_place phaser.now) seat SpeaksForTwo }
    ensures left { RestsOn (locked_place phaser.now) result.0
        (λ v. v ≡ first_part (seat_view seat)) }
    ensures right { RestsOn (locked_place phaser.now) result.1
        (λ v. v ≡ other_part (seat_view seat)) }
{
    phaser.lock.split::<OnSplit>(seat)
}

/// The same two seats, which now have seen one history: it begins with what each had seen.
pub fn meet<A: Accumulate, K: SignalRule>(
    phaser: &LockedPhaser<A, K>,
    seat: PhaserSeat<A, K>,
    other: PhaserSeat<A, K>,
) -> (PhaserSeat<A, K>, PhaserSeat<A, K>)
    requires seat { RestsOn (locked_place phaser.now) seat SpeaksForOne }
    requires other { RestsOn (locked_place phaser.now) other SpeaksForOne }
    ensures { HaveMet K.allows phaser.now (seat_view seat) (seat_view other) result.0 result.1 }
{
    let both = join(phaser, seat, other);
    split(phaser, both)
}
