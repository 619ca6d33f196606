//! A seat in a call that goes to the next phase of its task, and its turn. They have their phaser
//! with them, and their types say how far the call is.
ghost use Rattle.std.specs.Prelude.{◌≡◌};
ghost use Rattle.turn_lock.specs.Seats.{IsSeatAt, IsTurnAt};
ghost use Rattle.phase_shared.specs.LockedPhasers.{locked_place, locked_terms, some_terms};
ghost use Rattle.phase_shared.specs.Servings.{ask_of};

use crate::rule::SignalRule;
use crate::seats::ghost_steps::Since;
use crate::seats::locked::LockedPhaser;
use crate::seats::request::Request;
use crate::seats::view::{PhaserSeat, PhaserTurn};
use phase_accum::{Accumulate, Outcome};
use phase_core::SignalRefusal;
use std::marker::{Model, PhantomData};

/// A call, on its phaser.
#[derive(Drop)]
pub struct Call<'a, A: Accumulate, K: SignalRule, S: Since<K>> {
    pub phaser: &'a LockedPhaser<A, K>,
    pub request: Request,
    pub since: PhantomData<S>,
    ghost place_is: { locked_place phaser.now ≡ S.place },
    ghost terms_is: { S.terms ≡ some_terms (locked_terms phaser.now) },
    ghost ask_is: { S.ask ≡ ask_of request },
}

/// Its seat.
#[derive(Drop)]
pub struct Desk<'a, A: Accumulate, K: SignalRule, S: Since<K>> {
    pub of: Call<'a, A, K, S>,
    pub seat: PhaserSeat<A, K>,
    ghost here: { IsSeatAt S.place seat },
}

/// A seat at rest, whose task has a lane and may ask others.
#[derive(Drop)]
pub struct ReadyDesk<'a, A: Accumulate, K: SignalRule, S: Since<K>> {
    pub desk: Desk<'a, A, K, S>,
}

impl<'a, A: Accumulate, K: SignalRule, S: Since<K>> Model for ReadyDesk<'a, A, K, S> {
    ghost use Rattle.turn_lock.specs.Seats.{seat_view};
    ghost use Rattle.phase_shared.specs.Goods.{allows_or};
    ghost use Rattle.phase_shared.specs.Servings.{MayAskOn};

    ghost Value = { Unit {0} };

    ghost view = { λ d. tt };

    ghost invariant = { λ d. MayAskOn S.terms.limits (allows_or K.allows S.terms.rule) S.ask S.seen
        (seat_view d.desk.seat) };
}

/// A seat that asks. Its signal is made, or it is a post alone, which nobody may see.
#[derive(Drop)]
pub struct AskingDesk<'a, A: Accumulate, K: SignalRule, S: Since<K>> {
    pub desk: Desk<'a, A, K, S>,
    pub is_made: bool,
}

impl<'a, A: Accumulate, K: SignalRule, S: Since<K>> Model for AskingDesk<'a, A, K, S> {
    ghost use Rattle.std.specs.Prelude.{Bool};
    ghost use Rattle.turn_lock.specs.Seats.{seat_view};
    ghost use Rattle.phase_shared.specs.Goods.{allows_or};
    ghost use Rattle.phase_shared.specs.Servings.{IsAsking, MayWait};

    ghost Value = { Bool };

    ghost view = { λ d. d.is_made };

    ghost invariant = { λ d. IsAsking S.ask S.seen (seat_view d.desk.seat)
        × MayWait S.terms.limits (allows_or K.allows S.terms.rule) S.ask S.seen };
}

/// A seat whose call has ended: with the value of its phase, or as a signal is refused. Another's
/// turn told it that, or its own came to it.
#[derive(Drop)]
pub struct EndedDesk<'a, A: Accumulate, K: SignalRule, S: Since<K>> {
    pub desk: Desk<'a, A, K, S>,
    pub answer: Result<Outcome, SignalRefusal>,
    pub is_told: bool,
}

impl<'a, A: Accumulate, K: SignalRule, S: Since<K>> Model for EndedDesk<'a, A, K, S> {
    ghost use Rattle.turn_lock.specs.Seats.{seat_view};
    ghost use Rattle.phase_shared.specs.Goods.{allows_or};
    ghost use Rattle.phase_shared.specs.Servings.{HasEnded};

    ghost Value = { Unit {0} };

    ghost view = { λ d. tt };

    ghost invariant = { λ d. HasEnded A.operation S.terms.limits (allows_or K.allows S.terms.rule)
        S.ask S.seen d.answer (seat_view d.desk.seat) };
}

/// What came of a look or of a turn.
pub enum Came<'a, A: Accumulate, K: SignalRule, S: Since<K>> {
    /// The call has ended.
    Ended(EndedDesk<'a, A, K, S>),
    /// It asks still.
    Asked(AskingDesk<'a, A, K, S>),
}

/// Its turn.
pub struct OnTurn<'a, A: Accumulate, K: SignalRule, S: Since<K>> {
    pub of: Call<'a, A, K, S>,
    pub turn: PhaserTurn<A, K>,
    ghost here: { IsTurnAt S.place turn },
}

/// The turn of a seat that asked: others may have made its signal, and its wait.
pub struct TakenTurn<'a, A: Accumulate, K: SignalRule, S: Since<K>> {
    pub on: OnTurn<'a, A, K, S>,
}

impl<'a, A: Accumulate, K: SignalRule, S: Since<K>> Model for TakenTurn<'a, A, K, S> {
    ghost use Rattle.std.specs.Prelude.{◌∷◌, []};
    ghost use Rattle.turn_lock.specs.Seats.{turn_view, turn_value};
    ghost use Rattle.phase_shared.specs.Goods.{allows_or};
    ghost use Rattle.phase_shared.specs.Rule.{StandsWithin};
    ghost use Rattle.phase_shared.specs.Servings.{MayWait};
    ghost use Rattle.phase_shared.specs.Tells.{TookAsked};
    ghost use Rattle.phase_shared.specs.Views.{knowledge};

    ghost Value = { Unit {0} };

    ghost view = { λ t. tt };

    ghost invariant = { λ t. TookAsked A.operation.value S.terms.limits
        (allows_or K.allows S.terms.rule) (StandsWithin A.operation S.terms.limits)
        (knowledge S.seen (S.ask.task ∷ [])) S.ask (turn_value t.on.turn) (turn_view t.on.turn)
        × MayWait S.terms.limits (allows_or K.allows S.terms.rule) S.ask S.seen };
}

/// A turn before its signal.
pub struct FirstTurn<'a, A: Accumulate, K: SignalRule, S: Since<K>> {
    pub on: OnTurn<'a, A, K, S>,
}

impl<'a, A: Accumulate, K: SignalRule, S: Since<K>> Model for FirstTurn<'a, A, K, S> {
    ghost use Rattle.turn_lock.specs.Seats.{turn_view, turn_value};
    ghost use Rattle.phase_shared.specs.Goods.{allows_or};
    ghost use Rattle.phase_shared.specs.Servings.{Starting, MayWait};

    ghost Value = { Unit {0} };

    ghost view = { λ t. tt };

    ghost invariant = { λ t. Starting A.operation S.terms.limits (allows_or K.allows S.terms.rule)
        S.ask S.seen (turn_view t.on.turn) (turn_value t.on.turn)
        × MayWait S.terms.limits (allows_or K.allows S.terms.rule) S.ask S.seen };
}

/// A turn whose signal is refused.
pub struct RefusedTurn<'a, A: Accumulate, K: SignalRule, S: Since<K>> {
    pub on: OnTurn<'a, A, K, S>,
    pub refusal: SignalRefusal,
}

impl<'a, A: Accumulate, K: SignalRule, S: Since<K>> Model for RefusedTurn<'a, A, K, S> {
    ghost use Rattle.std.specs.Prelude.{◌≡◌, ◌∷◌, [], Some, None};
    ghost use Rattle.turn_lock.specs.Seats.{turn_view, turn_value};
    ghost use Rattle.phase_history.specs.Refusals.{signal_refusal};
    ghost use Rattle.phase_shared.specs.Goods.{allows_or};
    ghost use Rattle.phase_shared.specs.Servings.{Starting};
    ghost use Rattle.phase_shared.specs.Views.{known_of};

    ghost Value = { Unit {0} };

    ghost view = { λ t. tt };

    ghost invariant = { λ t. Starting A.operation S.terms.limits (allows_or K.allows S.terms.rule)
        S.ask S.seen (turn_view t.on.turn) (turn_value t.on.turn)
        × (signal_refusal S.terms.limits (known_of (turn_view t.on.turn)).seen S.ask.task
        (S.ask.sends ∷ []) None ≡ Some t.refusal) };
}

/// A turn whose signal is made, in a phase that was not complete when it began.
pub struct OpenTurn<'a, A: Accumulate, K: SignalRule, S: Since<K>> {
    pub on: OnTurn<'a, A, K, S>,
}

impl<'a, A: Accumulate, K: SignalRule, S: Since<K>> Model for OpenTurn<'a, A, K, S> {
    ghost use Rattle.std.specs.Prelude.{false};
    ghost use Rattle.turn_lock.specs.Seats.{turn_view, turn_value};
    ghost use Rattle.phase_shared.specs.Goods.{allows_or};
    ghost use Rattle.phase_shared.specs.Servings.{ServingOpen};

    ghost Value = { Unit {0} };

    ghost view = { λ t. tt };

    ghost invariant = { λ t. ServingOpen A.operation S.terms.limits
        (allows_or K.allows S.terms.rule) S.ask S.seen false (turn_view t.on.turn)
        (turn_value t.on.turn) };
}

/// The same where its phase is complete.
pub struct FullTurn<'a, A: Accumulate, K: SignalRule, S: Since<K>> {
    pub on: OnTurn<'a, A, K, S>,
}

impl<'a, A: Accumulate, K: SignalRule, S: Since<K>> Model for FullTurn<'a, A, K, S> {
    ghost use Rattle.std.specs.Prelude.{true};
    ghost use Rattle.turn_lock.specs.Seats.{turn_view, turn_value};
    ghost use Rattle.phase_shared.specs.Goods.{allows_or};
    ghost use Rattle.phase_shared.specs.Servings.{ServingOpen};

    ghost Value = { Unit {0} };

    ghost view = { λ t. tt };

    ghost invariant = { λ t. ServingOpen A.operation S.terms.limits
        (allows_or K.allows S.terms.rule) S.ask S.seen true (turn_view t.on.turn)
        (turn_value t.on.turn) };
}

/// How far others have brought a turn's call.
pub enum Stage<'a, A: Accumulate, K: SignalRule, S: Since<K>> {
    /// It has ended.
    Ended(EndedDesk<'a, A, K, S>),
    /// Nothing of it is made.
    First(FirstTurn<'a, A, K, S>),
    /// Its signal is, in a phase that is not complete.
    Open(OpenTurn<'a, A, K, S>),
}
