//! The steps of a seat that asks between two calls.
ghost use Rattle.std.specs.Prelude.{◌≡◌, true, false, IfSome, IfNone};
ghost use Rattle.turn_lock.specs.Seats.{IsSeatAt, seat_view};
ghost use Rattle.phase_shared.specs.Goods.{allows_or};
ghost use Rattle.phase_shared.specs.Servings.{IsCallAt, MayGoNext, IsAsking, AsksAt, HasAnswer, HasEnded, HasRested};

use crate::rule::SignalRule;
use crate::seats::desk::{AskingDesk, Call, Came, Desk, EndedDesk, ReadyDesk};
use crate::seats::ghost_steps::Since;
use crate::seats::locked::LockedPhaser;
use crate::seats::request::Request;
use crate::seats::view::PhaserSeat;
use phase_accum::{Accumulate, Outcome};
use phase_core::SignalRefusal;
use std::marker::PhantomData;

/// Posts what it asks for, and tells whether it did: its lane may be another's.
pub fn post<A: Accumulate, K: SignalRule, S: Since<K>>(
    phaser: &LockedPhaser<A, K>,
    seat: PhaserSeat<A, K>,
    request: Request,
) -> (PhaserSeat<A, K>, bool)
    requires seat { IsSeatAt S.place seat }
    requires call { IsCallAt phaser.now request S.place S.terms S.ask }
    requires next { MayGoNext S.terms.limits (allows_or K.allows S.terms.rule) S.ask S.seen
        (seat_view seat) }
    ensures seat { IsSeatAt S.place result.0 }
    ensures asks { result.1 ≡ true → IsAsking S.ask S.seen (seat_view result.0) }
    ensures other { result.1 ≡ false → seat_view result.0 ≡ seat_view seat }
{
    let since = PhantomData::<S>;
    let of = Call {
        phaser,
        request,
        since,
    };
    let desk = Desk { of, seat };
    let ready = match desk.ready() {
        Ok(ready) => ready,
        Err(Desk { seat, .. }) => return (seat, false),
    };
    let ReadyDesk { desk } = ready;
    let AskingDesk { desk, .. } = desk.post();
    let Desk { seat, .. } = desk;
    (seat, true)
}

// A seat that asks, on its phaser.
fn asking<'a, A: Accumulate, K: SignalRule, S: Since<K>>(
    phaser: &'a LockedPhaser<A, K>,
    seat: PhaserSeat<A, K>,
    request: Request,
) -> AskingDesk<'a, A, K, S>
    requires seat { IsSeatAt S.place seat }
    requires call { IsCallAt phaser.now request S.place S.terms S.ask }
    requires asks { AsksAt S.terms.limits (allows_or K.allows S.terms.rule) S.ask S.seen
        (seat_view seat) }
{
    let since = PhantomData::<S>;
    let of = Call {
        phaser,
        request,
        since,
    };
    let desk = Desk { of, seat };
    let is_made = false;
    AskingDesk { desk, is_made }
}

/// Looks whether what it asked for is answered, and reads its value then. It takes no turn.
pub fn look<A: Accumulate, K: SignalRule, S: Since<K>>(
    phaser: &LockedPhaser<A, K>,
    seat: PhaserSeat<A, K>,
    request: Request,
) -> (PhaserSeat<A, K>, Option<Outcome>)
    requires seat { IsSeatAt S.place seat }
    requires call { IsCallAt phaser.now request S.place S.terms S.ask }
    requires asks { AsksAt S.terms.limits (allows_or K.allows S.terms.rule) S.ask S.seen
        (seat_view seat) }
    ensures seat { IsSeatAt S.place result.0 }
    ensures answered { IfSome result.1 (λ outcome. HasAnswer A.operation S.terms.limits
        (allows_or K.allows S.terms.rule) S.ask S.seen outcome (seat_view result.0)) }
    ensures asks { IfNone result.1 (IsAsking S.ask S.seen (seat_view result.0)) }
{
    match asking::<A, K, S>(phaser, seat, request).read() {
        Ok((desk, outcome)) => {
            let Desk { seat, .. } = desk;
            (seat, Some(outcome))
        }
        Err(asking) => {
            let AskingDesk { desk, .. } = asking;
            let Desk { seat, .. } = desk;
            (seat, None)
        }
    }
}

/// Takes the turn, where it is free, and goes on under it for so many looks. Where it asks still,
/// it tells whether its signal is made.
pub fn serve<A: Accumulate, K: SignalRule, S: Since<K>>(
    phaser: &LockedPhaser<A, K>,
    seat: PhaserSeat<A, K>,
    request: Request,
    looks: u32,
) -> (
    PhaserSeat<A, K>,
    Option<Result<Outcome, SignalRefusal>>,
    bool,
)
    requires seat { IsSeatAt S.place seat }
    requires call { IsCallAt phaser.now request S.place S.terms S.ask }
    requires asks { AsksAt S.terms.limits (allows_or K.allows S.terms.rule) S.ask S.seen
        (seat_view seat) }
    ensures seat { IsSeatAt S.place result.0 }
    ensures ended { IfSome result.1 (λ answer. HasEnded A.operation S.terms.limits
        (allows_or K.allows S.terms.rule) S.ask S.seen answer (seat_view result.0)) }
    ensures asks { IfNone result.1 (IsAsking S.ask S.seen (seat_view result.0)) }
{
    let asking = asking::<A, K, S>(phaser, seat, request);
    let came = match asking.take() {
        Ok(taken) => taken.go_on(looks),
        Err(asking) => Came::Asked(asking),
    };
    match came {
        Came::Ended(ended) => {
            let EndedDesk { desk, answer, .. } = ended;
            let Desk { seat, .. } = desk;
            (seat, Some(answer), true)
        }
        Came::Asked(asking) => {
            let AskingDesk { desk, is_made } = asking;
            let Desk { seat, .. } = desk;
            (seat, None, is_made)
        }
    }
}

/// Takes back what it asked for, where the turn is free: its signal is made, or refused; or its
/// phase is complete, and it has its answer.
pub fn take_back<A: Accumulate, K: SignalRule, S: Since<K>>(
    phaser: &LockedPhaser<A, K>,
    seat: PhaserSeat<A, K>,
    request: Request,
) -> (
    PhaserSeat<A, K>,
    Option<Result<Option<Outcome>, SignalRefusal>>,
)
    requires seat { IsSeatAt S.place seat }
    requires call { IsCallAt phaser.now request S.place S.terms S.ask }
    requires asks { AsksAt S.terms.limits (allows_or K.allows S.terms.rule) S.ask S.seen
        (seat_view seat) }
    ensures seat { IsSeatAt S.place result.0 }
    ensures back { IfSome result.1 (λ answer. HasRested A.operation S.terms.limits
        (allows_or K.allows S.terms.rule) S.ask S.seen answer (seat_view result.0)) }
    ensures asks { IfNone result.1 (IsAsking S.ask S.seen (seat_view result.0)) }
{
    let taken = match asking::<A, K, S>(phaser, seat, request).take() {
        Ok(taken) => taken,
        Err(asking) => {
            let AskingDesk { desk, .. } = asking;
            let Desk { seat, .. } = desk;
            return (seat, None);
        }
    };
    match taken.take_back() {
        Ok(ended) => {
            let EndedDesk { desk, answer, .. } = ended;
            let Desk { seat, .. } = desk;
            match answer {
                Ok(outcome) => (seat, Some(Ok(Some(outcome)))),
                Err(refusal) => (seat, Some(Err(refusal))),
            }
        }
        Err(Desk { seat, .. }) => (seat, Some(Ok(None))),
    }
}
