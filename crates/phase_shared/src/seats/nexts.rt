//! A next phase of a task, which others may take it to.
ghost use Rattle.std.specs.Prelude.{◌≡◌, true, IfSome, IfNone};
ghost use Rattle.turn_lock.specs.Seats.{IsSeatAt, seat_view};
ghost use Rattle.phase_shared.specs.Goods.{allows_or};
ghost use Rattle.phase_shared.specs.Servings.{IsCallAt, MayGoNext, HasEnded};

use crate::rule::SignalRule;
use crate::seats::desk::{AskingDesk, Call, Came, Desk, EndedDesk, FirstTurn, OnTurn, ReadyDesk};
use crate::seats::ghost_steps::{OnTake, Since};
use crate::seats::locked::LockedPhaser;
use crate::seats::request::Request;
use crate::seats::spins::Spins;
use crate::seats::view::PhaserSeat;
use phase_accum::{Accumulate, Outcome};
use phase_core::SignalRefusal;
use std::marker::PhantomData;
use std::sync::Wait;
use std::{hint, thread};

// How often to pause before a turn after one that served others, after a post before the first look
// for its answer, and between two looks.
const REST: u32 = 2;

const HOLD: u32 = 3;

// How often to look for an answer once it is late, and for who hardly looks; and then how often to
// yield before it sleeps.
const LOOKS: u32 = 15;

const FEW: u32 = 4;

const YIELDS: u32 = 60;

fn pause(times: u32) {
    for _ in 0..times {
        hint::spin_loop();
    }
}

impl<'a, A: Accumulate, K: SignalRule, S: Since<K>> AskingDesk<'a, A, K, S> {
    // Looks for its answer, once and so often before.
    fn look_for(self, times: u32) -> Came<'a, A, K, S> {
        let mut asking = self;
        for _ in 0..times {
            asking = match asking.look() {
                Came::Ended(ended) => return Came::Ended(ended),
                Came::Asked(next) => next,
            };
            hint::spin_loop();
        }
        asking.look()
    }

    // Takes the turn, where it is free, and goes on under it.
    fn try_turn(self, looks: u32) -> Came<'a, A, K, S> {
        match self.take() {
            Ok(taken) => taken.go_on(looks),
            Err(asking) => Came::Asked(asking),
        }
    }

    // Sleeps for some time, or until its phase is complete. Its signal is made: nobody may be left
    // to wake who sleeps while it is a post alone.
    fn sleep<W: Wait>(&self, rt: &W)
        requires { self.now ≡ true }
    {
        let phaser = self.desk.of.phaser;
        let bell = &phaser.hints.phases;
        let found = bell.lie_down();
        if phaser.told() <= self.desk.of.request.phase {
            bell.sleep(rt, found);
        }
        bell.get_up();
    }

    // Whether it is time to take the turn: its phase is complete, or, where its signal may be a
    // post alone, the turn is free.
    fn is_time(&self, round: u32) -> bool {
        let phaser = self.desk.of.phaser;
        phaser.told() > self.desk.of.request.phase
            || (!self.is_made && round % 4 == 0 && phaser.lock.is_free())
    }

    // Looks for its answer, and takes the turn where it is time, while it yields so often.
    fn yield_for(self) -> Came<'a, A, K, S> {
        let mut asking = self;
        for round in 0..YIELDS {
            asking = match asking.look() {
                Came::Ended(ended) => return Came::Ended(ended),
                Came::Asked(next) => next,
            };
            if asking.is_time(round) {
                asking = match asking.try_turn(0) {
                    Came::Ended(ended) => return Came::Ended(ended),
                    Came::Asked(next) => next,
                };
            }
            thread::yield_now();
        }
        asking.look()
    }

    // Waits for its answer, or for a refusal.
    fn wait_for<W: Wait>(self, rt: &W) -> EndedDesk<'a, A, K, S> {
        let mut asking = self;
        for _ in rt.forever() {
            asking = match asking.yield_for() {
                Came::Ended(ended) => return ended,
                Came::Asked(next) => next,
            };
            if asking.is_made {
                asking.sleep(rt);
                asking.is_made = false;
            }
        }
        unreachable!()
    }

    // Looks for its answer once more, and then waits for it.
    fn wait_longer<W: Wait>(self, rt: &W, spins: &mut Spins) -> EndedDesk<'a, A, K, S> {
        let times = if spins.is_slow() { FEW } else { LOOKS };
        let ended = match self.look_for(times) {
            Came::Ended(ended) => {
                spins.quick();
                ended
            }
            Came::Asked(asking) => {
                spins.slow();
                spins.answered();
                asking.wait_for(rt)
            }
        };
        if ended.is_told {
            spins.told(false);
        }
        ended
    }
}

impl<'a, A: Accumulate, K: SignalRule, S: Since<K>> Came<'a, A, K, S> {
    // After a turn, or a try to take one: has its answer, or waits for it.
    fn after_turn<W: Wait>(self, rt: &W, spins: &mut Spins) -> EndedDesk<'a, A, K, S> {
        match self {
            Came::Ended(ended) => {
                if ended.answer.is_ok() {
                    spins.served();
                }
                ended
            }
            Came::Asked(asking) => asking.wait_longer(rt, spins),
        }
    }
}

impl<'a, A: Accumulate, K: SignalRule, S: Since<K>> ReadyDesk<'a, A, K, S> {
    // Takes the turn, where it is free.
    fn take(self) -> Result<FirstTurn<'a, A, K, S>, ReadyDesk<'a, A, K, S>> {
        let ReadyDesk { desk } = self;
        let Desk { of, seat } = desk;
        match of.phaser.lock.try_take::<OnTake<A, K>>(seat) {
            Ok(turn) => {
                let on = OnTurn { of, turn };
                Ok(FirstTurn { on })
            }
            Err(seat) => {
                let desk = Desk { of, seat };
                Err(ReadyDesk { desk })
            }
        }
    }

    // Posts what it asks for, looks for its answer, and else for the turn.
    fn ask<W: Wait>(self, rt: &W, spins: &mut Spins) -> EndedDesk<'a, A, K, S> {
        let ReadyDesk { desk } = self;
        let asking = desk.post();
        if spins.first() != 0 {
            pause(HOLD);
        }
        match asking.look_for(spins.first()) {
            Came::Ended(ended) => {
                spins.quick();
                spins.told(true);
                ended
            }
            Came::Asked(asking) => asking.try_turn(spins.serve()).after_turn(rt, spins),
        }
    }

    // Goes to its next phase, or is refused, as a signal is.
    fn go<W: Wait>(self, rt: &W, spins: &mut Spins) -> EndedDesk<'a, A, K, S> {
        spins.begin(self.desk.of.request.phase);
        if !spins.takes_first() {
            return self.ask(rt, spins);
        }
        if spins.rests_first() {
            pause(REST);
        }
        match self.take() {
            Ok(first) => first.start(spins.serve()).after_turn(rt, spins),
            Err(ready) => ready.ask(rt, spins),
        }
    }
}

/// Goes to its next phase, or is refused, as a signal is. It does nothing where its lane is not its
/// own.
pub fn next<A: Accumulate, K: SignalRule, S: Since<K>, W: Wait>(
    rt: &W,
    phaser: &LockedPhaser<A, K>,
    seat: PhaserSeat<A, K>,
    request: Request,
    spins: &mut Spins,
) -> (PhaserSeat<A, K>, Option<Result<Outcome, SignalRefusal>>)
    requires seat { IsSeatAt S.place seat }
    requires call { IsCallAt phaser.now request S.place S.terms S.ask }
    requires next { MayGoNext S.terms.limits (allows_or K.allows S.terms.rule) S.ask S.seen
        (seat_view seat) }
    ensures seat { IsSeatAt S.place result.0 }
    ensures ended { IfSome result.1 (λ answer. HasEnded A.operation S.terms.limits
        (allows_or K.allows S.terms.rule) S.ask S.seen answer (seat_view result.0)) }
    ensures none { IfNone result.1 (seat_view result.0 ≡ seat_view seat) }
{
    let since = PhantomData::<S>;
    let of = Call {
        phaser,
        request,
        since,
    };
    let desk = Desk { of, seat };
    let ready = match desk.ready() {
        Ok(ready) => ready,
        Err(Desk { seat, .. }) => return (seat, None),
    };
    let ended = ready.go(rt, spins);
    let EndedDesk { desk, answer, .. } = ended;
    let Desk { seat, .. } = desk;
    (seat, Some(answer))
}
