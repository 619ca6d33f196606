//! The steps of a seat that asks, and of its turn, that make no event.
ghost use Rattle.std.specs.Prelude.{◌≡◌, IfOk};
ghost use Rattle.turn_lock.specs.Seats.{seat_view, turn_view, turn_value};
ghost use Rattle.phase_history.specs.Phases.{value_of_phase};
ghost use Rattle.phase_shared.specs.Goods.{allows_or};
ghost use Rattle.phase_shared.specs.Servings.{HasAnswer};
ghost use Rattle.phase_shared.specs.declared.seats.view.Ask.{Ask};
ghost use Rattle.phase_shared.specs.declared.seats.view.Knowledge.{Knowledge};
ghost use Rattle.phase_shared.specs.declared.seats.view.View.TheVariants.{Resting, Reading};
ghost use Rattle.phase_shared.specs.Views.{board_of};
ghost use Rattle.phase_shared.specs.WordTells.{IsReading, IsHolder};

use crate::lane_words::{KIND, NUMBER, outcome_of};
use crate::rule::SignalRule;
use crate::seats::desk::{AskingDesk, Came, Desk, EndedDesk, OnTurn, TakenTurn};
use crate::seats::ghost_steps::{
    OnAsked, OnBoardKind, OnBoardNumber, OnKind, OnNumber, OnTakeAsked, Since,
};
use phase_accum::{Accumulate, Outcome};

impl<'a, A: Accumulate, K: SignalRule, S: Since<K>> AskingDesk<'a, A, K, S> {
    /// Takes the turn, where it is free.
    pub fn take(self) -> Result<TakenTurn<'a, A, K, S>, AskingDesk<'a, A, K, S>> {
        let AskingDesk { desk, is_made } = self;
        let Desk { of, seat } = desk;
        match of.phaser.lock.try_take::<OnTakeAsked<A, K>>(seat) {
            Ok(turn) => {
                let on = OnTurn { of, turn };
                Ok(TakenTurn { on })
            }
            Err(seat) => {
                let desk = Desk { of, seat };
                Err(AskingDesk { desk, is_made })
            }
        }
    }

    /// Looks whether what it asked for is answered, and reads its value then.
    pub fn read(self) -> Result<(Desk<'a, A, K, S>, Outcome), AskingDesk<'a, A, K, S>>
        ensures ok { IfOk result (λ told. HasAnswer A.operation S.terms.limits
            (allows_or K.allows S.terms.rule) S.ask S.seen told.1 (seat_view told.0.seat)) }
    {
        let AskingDesk { desk, is_made } = self;
        let Desk { of, seat } = desk;
        let (seat, told) = of.phaser.lock.look::<OnAsked<K>>(seat);
        let phase = of.request.phase;
        let desk = Desk { of, seat };
        if told % 2 == 0 || told / 2 <= phase {
            return Err(AskingDesk { desk, is_made });
        }
        let (desk, outcome) = desk.read_answer();
        Ok((desk, outcome))
    }

    /// The same, as what came of it.
    pub fn look(self) -> Came<'a, A, K, S> {
        match self.read() {
            Ok((desk, outcome)) => {
                let answer = Ok(outcome);
                Came::Ended(EndedDesk {
                    desk,
                    answer,
                    is_told: true,
                })
            }
            Err(asking) => Came::Asked(asking),
        }
    }
}

impl<'a, A: Accumulate, K: SignalRule, S: Since<K>> Desk<'a, A, K, S> {
    // Reads the value that who was answered has still to read.
    fn read_answer(self) -> (Desk<'a, A, K, S>, Outcome)
        requires reads { IsReading (seat_view self.seat) }
        ensures answer { (f : Knowledge) (a : Ask) → seat_view self.entry.seat ≡ Reading f a
            → (seat_view result.0.seat ≡ Resting f)
            × (result.1 ≡ value_of_phase A.operation.value f.seen a.phase) }
    {
        let Desk { of, seat } = self;
        let (seat, kind) = of.phaser.lock.read::<OnKind<A>>(seat, KIND);
        let (seat, number) = of.phaser.lock.read::<OnNumber<A>>(seat, NUMBER);
        (Desk { of, seat }, outcome_of(number, kind))
    }
}

impl<'a, A: Accumulate, K: SignalRule, S: Since<K>> OnTurn<'a, A, K, S> {
    /// Reads the board.
    pub fn read_board(self) -> (OnTurn<'a, A, K, S>, Outcome)
        requires holds { IsHolder (turn_view self.turn) }
        ensures view { turn_view result.0.turn ≡ turn_view self.entry.turn }
        ensures value { turn_value result.0.turn ≡ turn_value self.entry.turn }
        ensures board { result.1 ≡ board_of (turn_view self.entry.turn) }
    {
        let OnTurn { of, turn } = self;
        let (turn, kind) = of.phaser.lock.read_in::<OnBoardKind>(turn, KIND);
        let (turn, number) = of.phaser.lock.read_in::<OnBoardNumber>(turn, NUMBER);
        (OnTurn { of, turn }, outcome_of(number, kind))
    }
}
