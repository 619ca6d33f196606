//! The turns of a seat that asks, from the take to the give.
ghost use Rattle.std.specs.Prelude.{◌≡◌, ◌<◌, ◌^◌, true, false, IfErr};
ghost use Rattle.turn_lock.specs.Seats.{seat_view, turn_number, turn_view, turn_value, turn_told};
ghost use Rattle.turn_lock.specs.WordSteps.{GivesOf};
ghost use Rattle.phase_shared.specs.Goods.{allows_or};
ghost use Rattle.phase_shared.specs.Rule.{HasOneHistory};
ghost use Rattle.phase_shared.specs.Servings.{Serving, IsAnsweredIn, IsCompleteIn, IsOpenIn, HasSignalled};

use crate::lane_words::sends_of;
use crate::rule::SignalRule;
use crate::seats::desk::{
    AskingDesk, Came, Desk, EndedDesk, FirstTurn, FullTurn, OnTurn, OpenTurn, RefusedTurn, Stage,
    TakenTurn,
};
use crate::seats::ghost_steps::{OnGive, Plan, Since};
use crate::seats::hints::Hints;
use phase_accum::Accumulate;
use std::marker::Brand;

// The numbers of complete phases that a lock tells are below it.
const TOLD_END: u64 = 1 << 62;

impl<'a, A: Accumulate, K: SignalRule, S: Since<K>> OnTurn<'a, A, K, S> {
    // Gives the turn back, and the lock tells this number. What the give tells is picked by its
    // caller, and may speak of `with`.
    fn give<E: Plan, X: Copy>(self, told: u64, with: X) -> Desk<'a, A, K, S>
        requires told { told < 2 ^ 63 }
        requires rule { GivesOf (HasOneHistory A.operation (allows_or K.allows)) S.terms
            (turn_number self.turn) (turn_view self.turn) (turn_value self.turn)
            (turn_told self.turn) told (λ v y w. E.goes v w) }
        ensures rule { E.goes (turn_view self.entry.turn) (seat_view result.seat) }
    {
        let _ = with;
        let OnTurn { of, turn } = self;
        let seat = of.phaser.lock.give::<OnGive<E>>(turn, told);
        Desk { of, seat }
    }

    // Gives the turn back, and the lock tells what it told.
    fn give_same<E: Plan, X: Copy>(self, with: X) -> Desk<'a, A, K, S>
        requires rule { GivesOf (HasOneHistory A.operation (allows_or K.allows)) S.terms
            (turn_number self.turn) (turn_view self.turn) (turn_value self.turn)
            (turn_told self.turn) (turn_told self.turn) (λ v y w. E.goes v w) }
        ensures rule { E.goes (turn_view self.entry.turn) (seat_view result.seat) }
    {
        let _ = with;
        let OnTurn { of, turn } = self;
        let (turn, told) = of.phaser.lock.told_in(turn);
        let seat = of.phaser.lock.give::<OnGive<E>>(turn, told);
        Desk { of, seat }
    }

    // Gives the turn back where others have answered, and reads the value before.
    fn take_answer(self) -> EndedDesk<'a, A, K, S>
        requires answered { IsAnsweredIn A.operation S.terms.limits
            (allows_or K.allows S.terms.rule) S.ask S.seen (turn_view self.turn)
            (turn_value self.turn) }
    {
        let (on, outcome) = self.read_board();
        let desk = on.give_same::<Brand, _>(outcome);
        let answer = Ok(outcome);
        EndedDesk {
            desk,
            answer,
            is_told: false,
        }
    }

    // Gives the turn back where its signal alone is made, and its phase is not complete. It asks no
    // more.
    fn rest(self) -> Desk<'a, A, K, S>
        requires serving { Serving A.operation S.terms.limits (allows_or K.allows S.terms.rule)
            S.ask S.seen false 0 (turn_view self.turn) (turn_value self.turn) }
        requires low { IsOpenIn A.operation (turn_value self.turn) S.ask.phase }
        ensures back { HasSignalled A.operation S.terms.limits (allows_or K.allows S.terms.rule)
            S.ask S.seen (seat_view result.seat) }
    {
        self.clear_in().give_same::<Brand, _>(())
    }

    // Waits for its phase, which is complete, and gives the turn back: others go on by themselves.
    fn wait_late(self) -> EndedDesk<'a, A, K, S>
        requires serving { Serving A.operation S.terms.limits (allows_or K.allows S.terms.rule)
            S.ask S.seen false 0 (turn_view self.turn) (turn_value self.turn) }
        requires complete { IsCompleteIn A.operation (turn_value self.turn) S.ask.phase }
    {
        let (on, outcome) = self.wait_own();
        let OnTurn { of, mut turn } = on;
        let news = of.phaser.news(Hints::look(turn.value_in(&of.phaser.lock)));
        let on = OnTurn { of, turn };
        let desk = on.give_same::<Brand, _>(outcome);
        desk.of.phaser.hints.tell::<K>(news);
        let answer = Ok(outcome);
        EndedDesk {
            desk,
            answer,
            is_told: false,
        }
    }
}

impl<'a, A: Accumulate, K: SignalRule, S: Since<K>> FirstTurn<'a, A, K, S> {
    // Makes its own signal.
    fn signal_own(self) -> Result<OpenTurn<'a, A, K, S>, RefusedTurn<'a, A, K, S>> {
        let FirstTurn { on } = self;
        let OnTurn { of, mut turn } = on;
        let request = of.request;
        let core = turn.value_in(&of.phaser.lock);
        match core.signal(request.task, sends_of(request.send), None) {
            Ok(_phase) => {
                let on = OnTurn { of, turn };
                Ok(OpenTurn { on })
            }
            Err(refused) => {
                let on = OnTurn { of, turn };
                let refusal = refused.0;
                Err(RefusedTurn { on, refusal })
            }
        }
    }

    /// Signals, and goes on under the turn for so many looks.
    pub fn start(self, looks: u32) -> Came<'a, A, K, S> {
        match self.signal_own() {
            Ok(open) => open.serve(looks),
            Err(refused) => Came::Ended(refused.refuse()),
        }
    }
}

impl<'a, A: Accumulate, K: SignalRule, S: Since<K>> RefusedTurn<'a, A, K, S> {
    // Gives the turn back after its signal was refused: it asks no more.
    fn refuse(self) -> EndedDesk<'a, A, K, S> {
        let RefusedTurn { on, refusal } = self;
        let OnTurn { of, mut turn } = on;
        let reached = Hints::look(turn.value_in(&of.phaser.lock));
        let wants = of.phaser.hints.wants(of.request.phase, 1);
        of.phaser.hints.want(Some(refusal), wants, reached);
        let on = OnTurn { of, turn };
        let desk = on.clear_in().give_same::<Brand, _>(refusal);
        let answer = Err(refusal);
        EndedDesk {
            desk,
            answer,
            is_told: false,
        }
    }
}

impl<'a, A: Accumulate, K: SignalRule, S: Since<K>> OpenTurn<'a, A, K, S> {
    // Goes on under the turn: for so many looks.
    fn serve(self, looks: u32) -> Came<'a, A, K, S> {
        match self.gather(looks) {
            Ok(full) => Came::Ended(full.finish()),
            Err(open) => Came::Asked(open.give_up()),
        }
    }

    // Gives the turn back while its phase is not complete, and asks no more; else goes on to it.
    fn rest(self) -> Result<EndedDesk<'a, A, K, S>, Desk<'a, A, K, S>>
        ensures back { IfErr result (λ desk. HasSignalled A.operation S.terms.limits
            (allows_or K.allows S.terms.rule) S.ask S.seen (seat_view desk.seat)) }
    {
        let OpenTurn { on } = self;
        let OnTurn { of, mut turn } = on;
        let phase = of.request.phase;
        let done = turn.value_in(&of.phaser.lock).done();
        let on = OnTurn { of, turn };
        if done <= phase {
            return Err(on.rest());
        }
        let full = FullTurn { on };
        Ok(full.finish())
    }

    // Gives the turn back while its phase is not complete: it asks that others go on.
    fn give_up(self) -> AskingDesk<'a, A, K, S>
        ensures { result ≡ true }
    {
        let OpenTurn { on } = self;
        let desk = on.post_in().give_same::<Brand, _>(());
        let is_made = true;
        AskingDesk { desk, is_made }
    }
}

impl<'a, A: Accumulate, K: SignalRule, S: Since<K>> FullTurn<'a, A, K, S> {
    // Makes all waits for its phase, which is complete, writes its value for those that asked, and
    // gives the turn back, which tells them.
    fn finish(self) -> EndedDesk<'a, A, K, S> {
        let FullTurn { on } = self;
        let (on, is_all) = on.wait_all();
        let (on, outcome) = on.wait_own();
        let on = on.write_board(outcome);
        let OnTurn { of, mut turn } = on;
        let core = turn.value_in(&of.phaser.lock);
        let done = core.done();
        let news = of.phaser.news(Hints::look(core));
        let told = if is_all && done < TOLD_END {
            done * 2 + 1
        } else {
            news.done * 2
        };
        let on = OnTurn { of, turn };
        let desk = on.give::<Brand, _>(told, outcome);
        desk.of.phaser.hints.tell::<K>(news);
        let answer = Ok(outcome);
        EndedDesk {
            desk,
            answer,
            is_told: false,
        }
    }
}

impl<'a, A: Accumulate, K: SignalRule, S: Since<K>> TakenTurn<'a, A, K, S> {
    // What others left to do.
    fn stage(self) -> Stage<'a, A, K, S> {
        let TakenTurn { on } = self;
        let OnTurn { of, mut turn } = on;
        let request = of.request;
        let core = turn.value_in(&of.phaser.lock);
        let is_done = core.done() > request.phase;
        let Some(entry) = core.view(request.task) else {
            unreachable!()
        };
        let on = OnTurn { of, turn };
        if entry.wait_phase > request.phase {
            return Stage::Ended(on.take_answer());
        }
        if entry.signal_phase == request.phase {
            let first = FirstTurn { on };
            return Stage::First(first);
        }
        if is_done {
            return Stage::Ended(on.wait_late());
        }
        let going = OpenTurn { on };
        Stage::Open(going)
    }

    /// Goes on with what others left to do, for so many looks.
    pub fn go_on(self, looks: u32) -> Came<'a, A, K, S> {
        match self.stage() {
            Stage::Ended(ended) => Came::Ended(ended),
            Stage::First(first) => first.start(looks),
            Stage::Open(open) => open.serve(looks),
        }
    }

    /// Takes back what it asked for: its signal is made, or refused, and it asks no more. Where its
    /// phase is complete it goes on to it.
    pub fn take_back(self) -> Result<EndedDesk<'a, A, K, S>, Desk<'a, A, K, S>>
        ensures back { IfErr result (λ desk. HasSignalled A.operation S.terms.limits
            (allows_or K.allows S.terms.rule) S.ask S.seen (seat_view desk.seat)) }
    {
        let open = match self.stage() {
            Stage::Ended(ended) => return Ok(ended),
            Stage::First(first) => match first.signal_own() {
                Ok(open) => open,
                Err(refused) => return Ok(refused.refuse()),
            },
            Stage::Open(open) => open,
        };
        open.rest()
    }
}
