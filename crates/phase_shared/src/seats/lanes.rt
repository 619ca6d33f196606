//! Steps on the words beside a phaser's lock, by seats that ask and by turns.
ghost use Rattle.std.specs.Prelude.{◌≡◌, ◌<◌, ◌+◌, false, IfErr};
ghost use Rattle.turn_lock.specs.Seats.{seat_view, turn_number, turn_view, turn_value, turn_told, seat_number};
ghost use Rattle.turn_lock.specs.WordSteps.{WritesOf, ReadsIn, WritesIn};
ghost use Rattle.phase_shared.specs.Goods.{allows_or};
ghost use Rattle.phase_shared.specs.Rule.{HasOneHistory};
ghost use Rattle.phase_shared.specs.Servings.{MayAsk, MayWait, MayGoNext};
ghost use Rattle.phase_shared.specs.Views.{Own, Holds, known_of};
ghost use Rattle.phase_shared.specs.WordTells.{IsHolder, IsOther, LaneReadAt, OwnerReadAt, SendReadAt, IsOwnLane, with_board, with_lane, Completes, HasKind, HasNumber};

use crate::lane_words::{
    IS_EMPTY, IS_TOO_BIG, IS_VALUE, KIND, LANES, NUMBER, owner_place, phase_place, send_place,
    word_of,
};
use crate::rule::SignalRule;
use crate::seats::desk::{AskingDesk, Desk, OnTurn, ReadyDesk};
use crate::seats::ghost_steps::{OnBoardKind, OnReport, OnStep, Plan, Report, Since};
use crate::seats::places::is_own;
use phase_accum::{Accumulate, Outcome};
use std::marker::Brand;

impl<'a, A: Accumulate, K: SignalRule, S: Since<K>> Desk<'a, A, K, S> {
    // Writes a word. What that tells is picked by its caller, and may speak of `told`.
    fn post_as<E: Plan, X: Copy>(self, place: usize, word: u64, told: X) -> Desk<'a, A, K, S>
        requires place { place < 287 }
        requires rule { WritesOf (HasOneHistory A.operation (allows_or K.allows)) S.terms
            (seat_number self.seat) (seat_view self.seat) place word (λ v w. E.goes v w) }
        ensures rule { E.goes (seat_view self.entry.seat) (seat_view result.seat) }
    {
        let _ = told;
        let Desk { of, seat } = self;
        let seat = of.phaser.lock.write::<OnStep<E>>(seat, place, word);
        Desk { of, seat }
    }

    /// The same seat, ready to ask, where its lane is its own.
    pub fn ready(self) -> Result<ReadyDesk<'a, A, K, S>, Desk<'a, A, K, S>>
        requires next { MayGoNext S.terms.limits (allows_or K.allows S.terms.rule) S.ask S.seen
            (seat_view self.seat) }
        ensures other { IfErr result (λ desk.
            seat_view desk.seat ≡ seat_view self.entry.seat) }
    {
        let Desk { of, seat } = self;
        let request = of.request;
        let (seat, is_own) = is_own(of.phaser, seat, request.task, request.lane);
        let desk = Desk { of, seat };
        if is_own {
            Ok(ReadyDesk { desk })
        } else {
            Err(desk)
        }
    }

    /// Posts what it asks for, the send first.
    pub fn post(self) -> AskingDesk<'a, A, K, S>
        requires may { MayAsk S.terms.limits (allows_or K.allows S.terms.rule) S.ask
            (seat_view self.seat) }
        requires seen { S.seen ≡ (known_of (seat_view self.seat)).seen }
        requires waits { MayWait S.terms.limits (allows_or K.allows S.terms.rule) S.ask S.seen }
        ensures { result ≡ false }
    {
        let request = self.of.request;
        let desk = self.post_as::<Brand, u64>(send_place(request.lane), request.send, request.send);
        let desk = desk.post_as::<Brand, ()>(phase_place(request.lane), request.phase + 1, ());
        let is_made = false;
        AskingDesk { desk, is_made }
    }
}

impl<'a, A: Accumulate, K: SignalRule, S: Since<K>> OnTurn<'a, A, K, S> {
    // Reads a word. What that tells is picked by its caller, and may speak of `told`.
    fn read_as<E: Report, X: Copy>(self, place: usize, told: X) -> (OnTurn<'a, A, K, S>, u64)
        requires place { place < 287 }
        requires rule { ReadsIn (HasOneHistory A.operation (allows_or K.allows)) S.terms
            (turn_number self.turn) (turn_view self.turn) (turn_told self.turn) place
            (λ v r w. E.tells v r w) }
        ensures value { turn_value result.0.turn ≡ turn_value self.entry.turn }
        ensures rule { E.tells (turn_view self.entry.turn) result.1 (turn_view result.0.turn) }
    {
        let _ = told;
        let OnTurn { of, turn } = self;
        let (turn, found) = of.phaser.lock.read_in::<OnReport<E>>(turn, place);
        (OnTurn { of, turn }, found)
    }

    // Writes a word, in the same way.
    fn write_as<E: Plan, X: Copy>(self, place: usize, word: u64, told: X) -> OnTurn<'a, A, K, S>
        requires place { place < 287 }
        requires rule { WritesIn (HasOneHistory A.operation (allows_or K.allows)) S.terms
            (turn_number self.turn) (turn_view self.turn) (turn_told self.turn) place word
            (λ v w. E.goes v w) }
        ensures value { turn_value result.turn ≡ turn_value self.entry.turn }
        ensures rule { E.goes (turn_view self.entry.turn) (turn_view result.turn) }
    {
        let _ = told;
        let OnTurn { of, turn } = self;
        let turn = of.phaser.lock.write_in::<OnStep<E>>(turn, place, word);
        OnTurn { of, turn }
    }

    /// Returns what is posted in another's lane, as the phase that is asked for and one more.
    pub fn read_lane(self, lane: u64) -> (OnTurn<'a, A, K, S>, u64)
        requires low { lane < LANES }
        requires other { IsOther lane (turn_view self.turn) }
        ensures value { turn_value result.0.turn ≡ turn_value self.entry.turn }
        ensures lane { LaneReadAt S.terms.limits (allows_or K.allows S.terms.rule) lane
            (turn_view self.entry.turn) result.1 (turn_view result.0.turn) }
    {
        self.read_as::<Brand, _>(phase_place(lane), lane)
    }

    /// Returns the number of the task whose it is, and one more.
    pub fn read_owner(self, lane: u64) -> (OnTurn<'a, A, K, S>, u64)
        requires low { lane < LANES }
        requires holds { IsHolder (turn_view self.turn) }
        ensures value { turn_value result.0.turn ≡ turn_value self.entry.turn }
        ensures owner { OwnerReadAt lane (turn_view self.entry.turn) result.1
            (turn_view result.0.turn) }
    {
        self.read_as::<Brand, _>(owner_place(lane), lane)
    }

    /// Returns the word for what is sent there.
    pub fn read_send(self, lane: u64) -> (OnTurn<'a, A, K, S>, u64)
        requires low { lane < LANES }
        requires holds { IsHolder (turn_view self.turn) }
        ensures value { turn_value result.0.turn ≡ turn_value self.entry.turn }
        ensures send { SendReadAt lane (turn_view self.entry.turn) result.1
            (turn_view result.0.turn) }
    {
        self.read_as::<Brand, _>(send_place(lane), lane)
    }

    /// Posts its phase in its own lane.
    pub fn post_in(self) -> OnTurn<'a, A, K, S>
        requires own { IsOwnLane S.ask.lane (turn_view self.turn) }
        ensures value { turn_value result.turn ≡ turn_value self.entry.turn }
        ensures lane { turn_view result.turn
            ≡ with_lane (Holds S.ask.lane (S.ask.phase + 1)) (turn_view self.entry.turn) }
    {
        let request = self.of.request;
        let place = phase_place(request.lane);
        self.write_as::<Brand, _>(place, request.phase + 1, ())
    }

    /// Takes out what is posted in its own lane.
    pub fn clear_in(self) -> OnTurn<'a, A, K, S>
        requires own { IsOwnLane S.ask.lane (turn_view self.turn) }
        ensures value { turn_value result.turn ≡ turn_value self.entry.turn }
        ensures lane { turn_view result.turn
            ≡ with_lane (Own S.ask.lane) (turn_view self.entry.turn) }
    {
        let place = phase_place(self.of.request.lane);
        self.write_as::<Brand, _>(place, 0, ())
    }

    // Writes the kind of an outcome on the board, where it is another.
    fn write_kind(self, kind: u64) -> OnTurn<'a, A, K, S>
        requires completes { Completes S.terms.limits (turn_view self.turn) }
        ensures value { turn_value result.turn ≡ turn_value self.entry.turn }
        ensures kind { HasKind kind (turn_view self.entry.turn) (turn_view result.turn) }
    {
        let OnTurn { of, turn } = self;
        let (turn, found) = of.phaser.lock.read_in::<OnBoardKind>(turn, KIND);
        let on = OnTurn { of, turn };
        if found == kind {
            return on;
        }
        on.write_as::<Brand, _>(KIND, kind, kind)
    }

    fn write_number(self, number: u64) -> OnTurn<'a, A, K, S>
        requires completes { Completes S.terms.limits (turn_view self.turn) }
        ensures value { turn_value result.turn ≡ turn_value self.entry.turn }
        ensures number { HasNumber number (turn_view self.entry.turn) (turn_view result.turn) }
    {
        self.write_as::<Brand, _>(NUMBER, number, number)
    }

    /// Writes an outcome on the board, which nobody has still to read.
    pub fn write_board(self, outcome: Outcome) -> OnTurn<'a, A, K, S>
        requires completes { Completes S.terms.limits (turn_view self.turn) }
        ensures value { turn_value result.turn ≡ turn_value self.entry.turn }
        ensures board { turn_view result.turn ≡ with_board outcome (turn_view self.entry.turn) }
    {
        match outcome {
            Outcome::Value(value) => self.write_kind(IS_VALUE).write_number(word_of(value)),
            Outcome::Empty => self.write_kind(IS_EMPTY),
            Outcome::TooBig => self.write_kind(IS_TOO_BIG),
        }
    }
}
