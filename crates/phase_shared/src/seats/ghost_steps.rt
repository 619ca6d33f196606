//! What each step of a phaser's lock tells. These types are for the proofs alone.
ghost use Rattle.std.specs.Prelude.{◌≡◌};

use crate::rule::{SignalRule, Terms};
use crate::seats::view::View;
use phase_accum::Accumulate;
use phase_core::PhaserCore;
use std::marker::{Brand, PhantomData};
use turn_lock::{Join, Learns, Reads, Split, Tells};

// A take: all that the others did is seen.
pub struct OnTake<A, K> {
    marker: PhantomData<(A, K)>,
}

impl<A: Accumulate, K: SignalRule> Tells<Terms<K>, PhaserCore<A>, View> for OnTake<A, K> {
    ghost use Rattle.phase_shared.specs.Rule.{TookAt};

    ghost then = { TookAt A.operation K.allows };
}

// A give after a call that made no event.
pub struct Same;

impl<K, T> Tells<Terms<K>, T, View> for Same {
    ghost use Rattle.phase_shared.specs.Views.{resting, known_of, speaks_of};

    ghost then = { λ terms v y w. w ≡ resting (known_of v).seen (speaks_of v) };
}

// What a give tells, as its caller picks it.
pub trait Plan {
    ghost use Rattle.phase_shared.specs.declared.seats.view.View.{View};

    ghost goes: { View → View → Type 0 };
}

impl Plan for Brand {
    ghost goes = { λ v w. Unit {0} };
}

// A give after a call that made an event.
pub struct OnGive<E> {
    marker: PhantomData<E>,
}

impl<K, T, E: Plan> Tells<Terms<K>, T, View> for OnGive<E> {
    ghost then = { λ terms v y w. E.goes v w };
}

// A seat that speaks for two is cut in two.
pub struct OnSplit;

impl Split<View> for OnSplit {
    ghost use Rattle.phase_shared.specs.Views.{first_part, other_part};

    ghost left = { first_part };

    ghost right = { other_part };
}

// Two seats at rest are joined.
pub struct OnJoin;

impl Join<View> for OnJoin {
    ghost use Rattle.phase_shared.specs.Views.{joining};
    ghost use Rattle.phase_shared.specs.declared.seats.view.View.TheVariants.{Spent};

    ghost both = { joining };

    ghost spent = { Spent };
}

// The look after a join.
pub struct OnLook<K> {
    marker: PhantomData<K>,
}

impl<K: SignalRule> Learns<Terms<K>, View> for OnLook<K> {
    ghost use Rattle.phase_shared.specs.Rule.{LearnedAt};

    ghost then = { LearnedAt K.allows };
}

// What a read tells, as its caller picks it.
pub trait Report {
    ghost use Rattle.phase_shared.specs.declared.seats.view.View.{View};
    ghost use Rattle.std.specs.Prelude.{ℕ};

    ghost tells: { View → ℕ → View → Type 0 };
}

impl Report for Brand {
    ghost tells = { λ v r w. Unit {0} };
}

// A step that writes a word.
pub struct OnStep<E> {
    marker: PhantomData<E>,
}

impl<K, E: Plan> Learns<Terms<K>, View> for OnStep<E> {
    ghost then = { λ terms v w. E.goes v w };
}

// A step that reads one.
pub struct OnReport<E> {
    marker: PhantomData<E>,
}

impl<K, E: Report> Reads<Terms<K>, View> for OnReport<E> {
    ghost then = { λ terms v r w. E.tells v r w };
}

// A look of a seat that asks.
pub struct OnAsked<K> {
    marker: PhantomData<K>,
}

impl<K: SignalRule> Reads<Terms<K>, View> for OnAsked<K> {
    ghost use Rattle.phase_shared.specs.WordTells.{LookedAt};

    ghost then = { λ terms v r w. LookedAt terms.limits (K.allows terms.rule) v r w };
}

// A take of one.
pub struct OnTakeAsked<A, K> {
    marker: PhantomData<(A, K)>,
}

impl<A: Accumulate, K: SignalRule> Tells<Terms<K>, PhaserCore<A>, View> for OnTakeAsked<A, K> {
    ghost use Rattle.phase_shared.specs.WordTells.{TookAskedAt};

    ghost then = { λ terms v x w.
        TookAskedAt terms.limits (K.allows terms.rule) A.operation v x w };
}

// Who was answered reads the value's kind.
pub struct OnKind<A> {
    marker: PhantomData<A>,
}

impl<K, A: Accumulate> Reads<Terms<K>, View> for OnKind<A> {
    ghost use Rattle.phase_shared.specs.WordTells.{ReadsKind};

    ghost then = { λ terms v r w. ReadsKind A.operation v r w };
}

// And then its number.
pub struct OnNumber<A> {
    marker: PhantomData<A>,
}

impl<K, A: Accumulate> Reads<Terms<K>, View> for OnNumber<A> {
    ghost use Rattle.phase_shared.specs.WordTells.{ReadsNumber};

    ghost then = { λ terms v r w. ReadsNumber A.operation v r w };
}

// The holder reads the kind that is on the board.
pub struct OnBoardKind;

impl<K> Reads<Terms<K>, View> for OnBoardKind {
    ghost use Rattle.phase_shared.specs.WordTells.{BoardKind};

    ghost then = { λ terms v r w. BoardKind v r w };
}

// And the number.
pub struct OnBoardNumber;

impl<K> Reads<Terms<K>, View> for OnBoardNumber {
    ghost use Rattle.phase_shared.specs.WordTells.{BoardNumber};

    ghost then = { λ terms v r w. BoardNumber v r w };
}

// A call that goes to the next phase of a task, as the proofs name it.
pub trait Since<K> {
    ghost use Rattle.std.specs.Prelude.{Option};
    ghost use Rattle.turn_lock.specs.Seats.{Place};
    ghost use Rattle.phase_history.specs.Histories.{History};
    ghost use Rattle.phase_shared.specs.declared.rule.Terms.{Terms};
    ghost use Rattle.phase_shared.specs.declared.seats.view.Ask.{Ask};

    // Which phaser it is on, and what that was told.
    ghost place: { Place (Terms K) };

    ghost terms: { Terms (Option K) };

    // What is asked for, and what its seat had seen when it began.
    ghost ask: { Ask };

    ghost seen: { History };
}

impl<K> Since<K> for Brand {
    ghost use Rattle.std.specs.Prelude.{[]};
    ghost use Rattle.phase_shared.specs.LockedPhasers.{no_place, no_terms};

    ghost place = { no_place };

    ghost terms = { no_terms };

    ghost ask = { record { task = 0; lane = 0; phase = 0; sends = [] } };

    ghost seen = { [] };
}
