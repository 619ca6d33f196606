//! What the seats of a phaser's lock know.
use crate::rule::{SignalRule, Terms};
use phase_accum::{Accumulate, Outcome};
use phase_core::{Event, PhaserCore};
use std::collections::LinkedList;
use std::marker::PhantomData;
use turn_lock::{Seat, Turn, WordLock, WordRule};

// What was seen, and the numbers spoken for. No value of it is made.
pub struct Knowledge {
    pub seen: LinkedList<Event>,
    pub speaks: LinkedList<u64>,
}

// What a task asks for in a lane: its signal of this phase, with these sends, and its wait for it.
// No value of it is made.
pub struct Ask {
    pub task: u64,
    pub lane: u64,
    pub phase: u64,
    pub sends: LinkedList<i64>,
}

// What who has the turn knows of a lane. No value of it is made.
pub enum Lane {
    // Nothing.
    Unknown,
    // That it is nobody's.
    Free(u64),
    // That it is its own.
    Own(u64),
    // The same, and what it has.
    Holds(u64, u64),
}

// What a seat knows. No value of it is made.
pub enum View {
    // At rest: others may have gone on.
    Resting(Knowledge),
    // With the turn: it has seen all, read these asks, and knows what the board says and something
    // of a lane.
    Turning(Knowledge, LinkedList<Ask>, Outcome, Lane),
    // From a join to its look: what both had seen.
    Joining(Knowledge, Knowledge),
    // At rest, and it knows that this lane is its own, and maybe the word of it that says what is
    // sent.
    Posting(Knowledge, u64, Option<u64>),
    // It asked: others may have made its signal, and its wait.
    Asking(Knowledge, Ask),
    // It was answered, and has still to read the value.
    Reading(Knowledge, Ask),
    // Left behind by a join.
    Spent,
}

// The rule of the lock: there is one history, of which each seat has seen a beginning, but for the
// calls that others make for it.
pub struct OneHistory<A, K> {
    marker: PhantomData<(A, K)>,
}

impl<A: Accumulate, K: SignalRule> WordRule<PhaserCore<A>> for OneHistory<A, K> {
    ghost use Rattle.phase_shared.specs.Rule.{HasOneHistory, founding};
    ghost use Rattle.phase_shared.specs.declared.seats.view.View.{View};
    ghost use Rattle.phase_shared.specs.declared.rule.Terms.{Terms};

    type Name = Terms<K>;

    type View = View;

    ghost holds = { HasOneHistory A.operation K.allows };

    ghost first = { λ terms. founding };
}

// A phaser under a lock.
pub type PhaserLock<A, K> = WordLock<PhaserCore<A>, OneHistory<A, K>>;

// A seat of it.
pub type PhaserSeat<A, K> = Seat<PhaserCore<A>, Terms<K>, View>;

// A turn of it.
pub type PhaserTurn<A, K> = Turn<PhaserCore<A>, Terms<K>, View>;
