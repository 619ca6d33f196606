//! Whose turn it is, in a round robin of a splitter's outputs or of a joiner's inputs.
ghost use Rattle.std.specs.Prelude.{◌≡◌, ℕ, ◌+◌, ◌<◌, ◌≤◌};
ghost use Rattle.stream_filters.specs.Turns.{turn_after, HasTurned};

use std::marker::Model;

/// The place after `place`, of `count` places in a ring.
fn place_after(place: usize, count: usize) -> usize
    requires { (place < count) × (count ≤ 8) }
    ensures turn { (n : ℕ) → place ≡ turn_after count n → result ≡ turn_after count (n + 1) }
    ensures within { result < count }
{
    if place + 1 == count { 0 } else { place + 1 }
}

/// A round robin of 2 to 8 places: which of them has the next turn.
#[derive(Drop)]
pub struct RoundRobin {
    count: usize,
    next: usize,
}

impl Model for RoundRobin {
    ghost use Rattle.std.specs.Prelude.{◌<◌, ◌≤◌};
    ghost use Rattle.stream_filters.specs.Turns.{Turns};

    ghost Value = { Turns };

    ghost view = { λ r. record { count = r.count; next = r.next } };

    ghost invariant = { λ r. (r.next < r.count) × (r.count ≤ 8) };
}

impl RoundRobin {
    /// Makes the turns of `m` places, before the first one.
    pub fn new(m: usize) -> RoundRobin
        requires { (2 ≤ m) × (m ≤ 8) }
        ensures count { result.count ≡ m }
        ensures turned { HasTurned result 0 }
    {
        RoundRobin { count: m, next: 0 }
    }

    /// Returns which place has the next turn: 0, 1, .., m - 1, 0, and so on. It takes no memory.
    pub fn turn(&mut self) -> usize
        ensures turn { (n : ℕ) → HasTurned self.old n → result ≡ turn_after self.old.count n }
        ensures turned { (n : ℕ) → HasTurned self.old n → HasTurned self.new (n + 1) }

        ensures within { result < self.old.count }
        ensures count { self.new.count ≡ self.old.count }
    {
        let place = self.next;
        self.next = place_after(place, self.count);
        place
    }
}

/// A splitter's turns: which of its outputs takes the next sample.
pub type Split = RoundRobin;

/// A joiner's turns: which of its inputs gives the next sample.
pub type Join = RoundRobin;
